// The lines that the program prints: words and whole numbers, of at most 128 bytes, a call's and a window's line of at most 64. That the page has room
// is asked at each line and not by a type, which would hold it for one length only.
#![tactic(auto)]

ghost use Rattle.std.specs.Prelude.{map, ◌++◌};
ghost use Rattle.text.specs.Page.{Fits, Puts};
ghost use Rattle.text.specs.Text.{ascii};
ghost use Rattle.report.specs.Lines.{line, unit_line, aquifer_line, refused_line, window_line};
ghost use Rattle.report.specs.Parts.{part_text, part_room, line_room};
ghost use Rattle.report.specs.Calls.{outcome_line, count_line};

use text::Page;

// The size of the buffer: room for 16,384 call lines, as many as a book of 65,536 bytes can have calls, and for the table. Public calls have it in
// the type of the buffer that they are lent, which spares them a clause about room.
pub const ROOM: usize = 1_064_960;

// What stands in a line behind its first word: a word of the program's own, a whole number, or one with its sign.
#[derive(Clone, Copy)]
enum Part {
    Word(&'static [u8]),
    Number(u64),
    Signed(i64),
}

impl Part {
    // Puts a space and the part. Inlined, as `line` is.
    #[inline(always)]
    fn put(self, page: &mut Page)
        requires { Fits (part_room self) page.old }
        ensures { Puts (part_room self) page.old (ascii " " ++ part_text self) page.new }
    {
        match self {
            Part::Word(word) => {
                page.byte(b' ');
                page.word(word);
            }
            Part::Number(number) => page.number(number),
            Part::Signed(number) => page.signed(number),
        }
    }
}

// Puts a line: its first word, each part after a space, and the line feed. Inlined, so that the compiler goes over each line's literal list: else a
// call's line takes half as many instructions again.
#[inline(always)]
fn line(page: &mut Page, first: &[u8], parts: &[Part])
    requires { Fits (line_room first.now parts.now) page.old }
    ensures { Puts (line_room first.now parts.now) page.old (line first.now (map part_text parts.now)) page.new }
{
    page.word(first);
    for part in parts {
        part.put(page);
    }
    page.byte(b'\n');
}

// `unit N F C R A`: the unit's number, flow, committed volume, own reserve and availability. The `put` of lines are of no trait, since nothing is
// generic over them.
#[derive(Clone, Copy)]
pub struct UnitLine {
    pub number: u64,
    pub flow: i64,
    pub committed: u64,
    pub reserve: u64,
    pub availability: i64,
}

impl UnitLine {
    #[tactic(auto, unfolding(crate::specs::Lines::unit_line))]
    pub fn put(self, page: &mut Page)
        requires { Fits 128 page.old }
        ensures { Puts 128 page.old (unit_line self.number self.flow self.committed self.reserve self.availability) page.new }
    {
        line(
            page,
            b"unit",
            &[
                Part::Number(self.number),
                Part::Signed(self.flow),
                Part::Number(self.committed),
                Part::Number(self.reserve),
                Part::Signed(self.availability),
            ],
        );
    }
}

// `aquifer N R A`: the aquifer's number, recharge and availability.
#[derive(Clone, Copy)]
pub struct AquiferLine {
    pub number: u64,
    pub recharge: i64,
    pub availability: i64,
}

impl AquiferLine {
    #[tactic(auto, unfolding(crate::specs::Lines::aquifer_line))]
    pub fn put(self, page: &mut Page)
        requires { Fits 128 page.old }
        ensures { Puts 128 page.old (aquifer_line self.number self.recharge self.availability) page.new }
    {
        line(
            page,
            b"aquifer",
            &[
                Part::Number(self.number),
                Part::Signed(self.recharge),
                Part::Signed(self.availability),
            ],
        );
    }
}

// `refused N at P`: the refusal's number and its place.
#[derive(Clone, Copy)]
pub struct RefusedLine {
    pub number: u64,
    pub place: u64,
}

impl RefusedLine {
    #[tactic(auto, unfolding(crate::specs::Lines::refused_line))]
    pub fn put(self, page: &mut Page)
        requires { Fits 128 page.old }
        ensures { Puts 128 page.old (refused_line self.number self.place) page.new }
    {
        line(
            page,
            b"refused",
            &[
                Part::Number(self.number),
                Part::Word(b"at"),
                Part::Number(self.place),
            ],
        );
    }
}

// What a call, a keeping or a return came to: a title given or cancelled, by its number, a refusal, by its number, or a balance kept or gone back to.
#[derive(Clone, Copy)]
pub enum Outcome {
    Given(u64),
    Refused(u64),
    Cancelled(u64),
    Kept,
    Back,
}

// `call K O`: the call's place among the calls, and its outcome.
#[derive(Clone, Copy)]
pub struct CallLine {
    pub call: u64,
    pub outcome: Outcome,
}

impl CallLine {
    #[tactic(auto, unfolding(crate::specs::Lines::call_given, crate::specs::Lines::call_refused, crate::specs::Lines::call_cancelled, crate::specs::Lines::call_kept, crate::specs::Lines::call_back))]
    pub fn put(self, page: &mut Page)
        requires { Fits 64 page.old }
        ensures { Puts 64 page.old (outcome_line self.call self.outcome) page.new }
    {
        let call = Part::Number(self.call);
        match self.outcome {
            Outcome::Given(title) => line(
                page,
                b"call",
                &[call, Part::Word(b"given"), Part::Number(title)],
            ),
            Outcome::Refused(refusal) => line(
                page,
                b"call",
                &[call, Part::Word(b"refused"), Part::Number(refusal)],
            ),
            Outcome::Cancelled(title) => line(
                page,
                b"call",
                &[call, Part::Word(b"cancelled"), Part::Number(title)],
            ),
            Outcome::Kept => line(page, b"call", &[call, Part::Word(b"kept")]),
            Outcome::Back => line(page, b"call", &[call, Part::Word(b"back")]),
        }
    }
}

// `call K windows C`, or `call K refused N`: the call's place among the calls, and how many windows there are, or the refusal's number. It is no
// outcome of `CallLine`, so that the loop over calls has all of that in line.
#[derive(Clone, Copy)]
pub struct WindowsLine {
    pub call: u64,
    pub count: Result<u64, u64>,
}

impl WindowsLine {
    #[inline(always)]
    #[tactic(auto, unfolding(crate::specs::Lines::call_windows, crate::specs::Lines::call_refused))]
    pub fn put(self, page: &mut Page)
        requires { Fits 64 page.old }
        ensures { Puts 64 page.old (count_line self.call self.count) page.new }
    {
        let call = Part::Number(self.call);
        match self.count {
            Ok(count) => line(
                page,
                b"call",
                &[call, Part::Word(b"windows"), Part::Number(count)],
            ),
            Err(refusal) => line(
                page,
                b"call",
                &[call, Part::Word(b"refused"), Part::Number(refusal)],
            ),
        }
    }
}

// `window I R`: the window's place and its natural runoff.
#[derive(Clone, Copy)]
pub struct WindowLine {
    pub number: u64,
    pub runoff: u64,
}

impl WindowLine {
    #[inline(always)]
    #[tactic(auto, unfolding(crate::specs::Lines::window_line))]
    pub fn put(self, page: &mut Page)
        requires { Fits 64 page.old }
        ensures { Puts 64 page.old (window_line self.number self.runoff) page.new }
    {
        line(
            page,
            b"window",
            &[Part::Number(self.number), Part::Number(self.runoff)],
        );
    }
}
