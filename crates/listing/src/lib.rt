// What the program prints for a book, put on a page over a lent buffer.
#![tactic(auto)]

ghost use Rattle.std.specs.Prelude.{◌≡◌, ℕ, ◌+◌, ◌*◌, ◌≤◌, List, length, get_or, true};
ghost use Rattle.model.specs.View.{view_of};
ghost use Rattle.model.specs.Answers.{accepted, number};
ghost use Rattle.report.specs.Lines.{refused_line};
ghost use Rattle.model.specs.Limits.{unit_limit, title_limit};
ghost use Rattle.register.specs.Calls.{call_number};
ghost use Rattle.basin.specs.Sound.{sound};
ghost use Rattle.figures.specs.Figures.{no_unit_figures, no_aquifer_figures};
ghost use Rattle.text.specs.Text.{Written};
ghost use Rattle.text.specs.Page.{Fits, Puts};
ghost use Rattle.listing.specs.Listing as text;
ghost use Rattle.listing.specs.Outcomes as outcomes;
ghost use Rattle.listing.specs.Printing as printing;

use basin::reply::figures;
use calls::Ran;
use figures::{AquiferFigures, UnitFigures};
use model::{Answer, Balance, Call, Refusal};
use record::{CallAt, Ending, Failure};
use register::decision::decide;
use register::outcome::{number_of, perform};
use report::{AquiferLine, CallLine, Outcome, ROOM, RefusedLine, UnitLine};
use text::Page;

// The longest book.
pub const LONGEST: usize = 65_536;

// A row of the table: the figures of a unit or of an aquifer. Its line is numbered from 1, its index in the table counts from 0. Indices
// and places are cast by `as u64` here and below, since std has no `From` of a `usize` for `u64`.
trait Row: Copy {
    ghost line: { Self → ℕ → List ℕ };

    // What a list of rows is read as past its end.
    ghost none: { Self };

    // Puts the line of the row at an index.
    fn put(self, page: &mut Page, k: usize)
        requires { (k ≤ unit_limit) × Fits 128 page.old }
        ensures { Puts 128 page.old (line self k) page.new };
}

impl Row for UnitFigures {
    ghost line = { text.unit_text };

    ghost none = { no_unit_figures };

    fn put(self, page: &mut Page, k: usize) {
        UnitLine {
            number: k as u64 + 1,
            flow: self.flow,
            committed: self.committed,
            reserve: self.reserve,
            availability: self.availability,
        }
        .put(page);
    }
}

impl Row for AquiferFigures {
    ghost line = { text.aquifer_text };

    ghost none = { no_aquifer_figures };

    fn put(self, page: &mut Page, k: usize) {
        AquiferLine {
            number: k as u64 + 1,
            recharge: self.recharge,
            availability: self.availability,
        }
        .put(page);
    }
}

// The lines of all rows, in order.
fn lines<T: Row>(page: &mut Page, rows: &[T])
    requires { (length rows.now ≤ unit_limit) × Fits (128 * length rows.now) page.old }
    ensures { Puts (128 * length rows.now) page.old (text.lines_of (length rows.now) (λ k. T.line (get_or rows.now k T.none) k)) page.new }
{
    for (k, row) in rows.iter().enumerate() {
        row.put(page, k);
    }
}

// The table of a balance, which is handed by value as everywhere: its units and then its aquifers. A balance that falls under 0 has none.
pub fn table(page: &mut Page, b: Balance)
    requires { Fits 12288 page.old }
    ensures { Puts 12288 page.old (text.table_text (view_of b)) page.new }
{
    let f = figures(b);
    if let Ok(()) = f.answer {
        lines(page, &f.units[..b.unit_count]);
        lines(page, &f.aquifers[..b.aquifer_count]);
    }
}

// What an accepted call came to: a title given or cancelled, by its number.
fn accepted(call: Call, number: u16) -> Outcome
    ensures { result ≡ outcomes.accepted_outcome call number }
{
    let title = u64::from(number);
    match call {
        Call::Grant { .. } => Outcome::Given(title),
        Call::Cancel { .. } => Outcome::Cancelled(title),
    }
}

// The line of an accepted call at place k, by whatever number: `called` gives only that of the reply.
pub fn accepted_line(page: &mut Page, k: u64, call: Call, number: u16)
    requires { Fits 64 page.old }
    ensures { Puts 64 page.old (text.accepted_text k call number) page.new }
{
    CallLine {
        call: k,
        outcome: accepted(call, number),
    }
    .put(page);
}

// What a refused request came to.
pub fn refused(refusal: Refusal) -> Outcome
    ensures { result ≡ outcomes.refused_outcome refusal }
{
    Outcome::Refused(u64::from(refusal.number()))
}

// What a request came to by its answer: `done` where it was accepted, and else its refusal.
pub fn answered(answer: Answer, done: Outcome) -> Outcome
    ensures { result ≡ outcomes.answered answer done }
{
    match answer {
        Ok(()) => done,
        Err(refusal) => refused(refusal),
    }
}

// What a call came to by its answer, where so many numbers were given before it. It stays beside `answered`, since the number is known to fit only
// where the call was accepted.
pub fn called(call: Call, answer: Answer, given: usize) -> Outcome
    requires { answer ≡ accepted → given ≤ title_limit }
    ensures { result ≡ outcomes.answered answer (outcomes.accepted_outcome call (call_number given call)) }
{
    match answer {
        Ok(()) => accepted(call, number_of(given, call)),
        Err(refusal) => refused(refusal),
    }
}

// Runs the calls of a book over a sound balance and puts a line for each. `calls::tested::run_tested` runs them without lines: one loop for both
// would be no plainer, since its contract would have to say what a function that it is handed does to the page. The calls are counted by hand:
// a `for` that counts them would need a tail that never runs.
fn call_lines(s: &[u8], from: usize, balance: Balance, page: &mut Page) -> Ran
    requires { (length s.now ≤ 65536) × ((sound (view_of balance) ≡ true) × Fits 1048576 page.old) }
    ensures { printing.Printed s.now from balance page.old page.new result }
{
    let mut b = balance;
    let mut at = from;
    let mut k = 0;
    let ending = loop {
        match record::call_at(s, at) {
            CallAt::End => break Ok(()),
            CallAt::Fails { refusal } => break Err(Failure { refusal, place: at }),
            CallAt::Asks { call, to } => {
                let answer = decide(&b, true, call);
                let outcome = called(call, answer, b.given);
                at = to;
                k += 1;
                if answer.is_ok() {
                    b = perform(b, call);
                }
                CallLine { call: k, outcome }.put(page);
            }
        }
    };
    Ran { ending, balance: b }
}

// The line of a refused description or of a record that failed. Refusal and place stay two parameters: of its callers only `end_line` has them in
// a `Failure`.
pub fn refused_line(page: &mut Page, refusal: Refusal, place: usize)
    requires { Fits 128 page.old }
    ensures { Puts 128 page.old (refused_line (number refusal) place) page.new }
{
    RefusedLine {
        number: u64::from(refusal.number()),
        place: place as u64,
    }
    .put(page);
}

// The line of a record that failed, if one did.
fn end_line(page: &mut Page, ending: Ending)
    requires { Fits 128 page.old }
    ensures { Puts 128 page.old (text.end_text ending) page.new }
{
    if let Err(failure) = ending {
        refused_line(page, failure.refusal, failure.place);
    }
}

// What follows the call lines: the line of a record that failed, then the table.
fn ran_lines(page: &mut Page, ran: Ran)
    requires { Fits 12416 page.old }
    ensures { Puts 12416 page.old (text.ran_text ran.ending ran.balance) page.new }
{
    end_line(page, ran.ending);
    table(page, ran.balance);
}

// What is printed for a sound balance: the call lines, then what follows them. That it is sound stays a clause here and of `call_lines`: a type of
// sound balances would be taken apart at each accepted call.
fn run_lines(s: &[u8], from: usize, balance: Balance, page: &mut Page)
    requires { (length s.now ≤ 65536) × ((sound (view_of balance) ≡ true) × Fits 1060992 page.old) }
    ensures { Puts 1060992 page.old (text.run_text s.now from balance) page.new }
{
    let ran = call_lines(s, from, balance, page);
    ran_lines(page, ran);
}

// What is printed for a book.
fn book_lines(s: &[u8], page: &mut Page)
    requires { Fits 1060992 page.old }
    ensures { Puts 1060992 page.old (text.printed s.now) page.new }
{
    if LONGEST < s.len() {
        return refused_line(page, Refusal::TooLong, LONGEST);
    }
    let o = book::read_book(s);
    match o.answer {
        Ok(()) => run_lines(s, o.place, o.balance, page),
        Err(refusal) => refused_line(page, refusal, o.place),
    }
}

// What is printed for a book: its bytes from the start of the buffer on, and their number, by which a caller in C knows them.
// The buffer is lent in its size: memory is fixed, and a slice would need a clause about its room.
pub fn print_book(s: &[u8], out: &mut [u8; ROOM]) -> usize
    ensures { Written 1064960 out.old 0 (text.printed s.now) out.new result }
{
    let mut page = Page::new(out);
    book_lines(s, &mut page);
    page.len()
}
