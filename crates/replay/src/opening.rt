// Opening a journal: its description is read as that of a book.
ghost use Rattle.std.specs.Prelude.{◌≡◌};
ghost use Rattle.replay.specs.Page.{Replied};
ghost use Rattle.replay.specs.Journal as journals;

use crate::Replayed;
use model::{Answer, Balance, Refusal};
use planning::{Opened, State};
use report::ROOM;
use text::Page;

// The answer is that of an unknown mark.
fn unknown(answer: Answer) -> bool
    ensures { result ≡ journals.unknown answer }
{
    answer == Err(Refusal::UnknownMark)
}

// A mark of a journal alone stands where the book reader met an unknown one, so that the description ends there.
fn ends_there(s: &[u8], answer: Answer, place: usize) -> bool
    ensures { result ≡ journals.ends_there s.now answer place }
{
    unknown(answer) && requests::own_at(s, place).is_some()
}

// The longest journal.
pub const LONGEST: usize = 1_048_576;

// Opens a journal as a state with nothing kept.
pub fn open_journal(s: &[u8]) -> Opened
    ensures { result ≡ journals.journal_opened s.now }
{
    let o = planning::open_book(s);
    if ends_there(s, o.answer, o.place) {
        return planning::open_book(&s[..o.place]);
    }
    o
}

// How a journal begins: nothing yet for an accepted description, or the line of its refusal. The buffer is lent in its size: memory is fixed, and a
// slice would need a clause about its room.
pub fn begin_journal(s: &[u8], out: &mut [u8; ROOM]) -> Replayed
    ensures { Replied (journals.begun s.now) out.old out.new result }
{
    let mut page = Page::new(out);
    if LONGEST < s.len() {
        let state = State::nothing_kept(Balance::fresh());
        listing::refused_line(&mut page, Refusal::TooLong, LONGEST);
        return Replayed::begun(state, LONGEST, page.len(), false);
    }
    let o = open_journal(s);
    match o.answer {
        Ok(()) => Replayed::begun(o.state, o.place, page.len(), true),
        Err(refusal) => {
            listing::refused_line(&mut page, refusal, o.place);
            Replayed::begun(o.state, o.place, page.len(), false)
        }
    }
}
