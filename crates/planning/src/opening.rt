// Opening a book as a state.
ghost use Rattle.std.specs.Prelude.{◌≡◌};
ghost use Rattle.planning.specs.Calls as replies;

use crate::{Opened, State};

// Opening a book starts all state afresh: nothing is kept, whether the book is accepted or refused.
pub fn open_book(s: &[u8]) -> Opened
    ensures { result ≡ replies.opened_state s.now }
{
    let o = book::read_book(s);
    Opened {
        answer: o.answer,
        place: o.place,
        state: State::nothing_kept(o.balance),
    }
}
