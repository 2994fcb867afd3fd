// Planning states: the current balance, and up to four balances kept under names, to come back to.
#![tactic(auto)]

mod calls;
pub mod decision;
mod names;
mod opening;
mod test;

ghost use Rattle.std.specs.Prelude.{◌≡◌};
ghost use Rattle.planning.specs.State as states;

pub use calls::{back, back_tested, keep, keep_apart, keep_tested};
use model::Balance;
pub use opening::open_book;
pub use test::sound;

// A name of eight bytes. Any eight bytes are a name.
#[derive(Clone, Copy, Default, PartialEq, Eq)]
pub struct Name {
    pub bytes: [u8; Name::BYTES],
}

// A balance that is kept, and the name that it is kept under.
#[derive(Clone, Copy)]
pub struct Kept {
    pub name: Name,
    pub balance: Balance,
}

// The current balance, and the balances that are kept: how many, and each one with its name, in the order in which the names were first
// kept. The count is a number of its own, since a state that comes with more than four is answered with 0, and there is no heap, so that
// each place is there.
#[derive(Clone, Copy)]
pub struct State {
    pub balance: Balance,
    pub kept: [Kept; State::PLACES],
    pub count: usize,
}

// The reply of keeping and of going back: the answer, 0 as the number, since no title is concerned, and the state to go on with. The answer
// stands beside the state and holds none, since a refused call hands back the old state. It stays beside `register::Reply`: one generic type would
// lose the names `balance` and `state` of what is handed back.
#[derive(Clone, Copy)]
pub struct Reply {
    pub answer: model::Answer,
    pub number: u16,
    pub state: State,
}

// The reply of opening a book as a state: accepted, with the offset where the description ends and the state in which nothing is kept, or
// refused under a number, with its place and the fresh state. So place and state stand beside the answer here too, and
// the type stays beside `book::Opened`, as `Reply` beside the register's.
#[derive(Clone, Copy)]
pub struct Opened {
    pub answer: model::Answer,
    pub place: usize,
    pub state: State,
}

impl Name {
    // How many bytes a name has.
    pub const BYTES: usize = 8;

    // The name in a place that is not in use. It stays beside `Default`: its contract names the value.
    pub fn empty() -> Self
        ensures { result ≡ states.empty_name }
    {
        Name::default()
    }
}

impl Kept {
    // A place that is not in use.
    pub fn empty() -> Self
        ensures { result ≡ states.empty_kept }
    {
        Kept {
            name: Name::empty(),
            balance: Balance::fresh(),
        }
    }
}

impl State {
    // How many balances can be kept.
    pub const PLACES: usize = 4;

    // The state of a balance with nothing kept.
    pub fn nothing_kept(balance: Balance) -> Self
        ensures { result ≡ states.nothing_kept balance }
    {
        State {
            balance,
            kept: [Kept::empty(); Self::PLACES],
            count: 0,
        }
    }
}
