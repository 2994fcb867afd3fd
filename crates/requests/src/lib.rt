// The records of a journal after its description: the calls of a book, and those of a journal alone.
#![tactic(auto)]

mod records;
mod watched;

use model::Refusal;
pub use records::{name_at, own_at, record_at};
pub use watched::windows_at;

// The mark of a record that only a journal has: KP keeps, GB goes back, WI asks for the moving window.
#[derive(Clone, Copy)]
pub enum OwnMark {
    Kp,
    Gb,
    Wi,
}

// What stands at an offset after the description: nothing more, a record that is short or unknown, a call of the register, a keeping, a return or a
// moving window. `to` is the offset of the next record. With six outcomes it is no Option and no Result.
#[derive(Clone, Copy)]
pub enum RecordAt {
    End,
    Fails { refusal: Refusal },
    Calls { call: model::Call, to: usize },
    Keeps { to: usize },
    Returns { to: usize },
    Watches { to: usize },
}
