// What a call does once it is accepted.
ghost use Rattle.std.specs.Prelude.{◌≡◌, ◌≤◌};
ghost use Rattle.model.specs.View.{view_of};
ghost use Rattle.model.specs.Answers.{accepted};
ghost use Rattle.model.specs.Limits.{title_limit};
ghost use Rattle.basin.specs.Sound as sounds;
ghost use Rattle.register.specs.Reply as replies;
ghost use Rattle.register.specs.Calls as calls;

use crate::Reply;
use model::{Balance, Call, Refusal};

// The balance after an accepted call. It is as sound as the one before, so that a list of calls needs one test for 0.
pub fn perform(b: Balance, c: Call) -> Balance
    requires { (calls.call_reply b c).answer ≡ accepted }
    ensures value { result ≡ (calls.call_reply b c).balance }
    ensures b_value { sounds.sound (view_of b) ≡ sounds.sound (view_of result) }
{
    match c {
        Call::Grant { title } => effect::post(b, title),
        Call::Cancel { number } => effect::take_back(b, number),
    }
}

// The number that an accepted call tells: the next one for a grant, the cancelled one for a cancellation. The cast is proved to fit: `try_from`
// would add a branch that never runs.
pub fn number_of(given: usize, c: Call) -> u16
    requires { given ≤ title_limit }
    ensures { result ≡ calls.call_number given c }
{
    match c {
        Call::Grant { .. } => given as u16 + 1,
        Call::Cancel { number } => number,
    }
}

// A refused call hands back the old balance, and 0 as the title's number.
pub(crate) fn refused(b: Balance, refusal: Refusal) -> Reply
    ensures { result ≡ replies.replied (Err refusal) b b 0 }
{
    Reply {
        answer: Err(refusal),
        number: 0,
        balance: b,
    }
}
