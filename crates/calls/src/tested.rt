// The calls of a book over a balance of which it is known what the test for 0 gives.
ghost use Rattle.std.specs.Prelude.{◌≡◌};
ghost use Rattle.model.specs.View.{view_of};
ghost use Rattle.basin.specs.Sound as sounds;
ghost use Rattle.calls.specs.Running as running;

use crate::Ran;
use model::Balance;
use record::{CallAt, Failure};

// Runs every call that stands in a book from an offset on; `sound` says what the test for 0 gave. It serves every call, since an accepted
// call leaves a sound balance. The two are no struct with an invariant: it would be taken apart and made again at every accepted call.
// A record tells where the next one is, so that there is no range for a `for`.
pub fn run_tested(s: &[u8], from: usize, balance: Balance, sound: bool) -> Ran
    requires { sound ≡ sounds.sound (view_of balance) }
    ensures { result ≡ running.ran s.now from balance }
{
    let mut b = balance;
    let mut at = from;
    let ending = loop {
        match record::call_at(s, at) {
            CallAt::End => break Ok(()),
            CallAt::Fails { refusal } => break Err(Failure { refusal, place: at }),
            CallAt::Asks { call, to } => {
                at = to;
                if register::decision::decide(&b, sound, call).is_ok() {
                    b = register::outcome::perform(b, call);
                }
            }
        }
    };
    Ran { ending, balance: b }
}
