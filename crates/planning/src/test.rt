// The test for 0 of a state.
ghost use Rattle.std.specs.Prelude.{◌≡◌, length};
ghost use Rattle.planning.specs.State as states;

use crate::names::distinct;
use crate::{Kept, State};

// Each of the balances that are kept is sound.
fn kept_sound(kept: &[Kept]) -> bool
    ensures { result ≡ states.kept_sound kept.now (length kept.now) }
{
    kept.iter().all(|held| basin::sound(held.balance))
}

// A state is sound if its current balance is, no more than four balances are kept, each of them is sound, and no name is kept twice.
// The count is tested first: the slice needs it.
#[tactic(auto, unfolding(crate::specs::State::sound_state))]
pub fn sound(s: &State) -> bool
    ensures { result ≡ states.sound_state s.now }
{
    if !basin::sound(s.balance) || State::PLACES < s.count {
        return false;
    }
    let kept = &s.kept[..s.count];
    kept_sound(kept) && distinct(kept)
}
