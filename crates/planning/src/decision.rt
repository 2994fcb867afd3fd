// What keeping under a name and going back to one come to, on a state that was tested for 0.
// The test's answer stays a flag beside the state: a type of both, with `sound ≡ sound_state` as its invariant, would ask more of callers than the
// clauses here, which bound the count of a state that is called sound.
ghost use Rattle.std.specs.Prelude.{◌≡◌, ◌≤◌, true};
ghost use Rattle.planning.specs.Names.{place_limit};
ghost use Rattle.planning.specs.Calls.{place_in};
ghost use Rattle.planning.specs.Decision as decisions;

use crate::names::place_of;
use crate::{Name, State};
use model::Refusal;

// The place that has a name in a state that was tested for 0, if one has it. `sound` says what the test gave.
fn sought(s: &State, sound: bool, name: Name) -> Result<Option<usize>, Refusal>
    requires { sound ≡ true → s.now.count ≤ place_limit }
    ensures { result ≡ decisions.sought sound (place_in s.now name) }
{
    if sound {
        Ok(place_of(&s.kept[..s.count], name))
    } else {
        Err(Refusal::Unsound)
    }
}

// Keeping: the place that has the name, or `None` for a new name, which takes the next place. `sound` says what the test for 0 gave.
pub fn decide_keep(s: &State, sound: bool, name: Name) -> Result<Option<usize>, Refusal>
    requires { sound ≡ true → s.now.count ≤ place_limit }
    ensures { result ≡ decisions.keep_decision sound (place_in s.now name) s.now.count }
{
    match sought(s, sound, name)? {
        Some(place) => Ok(Some(place)),
        None if s.count < State::PLACES => Ok(None),
        None => Err(Refusal::FifthName),
    }
}

// Going back: the place that has the name. `sound` says what the test for 0 gave.
pub fn decide_back(s: &State, sound: bool, name: Name) -> Result<usize, Refusal>
    requires { sound ≡ true → s.now.count ≤ place_limit }
    ensures { result ≡ decisions.back_decision sound (place_in s.now name) }
{
    sought(s, sound, name)?.ok_or(Refusal::NoSuchName)
}
