// Keeping the current balance under a name, and going back to what is kept under one: two rules of the paper, so each has its own functions.
// The test's answer stays a flag beside the state: `keep_apart` speaks of the state with another current balance, of which no invariant of
// the state that it is lent says whether it is sound.
ghost use Rattle.std.specs.Prelude.{◌≡◌};
ghost use Rattle.planning.specs.State.{sound_state};
ghost use Rattle.planning.specs.Calls as replies;

use crate::decision::{decide_back, decide_keep};
use crate::test::sound;
use crate::{Kept, Name, Reply, State};
use model::{Answer, Balance};

// Keeps a balance under a name: in the name's place, or under a new name in the next one. The balance stands for the current one of a
// state that was tested for 0, and `sound` says what the test gave. The state's own balance is not read. A refused state stays as it was.
// What is added to is how many are kept; it counts no loop.
pub fn keep_apart(s: &mut State, balance: Balance, sound: bool, name: Name) -> Answer
    requires { sound ≡ sound_state (replies.with_current s.old balance) }
    ensures answer { result ≡ (replies.keep_reply (replies.with_current s.old balance) name).answer }
    ensures state { replies.with_current s.new balance ≡ (replies.keep_reply (replies.with_current s.old balance) name).state }
    ensures own { s.new.balance ≡ s.old.balance }
{
    match decide_keep(s, sound, name)? {
        Some(place) => s.kept[place].balance = balance,
        None => {
            s.kept[s.count] = Kept { name, balance };
            s.count += 1;
        }
    }
    Ok(())
}

// Keeps the current balance of a state that was tested for 0 under a name: in the name's place, or under a new name in the next one.
// `sound` says what the test gave. A refused state stays as it was.
pub fn keep_tested(s: &mut State, sound: bool, name: Name) -> Answer
    requires { sound ≡ sound_state s.old }
    ensures answer { result ≡ (replies.keep_reply s.old name).answer }
    ensures state { s.new ≡ (replies.keep_reply s.old name).state }
{
    let balance = s.balance;
    keep_apart(s, balance, sound, name)
}

// Goes back, in a state that was tested for 0, to what is kept under a name: that balance becomes the current one. `sound` says what the
// test gave. A refused state stays as it was.
pub fn back_tested(s: &mut State, sound: bool, name: Name) -> Answer
    requires { sound ≡ sound_state s.old }
    ensures answer { result ≡ (replies.back_reply s.old name).answer }
    ensures state { s.new ≡ (replies.back_reply s.old name).state }
{
    let place = decide_back(s, sound, name)?;
    s.balance = s.kept[place].balance;
    Ok(())
}

// Keeps the current balance under a name.
pub fn keep(mut s: State, name: Name) -> Reply
    ensures { result ≡ replies.keep_reply s name }
{
    let sound = sound(&s);
    let answer = keep_tested(&mut s, sound, name);
    Reply {
        answer,
        number: 0,
        state: s,
    }
}

// Goes back to what is kept under a name.
pub fn back(mut s: State, name: Name) -> Reply
    ensures { result ≡ replies.back_reply s name }
{
    let sound = sound(&s);
    let answer = back_tested(&mut s, sound, name);
    Reply {
        answer,
        number: 0,
        state: s,
    }
}
