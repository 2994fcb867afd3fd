// The answer to a call, from the arrays of the balance that it needs. That the balance is sound stands in two contracts here, and beside the
// flag that `decide` takes: a type of sound balances would be taken apart again at each accepted call.
ghost use Rattle.std.specs.Prelude.{◌≡◌, ◌≤◌, true, not};
ghost use Rattle.model.specs.View.{view_of};
ghost use Rattle.model.specs.Limits.{title_limit};
ghost use Rattle.basin.specs.Sound as sounds;
ghost use Rattle.river.specs.Flow.{Ready};
ghost use Rattle.river.specs.Units.{units_view};
ghost use Rattle.effect.specs.Cancelled.{lowered_units, UnitsHeld};
ghost use Rattle.register.specs.Reply as replies;
ghost use Rattle.register.specs.Cancel as cancels;
ghost use Rattle.register.specs.Calls as calls;

use model::{Answer, Balance, Call, Refusal, Title};
use river::Tree;

// The answer to a grant on a sound balance: 12 to 16 and 18, then 17 with the title in.
fn grant_answer(b: &Balance, t: Title) -> Answer
    requires { sounds.sound (view_of b.now) ≡ true }
    ensures { result ≡ (replies.grant_reply b.now t).answer }
{
    let n = b.unit_count;
    let m = b.aquifer_count;
    let tree = Tree::new(&b.units[..n]);
    refusal::early(&tree, &b.aquifers[..m], b.given, t)?;
    let raised = effect::raised_units(b.units, t);
    let drawn = effect::raised_wells(b.aquifers, t);
    let tried = Tree::new(&raised[..n]);
    if refusal::no_water(&tried, &drawn[..m], t) {
        return Err(Refusal::NoWater);
    }
    Ok(())
}

// Some flow would be negative without a title.
fn needed(b: &Balance, t: Title) -> bool
    requires { UnitsHeld t b.now.units × Ready (units_view (lowered_units t b.now.units) b.now.unit_count) }
    ensures { result ≡ not (sounds.flowing (units_view (lowered_units t b.now.units) b.now.unit_count)) }
{
    let n = b.unit_count;
    let less = effect::lowered_units(b.units, t);
    Tree::new(&less[..n]).first_negative().is_some()
}

// A number was given, and its title is in force.
fn in_force(b: &Balance, number: u16) -> bool
    requires { b.now.given ≤ title_limit }
    ensures { result ≡ cancels.number_in_force (view_of b.now) number }
{
    let k = usize::from(number);
    0 < k && k <= b.given && b.titles[k - 1].in_force
}

// The answer to a cancellation on a sound balance: 19 where the number was not given or its place is not in force, then 20.
fn cancel_answer(b: &Balance, number: u16) -> Answer
    requires { sounds.sound (view_of b.now) ≡ true }
    ensures { result ≡ (cancels.cancel_reply b.now number).answer }
{
    if !in_force(b, number) {
        return Err(Refusal::NotInForce);
    }
    if needed(b, b.titles[usize::from(number) - 1].title) {
        return Err(Refusal::FlowNeeded);
    }
    Ok(())
}

// The answer to a call on a balance that was tested for 0: `sound` says what the test gave. The two are no struct with an invariant: every
// accepted call changes the balance, so that the struct would be taken apart and made again at each, to keep what `perform` promises.
pub fn decide(b: &Balance, sound: bool, c: Call) -> Answer
    requires { sound ≡ sounds.sound (view_of b.now) }
    ensures { result ≡ (calls.call_reply b.now c).answer }
{
    if !sound {
        return Err(Refusal::Unsound);
    }
    match c {
        Call::Grant { title } => grant_answer(b, title),
        Call::Cancel { number } => cancel_answer(b, number),
    }
}
