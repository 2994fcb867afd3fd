// What a grant refuses before its water is looked at. Each step matches on the kind of the title: a rule of the project.
ghost use Rattle.std.specs.Prelude.{◌≡◌, ◌≤◌, ◌<◌, ◌+◌, length};
ghost use Rattle.model.specs.Answers.{accepted};
ghost use Rattle.model.specs.Limits.{aquifer_limit};
ghost use Rattle.river.specs.Units.{units_of};
ghost use Rattle.refusal.specs.Grant as grants;
ghost use Rattle.refusal.specs.Steps as steps;
ghost use Rattle.refusal.specs.Steps.{entries_of};

use basin::places::{is_volume, missing};
use model::{Answer, Aquifer, Balance, Refusal, Title, Unit};
use river::Tree;

// An entry that would pass 10,000,000.
fn past(entry: u32, more: u32) -> bool
    ensures { result ≡ grants.past (entry + more) }
{
    u64::from(entry) + u64::from(more) > u64::from(Balance::TERM)
}

// An entry that a title raises would pass 10,000,000. What the title names is there. One match over the five kinds: their fields make its
// length.
fn overfull(units: &[Unit], aquifers: &[Aquifer], t: Title) -> bool
    requires { steps.missing_fault (length units.now) (length aquifers.now) t ≡ accepted }
    ensures { result ≡ grants.overfull (entries_of units.now aquifers.now 0) t }
{
    match t {
        Title::UnitWithdrawal {
            unit,
            usage,
            volume,
        } => {
            let u = &units[usize::from(unit) - 1];
            past(u.extraction, volume) || past(u.returns, titles::returned(usage, volume))
        }
        Title::AquiferWithdrawal { aquifer, volume } => {
            past(aquifers[usize::from(aquifer) - 1].extraction, volume)
        }
        Title::UnitTransfer { from, to, volume } => {
            past(units[usize::from(from) - 1].exports, volume)
                || past(units[usize::from(to) - 1].imports, volume)
        }
        Title::AquiferTransfer {
            aquifer,
            unit,
            volume,
        } => {
            past(aquifers[usize::from(aquifer) - 1].extraction, volume)
                || past(units[usize::from(unit) - 1].imports, volume)
        }
        Title::ReturningWithdrawal {
            aquifer,
            unit,
            usage,
            volume,
        } => {
            let back = titles::returned(usage, volume);
            past(aquifers[usize::from(aquifer) - 1].extraction, volume)
                || past(units[usize::from(unit) - 1].returns, back)
        }
    }
}

// A transfer between units that goes to the same unit, or to one that lies below the giver.
fn goes_down(tree: &Tree, m: usize, t: Title) -> bool
    requires { steps.missing_fault (length tree.now) m t ≡ accepted }
    ensures { result ≡ steps.goes_down (units_of tree.now) t }
{
    if let Title::UnitTransfer { from, to, .. } = t {
        from == to || reach::lies_below(tree, usize::from(from) - 1, usize::from(to) - 1)
    } else {
        false
    }
}

// What a grant refuses before its water is looked at, first match wins. The clause bounds a slice, whose length no type bounds. Tree and
// aquifers stay two parameters here and in `no_water`: a struct of both would be made for each call and taken apart at once.
pub fn early(tree: &Tree, aquifers: &[Aquifer], given: usize, t: Title) -> Answer
    requires { length aquifers.now ≤ aquifer_limit }
    ensures { result ≡ steps.early_fault (entries_of tree.now aquifers.now given) t }
{
    let units = tree.units();
    missing(t, units.len(), aquifers.len())?;
    if goes_down(tree, aquifers.len(), t) {
        return Err(Refusal::ReceiverBelow);
    }
    if !is_volume(t.volume()) {
        return Err(Refusal::BadVolume);
    }
    if Balance::TITLES <= given {
        return Err(Refusal::NumbersGiven);
    }
    if overfull(units, aquifers, t) {
        return Err(Refusal::EntryFull);
    }
    Ok(())
}
