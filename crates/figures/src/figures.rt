// The figures of each unit, by the passes over the tree, and of each aquifer. An array has a place for each unit or aquifer that there can be:
// there is no heap.
ghost use Rattle.std.specs.Prelude.{◌≡◌, ◌≤◌};
ghost use Rattle.laws.specs.Signed.{above, below};
ghost use Rattle.model.specs.Limits.{term_limit};
ghost use Rattle.river.specs.Passes.{Flows};
ghost use Rattle.river.specs.Units.{units_of};
ghost use Rattle.river.specs.Limits.{gathered_limit};
ghost use Rattle.figures.specs.Figures as figures;
ghost use Rattle.figures.specs.Figures.{figures_from, aquifers_of};

use crate::{AquiferFigures, UnitFigures};
use model::{Aquifer, Balance};
use river::{Amounts, Split, Tree, contribution};

// A unit's figures from what it gathers, and from what is committed and arrives there.
fn of_unit(gained: u64, lost: u64, split: &Split) -> UnitFigures
    requires { (gained ≤ gathered_limit) × (lost ≤ gathered_limit) }
    ensures { result ≡ figures_from split.now.unit.now gained lost split.now.arrived split.now.committed }
{
    UnitFigures {
        flow: laws::difference(gained, lost),
        committed: split.committed,
        reserve: split.share_own(),
        availability: laws::difference(gained, lost + split.committed),
    }
}

// The figures of each unit, from what the forward pass has left. Backward over the units: an outlet's committed volume is its commitment,
// another unit's is its share of the demand below. By index: over `.enumerate().rev()` the loop's invariant would be about what the iterator has
// left, in place of the index.
pub fn unit_figures(tree: &Tree, amounts: &Amounts) -> [UnitFigures; Balance::UNITS]
    requires { Flows (units_of tree.now) amounts.now }
    ensures { result ≡ figures.all_unit_figures (units_of tree.now) }
{
    let units = tree.units();
    let mut all = [UnitFigures::default(); Balance::UNITS];
    for i in (0..units.len()).rev() {
        let unit = &units[i];
        let committed = match unit.drains_to() {
            None => u64::from(unit.commitment),
            Some(k) => {
                let own = contribution(amounts.gained[i], amounts.lost[i]);
                let below = Split {
                    unit: &units[k],
                    committed: all[k].committed,
                    arrived: amounts.arrived[k],
                };
                below.share_above(amounts.before[i], own)
            }
        };
        let split = Split {
            unit,
            committed,
            arrived: amounts.arrived[i],
        };
        all[i] = of_unit(amounts.gained[i], amounts.lost[i], &split);
    }
    all
}

// The figures of each unit.
pub fn of_units(tree: &Tree) -> [UnitFigures; Balance::UNITS]
    ensures { result ≡ figures.all_unit_figures (units_of tree.now) }
{
    unit_figures(tree, &Amounts::of(tree))
}

// An aquifer's recharge and availability, from what it gains and what it loses.
pub fn of_aquifer(a: &Aquifer) -> AquiferFigures
    requires { (above a.now.storage ≤ term_limit) × (below a.now.storage ≤ term_limit) }
    ensures { result ≡ figures.figures_of a.now }
{
    let discharge = laws::above(a.storage) + u64::from(a.natural) + u64::from(a.pumped);
    let fall = laws::below(a.storage);
    let taken = fall + u64::from(a.committed) + u64::from(a.extraction);
    AquiferFigures {
        recharge: laws::difference(discharge, fall),
        availability: laws::difference(discharge, taken),
    }
}

// The figures of each aquifer. Each index counts two arrays: over a `zip` the loop's invariant would be about what two iterators have left.
pub fn aquifer_figures(aquifers: &[Aquifer]) -> [AquiferFigures; Balance::AQUIFERS]
    requires { figures.WellsReady (aquifers_of aquifers.now) }
    ensures { result ≡ figures.all_aquifer_figures (aquifers_of aquifers.now) }
{
    let mut all = [AquiferFigures::default(); Balance::AQUIFERS];
    for (i, a) in aquifers.iter().enumerate() {
        all[i] = of_aquifer(a);
    }
    all
}
