// 17 no water, in a balance with the title in. The giver is found by a match on the kind of the title: a rule of the project.
ghost use Rattle.std.specs.Prelude.{◌≡◌, not, ◌≤◌, ◌<◌, length};
ghost use Rattle.std.specs.Int.Signed.{non_neg};
ghost use Rattle.laws.specs.Signed.{above, below};
ghost use Rattle.model.specs.Limits.{term_limit};
ghost use Rattle.river.specs.Units.{units_of};
ghost use Rattle.river.specs.Wells.{well_availability};
ghost use Rattle.figures.specs.Figures.{WellsReady, aquifers_of};
ghost use Rattle.refusal.specs.Grant as grants;
ghost use Rattle.effect.specs.Granted.{Named};
ghost use Rattle.refusal.specs.Steps as steps;
ghost use Rattle.refusal.specs.Steps.{entries_of};

use crate::Giver;
use figures::UnitFigures;
use model::{Aquifer, Title};
use river::Tree;

// Figures of a unit with a negative flow or a negative availability.
fn in_deficit(f: UnitFigures) -> bool
    ensures { result ≡ grants.in_deficit f }
{
    f.flow < 0 || f.availability < 0
}

// Some unit drains to an outlet and has a negative flow or a negative availability, by their figures and their outlets.
fn dry_by(figures: &[UnitFigures], ends: &[usize], outlet: usize) -> bool
    requires { length figures.now ≡ length ends.now }
    ensures { result ≡ steps.dry_by figures.now ends.now (length figures.now) outlet }
{
    figures
        .iter()
        .zip(ends)
        .any(|(unit, end)| *end == outlet && in_deficit(*unit))
}

// The outlet of the unit at an index, or some unit that drains there, has a negative flow or a negative availability.
fn dry(tree: &Tree, j: usize) -> bool
    requires { j < length tree.now }
    ensures { result ≡ grants.dry (units_of tree.now) j }
{
    let figures = figures::of_units(tree);
    let ends = reach::outlets(tree);
    let n = tree.units().len();
    dry_by(&figures[..n], &ends[..n], ends[j])
}

// An aquifer with a negative availability.
fn drained(a: &Aquifer) -> bool
    requires { (above a.now.storage ≤ term_limit) × (below a.now.storage ≤ term_limit) }
    ensures { result ≡ not (non_neg (well_availability a.now)) }
{
    figures::of_aquifer(a).availability < 0
}

// What gives the water of a title.
fn giver(t: Title) -> Giver
    ensures { result ≡ steps.giver t }
{
    match t {
        Title::UnitWithdrawal { unit, .. } => Giver::FromUnit(unit),
        Title::UnitTransfer { from, .. } => Giver::FromUnit(from),
        Title::AquiferWithdrawal { aquifer, .. }
        | Title::AquiferTransfer { aquifer, .. }
        | Title::ReturningWithdrawal { aquifer, .. } => Giver::FromAquifer(aquifer),
    }
}

// No water for a title that is in: in the outlet basin of the unit that gives, or in the aquifer that gives.
pub fn no_water(tree: &Tree, aquifers: &[Aquifer], t: Title) -> bool
    requires { WellsReady (aquifers_of aquifers.now) × Named (entries_of tree.now aquifers.now 0) t }
    ensures { result ≡ grants.no_water (entries_of tree.now aquifers.now 0) t }
{
    match giver(t) {
        Giver::FromUnit(unit) => dry(tree, usize::from(unit) - 1),
        Giver::FromAquifer(aquifer) => drained(&aquifers[usize::from(aquifer) - 1]),
    }
}
