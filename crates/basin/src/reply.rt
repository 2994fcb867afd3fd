// The call that reads the figures.
ghost use Rattle.std.specs.Prelude.{◌≡◌, replicate};
ghost use Rattle.model.specs.View.{view_of};
ghost use Rattle.model.specs.Limits.{unit_limit, aquifer_limit};
ghost use Rattle.figures.specs.Figures.{no_unit_figures, no_aquifer_figures};
ghost use Rattle.basin.specs.Figures as replies;

use crate::Figures;
use crate::test::tested;
use figures::{AquiferFigures, UnitFigures};
use model::{Balance, Refusal};
use river::Tree;

// 0 in every place for units. This and `no_aquifers` are two arrays of different types and sizes: a generic one would be no shorter.
fn no_units() -> [UnitFigures; Balance::UNITS]
    ensures { result ≡ replicate unit_limit no_unit_figures }
{
    [UnitFigures::default(); Balance::UNITS]
}

// 0 in every place for aquifers.
fn no_aquifers() -> [AquiferFigures; Balance::AQUIFERS]
    ensures { result ≡ replicate aquifer_limit no_aquifer_figures }
{
    [AquiferFigures::default(); Balance::AQUIFERS]
}

// The figures of every unit and aquifer. A balance that is not sound is refused with 0, and with 0 in every figure.
// A balance is handed by value: a rule of the project.
pub fn figures(b: Balance) -> Figures
    ensures { result ≡ replies.figures_reply (view_of b) }
{
    let Some(amounts) = tested(&b) else {
        return Figures {
            answer: Err(Refusal::Unsound),
            units: no_units(),
            aquifers: no_aquifers(),
        };
    };
    let units = &b.units[..b.unit_count];
    let aquifers = &b.aquifers[..b.aquifer_count];
    Figures {
        answer: Ok(()),
        units: figures::unit_figures(&Tree::new(units), &amounts),
        aquifers: figures::aquifer_figures(aquifers),
    }
}
