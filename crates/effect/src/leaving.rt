// A title taken back: what it added to each entry is lowered by the same, and its place stays out of force. Arrays are handed over as in
// `entering`.
ghost use Rattle.std.specs.Prelude.{◌≡◌, ◌≤◌, ◌<◌};
ghost use Rattle.model.specs.Limits.{title_limit};
ghost use Rattle.model.specs.View.{view_of};
ghost use Rattle.effect.specs.Cancelled as cancels;

use crate::change::{change_units, changed_balance};
use crate::direction::Leaving;
use model::{Balance, Place, Title, Unit};

// The units without what a title added. Each of `raised_units` and this names its own direction: the two promise different lists, each under
// its own condition.
pub fn lowered_units(mut units: [Unit; Balance::UNITS], t: Title) -> [Unit; Balance::UNITS]
    requires { cancels.UnitsHeld t units }
    ensures { result ≡ cancels.lowered_units t units }
{
    change_units::<Leaving>(&mut units, t);
    units
}

// The balance with the title under a number out of force: every entry lowered by what the title added, and its place kept. `post` and
// this stay two: each makes its own place, index and count for `changed_balance`, which both call.
pub fn take_back(b: Balance, number: u16) -> Balance
    requires { (0 < number) × (number ≤ title_limit) × cancels.Takable b (cancels.title_of (view_of b) number) }
    ensures { result ≡ cancels.without_title b number }
{
    let k = usize::from(number) - 1;
    let place = Place {
        in_force: false,
        ..b.titles[k]
    };
    changed_balance::<Leaving>(b, place, k, b.given)
}
