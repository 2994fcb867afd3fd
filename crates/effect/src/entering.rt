// What a title does to a balance: the entries that it raises, its place and its number. Arrays are handed over in the sizes that a balance
// has, and by value: the project holds them so.
ghost use Rattle.std.specs.Prelude.{◌≡◌};
ghost use Rattle.effect.specs.Granted as grants;

use crate::change::{change_units, change_wells, changed_balance};
use crate::direction::Entering;
use model::{Aquifer, Balance, Place, Title, Unit};

// The units with a title in.
pub fn raised_units(mut units: [Unit; Balance::UNITS], t: Title) -> [Unit; Balance::UNITS]
    requires { grants.UnitsFit t units }
    ensures { result ≡ grants.raised_units t units }
{
    change_units::<Entering>(&mut units, t);
    units
}

// The aquifers with a title in.
pub fn raised_wells(
    mut aquifers: [Aquifer; Balance::AQUIFERS],
    t: Title,
) -> [Aquifer; Balance::AQUIFERS]
    requires { grants.WellsFit t aquifers }
    ensures { result ≡ grants.raised_wells t aquifers }
{
    change_wells::<Entering>(&mut aquifers, t);
    aquifers
}

// The balance with a title in: its entries raised, the title in the next place and in force, and one number more given.
pub fn post(b: Balance, t: Title) -> Balance
    requires { grants.Grantable b t }
    ensures { result ≡ grants.posted b t }
{
    let place = Place {
        title: t,
        in_force: true,
    };
    changed_balance::<Entering>(b, place, b.given, b.given + 1)
}
