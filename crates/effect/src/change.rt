// What a title changes in a balance, whichever way it goes. Each step matches on the kind of the title, and takes the arrays of the balance
// whole, in their sizes: both are rules of the project.
ghost use Rattle.std.specs.Prelude.{◌≡◌, ◌<◌, set};
ghost use Rattle.model.specs.Limits.{title_limit};
ghost use Rattle.titles.specs.Adds.{return_of};
ghost use Rattle.effect.specs.Effect as effects;
ghost use Rattle.effect.specs.Room.{UnitArrayTakes, WellArrayTakes};

use crate::direction::Direction;
use model::{Aquifer, Balance, Place, Title, Unit};

// The entries of the units are changed by what a title adds to them.
pub fn change_units<D: Direction>(units: &mut [Unit; Balance::UNITS], title: Title)
    requires { UnitArrayTakes D.left title units.old }
    ensures { units.new ≡ effects.changed_units D.op title (return_of title) units.old }
{
    match title {
        Title::UnitWithdrawal {
            unit,
            usage,
            volume,
        } => {
            let u = &mut units[usize::from(unit) - 1];
            u.extraction = D::change(u.extraction, volume);
            u.returns = D::change(u.returns, titles::returned(usage, volume));
        }
        Title::AquiferWithdrawal { .. } => {}
        Title::UnitTransfer { from, to, volume } => {
            let giver = &mut units[usize::from(from) - 1];
            giver.exports = D::change(giver.exports, volume);
            let receiver = &mut units[usize::from(to) - 1];
            receiver.imports = D::change(receiver.imports, volume);
        }
        Title::AquiferTransfer { unit, volume, .. } => {
            let u = &mut units[usize::from(unit) - 1];
            u.imports = D::change(u.imports, volume);
        }
        Title::ReturningWithdrawal {
            unit,
            usage,
            volume,
            ..
        } => {
            let back = titles::returned(usage, volume);
            let named = &mut units[usize::from(unit) - 1];
            named.returns = D::change(named.returns, back);
        }
    }
}

// The extraction of the aquifers is changed by what a title adds to it.
pub fn change_wells<D: Direction>(aquifers: &mut [Aquifer; Balance::AQUIFERS], title: Title)
    requires { WellArrayTakes D.left title aquifers.old }
    ensures { aquifers.new ≡ effects.changed_wells D.op title (return_of title) aquifers.old }
{
    match title {
        Title::UnitWithdrawal { .. } | Title::UnitTransfer { .. } => {}
        Title::AquiferWithdrawal { aquifer, volume }
        | Title::AquiferTransfer {
            aquifer,
            volume,
            ..
        }
        | Title::ReturningWithdrawal {
            aquifer,
            volume,
            ..
        } => {
            let a = &mut aquifers[usize::from(aquifer) - 1];
            a.extraction = D::change(a.extraction, volume);
        }
    }
}

// The balance with every entry changed by what the title of a place adds, that place at an index, and so many numbers given.
pub fn changed_balance<D: Direction>(
    mut b: Balance,
    place: Place,
    index: usize,
    given: usize,
) -> Balance
    requires in_register { index < title_limit }
    requires units { UnitArrayTakes D.left place.title b.units }
    requires wells { WellArrayTakes D.left place.title b.aquifers }
    ensures { result ≡ effects.changed_balance D.op place.title (return_of place.title) b given (set b.titles index place) }
{
    change_units::<D>(&mut b.units, place.title);
    change_wells::<D>(&mut b.aquifers, place.title);
    b.titles[index] = place;
    b.given = given;
    b
}
