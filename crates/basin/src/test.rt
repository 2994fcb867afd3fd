// The test for 0.
ghost use Rattle.std.specs.Prelude.{◌≡◌, ◌&&◌, ◌≤◌, leb, take, true, is_some, IfSome};
ghost use Rattle.model.specs.View.{view_of};
ghost use Rattle.model.specs.Limits.{unit_limit, aquifer_limit, title_limit};
ghost use Rattle.river.specs.Passes.{Flows};
ghost use Rattle.river.specs.Units.{units_of};
ghost use Rattle.basin.specs.Sound as sounds;

use crate::cover::{aquifers_hold, units_hold};
use crate::places::title_sound;
use model::{Balance, Place};
use river::{Amounts, Tree};
use titles::Sums;

// The counts are within their limits.
fn counts_sound(units: usize, aquifers: usize, given: usize) -> bool
    ensures { result ≡ (leb units unit_limit && (leb aquifers aquifer_limit && leb given title_limit)) }
{
    units <= Balance::UNITS && aquifers <= Balance::AQUIFERS && given <= Balance::TITLES
}

// Every title in force is sound; every aquifer and every unit is sound, and none of its entries is exceeded by its titles. One walk over
// the titles tests each and adds it up. It returns from a loop, since in an `all` the sums would change inside the test.
fn entries_hold(b: &Balance) -> bool
    requires { sounds.sound_counts (view_of b.now) ≡ true }
    ensures { result ≡ sounds.entries_hold (view_of b.now) }
{
    let mut sums = Sums::none();
    for &Place { title, in_force } in &b.titles[..b.given] {
        if in_force {
            if !title_sound(title, b.unit_count, b.aquifer_count) {
                return false;
            }
            sums.add(title);
        }
    }
    aquifers_hold(&b.aquifers[..b.aquifer_count], &sums)
        && units_hold(&b.units[..b.unit_count], &sums)
}

// No more is lost than gained at any of so many units.
fn flowing(amounts: &Amounts, n: usize) -> bool
    requires { n ≤ unit_limit }
    ensures { result ≡ sounds.balanced n amounts.now.gained amounts.now.lost }
{
    amounts
        .lost
        .iter()
        .zip(&amounts.gained)
        .take(n)
        .all(|(lost, gained)| lost <= gained)
}

// The test for 0: what the forward pass gives of the units, where the balance is sound.
pub fn tested(b: &Balance) -> Option<Amounts>
    ensures value { is_some result ≡ sounds.sound (view_of b.now) }
    ensures amounts { IfSome result (Flows (units_of (take b.now.unit_count b.now.units))) }
{
    let n = b.unit_count;
    if !counts_sound(n, b.aquifer_count, b.given) || !entries_hold(b) {
        return None;
    }
    let amounts = Amounts::of(&Tree::new(&b.units[..n]));
    flowing(&amounts, n).then_some(amounts)
}

// A balance is sound if it has none of the faults for which every call first gives 0. It is handed by value: a rule of the project.
pub fn sound(b: Balance) -> bool
    ensures { result ≡ sounds.sound (view_of b) }
{
    tested(&b).is_some()
}
