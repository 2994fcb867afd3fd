// The entries of units and aquifers against what titles add together to them.
ghost use Rattle.std.specs.Prelude.{◌≡◌, ◌&&◌, ◌≤◌, ◌<◌, leb, length};
ghost use Rattle.laws.specs.Sum.{every};
ghost use Rattle.model.specs.Limits.{unit_limit, aquifer_limit};
ghost use Rattle.basin.specs.Sound as sounds;

use crate::entries::{aquifer_sound, unit_sound};
use model::{Aquifer, Unit};
use titles::Sums;

// The titles of the unit at an index do not together exceed the entries that they went into.
fn unit_covered(u: &Unit, sums: &Sums, j: usize) -> bool
    requires { j < unit_limit }
    ensures { result ≡ sounds.covers_sums sums.now j u.now }
{
    sums.extraction[j] <= u64::from(u.extraction)
        && sums.exports[j] <= u64::from(u.exports)
        && sums.imports[j] <= u64::from(u.imports)
        && sums.returns[j] <= u64::from(u.returns)
}

// The unit at an index is sound, and no entry of it is exceeded by its titles.
fn unit_holds(units: &[Unit], sums: &Sums, j: usize) -> bool
    requires { (j < length units.now) × (length units.now ≤ unit_limit) }
    ensures { result ≡ sounds.unit_holds units.now sums.now j }
{
    unit_sound(units[j], j, units.len()) && unit_covered(&units[j], sums, j)
}

// An aquifer is sound, and its extraction is not exceeded by what its titles add together to it.
fn aquifer_holds(a: &Aquifer, together: u64) -> bool
    ensures { result ≡ (sounds.sound_aquifer a.now && leb together a.now.extraction) }
{
    aquifer_sound(*a) && together <= u64::from(a.extraction)
}

// Every unit is sound, and no entry of it is exceeded by its titles. It stays beside `aquifers_hold`, which tests other entries by other sums.
// The index stays: it is the unit's number less one, and the place of its sums in four arrays, so that `enumerate` would hand over the same
// index.
pub fn units_hold(units: &[Unit], sums: &Sums) -> bool
    requires { length units.now ≤ unit_limit }
    ensures { result ≡ every (length units.now) (sounds.unit_holds units.now sums.now) }
{
    (0..units.len()).all(|j| unit_holds(units, sums, j))
}

// Every aquifer is sound, and its extraction is not exceeded by its titles. The clause bounds a slice, whose length no type bounds.
pub fn aquifers_hold(aquifers: &[Aquifer], sums: &Sums) -> bool
    requires { length aquifers.now ≤ aquifer_limit }
    ensures { result ≡ every (length aquifers.now) (sounds.aquifer_holds aquifers.now sums.now) }
{
    aquifers
        .iter()
        .zip(&sums.wells)
        .all(|(a, together)| aquifer_holds(a, *together))
}
