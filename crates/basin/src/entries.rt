// The entries of units and aquifers: ranges, downstream numbers, commitments and recharge.
ghost use Rattle.std.specs.Prelude.{◌≡◌};
ghost use Rattle.basin.specs.Sound as sounds;

use figures::is_recharged;
use model::{Aquifer, Unit, are_terms, is_committed, is_onward, is_storage};

// A downstream number is 0, or above the unit's own number and at most the last unit's. The unit's index is j.
fn is_downstream(count: usize, j: usize, number: u8) -> bool
    ensures { result ≡ sounds.is_downstream count j number }
{
    is_onward(j, number) && usize::from(number) <= count
}

// Each volume among a unit's entries is a term.
fn entries_sound(u: Unit) -> bool
    ensures { result ≡ sounds.sound_entries u }
{
    are_terms(&[
        u.extraction,
        u.exports,
        u.imports,
        u.returns,
        u.evaporation,
        u.commitment,
        u.runoff,
    ])
}

// Each entry of a unit is in its range, its downstream number is sound, and only an outlet has a commitment.
pub fn unit_sound(u: Unit, j: usize, count: usize) -> bool
    ensures { result ≡ sounds.sound_unit count j u }
{
    entries_sound(u)
        && is_storage(u.storage)
        && is_downstream(count, j, u.downstream)
        && is_committed(u.downstream, u.commitment)
}

// Each entry of an aquifer is in its range, and its recharge is not negative.
pub fn aquifer_sound(a: Aquifer) -> bool
    ensures { result ≡ sounds.sound_aquifer a }
{
    a.is_within() && is_recharged(&a)
}
