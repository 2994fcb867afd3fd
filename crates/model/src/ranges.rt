// The ranges of the entries of units and aquifers.
ghost use Rattle.std.specs.Prelude.{◌≡◌, ◌+◌};
ghost use Rattle.model.specs.Ranges as bounds;

use crate::{Aquifer, Balance};

// A term runs from 0 to 10,000,000.
pub fn is_term(volume: u32) -> bool
    ensures { result ≡ bounds.is_term volume }
{
    volume <= Balance::TERM
}

// Each of some volumes is a term.
pub fn are_terms(volumes: &[u32]) -> bool
    ensures { result ≡ bounds.are_terms volumes.now }
{
    volumes.iter().all(|volume| is_term(*volume))
}

// A storage change runs from −10,000,000 to 10,000,000.
pub fn is_storage(change: i64) -> bool
    ensures { result ≡ bounds.is_storage change }
{
    let term = i64::from(Balance::TERM);
    (-term..=term).contains(&change)
}

// Only an outlet has a commitment.
pub fn is_committed(downstream: u8, commitment: u32) -> bool
    ensures { result ≡ bounds.is_committed downstream commitment }
{
    downstream == 0 || commitment == 0
}

// A downstream number is 0, or above the unit's own number, which is one more than its index.
pub fn is_onward(index: usize, downstream: u8) -> bool
    ensures { result ≡ bounds.is_onward (index + 1) downstream }
{
    usize::from(downstream)
        .checked_sub(1)
        .is_none_or(|place| index < place)
}

impl Aquifer {
    // Each entry of an aquifer is in its range.
    pub fn is_within(&self) -> bool
        ensures { result ≡ bounds.aquifer_within self.now }
    {
        are_terms(&[self.natural, self.pumped, self.committed, self.extraction])
            && is_storage(self.storage)
    }
}
