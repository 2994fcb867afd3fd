// A state as it is printed: of each of its balances the counts, the entries that GU and GA raise, and which titles are in force.
use model::Balance;
use planning::State;
use std::fmt;
use std::fmt::{Display, Formatter};

// How many units, aquifers and titles of a balance are printed.
const UNITS: usize = 4;

const AQUIFERS: usize = 2;

const TITLES: usize = 8;

// The counts, four units, two aquifers and eight titles of a balance: 1 for a title in force, 0 for any other place.
#[derive(Clone, Copy)]
struct BalanceDump<'a>(&'a Balance);

impl Display for BalanceDump<'_> {
    fn fmt<W: fmt::Write>(&self, f: &mut Formatter<W>) -> fmt::Result {
        let b = self.0;
        write!(f, " {} {} {}", b.unit_count, b.aquifer_count, b.given)?;
        for unit in &b.units[..UNITS] {
            write!(f, " {} {}", unit.extraction, unit.returns)?;
        }
        for aquifer in &b.aquifers[..AQUIFERS] {
            write!(f, " {}", aquifer.extraction)?;
        }
        for place in &b.titles[..TITLES] {
            write!(f, " {}", u8::from(place.in_force))?;
        }
        Ok(())
    }
}

// The count, the current balance, and what stands in the four places, used or not: the number whose bytes are the name, the
// lowest first, and the balance.
#[derive(Clone, Copy)]
pub(crate) struct StateDump<'a>(pub &'a State);

impl Display for StateDump<'_> {
    fn fmt<W: fmt::Write>(&self, f: &mut Formatter<W>) -> fmt::Result {
        let s = self.0;
        write!(f, " = {}{}", s.count, BalanceDump(&s.balance))?;
        for kept in &s.kept {
            let number = u64::from_le_bytes(kept.name.bytes);
            write!(f, " / {number}{}", BalanceDump(&kept.balance))?;
        }
        Ok(())
    }
}
