// The figures of all units and aquifers of a balance.
#![tactic(auto)]

mod figures;
mod recharge;

pub use figures::{aquifer_figures, of_aquifer, of_units, unit_figures};
pub use recharge::is_recharged;

// The four figures of a unit.
#[repr(C)]
#[derive(Clone, Copy, Default)]
pub struct UnitFigures {
    pub flow: i64,
    pub committed: u64,
    pub reserve: u64,
    pub availability: i64,
}

// The two figures of an aquifer.
#[repr(C)]
#[derive(Clone, Copy, Default)]
pub struct AquiferFigures {
    pub recharge: i64,
    pub availability: i64,
}
