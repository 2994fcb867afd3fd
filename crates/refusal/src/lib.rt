// The grounds on which a grant is refused: those before its water is looked at, then no water.
#![tactic(auto)]

mod grounds;
mod water;

pub use grounds::early;
pub use water::no_water;

// What gives the water of a title: a unit or an aquifer, by its number.
#[derive(Clone, Copy)]
pub enum Giver {
    FromUnit(u8),
    FromAquifer(u8),
}
