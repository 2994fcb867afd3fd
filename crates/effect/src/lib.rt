// What a title does to a balance: put in, it raises entries and stands in the next place; taken back, it lowers them by the same.
#![tactic(auto)]

mod change;
mod direction;
mod entering;
mod leaving;

pub use entering::{post, raised_units, raised_wells};
pub use leaving::{lowered_units, take_back};
