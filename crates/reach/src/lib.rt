// The ways down a tree of units: which units lie below, and which outlet a unit drains to.
#![tactic(auto)]

mod below;
mod outlet;

pub use below::lies_below;
pub use outlet::outlets;
