// The river of a basin: the flow, the committed volume and the own reserve of its units, by passes over the tree.
#![tactic(auto)]

mod flow;
mod reserve;
mod search;
mod tree;

pub use flow::Amounts;
pub use reserve::{Split, contribution};
pub use tree::Tree;
