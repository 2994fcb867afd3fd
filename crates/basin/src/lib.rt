// The balance: the test for 0 and the figures.
#![tactic(auto)]

mod cover;
mod entries;
pub mod places;
pub mod reply;
mod test;

use figures::{AquiferFigures, UnitFigures};
use model::{Answer, Balance};
pub use test::sound;

// The reply of reading the figures: the answer, and the figures of each unit and aquifer under its number less one. The answer stands beside
// the figures, since a refused call is promised 0 in every figure. There is no heap, so each array has all places.
#[derive(Clone, Copy)]
pub struct Figures {
    pub answer: Answer,
    pub units: [UnitFigures; Balance::UNITS],
    pub aquifers: [AquiferFigures; Balance::AQUIFERS],
}
