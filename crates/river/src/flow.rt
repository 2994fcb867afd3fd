// Flow: what each unit gains and loses, gathered down the tree.
ghost use Rattle.std.specs.Prelude.{◌≡◌};
ghost use Rattle.river.specs.Flow as river;
ghost use Rattle.river.specs.Units.{units_of};

use crate::reserve::contribution;
use crate::tree::Tree;
use model::{Balance, Unit};

// What a unit gains: natural runoff, returns, imports and the fall of its storage.
pub fn gain(u: &Unit) -> u64
    requires { river.Small u.now }
    ensures { result ≡ river.gain u.now }
{
    u64::from(u.runoff) + u64::from(u.returns) + u64::from(u.imports) + laws::below(u.storage)
}

// What a unit loses: exports, extraction, evaporation and the rise of its storage.
pub fn loss(u: &Unit) -> u64
    requires { river.Small u.now }
    ensures { result ≡ river.loss u.now }
{
    u64::from(u.exports)
        + u64::from(u.extraction)
        + u64::from(u.evaporation)
        + laws::above(u.storage)
}

// What the forward pass over the units works out, with 0 in the unused places. An array for each amount, since the definitions state what a
// unit gathers of one array, and the running totals of two: an array of structs is no plainer there. There is no heap, so each has all places.
#[derive(Drop)]
pub struct Amounts {
    // All that is gained, and lost, at each unit and above it.
    pub gained: [u64; Balance::UNITS],
    pub lost: [u64; Balance::UNITS],
    // The running total of contributions at a unit's downstream unit before its own.
    pub before: [u64; Balance::UNITS],
    // The total that the units which drain straight into a unit contribute to it.
    pub arrived: [u64; Balance::UNITS],
}

impl Amounts {
    ghost use Rattle.river.specs.Passes.{Flows};

    // Forward over the units of a tree: all that is gained and lost at each unit and above it goes on to its downstream unit, and its
    // contribution is added to what has arrived there.
    pub fn of(tree: &Tree) -> Self
        ensures { Flows (units_of tree.now) result }
    {
        let units = tree.units();
        let mut amounts = Amounts {
            gained: [0; Balance::UNITS],
            lost: [0; Balance::UNITS],
            before: [0; Balance::UNITS],
            arrived: [0; Balance::UNITS],
        };
        for (i, u) in units.iter().enumerate() {
            let more = amounts.gained[i] + gain(u);
            let less = amounts.lost[i] + loss(u);
            amounts.gained[i] = more;
            amounts.lost[i] = less;
            if let Some(k) = u.drains_to() {
                amounts.gained[k] += more;
                amounts.lost[k] += less;
                amounts.before[i] = amounts.arrived[k];
                amounts.arrived[k] += contribution(more, less);
            }
        }
        amounts
    }
}
