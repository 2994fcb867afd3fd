// Which outlet a unit drains to.
ghost use Rattle.river.specs.Units.{units_of};
ghost use Rattle.reach.specs.Passes.{Outlets};

use model::Balance;
use river::Tree;

// Backward over the units: an outlet is its own, another unit's outlet is its downstream unit's. By index: over `.enumerate().rev()` the loop's
// invariant would be about what the iterator has left, in place of the index. The array has a place for each unit that there can be: there is no heap.
pub fn outlets(tree: &Tree) -> [usize; Balance::UNITS]
    ensures { Outlets (units_of tree.now) result }
{
    let units = tree.units();
    let mut ends = [0; Balance::UNITS];
    for i in (0..units.len()).rev() {
        ends[i] = match units[i].drains_to() {
            None => i,
            Some(k) => ends[k],
        };
    }
    ends
}
