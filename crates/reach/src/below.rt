// Which units lie below a unit.
ghost use Rattle.std.specs.Prelude.{◌≡◌, ◌<◌, length};
ghost use Rattle.river.specs.Units.{units_of};
ghost use Rattle.reach.specs.Reach.{lies_below};

use river::Tree;

// Whether the unit at index w lies below the unit at index u: it is u's downstream unit or lies below that one. A rule of the project fixes
// that this test calls itself on the downstream unit; the distance from the unit number to 64 falls.
pub fn lies_below(tree: &Tree, u: usize, w: usize) -> bool
    requires { u < length tree.now }
    ensures { result ≡ lies_below (units_of tree.now) u w }
{
    let units = tree.units();
    match units[u].drains_to() {
        None => false,
        Some(next) => next == w || lies_below(tree, next, w),
    }
}
