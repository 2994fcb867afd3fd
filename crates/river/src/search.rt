// The search for a unit at fault.
ghost use Rattle.std.specs.Prelude.{◌≡◌, not};
ghost use Rattle.std.specs.Int.Signed.{non_neg};
ghost use Rattle.model.specs.Answers.{first};
ghost use Rattle.river.specs.Flow.{flow};
ghost use Rattle.river.specs.Units.{units_of};

use crate::flow::{gain, loss};
use crate::tree::Tree;
use model::Balance;

impl Tree<'_> {
    // The lowest-numbered unit with a negative flow, if there is one: more is lost at it than arrives from above and is gained there. Forward
    // over the units, the flow of each goes on to its downstream unit. The array has a place for each unit that there can be: there is no heap.
    pub fn first_negative(&self) -> Option<usize>
        ensures { let v = units_of self.now in result ≡ first v.units (λ j. not (non_neg (flow v j))) }
    {
        let units = self.units();
        let mut arrived = [0; Balance::UNITS];
        // A rule of the project fixes that a loop over units yields the first one at fault by `break`.
        'search: {
            for (i, u) in units.iter().enumerate() {
                let gained = arrived[i] + gain(u);
                let lost = loss(u);
                if gained < lost {
                    break 'search Some(i);
                }
                if let Some(k) = u.drains_to() {
                    arrived[k] += gained - lost;
                }
            }
            None
        }
    }
}
