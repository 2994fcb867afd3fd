// Committed volume and own reserve: a demand split over running totals.
ghost use Rattle.std.specs.Prelude.{◌≡◌, ◌-◌, ◌+◌, ◌*◌, ◌/◌, ◌≤◌, ◌<◌};
ghost use Rattle.river.specs.Passes.{Splits, from_below, from_own};
ghost use Rattle.river.specs.Limits.{split_limit};

use model::Unit;

// What a unit contributes to its downstream unit: its flow, or 0 where that is negative.
pub fn contribution(gained: u64, lost: u64) -> u64
    ensures { result ≡ gained - lost }
{
    gained.saturating_sub(lost)
}

// A unit with so much committed and so much arrived from above, whose demand is small enough to be split over its contributors: the units
// that drain straight into it, in number order, and last itself.
#[derive(Clone, Copy)]
pub struct Split<'a> {
    pub unit: &'a Unit,
    pub committed: u64,
    pub arrived: u64,
    pub ghost splits: { Splits unit.now committed arrived },
}

impl Split<'_> {
    ghost use Rattle.river.specs.Split.{demand_of, total_of};

    // The unit's demand: extraction, exports, evaporation and committed volume.
    fn demand(&self) -> u64
        ensures { result ≡ demand_of self.now }
    {
        u64::from(self.unit.extraction)
            + u64::from(self.unit.exports)
            + u64::from(self.unit.evaporation)
            + self.committed
    }

    // The total of its contributors: what has arrived, and what the unit contributes to itself, its natural runoff, returns and imports.
    fn total(&self) -> u64
        ensures { result ≡ total_of self.now }
    {
        self.arrived
            + u64::from(self.unit.runoff)
            + u64::from(self.unit.returns)
            + u64::from(self.unit.imports)
    }

    // The floor of what so much contributed gets of the demand. Where nothing is contributed the division is spared.
    fn part(&self, contributed: u64) -> u64
        requires some { 0 < total_of self.now }
        requires within { contributed ≤ split_limit }
        ensures { result ≡ demand_of self.now * contributed / total_of self.now }
    {
        if contributed == 0 {
            return 0;
        }
        self.demand() * contributed / self.total()
    }

    // What a unit above gets of the demand, with what the contributors before it contribute and its own contribution: the floor with its own
    // less the floor without it.
    pub fn share_above(&self, before: u64, own: u64) -> u64
        requires { before + own ≤ total_of self.now }
        ensures { result ≡ from_below self.now.unit.now self.now.committed self.now.arrived before own }
    {
        let total = self.total();
        if total == 0 {
            return 0;
        }
        self.demand() * (before + own) / total - self.part(before)
    }

    // What the unit gets of its own demand: what the units above leave of it.
    pub fn share_own(&self) -> u64
        ensures { result ≡ from_own self.now.unit.now self.now.committed self.now.arrived }
    {
        let demand = self.demand();
        if self.total() == 0 {
            return demand;
        }
        demand - self.part(self.arrived)
    }
}
