// Natural runoff of a unit: K by cover and soil, what a rain year and a gauged year give, and their rounded mean.
#![tactic(auto)]

ghost use Rattle.std.specs.Prelude.{◌≡◌, ◌-◌, ◌≤◌, ◌<◌};
ghost use Rattle.runoff.specs.Soil.{Known, Tabled};
ghost use Rattle.runoff.specs.Walk.{Walkable, walked};
ghost use Rattle.runoff.specs.Year as year;
ghost use Rattle.runoff.specs.Year.{RainRange, StorageRange};
ghost use Rattle.runoff.specs.Mean.{Divides, MeanRange};
ghost use Rattle.runoff.specs.Mean as means;
ghost use Rattle.runoff.specs.Record.{gauged_of};

// K in hundredths, a row for each cover from 1 to 14, for soils A, B, C. The project fixes that it is a constant table.
const K: [[u8; 3]; 14] = [
    [26, 28, 30],
    [24, 27, 30],
    [24, 27, 30],
    [24, 27, 30],
    [14, 20, 28],
    [20, 24, 30],
    [24, 28, 30],
    [7, 16, 24],
    [12, 22, 26],
    [17, 26, 28],
    [22, 28, 30],
    [26, 29, 32],
    [27, 30, 33],
    [18, 24, 30],
];

// A soil record: so many hectares of a cover on a soil.
// Cover and soil stay numbers: they count the rows and columns of K, and enums of them would only be turned back into numbers.
#[derive(Clone, Copy)]
pub struct Plot {
    pub cover: u8,
    pub soil: u8,
    pub hectares: u32,
}

impl Plot {
    // K of the cover and the soil.
    #[tactic(auto, using(crate::proofs::Table::coefficient_within), unfolding(crate::specs::Soil::coefficient, crate::specs::Soil::coefficients))]
    pub fn coefficient(self) -> u64
        requires { Known self.cover self.soil }
        ensures { Tabled self.cover self.soil result }
    {
        let row = K[usize::from(self.cover) - 1];
        u64::from(row[usize::from(self.soil) - 1])
    }
}

// In what a record gives a year's rain: PR in millimetres, PD in tenths of a millimetre.
#[derive(Clone, Copy)]
pub enum Measure {
    Millimetres,
    Tenths,
}

// One year's rain as its record gives it.
#[derive(Clone, Copy)]
pub struct Rain {
    pub measure: Measure,
    pub depth: u32,
}

impl Rain {
    // A year's rain in tenths: PR counts as ten times its number.
    pub fn in_tenths(self) -> u64
        ensures { result ≡ year.in_tenths self.measure self.depth }
    {
        let depth = u64::from(self.depth);
        match self.measure {
            Measure::Millimetres => 10 * depth,
            Measure::Tenths => depth,
        }
    }
}

// What a unit's soil records add up to: A, their hectares, and S, their hectares times K.
#[derive(Clone, Copy)]
pub struct Soils {
    pub area: u64,
    pub weighted: u64,
}

impl Soils {
    // One walk over soil records, going on from these two sums, gives both sums.
    pub fn walk(self, plots: &[Plot]) -> Soils
        requires { Walkable self plots.now }
        ensures { result ≡ walked self plots.now }
    {
        let mut soils = self;
        for plot in plots {
            let hectares = u64::from(plot.hectares);
            soils.area += hectares;
            soils.weighted += hectares * plot.coefficient();
        }
        soils
    }

    // A rain year of p tenths gives p × 3 × S × (p − 2500), and where S exceeds 15 × A also p × 40,000 × (S − 15 × A), in
    // 6,000,000,000ths. The second part stays a branch: with saturating_sub in its place opening a book of rain takes a third more instructions,
    // which misses the bar of 1.5 times the fast model.
    #[tactic(auto, unfolding(crate::specs::Year::rain_year))]
    pub fn rain_year(self, tenths: u64) -> u64
        requires { RainRange self.area self.weighted tenths }
        ensures { result ≡ year.rain_year self.area self.weighted tenths }
    {
        let first = tenths * 3 * self.weighted * tenths.saturating_sub(2500);
        if 15 * self.area < self.weighted {
            first + tenths * 40000 * (self.weighted - 15 * self.area)
        } else {
            first
        }
    }
}

// The volumes of a gauged year.
#[derive(Clone, Copy)]
pub struct Gauged {
    pub outflow: u32,
    pub inflow: u32,
    pub extraction: u32,
    pub exports: u32,
    pub imports: u32,
    pub returns: u32,
    pub evaporation: u32,
    pub storage: i64,
}

impl Gauged {
    // A gauged year gives outflow − inflow + extraction + exports − imports − returns + evaporation + storage change.
    pub fn year(self) -> i64
        requires { StorageRange self.storage }
        ensures { result ≡ gauged_of self }
    {
        let gains = u64::from(self.outflow)
            + u64::from(self.extraction)
            + u64::from(self.exports)
            + u64::from(self.evaporation);
        let losses = u64::from(self.inflow) + u64::from(self.imports) + u64::from(self.returns);
        laws::difference(gains, losses) + self.storage
    }
}

// The whole number nearest to num / den, halves up.
#[tactic(auto, unfolding(crate::specs::Mean::rounded))]
fn rounded(num: u64, den: u64) -> u64
    requires { (num ≤ 3000000000000000000) × (0 < den) × (den ≤ 300000000000) }
    ensures { result ≡ means.rounded num den }
{
    (2 * num + den) / (2 * den)
}

// The years of a unit: whether they are gauged, how many there are, and their sum, of rain years in 6,000,000,000ths. The flag stays, since it
// answers one question, which `divisor` alone asks: an enum of two names would be no plainer.
#[derive(Clone, Copy)]
pub struct Years {
    pub gauged: bool,
    pub count: u64,
    pub sum: i64,
}

impl Years {
    // What the sum of the years is divided by: the number of years, of rain years in 6,000,000,000ths.
    fn divisor(self) -> u64
        requires { (0 < self.count) × (self.count ≤ 50) }
        ensures { Divides self.gauged self.count result }
    {
        if self.gauged {
            self.count
        } else {
            self.count * 6000000000
        }
    }

    // The natural runoff is the mean of the years, rounded once, halves up.
    pub fn natural_runoff(self) -> u64
        requires { MeanRange self.count self.sum }
        ensures { result ≡ means.natural_runoff self.gauged self.count self.sum }
    {
        rounded(laws::above(self.sum), self.divisor())
    }
}
