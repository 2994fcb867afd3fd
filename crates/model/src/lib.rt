// The balance of a basin book: units, aquifers and titles, by value.
#![tactic(auto)]

ghost use Rattle.std.specs.Prelude.{◌≡◌};
ghost use Rattle.model.specs.Fresh as fresh;
ghost use Rattle.model.specs.Answers as answers;
ghost use Rattle.model.specs.Entries as entries;

mod ranges;

pub use ranges::{are_terms, is_committed, is_onward, is_storage, is_term};

// A basin unit: the number of its downstream unit (0 for an outlet), its entries with its titles in, and its natural runoff.
// All volumes are thousand m³; a rise of storage is positive. The downstream number stays a number: a balance that is handed in may hold any,
// and a wrong one is refused under the number of its fault.
#[derive(Clone, Copy, Default)]
pub struct Unit {
    pub downstream: u8,
    pub extraction: u32,
    pub exports: u32,
    pub imports: u32,
    pub returns: u32,
    pub evaporation: u32,
    pub storage: i64,
    pub commitment: u32,
    pub runoff: u32,
}

// An aquifer: storage change, natural and pumped discharge, committed natural discharge, and titled extraction in all.
#[derive(Clone, Copy, Default)]
pub struct Aquifer {
    pub storage: i64,
    pub natural: u32,
    pub pumped: u32,
    pub committed: u32,
    pub extraction: u32,
}

// A title is one of five kinds: a withdrawal from a unit or an aquifer, a transfer from a unit or an aquifer, and a withdrawal from an
// aquifer whose return goes to a unit. A rule of the project fixes that they are an enum, on which each step of the register matches. Units,
// aquifers and uses stay numbers: a title that is handed in may hold any, and a wrong one is refused under the number of its fault.
#[derive(Clone, Copy)]
pub enum Title {
    UnitWithdrawal {
        unit: u8,
        usage: u8,
        volume: u32,
    },
    AquiferWithdrawal {
        aquifer: u8,
        volume: u32,
    },
    UnitTransfer {
        from: u8,
        to: u8,
        volume: u32,
    },
    AquiferTransfer {
        aquifer: u8,
        unit: u8,
        volume: u32,
    },
    ReturningWithdrawal {
        aquifer: u8,
        unit: u8,
        usage: u8,
        volume: u32,
    },
}

// A place of the register: a title, and whether it is in force. The flag stays, since a cancelled title keeps its place.
#[derive(Clone, Copy)]
pub struct Place {
    pub title: Title,
    pub in_force: bool,
}

// Units and aquifers are numbered from 1 in file order: number n stands at index n - 1. So do titles, of which `given` numbers were given.
// A rule of the project fixes the form: a struct by value, of arrays with counts beside them, since there is no heap.
#[derive(Clone, Copy)]
pub struct Balance {
    pub units: [Unit; Balance::UNITS],
    pub unit_count: usize,
    pub aquifers: [Aquifer; Balance::AQUIFERS],
    pub aquifer_count: usize,
    pub titles: [Place; Balance::TITLES],
    pub given: usize,
}

// Why a description, a record or a call is refused. The numbers are those that are printed and that the paper lists.
#[derive(Clone, Copy, PartialEq, Eq, Debug)]
pub enum Refusal {
    // The balance or the state that is handed in breaks a rule of the register.
    Unsound = 0,
    // Fewer bytes are left than a mark or its body.
    Short = 1,
    UnknownMark = 2,
    OutOfSequence = 3,
    // One unit, aquifer, soil record or year too many.
    TooMany = 4,
    // A field outside its values.
    OutsideValues = 5,
    // A unit with fewer than 20 years.
    FewYears = 6,
    // A unit above 300,000 hectares.
    LargeUnit = 7,
    // A downstream number not above the unit's own, or above the last unit's.
    BadDownstream = 8,
    // A gauged sum that is negative or above 10,000,000 times the years.
    BadGauge = 9,
    NegativeFlow = 10,
    NegativeRecharge = 11,
    // No such unit or aquifer.
    NoSuchPlace = 12,
    NoSuchUse = 13,
    // A volume of 0 or above 10,000,000.
    BadVolume = 14,
    // 256 numbers are given.
    NumbersGiven = 15,
    // An entry would pass 10,000,000.
    EntryFull = 16,
    NoWater = 17,
    // The receiver is the giver or lies below it.
    ReceiverBelow = 18,
    NotInForce = 19,
    // Some flow would be negative without the title.
    FlowNeeded = 20,
    // A book or a journal that is too long.
    TooLong = 21,
    // A fifth name.
    FifthName = 22,
    NoSuchName = 23,
    // A window outside 20 to 50 years or longer than its record, or a record above 200 years.
    BadWindow = 24,
}

// The answer of opening and of a call: accepted, or refused.
pub type Answer = Result<(), Refusal>;

// What a call asks: a title to be granted (GU, GA, TU, TA, GW), or the number of a title to be cancelled (CA).
#[derive(Clone, Copy)]
pub enum Call {
    Grant { title: Title },
    Cancel { number: u16 },
}

impl Title {
    // The volume of a title of any kind.
    pub fn volume(self) -> u32
        ensures { result ≡ entries.volume_of self }
    {
        match self {
            Title::UnitWithdrawal { volume, .. }
            | Title::AquiferWithdrawal { volume, .. }
            | Title::UnitTransfer { volume, .. }
            | Title::AquiferTransfer { volume, .. }
            | Title::ReturningWithdrawal { volume, .. } => volume,
        }
    }
}

impl Refusal {
    // The number that the paper gives the refusal.
    // The cast reads the variants' own numbers: a `match` of 25 arms would list them a second time.
    pub fn number(self) -> u8
        ensures { result ≡ answers.number self }
    {
        self as u8
    }
}

impl Unit {
    // A place of the balance that holds no unit. Here and below, `empty` stays beside `Default`: its contract names the value as the fresh
    // balance's does.
    pub fn empty() -> Self
        ensures { result ≡ fresh.empty_unit }
    {
        Unit::default()
    }

    // The index of the downstream unit, if the unit is no outlet.
    #[inline]
    pub fn drains_to(&self) -> Option<usize>
        ensures { entries.DrainsTo self.now result }
    {
        usize::from(self.downstream).checked_sub(1)
    }
}

impl Aquifer {
    // A place of the balance that holds no aquifer.
    pub fn empty() -> Self
        ensures { result ≡ fresh.empty_aquifer }
    {
        Aquifer::default()
    }
}

// By hand: a derive would ask a default of `Title`, which has none.
impl Default for Place {
    ghost is_default = { λ place. place ≡ fresh.empty_place };

    fn default() -> Self {
        Place {
            title: Title::UnitWithdrawal {
                unit: 0,
                usage: 0,
                volume: 0,
            },
            in_force: false,
        }
    }
}

impl Place {
    // A place of the register that holds no title.
    pub fn empty() -> Self
        ensures { result ≡ fresh.empty_place }
    {
        Place::default()
    }
}

impl Balance {
    // How many units, aquifers and titles one balance holds at most.
    pub const UNITS: usize = 64;

    pub const AQUIFERS: usize = 32;

    pub const TITLES: usize = 256;
    // The largest term.
    pub const TERM: u32 = 10000000;

    // The fresh balance: no units, no aquifers and no titles.
    pub fn fresh() -> Self
        ensures { result ≡ fresh.fresh_balance }
    {
        let unit = Unit::empty();
        let aquifer = Aquifer::empty();
        let place = Place::empty();
        Balance {
            units: [unit; Self::UNITS],
            unit_count: 0,
            aquifers: [aquifer; Self::AQUIFERS],
            aquifer_count: 0,
            titles: [place; Self::TITLES],
            given: 0,
        }
    }
}
