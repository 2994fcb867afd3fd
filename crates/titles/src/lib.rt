// What titles add to the entries of units and aquifers. Each step matches on the kind of the title: a rule of the project.
#![tactic(auto)]

ghost use Rattle.std.specs.Prelude.{◌≡◌};
ghost use Rattle.titles.specs.Adds as adds;
ghost use Rattle.titles.specs.Posting.{post};
ghost use Rattle.titles.specs.Titled as whole;

use model::{Balance, Title};

// What titles add together to each entry, for each unit or aquifer: number n stands at n - 1. Five arrays, since `specs/` states each of the
// five by itself and `add` raises one entry at a time; `wells` has as many places as the others, so that one `raise` serves all.
// There is no heap, so each has all places.
#[derive(Clone, Copy)]
pub struct Sums {
    pub extraction: [u64; Balance::UNITS],
    pub exports: [u64; Balance::UNITS],
    pub imports: [u64; Balance::UNITS],
    pub returns: [u64; Balance::UNITS],
    pub wells: [u64; Balance::UNITS],
}

// The percentage of a use that returns: 1 agriculture, 2 urban, 3 industry, 4 domestic, 5 livestock, 6 aquaculture,
// 7 power; 0 for a use outside 1 to 7.
pub fn return_percent(usage: u8) -> u64
    ensures { result ≡ adds.return_percent usage }
{
    match usage {
        1 => 20,
        2 => 75,
        3 => 55,
        4 => 75,
        5 => 15,
        6 => 100,
        7 => 100,
        _ => 0,
    }
}

// floor(volume × r / 100), r being the percentage of the use.
// The cast fits, since no percentage is above 100: `try_from` would add a branch that never runs.
pub fn returned(usage: u8, volume: u32) -> u32
    ensures { result ≡ adds.returned usage volume }
{
    (u64::from(volume) * return_percent(usage) / 100) as u32
}

// The amount of one posting is added at its number. A number that is 0 or above 64 is passed over.
// The place is tested and indexed: after `get_mut` a proof would know nothing of what the array holds. The parameter is the whole array, as in
// `Sums`, so that its length is known.
fn raise(sums: &mut [u64; Balance::UNITS], number: u8, amount: u32)
    requires { whole.HasRoom sums.old }
    ensures { whole.Raised sums.old (post number amount) sums.new }
{
    let Some(place) = usize::from(number).checked_sub(1) else {
        return;
    };
    if place < Balance::UNITS {
        sums[place] += u64::from(amount);
    }
}

impl Sums {
    // Nothing is added to any entry.
    pub fn none() -> Self
        ensures { result ≡ whole.no_sums }
    {
        Sums {
            extraction: [0; Balance::UNITS],
            exports: [0; Balance::UNITS],
            imports: [0; Balance::UNITS],
            returns: [0; Balance::UNITS],
            wells: [0; Balance::UNITS],
        }
    }

    // What a title adds. A withdrawal from a unit adds its volume to the extraction and its return to the returns; a withdrawal from an
    // aquifer to the aquifer's extraction; a transfer from a unit to the giver's exports and the receiver's imports; a transfer from an
    // aquifer to the aquifer's extraction and the unit's imports; a withdrawal from an aquifer that returns to a unit adds its volume to the
    // aquifer's extraction and its return to the unit's returns. One match over the five kinds: their fields make its length.
    #[tactic(auto, using(crate::proofs::Raising::rooms))]
    pub fn add(&mut self, title: Title)
        requires { whole.AllHaveRoom self.old }
        ensures { whole.RaisedAll title self.old self.new }
    {
        match title {
            Title::UnitWithdrawal {
                unit,
                usage,
                volume,
            } => {
                raise(&mut self.extraction, unit, volume);
                raise(&mut self.returns, unit, returned(usage, volume));
            }
            Title::AquiferWithdrawal { aquifer, volume } => {
                raise(&mut self.wells, aquifer, volume);
            }
            Title::UnitTransfer { from, to, volume } => {
                raise(&mut self.exports, from, volume);
                raise(&mut self.imports, to, volume);
            }
            Title::AquiferTransfer {
                aquifer,
                unit,
                volume,
            } => {
                raise(&mut self.wells, aquifer, volume);
                raise(&mut self.imports, unit, volume);
            }
            Title::ReturningWithdrawal {
                aquifer,
                unit,
                usage,
                volume,
            } => {
                let back = returned(usage, volume);
                raise(&mut self.wells, aquifer, volume);
                raise(&mut self.returns, unit, back);
            }
        }
    }
}
