// The fields of a title. Each step matches on its kind: a rule of the project.
ghost use Rattle.std.specs.Prelude.{◌≡◌, ◌&&◌};
ghost use Rattle.basin.specs.Sound as sounds;

use model::{Answer, Balance, Refusal, Title};

// How many uses there are.
const USES: usize = 7;

// A number from 1 to the last.
pub fn exists(last: usize, number: u8) -> bool
    ensures { result ≡ sounds.exists last number }
{
    (1..=last).contains(&usize::from(number))
}

// A volume is not 0 and not above 10,000,000.
pub fn is_volume(volume: u32) -> bool
    ensures { result ≡ sounds.is_volume volume }
{
    (1..=Balance::TERM).contains(&volume)
}

// A title's units and aquifers exist, of n units and m aquifers.
fn places_exist(t: Title, n: usize, m: usize) -> bool
    ensures { result ≡ sounds.places_exist n m t }
{
    match t {
        Title::UnitWithdrawal { unit, .. } => exists(n, unit),
        Title::AquiferWithdrawal { aquifer, .. } => exists(m, aquifer),
        Title::UnitTransfer { from, to, .. } => exists(n, from) && exists(n, to),
        Title::AquiferTransfer { aquifer, unit, .. }
        | Title::ReturningWithdrawal { aquifer, unit, .. } => exists(m, aquifer) && exists(n, unit),
    }
}

// A title's use exists, if it has one.
fn use_exists(t: Title) -> bool
    ensures { result ≡ sounds.use_exists t }
{
    match t {
        Title::UnitWithdrawal { usage, .. } | Title::ReturningWithdrawal { usage, .. } => {
            exists(USES, usage)
        }
        Title::AquiferWithdrawal { .. }
        | Title::UnitTransfer { .. }
        | Title::AquiferTransfer { .. } => true,
    }
}

// A title that names a unit, an aquifer or a use that is not there, of n units and m aquifers.
pub fn missing(t: Title, n: usize, m: usize) -> Answer
    ensures { result ≡ sounds.missing_fault n m t }
{
    if !places_exist(t, n, m) {
        return Err(Refusal::NoSuchPlace);
    }
    if !use_exists(t) {
        return Err(Refusal::NoSuchUse);
    }
    Ok(())
}

// A title's units, aquifers and use exist, and its volume is in its range.
pub fn title_sound(t: Title, units: usize, aquifers: usize) -> bool
    ensures { result ≡ sounds.sound_title units aquifers t }
{
    places_exist(t, units, aquifers) && use_exists(t) && is_volume(t.volume())
}
