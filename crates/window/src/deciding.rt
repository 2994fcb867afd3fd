// The refusals of the moving window.
ghost use Rattle.std.specs.Prelude.{◌≡◌, Err, MatchResult};
ghost use Rattle.model.specs.Answers.{accepted};
ghost use Rattle.runoff.specs.Walk.{walked, no_soils};
ghost use Rattle.window.specs.Refused as refused;

use crate::Windows;
use model::Refusal;
use runoff::{Plot, Soils};

// A window outside 20 to 50 years, longer than the record, or a record above 200 years.
fn bad_window(width: usize, years: usize) -> bool
    ensures { result ≡ refused.bad_window width years }
{
    width < Windows::SHORTEST
        || Windows::LONGEST < width
        || years < width
        || Windows::RECORD < years
}

// Some soil record, or some rain year, is outside its values.
fn soils_outside(plots: &[Plot]) -> bool
    ensures { result ≡ refused.soils_outside plots.now }
{
    plots.iter().any(|plot| record::soil_outside(plot))
}

fn rains_outside(tenths: &[u16]) -> bool
    ensures { result ≡ refused.rains_outside tenths.now }
{
    tenths
        .iter()
        .any(|tenths| record::rain_outside(u64::from(*tenths)))
}

// The first refusal that applies, or else the two sums of the soil records, which are walked once.
pub(crate) fn decide(plots: &[Plot], tenths: &[u16], width: usize) -> Result<Soils, Refusal>
    ensures { MatchResult result
        (λ soils. (refused.windows_refusal plots.now tenths.now width ≡ accepted) × (soils ≡ walked no_soils plots.now))
        (λ r. refused.windows_refusal plots.now tenths.now width ≡ Err r) }
{
    if bad_window(width, tenths.len()) {
        return Err(Refusal::BadWindow);
    }
    if plots.is_empty() {
        return Err(Refusal::OutOfSequence);
    }
    if Windows::SOILS < plots.len() {
        return Err(Refusal::TooMany);
    }
    if soils_outside(plots) {
        return Err(Refusal::OutsideValues);
    }
    let none = Soils {
        area: 0,
        weighted: 0,
    };
    let soils = none.walk(plots);
    if 300000 < soils.area {
        return Err(Refusal::LargeUnit);
    }
    if rains_outside(tenths) {
        return Err(Refusal::OutsideValues);
    }
    Ok(soils)
}
