// The refusals of reading.
ghost use Rattle.std.specs.Prelude.{◌≡◌, ◌≤◌};
ghost use Rattle.runoff.specs.declared.Measure.TheVariants.{Tenths};
ghost use Rattle.record.specs.Fault as faults;
ghost use Rattle.record.specs.Fault.{Sane};

use crate::{Progress, UnitRecord};
use figures::is_recharged;
use model::{
    Answer, Aquifer, Balance, Refusal, are_terms, is_committed, is_onward, is_storage, is_term,
};
use runoff::{Gauged, Plot};

// A gauged sum that is negative or above 10,000,000 times the years.
fn bad_sum(u: UnitRecord) -> bool
    requires { u.years ≤ 50 }
    ensures { result ≡ faults.bad_gauge u.soils u.years u.sum }
{
    u.soils == 0
        && (laws::below(u.sum) > 0 || laws::above(u.sum) > u64::from(Balance::TERM) * u.years)
}

// Closing the open unit, if there is one: too few years, or a bad gauged sum.
pub fn closing_fault(p: &Progress) -> Answer
    requires { p.now.open.years ≤ 50 }
    ensures { result ≡ faults.closing_fault p.now.units p.now.open }
{
    let u = p.open;
    if p.units == 0 {
        return Ok(());
    }
    if u.years < 20 {
        return Err(Refusal::FewYears);
    }
    if bad_sum(u) {
        return Err(Refusal::BadGauge);
    }
    Ok(())
}

// A field of a UN outside its values.
fn unit_outside(u: UnitRecord) -> bool
    ensures { result ≡ faults.unit_outside u }
{
    !are_terms(&[u.extraction, u.exports, u.imports, u.returns, u.evaporation])
        || !is_term(u.commitment)
        || !is_committed(u.downstream, u.commitment)
        || !is_storage(u.storage)
}

// The fault of a UN.
pub fn unit_fault(p: &Progress, u: UnitRecord) -> Answer
    ensures { result ≡ faults.unit_fault p.now.units p.now.aquifers u }
{
    if 0 < p.aquifers {
        return Err(Refusal::OutOfSequence);
    }
    if Balance::UNITS <= p.units {
        return Err(Refusal::TooMany);
    }
    if unit_outside(u) {
        return Err(Refusal::OutsideValues);
    }
    if !is_onward(p.units, u.downstream) {
        return Err(Refusal::BadDownstream);
    }
    Ok(())
}

// A field of an SU outside its values.
pub fn soil_outside(plot: &Plot) -> bool
    ensures { result ≡ faults.soil_outside plot.now.cover plot.now.soil plot.now.hectares }
{
    !(1..=14).contains(&plot.cover)
        || !(1..=3).contains(&plot.soil)
        || !(1..=300000).contains(&plot.hectares)
}

// The fault of an SU. `Sane` stays a clause: as an invariant of `Progress` or of its open unit it would ask more of callers of the other faults.
pub fn soil_fault(p: &Progress, plot: &Plot) -> Answer
    requires { Sane p.now.open }
    ensures { result ≡ faults.soil_fault p.now.units p.now.aquifers p.now.open plot.now.cover plot.now.soil plot.now.hectares }
{
    let u = p.open;
    if 0 < p.aquifers || p.units == 0 || 0 < u.years {
        return Err(Refusal::OutOfSequence);
    }
    if 16 <= u.soils {
        return Err(Refusal::TooMany);
    }
    if soil_outside(plot) {
        return Err(Refusal::OutsideValues);
    }
    if 300000 < u.hectares + u64::from(plot.hectares) {
        return Err(Refusal::LargeUnit);
    }
    Ok(())
}

// A year's rain in tenths outside its values.
pub fn rain_outside(tenths: u64) -> bool
    ensures { result ≡ faults.rain_outside Tenths tenths }
{
    !(3500..=21500).contains(&tenths)
}

// The fault of a year's rain in tenths.
pub fn rain_fault(p: &Progress, tenths: u64) -> Answer
    ensures { result ≡ faults.rain_fault p.now.units p.now.aquifers p.now.open Tenths tenths }
{
    if 0 < p.aquifers || p.units == 0 || p.open.soils == 0 {
        return Err(Refusal::OutOfSequence);
    }
    if 50 <= p.open.years {
        return Err(Refusal::TooMany);
    }
    if rain_outside(tenths) {
        return Err(Refusal::OutsideValues);
    }
    Ok(())
}

// A field of an AF outside its values.
fn gauge_outside(y: &Gauged) -> bool
    ensures { result ≡ faults.gauged_outside y.now }
{
    y.outflow > 2000000000
        || y.inflow > 2000000000
        || !are_terms(&[y.extraction, y.exports, y.imports, y.returns, y.evaporation])
        || !is_storage(y.storage)
}

// The fault of an AF. It looks like a rain's, but an AF wants a unit without soil records, and tests its own fields: one function over both would
// take each test as a parameter.
pub fn gauge_fault(p: &Progress, y: &Gauged) -> Answer
    ensures { result ≡ faults.gauge_fault p.now.units p.now.aquifers p.now.open (faults.gauged_outside y.now) }
{
    if 0 < p.aquifers || p.units == 0 || 0 < p.open.soils {
        return Err(Refusal::OutOfSequence);
    }
    if 50 <= p.open.years {
        return Err(Refusal::TooMany);
    }
    if gauge_outside(y) {
        return Err(Refusal::OutsideValues);
    }
    Ok(())
}

// The fault of an AC.
pub fn aquifer_fault(p: &Progress, a: Aquifer) -> Answer
    ensures { result ≡ faults.aquifer_fault p.now.aquifers a }
{
    if Balance::AQUIFERS <= p.aquifers {
        return Err(Refusal::TooMany);
    }
    if !a.is_within() {
        return Err(Refusal::OutsideValues);
    }
    if !is_recharged(&a) {
        return Err(Refusal::NegativeRecharge);
    }
    Ok(())
}
