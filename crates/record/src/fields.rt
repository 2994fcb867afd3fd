// The marks of a book and the records of a description.
ghost use Rattle.std.specs.Prelude.{◌≡◌, ◌+◌, ◌≤◌, length};
ghost use Rattle.runoff.specs.Soil.{Known};
ghost use Rattle.record.specs.Record as records;
ghost use Rattle.record.specs.Described as described;
ghost use Rattle.record.specs.Fault.{Sane, Closed, YearRange};

use crate::bytes::{bits8, bits32, signed_bits32};
use crate::{CallMark, Mark, UnitRecord};
use model::{Aquifer, Unit};
use runoff::{Gauged, Plot, Soils, Years};

// The call that two bytes are the mark of, if they are.
pub(crate) fn call_mark(a: u8, b: u8) -> Option<CallMark>
    ensures { result ≡ records.call_mark a b }
{
    match (a, b) {
        (b'G', b'U') => Some(CallMark::Gu),
        (b'G', b'A') => Some(CallMark::Ga),
        (b'T', b'U') => Some(CallMark::Tu),
        (b'T', b'A') => Some(CallMark::Ta),
        (b'G', b'W') => Some(CallMark::Gw),
        (b'C', b'A') => Some(CallMark::Ca),
        _ => None,
    }
}

// The mark that two bytes are, if they are one.
pub fn mark_of(a: u8, b: u8) -> Option<Mark>
    ensures { result ≡ records.mark_of a b }
{
    match (a, b) {
        (b'P', b'R') => Some(Mark::Pr),
        (b'A', b'F') => Some(Mark::Af),
        (b'P', b'D') => Some(Mark::Pd),
        (b'S', b'U') => Some(Mark::Su),
        (b'U', b'N') => Some(Mark::Un),
        (b'A', b'C') => Some(Mark::Ac),
        _ => call_mark(a, b).map(|_| Mark::Call),
    }
}

// A UN record, with no soil and no years yet.
pub fn unit_record(s: &[u8], i: usize) -> UnitRecord
    requires { i + 31 ≤ length s.now }
    ensures { result ≡ records.unit_record s.now i }
{
    UnitRecord {
        at: i,
        downstream: bits8(s, i + 2),
        extraction: bits32(s, i + 3),
        exports: bits32(s, i + 7),
        imports: bits32(s, i + 11),
        returns: bits32(s, i + 15),
        evaporation: bits32(s, i + 19),
        storage: signed_bits32(s, i + 23),
        commitment: bits32(s, i + 27),
        ..UnitRecord::default()
    }
}

// An AC record.
pub fn aquifer_record(s: &[u8], i: usize) -> Aquifer
    requires { i + 22 ≤ length s.now }
    ensures { result ≡ records.aquifer_record s.now i }
{
    Aquifer {
        storage: signed_bits32(s, i + 2),
        natural: bits32(s, i + 6),
        pumped: bits32(s, i + 10),
        committed: bits32(s, i + 14),
        extraction: bits32(s, i + 18),
    }
}

// An SU record.
pub fn soil_record(s: &[u8], i: usize) -> Plot
    requires { i + 8 ≤ length s.now }
    ensures { result ≡ described.plot_at s.now i }
{
    Plot {
        cover: bits8(s, i + 2),
        soil: bits8(s, i + 3),
        hectares: bits32(s, i + 4),
    }
}

// An AF record.
pub fn gauged_record(s: &[u8], i: usize) -> Gauged
    requires { i + 34 ≤ length s.now }
    ensures { result ≡ described.gauged_at s.now i }
{
    Gauged {
        outflow: bits32(s, i + 2),
        inflow: bits32(s, i + 6),
        extraction: bits32(s, i + 10),
        exports: bits32(s, i + 14),
        imports: bits32(s, i + 18),
        returns: bits32(s, i + 22),
        evaporation: bits32(s, i + 26),
        storage: signed_bits32(s, i + 30),
    }
}

// The unit with a soil record in: the walk over its soil records goes on from its two sums. Here and of a year more, `Sane` stays a clause: as an
// invariant of `UnitRecord` it would ask more of callers of the faults, which take any unit.
pub fn with_soil(u: UnitRecord, plot: &Plot) -> UnitRecord
    requires sane { Sane u }
    requires known { Known plot.now.cover plot.now.soil }
    ensures { result ≡ records.with_soil u plot.now.cover plot.now.soil plot.now.hectares }
{
    let so_far = Soils {
        area: u.hectares,
        weighted: u.weighted,
    };
    let soils = so_far.walk(&[*plot]);
    UnitRecord {
        soils: u.soils + 1,
        hectares: soils.area,
        weighted: soils.weighted,
        ..u
    }
}

// The unit with one year more.
pub fn with_year(u: UnitRecord, year: i64) -> UnitRecord
    requires sane { Sane u }
    requires year_range { YearRange year }
    ensures { result ≡ records.with_year u year }
{
    UnitRecord {
        years: u.years + 1,
        sum: u.sum + year,
        ..u
    }
}

// The unit of the balance that a closed unit gives. Its runoff is proved to fit the cast: `try_from` would add a branch that never runs.
pub fn unit_of(u: UnitRecord) -> Unit
    requires { Closed u }
    ensures { result ≡ records.closed_unit u }
{
    let years = Years {
        gauged: u.soils == 0,
        count: u.years,
        sum: u.sum,
    };
    let runoff = years.natural_runoff();
    Unit {
        downstream: u.downstream,
        extraction: u.extraction,
        exports: u.exports,
        imports: u.imports,
        returns: u.returns,
        evaporation: u.evaporation,
        storage: u.storage,
        commitment: u.commitment,
        runoff: runoff as u32,
    }
}
