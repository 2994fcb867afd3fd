// The records of a book: their bytes, marks and fields, the faults of a description's records, and the calls.
#![tactic(auto)]

ghost use Rattle.std.specs.Prelude.{◌≡◌};
ghost use Rattle.record.specs.Calls as ends;

mod bytes;
mod calls;
mod fault;
mod fields;

pub use bytes::{bits8, bits16, bits32, signed_bits32};
pub use calls::call_at;
pub use fault::{
    aquifer_fault, closing_fault, gauge_fault, rain_fault, rain_outside, soil_fault, soil_outside,
    unit_fault,
};
pub use fields::{
    aquifer_record, gauged_record, mark_of, soil_record, unit_of, unit_record, with_soil, with_year,
};
use model::{Answer, Call, Refusal};

// A unit as its book describes it: the offset of its UN mark, the fields of its UN, and of the records after it how many soil records
// there are, their hectares and weighted hectares, how many years there are and their sum (rain years in 6,000,000,000ths).
// It holds no `Unit` and no `Years`: a unit has a runoff, which only closing gives, and years have a flag, which `soils` gives. It holds no `Soils`:
// the definitions of the records and of their faults name each of its fields.
#[derive(Clone, Copy, Default)]
pub struct UnitRecord {
    pub at: usize,
    pub downstream: u8,
    pub extraction: u32,
    pub exports: u32,
    pub imports: u32,
    pub returns: u32,
    pub evaporation: u32,
    pub storage: i64,
    pub commitment: u32,
    pub soils: u64,
    pub hectares: u64,
    pub weighted: u64,
    pub years: u64,
    pub sum: i64,
}

// How far a description is read: how many units and aquifers there are, and the open unit, which is the last. The open unit is no Option: the
// faults count the units, and there is an open one exactly where that count is not 0.
#[derive(Clone, Copy, Default)]
pub struct Progress {
    pub units: usize,
    pub aquifers: usize,
    pub open: UnitRecord,
}

// The mark of a record of a description, or of a call.
#[derive(Clone, Copy)]
pub enum Mark {
    Un,
    Su,
    Pr,
    Pd,
    Af,
    Ac,
    Call,
}

// The mark of a call.
#[derive(Clone, Copy)]
pub enum CallMark {
    Gu,
    Ga,
    Tu,
    Ta,
    Gw,
    Ca,
}

// What stands at an offset after the description: nothing more, a record that fails with 1 or 2, or a call and the offset of the next
// record. With three outcomes it is no Option and no Result.
#[derive(Clone, Copy)]
pub enum CallAt {
    End,
    Fails { refusal: Refusal },
    Asks { call: Call, to: usize },
}

// A refusal, and its place: the offset of a mark, or the number of a unit.
#[derive(Clone, Copy, PartialEq, Eq, Debug)]
pub struct Failure {
    pub refusal: Refusal,
    pub place: usize,
}

// An answer with the place of its refusal.
pub fn located(answer: Answer, place: usize) -> Result<(), Failure>
    ensures { result ≡ ends.located answer place }
{
    answer.map_err(|refusal| Failure { refusal, place })
}

// How the calls of a book end: with the book, or with a record that is short or unknown.
pub type Ending = Result<(), Failure>;
