// One record of a description: what it does.
ghost use Rattle.std.specs.Prelude.{◌≡◌, ◌-◌, ◌≤◌, length, ltb};
ghost use Rattle.model.specs.declared.Refusal.TheVariants.{Short};
ghost use Rattle.model.specs.Answers.{accepted, refuse};
ghost use Rattle.record.specs.Calls.{located};
ghost use Rattle.record.specs.Fault.{Sane};
ghost use Rattle.book.specs.Steps as steps;

use crate::Next;
use model::Refusal;
use record::{
    Failure, Mark, Progress, aquifer_fault, aquifer_record, bits16, closing_fault, gauge_fault,
    gauged_record, located, mark_of, rain_fault, soil_fault, soil_record, unit_fault, unit_record,
    with_soil, with_year,
};
use runoff::{Measure, Rain, Soils};

// How many bytes a record has, its mark among them.
const UNIT: usize = 31;

const SOIL: usize = 8;

const RAIN: usize = 4;

const GAUGE: usize = 34;

const AQUIFER: usize = 22;

// A book that is being read: the offset of the next record, which lies in the book or at its end, and how far its description is read. The
// counts and sums of its open unit are small enough to be added to.
#[derive(Clone, Copy)]
pub struct Reader<'a> {
    pub book: &'a [u8],
    pub at: usize,
    pub progress: &'a Progress,
    ghost inside: { at ≤ length book.now },
    ghost sane: { Sane progress.now.open },
}

impl Reader<'_> {
    // Whether so many bytes are left.
    fn whole(&self, size: usize) -> Result<(), Failure>
        ensures { result ≡ located (refuse Short (ltb (length self.now.book.now - self.now.at) size) accepted) self.now.at }
    {
        if self.book.len() - self.at < size {
            return located(Err(Refusal::Short), self.at);
        }
        Ok(())
    }

    // A UN closes the open unit, then opens the next.
    fn unit_step(&self) -> Result<Next, Failure>
        ensures { let p = self.now.progress.now in result ≡ steps.unit_step self.now.book.now self.now.at p.open p.units p.aquifers }
    {
        self.whole(UNIT)?;
        located(closing_fault(self.progress), self.progress.open.at)?;
        let unit = unit_record(self.book, self.at);
        located(unit_fault(self.progress, unit), self.at)?;
        Ok(Next::Opens {
            unit,
            to: self.at + UNIT,
        })
    }

    // An SU belongs to the open unit.
    fn soil_step(&self) -> Result<Next, Failure>
        ensures { let p = self.now.progress.now in result ≡ steps.soil_step self.now.book.now self.now.at p.open p.units p.aquifers }
    {
        self.whole(SOIL)?;
        let plot = soil_record(self.book, self.at);
        located(soil_fault(self.progress, &plot), self.at)?;
        Ok(Next::Grows {
            unit: with_soil(self.progress.open, &plot),
            to: self.at + SOIL,
        })
    }

    // A PR or PD belongs to the open unit.
    fn rain_step(&self, measure: Measure) -> Result<Next, Failure>
        ensures { let p = self.now.progress.now in result ≡ steps.rain_step measure self.now.book.now self.now.at p.open p.units p.aquifers }
    {
        self.whole(RAIN)?;
        let rain = Rain {
            measure,
            depth: u32::from(bits16(self.book, self.at + 2)),
        };
        let tenths = rain.in_tenths();
        located(rain_fault(self.progress, tenths), self.at)?;
        let soils = Soils {
            area: self.progress.open.hectares,
            weighted: self.progress.open.weighted,
        };
        let year = soils.rain_year(tenths);
        Ok(Next::Grows {
            unit: with_year(self.progress.open, year.cast_signed()),
            to: self.at + RAIN,
        })
    }

    // An AF belongs to the open unit.
    fn gauge_step(&self) -> Result<Next, Failure>
        ensures { let p = self.now.progress.now in result ≡ steps.gauge_step self.now.book.now self.now.at p.open p.units p.aquifers }
    {
        self.whole(GAUGE)?;
        let gauged = gauged_record(self.book, self.at);
        located(gauge_fault(self.progress, &gauged), self.at)?;
        Ok(Next::Grows {
            unit: with_year(self.progress.open, gauged.year()),
            to: self.at + GAUGE,
        })
    }

    // An AC closes the open unit, then adds an aquifer.
    fn aquifer_step(&self) -> Result<Next, Failure>
        ensures { let p = self.now.progress.now in result ≡ steps.aquifer_step self.now.book.now self.now.at p.open p.units p.aquifers }
    {
        self.whole(AQUIFER)?;
        located(closing_fault(self.progress), self.progress.open.at)?;
        let aquifer = aquifer_record(self.book, self.at);
        located(aquifer_fault(self.progress, aquifer), self.at)?;
        Ok(Next::Adds {
            aquifer,
            to: self.at + AQUIFER,
        })
    }

    // What stands at the offset does to the description so far.
    #[tactic(auto, unfolding(crate::specs::Steps::next))]
    pub fn next(&self) -> Result<Next, Failure>
        ensures { let p = self.now.progress.now in result ≡ steps.next self.now.book.now self.now.at p.open p.units p.aquifers }
    {
        if self.at == self.book.len() {
            return Ok(Next::Ends);
        }
        self.whole(2)?;
        match mark_of(self.book[self.at], self.book[self.at + 1]) {
            Some(Mark::Un) => self.unit_step(),
            Some(Mark::Su) => self.soil_step(),
            Some(Mark::Pr) => self.rain_step(Measure::Millimetres),
            Some(Mark::Pd) => self.rain_step(Measure::Tenths),
            Some(Mark::Af) => self.gauge_step(),
            Some(Mark::Ac) => self.aquifer_step(),
            Some(Mark::Call) => Ok(Next::Ends),
            None => Err(Failure {
                refusal: Refusal::UnknownMark,
                place: self.at,
            }),
        }
    }
}
