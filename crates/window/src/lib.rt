// The moving window: for one unit, the natural runoff of each run of so many years of its rain record, handed in with its soil records and no balance.
#![tactic(auto)]

mod deciding;
mod moving;

ghost use Rattle.std.specs.Prelude.{◌≡◌};
ghost use Rattle.window.specs.Window.{windows_reply};

use deciding::decide;
use model::Answer;
use moving::means;
use runoff::Plot;

// The reply: the answer, 0 as the number, how many windows there are, and the natural runoff of each, the first from the oldest years. Places beyond
// them are 0. The count stands beside the array, since a window's runoff may be 0.
#[derive(Clone, Copy)]
pub struct Windows {
    pub answer: Answer,
    pub number: u16,
    pub count: usize,
    pub runoffs: [u32; Windows::PLACES],
}

impl Windows {
    // As many places as a record of 200 years has windows of 20.
    pub const PLACES: usize = 181;

    // The shortest and the longest window, and the longest record, in years.
    pub const SHORTEST: usize = 20;

    pub const LONGEST: usize = 50;

    pub const RECORD: usize = 200;

    // The most soil records of a unit.
    pub const SOILS: usize = 16;
}

// The natural runoff of each window of so many years.
pub fn moving_windows(plots: &[Plot], tenths: &[u16], width: usize) -> Windows
    ensures { result ≡ windows_reply plots.now tenths.now width }
{
    match decide(plots, tenths, width) {
        Ok(soils) => Windows {
            answer: Ok(()),
            number: 0,
            count: tenths.len() + 1 - width,
            runoffs: means(soils, tenths, width),
        },
        Err(refusal) => Windows {
            answer: Err(refusal),
            number: 0,
            count: 0,
            runoffs: [0; Windows::PLACES],
        },
    }
}
