// Reading the record WI, which hands in soil records and rain years for the moving window.
ghost use Rattle.std.specs.Prelude.{◌≡◌, ◌+◌, ◌*◌, ◌≤◌, length, take};
ghost use Rattle.record.specs.Bytes as bytes;
ghost use Rattle.requests.specs.Watched as watched;

use record::{bits8, bits16, soil_record};
use runoff::Plot;
use window::{Windows, moving_windows};

// One soil record and one year more than are accepted: more of them are refused by their number alone.
const PLOTS: usize = Windows::SOILS + 1;

const YEARS: usize = Windows::RECORD + 1;

// The byte at an offset, and 0 past the end.
fn byte_at(s: &[u8], i: usize) -> u8
    ensures { result ≡ bytes.bits8 s.now i }
{
    s.get(i).copied().unwrap_or(0)
}

// How many bytes the WI at an offset has, by its counts.
pub(crate) fn window_size(s: &[u8], at: usize) -> usize
    requires { at + 2 ≤ length s.now }
    ensures { result ≡ watched.window_size s.now at }
{
    let plots = usize::from(byte_at(s, at + 3));
    let low = usize::from(byte_at(s, at + 4));
    let high = usize::from(byte_at(s, at + 5));
    6 + 6 * plots + 2 * (low + 256 * high)
}

// The first so many soil records of the WI at an offset.
fn first_plots(s: &[u8], at: usize, n: usize) -> [Plot; PLOTS]
    requires { (n ≤ 17) × (at + 6 + 6 * n ≤ length s.now) }
    ensures { take n result ≡ watched.plots_after s.now at n }
{
    let none = Plot {
        cover: 0,
        soil: 0,
        hectares: 0,
    };
    let mut plots = [none; PLOTS];
    for k in 0..n {
        plots[k] = soil_record(s, at + 4 + 6 * k);
    }
    plots
}

// The first so many years from an offset on.
fn first_years(s: &[u8], i: usize, n: usize) -> [u16; YEARS]
    requires { (n ≤ 201) × (i + 2 * n ≤ length s.now) }
    ensures { take n result ≡ watched.years_from s.now i n }
{
    let mut years = [0; YEARS];
    for k in 0..n {
        years[k] = bits16(s, i + 2 * k);
    }
    years
}

// The reply to the WI at an offset. Not in line, since its arrays would stand beside what each call needs.
#[inline(never)]
pub fn windows_at(s: &[u8], at: usize) -> Windows
    requires { at + watched.window_size s.now at ≤ length s.now }
    ensures { result ≡ watched.watched_reply (watched.watched_at s.now at) }
{
    let told = usize::from(bits8(s, at + 3));
    let plots = told.min(PLOTS);
    let years = usize::from(bits16(s, at + 4)).min(YEARS);
    moving_windows(
        &first_plots(s, at, plots)[..plots],
        &first_years(s, at + 6 + 6 * told, years)[..years],
        usize::from(bits8(s, at + 2)),
    )
}
