// The window moves on by the year that enters and the year that leaves.
ghost use Rattle.std.specs.Prelude.{◌≡◌, ◌≤◌, ◌<◌, ◌+◌, ◌*◌, length};
ghost use Rattle.window.specs.Moving as moving;
ghost use Rattle.window.specs.Moving.{Movable, Yielding};

use crate::Windows;
use runoff::Soils;

// The sum of rain years, in 6,000,000,000ths.
fn sum_of(soils: Soils, tenths: &[u16]) -> u64
    requires yielding { Yielding soils tenths.now }
    requires few { length tenths.now ≤ 50 }
    ensures { result ≡ moving.years_on soils tenths.now }
{
    let mut sum = 0;
    for year in tenths {
        sum += soils.rain_year(u64::from(*year));
    }
    sum
}

// The mean of so many rain years with this sum. It is divided by the parts and then by the years, which takes less time than one division by both:
// the first is by a constant, and what it leaves has 32 bits.
fn mean(width: usize, sum: u64) -> u32
    requires years { (0 < width) × (width ≤ 50) }
    requires within { sum ≤ 60000000000000000 * width }
    ensures { result ≡ moving.mean_of width sum }
{
    let years = (2 * sum + 6000000000 * width as u64) / 12000000000;
    years as u32 / width as u32
}

// The sum of the next window: the one before with the year that enters in place of the year that leaves.
fn moved(soils: Soils, tenths: &[u16], width: usize, first: usize, sum: u64) -> u64
    requires movable { Movable soils tenths.now width }
    requires more { first + width < length tenths.now }
    requires sum { sum ≡ moving.window_sum soils tenths.now width first }
    ensures { result ≡ moving.window_sum soils tenths.now width (first + 1) }
{
    let enters = soils.rain_year(u64::from(tenths[first + width]));
    let leaves = soils.rain_year(u64::from(tenths[first]));
    sum + enters - leaves
}

// The means of all windows: the first is summed afresh, each other one moves on from the one before.
pub(crate) fn means(soils: Soils, tenths: &[u16], width: usize) -> [u32; Windows::PLACES]
    requires { Movable soils tenths.now width }
    ensures { result ≡ moving.means_of soils tenths.now width }
{
    let last = tenths.len() - width;
    let mut means = [0; Windows::PLACES];
    let mut sum = sum_of(soils, &tenths[..width]);
    for first in 0..last {
        means[first] = mean(width, sum);
        sum = moved(soils, tenths, width, first, sum);
    }
    means[last] = mean(width, sum);
    means
}
