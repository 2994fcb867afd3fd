// What is printed for a request of a journal whose reply has more than one line.
#![tactic(auto)]

ghost use Rattle.std.specs.Prelude.{◌≡◌, ◌≤◌, ◌+◌, ◌*◌, length, get_or};
ghost use Rattle.text.specs.Page.{Fits, Puts};
ghost use Rattle.listing.specs.Listing.{lines_of};
ghost use Rattle.requests.specs.Watched.{window_size, watched_at, watched_reply};
ghost use Rattle.replies.specs.Reply as replies;

use report::{WindowLine, WindowsLine};
use text::Page;
use window::Windows;

// The lines of windows, the first from the oldest years. It is a loop beside that over a table's rows, whose trait is its crate's own.
#[inline(always)]
fn window_lines(page: &mut Page, runoffs: &[u32])
    requires { (length runoffs.now ≤ 181) × Fits (64 * length runoffs.now) page.old }
    ensures { Puts (64 * length runoffs.now) page.old (lines_of (length runoffs.now) (λ k. replies.window_text (get_or runoffs.now k 0) k)) page.new }
{
    for (k, runoff) in runoffs.iter().enumerate() {
        WindowLine {
            number: k as u64 + 1,
            runoff: u64::from(*runoff),
        }
        .put(page);
    }
}

// How many windows there are, or the number of the refusal.
fn count(windows: &Windows) -> Result<u64, u64>
    ensures { result ≡ replies.count_by windows.now.answer windows.now.count }
{
    match windows.answer {
        Ok(()) => Ok(windows.count as u64),
        Err(refusal) => Err(u64::from(refusal.number())),
    }
}

// The lines of a moving window at place k among the records: its own, and then one for each window.
#[inline(always)]
fn windows(page: &mut Page, k: u64, windows: &Windows)
    requires { (windows.now.count ≤ 181) × Fits 16384 page.old }
    ensures { Puts 16384 page.old (replies.windows_text k windows.now) page.new }
{
    WindowsLine {
        call: k,
        count: count(windows),
    }
    .put(page);
    window_lines(page, &windows.runoffs[..windows.count]);
}

// The lines of the WI at an offset, at place k among the records. All in line but the reply itself, so that a loop over records keeps its page in
// registers.
#[inline(always)]
pub fn watched(page: &mut Page, s: &[u8], at: usize, k: u64)
    requires { (at + window_size s.now at ≤ length s.now) × Fits 16384 page.old }
    ensures { Puts 16384 page.old (replies.windows_text k (watched_reply (watched_at s.now at))) page.new }
{
    windows(page, k, &requests::windows_at(s, at));
}
