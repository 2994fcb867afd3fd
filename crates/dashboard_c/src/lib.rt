// The functions of `dashboard` for C, as a static library: the interface of include/hasheqro.h. A crate is a library or a static library, so
// that each function that C calls stands in both.
#![tactic(auto)]

ghost use Rattle.std.specs.Prelude.{◌≡◌, ◌*◌};
ghost use Rattle.text.specs.Text.{Written};
ghost use Rattle.listing.specs.Listing.{printed};
ghost use Rattle.book.specs.Reading.{opened};
ghost use Rattle.dashboard.specs.Table as tables;

use dashboard::Table;
use report::ROOM;

// What `balance` prints for a book.
#[unsafe(no_mangle)]
pub extern "C" fn hasheqro_print(book: &[u8], out: &mut [u8; ROOM]) -> usize
    ensures { Written 1064960 out.old 0 (printed book.now) out.new result }
{
    dashboard::hasheqro_print(book, out)
}

// The table of a book: its description opened, its calls run.
#[unsafe(no_mangle)]
pub extern "C" fn hasheqro_figures(book: &[u8]) -> Table
    ensures { result ≡ tables.book_table book.now }
{
    dashboard::hasheqro_figures(book)
}

// The place that opening a book returns.
#[unsafe(no_mangle)]
pub extern "C" fn hasheqro_open(book: &[u8]) -> u64
    ensures { result ≡ (opened book.now).place }
{
    dashboard::hasheqro_open(book)
}

// How many title numbers are given after the calls of a book.
#[unsafe(no_mangle)]
pub extern "C" fn hasheqro_run(book: &[u8]) -> u64
    ensures { result ≡ (tables.balance_after book.now).given }
{
    dashboard::hasheqro_run(book)
}

// Works out the figures of a book after its calls so many times, to be timed, and counts how often they are given.
#[unsafe(no_mangle)]
pub extern "C" fn hasheqro_refigure(book: &[u8], times: u64) -> u64
    ensures { result ≡ times * tables.figured (tables.balance_after book.now) }
{
    dashboard::hasheqro_refigure(book, times)
}
