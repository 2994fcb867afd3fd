// What a dashboard links: the book as bytes in, the printed text or the table of figures out. The crate `dashboard_c` exports these functions
// to C, under the names of include/hasheqro.h.
#![tactic(auto)]

ghost use Rattle.std.specs.Prelude.{◌≡◌, ◌*◌};
ghost use Rattle.text.specs.Text.{Written};
ghost use Rattle.listing.specs.Listing.{printed};
ghost use Rattle.book.specs.Reading.{opened};
ghost use Rattle.dashboard.specs.Table as tables;

use calls::Ran;
use calls::tested::run_tested;
use figures::{AquiferFigures, UnitFigures};
use model::Balance;
use record::{Ending, Failure};
use report::ROOM;

// The table of a book after its calls, in the form that C reads: whether its description was accepted, the number and place of a refusal or
// of a call record that failed (0 if none), and the figures, with 0 in the unused places.
#[repr(C)]
#[derive(Clone, Copy)]
pub struct Table {
    pub accepted: bool,
    pub number: u8,
    pub place: u64,
    pub unit_count: u64,
    pub aquifer_count: u64,
    pub units: [UnitFigures; Balance::UNITS],
    pub aquifers: [AquiferFigures; Balance::AQUIFERS],
}

// What `balance` prints for a book.
pub fn hasheqro_print(book: &[u8], out: &mut [u8; ROOM]) -> usize
    ensures { Written 1064960 out.old 0 (printed book.now) out.new result }
{
    listing::print_book(book, out)
}

// The table of a balance, and what refused the description or which record failed. Numbers of the size of the machine are cast: they have no
// `From` to those of 64 bits. Accepted and the ending are two, since an accepted book can end with a record that failed.
fn table_of(accepted: bool, ending: Ending, b: Balance) -> Table
    ensures { result ≡ tables.table_of accepted (tables.failed_number ending) (tables.failed_place ending) b }
{
    let figures = basin::reply::figures(b);
    let units = figures.units;
    let aquifers = figures.aquifers;
    let (number, place) = match ending {
        Ok(()) => (0, 0),
        Err(failure) => (failure.refusal.number(), failure.place as u64),
    };
    Table {
        accepted,
        number,
        place,
        unit_count: b.unit_count as u64,
        aquifer_count: b.aquifer_count as u64,
        units,
        aquifers,
    }
}

// The table after the calls of an accepted description.
fn table_after(ran: Ran) -> Table
    ensures { result ≡ tables.table_after ran }
{
    table_of(true, ran.ending, ran.balance)
}

// The table of a book: its description opened, its calls run.
pub fn hasheqro_figures(book: &[u8]) -> Table
    ensures { result ≡ tables.book_table book.now }
{
    let opened = book::read_book(book);
    match opened.answer {
        Ok(()) => table_after(run_tested(book, opened.place, opened.balance, true)),
        Err(refusal) => {
            let place = opened.place;
            table_of(false, Err(Failure { refusal, place }), opened.balance)
        }
    }
}

// The place that opening a book returns, cast as in `table_of`.
pub fn hasheqro_open(book: &[u8]) -> u64
    ensures { result ≡ (opened book.now).place }
{
    book::read_book(book).place as u64
}

// The balance of a book after its calls; of a refused description the fresh one.
fn balance_after(book: &[u8]) -> Balance
    ensures { result ≡ tables.balance_after book.now }
{
    let opened = book::read_book(book);
    match opened.answer {
        Ok(()) => run_tested(book, opened.place, opened.balance, true).balance,
        Err(_) => opened.balance,
    }
}

// How many title numbers are given after the calls of a book, cast as in `table_of`.
pub fn hasheqro_run(book: &[u8]) -> u64
    ensures { result ≡ (tables.balance_after book.now).given }
{
    balance_after(book).given as u64
}

// 1 if the figures of a balance are given, 0 if they are refused.
fn figured(b: Balance) -> u64
    ensures { result ≡ tables.figured b }
{
    u64::from(basin::reply::figures(b).answer.is_ok())
}

// Works out the figures of a book after its calls so many times, to be timed, and counts how often they are given.
pub fn hasheqro_refigure(book: &[u8], times: u64) -> u64
    ensures { result ≡ times * tables.figured (tables.balance_after book.now) }
{
    let b = balance_after(book);
    let mut count = 0;
    for _ in 0..times {
        count += figured(b);
    }
    count
}
