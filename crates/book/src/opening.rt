// Opening a book: reading its description record by record into a balance.
ghost use Rattle.std.specs.Prelude.{◌≡◌, ◌≤◌, ◌<◌};
ghost use Rattle.model.specs.View.{view_of};
ghost use Rattle.model.specs.Limits.{unit_limit};
ghost use Rattle.record.specs.Fault.{Closed};
ghost use Rattle.book.specs.Reading as reading;
ghost use Rattle.book.specs.Opening as opening;

use crate::step::Reader;
use crate::{Next, Opened};
use model::{Balance, Refusal};
use record::{Failure, Progress, closing_fault, located, unit_of};
use river::Tree;

// Puts the open unit, if there is one, into the balance.
fn store(b: &mut Balance, p: &Progress)
    requires within { p.now.units ≤ unit_limit }
    requires closed { 0 < p.now.units → Closed p.now.open }
    ensures { b.new ≡ opening.stored b.old p.now.open p.now.units }
{
    if let Some(last) = p.units.checked_sub(1) {
        b.units[last] = unit_of(p.open);
    }
}

// The lowest-numbered unit whose downstream number is above the last unit's, if there is one. A rule of the project fixes that a loop over
// units yields the first one at fault by `break`.
fn first_missing(b: &Balance) -> Option<usize>
    requires { (view_of b.now).units ≤ unit_limit }
    ensures { result ≡ opening.missing (view_of b.now) }
{
    'search: {
        for (i, u) in b.units[..b.unit_count].iter().enumerate() {
            if b.unit_count < usize::from(u.downstream) {
                break 'search Some(i);
            }
        }
        None
    }
}

// The tests of a whole balance at the end: the lowest-numbered unit with no downstream unit, then the one with a negative flow.
fn tested(b: Balance, at: usize) -> Result<(usize, Balance), Failure>
    requires { opening.Bounded (view_of b) }
    ensures { opening.handed_back result ≡ opening.tested_with b at }
{
    if let Some(j) = first_missing(&b) {
        return Err(Failure {
            refusal: Refusal::BadDownstream,
            place: j + 1,
        });
    }
    if let Some(j) = Tree::new(&b.units[..b.unit_count]).first_negative() {
        return Err(Failure {
            refusal: Refusal::NegativeFlow,
            place: j + 1,
        });
    }
    Ok((at, b))
}

// The end of a description: it closes the open unit, then the whole balance is tested.
fn ended(mut b: Balance, p: &Progress, at: usize) -> Result<(usize, Balance), Failure>
    requires { opening.EndReady b p.now.open p.now.units p.now.aquifers }
    ensures { opening.handed_back result ≡ opening.ended_with b p.now.open p.now.units p.now.aquifers at }
{
    located(closing_fault(p), p.open.at)?;
    store(&mut b, p);
    b.unit_count = p.units;
    b.aquifer_count = p.aquifers;
    tested(b, at)
}

// Reads the description of a book record by record into a balance, to its end, whose offset it gives, or to the first refusal. Each record
// takes bytes, so fewer are left. A record tells where the next one is, so that there is no range for a `for`; units and aquifers are counted as
// they are read.
fn read(s: &[u8]) -> Result<(usize, Balance), Failure>
    ensures { opening.handed_back result ≡ reading.opened s.now }
{
    let mut b = Balance::fresh();
    let mut p = Progress::default();
    let mut at = 0;
    loop {
        let reader = Reader {
            book: s,
            at,
            progress: &p,
        };
        match reader.next()? {
            Next::Ends => return ended(b, &p, at),
            Next::Opens { unit, to } => {
                store(&mut b, &p);
                p.open = unit;
                p.units += 1;
                at = to;
            }
            Next::Grows { unit, to } => {
                p.open = unit;
                at = to;
            }
            Next::Adds { aquifer, to } => {
                b.aquifers[p.aquifers] = aquifer;
                p.aquifers += 1;
                at = to;
            }
        }
    }
}

// Opening a book: a refused one hands back the fresh balance.
pub fn read_book(s: &[u8]) -> Opened
    ensures { result ≡ reading.opened s.now }
{
    match read(s) {
        Ok((place, balance)) => Opened {
            answer: Ok(()),
            place,
            balance,
        },
        Err(failure) => Opened {
            answer: Err(failure.refusal),
            place: failure.place,
            balance: Balance::fresh(),
        },
    }
}
