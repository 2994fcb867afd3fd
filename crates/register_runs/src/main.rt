// Makes the six calls on balances that are broken in each way that gives 0, and on sound ones at the limits; then keeps and goes back on
// states. The base of them all is the balance of the book `broken-base` after its calls; each line of the file `balances` says what is
// printed and what is changed in it, and each line of the file `states` also which calls are made.
#![tactic(auto)]

ghost use Rattle.std.specs.Prelude.{◌≤◌, IfOk, length};

mod change;
mod command;
mod dump;
mod lines;
mod numbers;
mod replies;

use model::Balance;
use planning::State;
use std::rt::Files;
use std::{fs, io};

// The room for a file. What a longer one has beyond it is not read.
const ROOM: usize = 131072;

// The balance of a book after its calls.
fn balance_of(book: &[u8]) -> Balance {
    let opened = book::read_book(book);
    calls::run(book, opened.place, opened.balance).balance
}

// The first bytes of a file, put into a buffer.
fn read<'a>(rt: &impl Files, name: &str, bytes: &'a mut [u8; ROOM]) -> io::Result<&'a [u8]>
    ensures { IfOk result (λ read. length read.now ≤ ROOM) }
{
    let mut file = fs::open(rt, name)?;
    let n = input::read_full(&mut file, bytes)?;
    Ok(&bytes[..n])
}

fn main(rt: HostRuntime) -> io::Result<()> {
    let mut out = io::writer(&rt);
    let mut bytes = [0u8; ROOM];
    let base = balance_of(read(&rt, "broken-base", &mut bytes)?);
    lines::run(&mut out, base, read(&rt, "balances", &mut bytes)?)?;
    let state = State::nothing_kept(base);
    lines::run(&mut out, state, read(&rt, "states", &mut bytes)?)
}
