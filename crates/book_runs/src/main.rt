// Runs each book that an argument names through the function of `balance`, and prints its name and what is printed for it.
#![tactic(auto)]

use std::io;
use std::io::Write;

// The bytes of the longest book, and one more, by which a longer one is told.
const ROOM: usize = listing::LONGEST + 1;

// What is printed for a book.
fn print(rt: &impl Print, book: &[u8]) -> io::Result<()> {
    let mut out = [0u8; report::ROOM];
    let n = listing::print_book(book, &mut out);
    io::writer(rt).write_all(&out[..n])
}

// `main` of `journal_runs` differs in the size and in what is called: a function over both would leave as many lines to each of them.
fn main(rt: HostRuntime) -> io::Result<()> {
    let mut room = [0u8; ROOM];
    named::each(&rt, &mut room, &mut |book: &[u8]| print(&rt, book))
}
