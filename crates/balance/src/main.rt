// The program `balance`: a book on standard input, what is printed for it on standard output.
#![tactic(auto)]

use std::io;
use std::io::Write;

// The bytes of the longest book, and one more, by which a longer one is told.
const ROOM: usize = listing::LONGEST + 1;

// `main` of `journal` differs in the size and in what is called: a function over both would leave as many lines to each of them.
fn main(rt: HostRuntime) -> io::Result<()> {
    let mut book = [0u8; ROOM];
    let n = input::read_full(&mut rt.reader(), &mut book)?;
    let mut out = [0u8; report::ROOM];
    let m = listing::print_book(&book[..n], &mut out);
    io::writer(&rt).write_all(&out[..m])
}
