// Runs each journal that an argument names through the function of `journal`, and prints its name and what is printed for it.
#![tactic(auto)]

use std::io;

// The bytes of the longest journal, and one more, by which a longer one is told.
const ROOM: usize = output::LONGEST + 1;

// What is printed for a journal.
fn print(rt: &impl Print, journal: &[u8]) -> io::Result<()> {
    let mut out = [0u8; report::ROOM];
    output::put_journal(&mut io::writer(rt), journal, &mut out)
}

// `main` of `book_runs` differs in the size and in what is called: a function over both would leave as many lines to each of them.
fn main(rt: HostRuntime) -> io::Result<()> {
    let mut room = [0u8; ROOM];
    named::each(&rt, &mut room, &mut |journal: &[u8]| print(&rt, journal))
}
