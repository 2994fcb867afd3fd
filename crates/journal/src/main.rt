// The program `journal`: a journal on standard input, the replies to its records and the table in the end on standard output.
#![tactic(auto)]

use std::io;

// The bytes of the longest journal, and one more, by which a longer one is told.
const ROOM: usize = output::LONGEST + 1;

// `main` of `balance` differs in the size and in what is called: a function over both would leave as many lines to each of them.
fn main(rt: HostRuntime) -> io::Result<()> {
    let mut journal = [0u8; ROOM];
    let n = input::read_full(&mut rt.reader(), &mut journal)?;
    let mut out = [0u8; report::ROOM];
    output::put_journal(&mut io::writer(&rt), &journal[..n], &mut out)
}
