// The six calls made on a balance, and the replies printed.
use model::{Answer, Balance};
use std::io;
use std::io::Write;

// ` R:N`: the refusal's number or the word for an accepted call, and the reply's title number.
pub(crate) fn show<W: Write>(
    out: &mut W,
    word: &str,
    answer: Answer,
    number: u16,
) -> io::Result<()> {
    match answer {
        Ok(()) => write!(out, " {word}:{number}"),
        Err(refusal) => write!(out, " {}:{number}", refusal.number()),
    }
}

// The replies to grants of a volume: two withdrawals, two transfers and a withdrawal that returns to a unit, from the unit or aquifer of
// a number, for a use of that number.
fn grants<W: Write>(out: &mut W, b: Balance, from: u8, to: u8, volume: u32) -> io::Result<()> {
    let replies = [
        register::withdraw(b, from, from, volume),
        register::pump(b, from, volume),
        register::transfer(b, from, to, volume),
        register::bring(b, from, to, volume),
        register::pump_returning(b, from, to, from, volume),
    ];
    for reply in &replies {
        show(out, "given", reply.answer, reply.number)?;
    }
    Ok(())
}

// The replies to withdrawals that return to unit 4: of one of which all returns, and of one for no use.
fn returning<W: Write>(out: &mut W, b: Balance) -> io::Result<()> {
    for usage in [6, 8] {
        let reply = register::pump_returning(b, 1, 4, usage, 1);
        show(out, "given", reply.answer, reply.number)?;
    }
    Ok(())
}

// The replies to cancellations: of the transfer from an aquifer, of the withdrawal from one, of no title, and of the fifth title, if there
// is one.
fn cancellations<W: Write>(out: &mut W, b: Balance) -> io::Result<()> {
    for number in [3, 4, 0, 5] {
        let reply = register::cancel(b, number);
        show(out, "cancelled", reply.answer, reply.number)?;
    }
    Ok(())
}

// All replies, and the end of the line. The grants are first of a small volume, then with 0 for every argument, then those that return.
pub(crate) fn replies<W: Write>(out: &mut W, b: Balance) -> io::Result<()> {
    grants(out, b, 1, 2, 1)?;
    grants(out, b, 0, 0, 0)?;
    returning(out, b)?;
    cancellations(out, b)?;
    writeln!(out)
}
