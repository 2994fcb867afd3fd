// The commands that the file `states` gives: calls on a state, and changes of it.
use crate::change::Change;
use crate::dump::StateDump;
use crate::lines::Subject;
use crate::numbers::{Words, index, narrow};
use crate::replies::show;
use planning::{Name, State};
use std::io;
use std::io::Write;

// A command. Places are meant by their index.
#[derive(Clone, Copy)]
pub(crate) enum Command {
    Keep(Name),
    GoBack(Name),
    Withdraw { unit: u8, volume: u32 },
    Cancel { number: u16 },
    SetCount(usize),
    SetName { place: usize, name: Name },
    SetKept { place: usize },
    Change(Change),
}

// The name whose eight bytes are those of a number, the lowest first.
fn name_of(number: u64) -> Name {
    Name {
        bytes: number.to_le_bytes(),
    }
}

// The command of words that begin with the letter k, by the second letter.
fn own_command_of(words: Words) -> Option<Command> {
    match words.field {
        b'n' => Some(Command::Keep(name_of(words.value))),
        b'b' => Some(Command::GoBack(name_of(words.value))),
        b'g' => Some(Command::Withdraw {
            unit: narrow(words.third),
            volume: narrow(words.value),
        }),
        b'c' => Some(Command::Cancel {
            number: narrow(words.value),
        }),
        b's' => Some(Command::SetCount(narrow(words.value))),
        b'w' => Some(Command::SetName {
            place: index(words.third)?,
            name: name_of(words.value),
        }),
        b'k' => Some(Command::SetKept {
            place: index(words.value)?,
        }),
        _ => None,
    }
}

// Prints the reply to keeping or going back, and goes on with its state. This and `asked` stay two: one over both types of reply would need a
// trait, for bodies of two lines.
fn planned<W: Write>(
    out: &mut W,
    state: &mut State,
    word: &str,
    reply: planning::Reply,
) -> io::Result<()> {
    *state = reply.state;
    show(out, word, reply.answer, reply.number)
}

// Prints the reply to a call on the current balance alone, and goes on with its balance.
fn asked<W: Write>(
    out: &mut W,
    state: &mut State,
    word: &str,
    reply: register::Reply,
) -> io::Result<()> {
    state.balance = reply.balance;
    show(out, word, reply.answer, reply.number)
}

impl Command {
    // The command that words say, if they say one.
    fn of(words: Words) -> Option<Self> {
        match words.kind {
            b'k' => own_command_of(words),
            _ => Change::of(words).map(Command::Change),
        }
    }

    // Makes the call or the change.
    fn run<W: Write>(self, out: &mut W, state: &mut State) -> io::Result<()> {
        let balance = state.balance;
        match self {
            Command::Keep(name) => {
                let reply = planning::keep(*state, name);
                planned(out, state, "kept", reply)?;
            }
            Command::GoBack(name) => {
                let reply = planning::back(*state, name);
                planned(out, state, "back", reply)?;
            }
            Command::Withdraw { unit, volume } => {
                let reply = register::withdraw(balance, unit, 1, volume);
                asked(out, state, "given", reply)?;
            }
            Command::Cancel { number } => {
                let reply = register::cancel(balance, number);
                asked(out, state, "cancelled", reply)?;
            }
            Command::SetCount(count) => state.count = count,
            Command::SetName { place, name } => {
                if let Some(kept) = state.kept.get_mut(place) {
                    kept.name = name;
                }
            }
            Command::SetKept { place } => {
                if let Some(kept) = state.kept.get_mut(place) {
                    kept.balance = balance;
                }
            }
            Command::Change(change) => {
                change.make(&mut state.balance);
            }
        }
        Ok(())
    }
}

impl Subject for State {
    fn act<W: Write>(&mut self, out: &mut W, words: Words) -> io::Result<()> {
        match Command::of(words) {
            Some(command) => command.run(out, self),
            None => Ok(()),
        }
    }

    fn finish<W: Write>(&self, out: &mut W) -> io::Result<()> {
        writeln!(out, "{}", StateDump(self))
    }
}
