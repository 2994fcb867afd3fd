// Going through the files that the arguments of a program name.
#![tactic(auto)]

ghost use Rattle.std.specs.Prelude.{length};
ghost use Rattle.named.specs.Handed.{HandedInTurn};

use std::env::{Env, FillError};
use std::rt::Files;
use std::{fs, io, str};

// The longest name that is taken, in bytes.
const LONGEST_NAME: usize = 4096;

// An argument as the name of a file.
fn name_of(bytes: &[u8]) -> io::Result<&str> {
    str::from_utf8(bytes).map_err(|_| io::Error::from(io::ErrorKind::InvalidData))
}

// One file: prints a line with its name, reads it into the room and hands over what was read. For a file that can't be opened there is a
// line on standard error, and nothing is handed over.
fn one<R: Files + Print + Eprint, F: FnMut(&[u8]) -> io::Result<()>>(
    rt: &R,
    name: &str,
    room: &mut [u8],
    take: &mut F,
) -> io::Result<()>
    requires { F.IsAlwaysCallable take.old }
    ensures handed { HandedInTurn F.FnMut (length room.old) take.old result take.new }
    ensures callable { F.IsAlwaysCallable take.new }
{
    println!(rt; "{name}")?;
    match fs::open(rt, name) {
        Ok(mut file) => {
            let n = input::read_full(&mut file, room)?;
            take(&room[..n])
        }
        Err(error) => eprintln!(rt; "{name}: {error}"),
    }
}

// Goes through the files that the arguments name, in their order, as long as nothing fails. What the arguments and the files are is unknown
// to contracts. The arguments are counted by hand, and a name is put into a buffer, since `env::args` needs the heap.
pub fn each<R: Env + Files + Print + Eprint, F: FnMut(&[u8]) -> io::Result<()>>(
    rt: &R,
    room: &mut [u8],
    take: &mut F,
) -> io::Result<()>
    requires { F.IsAlwaysCallable take.old }
    ensures handed { HandedInTurn F.FnMut (length room.old) take.old result take.new }
    ensures callable { F.IsAlwaysCallable take.new }
{
    let mut name = [0u8; LONGEST_NAME];
    for i in 1..usize::MAX {
        match rt.arg(i, &mut name) {
            Ok(n) => one(rt, name_of(&name[..n])?, room, take)?,
            Err(FillError::NotPresent) => break,
            Err(FillError::TooLong) => return Err(io::Error::from(io::ErrorKind::InvalidInput)),
        }
    }
    Ok(())
}
