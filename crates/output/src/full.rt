// Writing all of some bytes.
ghost use Rattle.output.specs.Appending.{Appended};

use std::io;
use std::io::{ErrorKind, Write};

// Writes all of the bytes, or a beginning of them where a write fails: `write_all` doesn't say what came before an error. As there, a write that
// takes nothing is an error, and an interrupted one is tried again, as often as is counted here so that the loop ends.
pub(crate) fn write_full<W: Write>(to: &mut W, bytes: &[u8]) -> io::Result<()>
    ensures { Appended (W.contents to.old) (W.contents to.new) result bytes.now }
{
    let mut tries = u64::MAX;
    let mut rest = bytes;
    while !rest.is_empty() {
        match to.write(rest) {
            Ok(0) => return Err(io::Error::from(ErrorKind::WriteZero)),
            Ok(n) => rest = &rest[n..],
            Err(error) if error.kind() == ErrorKind::Interrupted && tries > 0 => tries -= 1,
            Err(error) => return Err(error),
        }
    }
    Ok(())
}
