// Reading into a buffer of fixed size.
#![tactic(auto)]

ghost use Rattle.std.specs.Io.{ReadsAtMost};
ghost use Rattle.input.specs.Filling.{Filled};

use std::io;
use std::io::Read;

// Reads until the buffer is full or nothing is left, and answers how many bytes were read.
// The loop is by hand: `read_exact` and `io::copy` don't say what came before an error or the end, and `read_to_end` needs the heap. So
// what is read stands in a lent buffer, and its length is handed back.
pub fn read_full<R: Read>(from: &mut R, bytes: &mut [u8]) -> io::Result<usize>
    ensures bound { ReadsAtMost result bytes.new }
    ensures filled { Filled (R.remaining from.old) (R.remaining from.new) result bytes.new }
{
    let mut n = 0;
    while n < bytes.len() {
        match from.read(&mut bytes[n..])? {
            0 => break,
            more => n += more,
        }
    }
    Ok(n)
}
