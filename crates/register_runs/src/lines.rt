// The lines of a file. A line has what is printed and then, each after a semicolon, what is done; a line that begins with # is a comment.
ghost use Rattle.std.specs.Prelude.{◌≤◌, length};

use crate::numbers::Words;
use std::io;
use std::io::Write;

// What lines are run on, each on what stood before the first.
pub(crate) trait Subject: Copy {
    // Does what one part of a line says.
    fn act<W: Write>(&mut self, out: &mut W, words: Words) -> io::Result<()>;

    // Prints what a line ends with.
    fn finish<W: Write>(&self, out: &mut W) -> io::Result<()>;
}

// A part of a line ends with this byte.
fn is_end(byte: u8) -> bool {
    byte == b';' || byte == b'\n'
}

// The bytes before the end of a part, if it ends.
fn ended(part: &[u8]) -> Option<&[u8]> {
    match part.split_last() {
        Some((last, before)) if is_end(*last) => Some(before),
        _ => None,
    }
}

// How many bytes of a line are printed: those before its end or the first semicolon, which is no end at the start of a line.
fn name_length(line: &[u8]) -> usize
    ensures { result ≤ length line.now }
{
    if line.starts_with(b"\n") {
        return 0;
    }
    let ends = line.iter().skip(1).position(|byte| is_end(*byte));
    ends.map_or(line.len(), |before| line.len().min(before + 1))
}

// One line. A part that does not end is not done, nor is what a line ends with printed where it does not end.
fn line<W: Write, S: Subject>(out: &mut W, mut subject: S, line: &[u8]) -> io::Result<()> {
    let (name, parts) = line.split_at(name_length(line));
    out.write_all(name)?;
    for part in parts.split_inclusive(|byte| is_end(*byte)) {
        if let Some(text) = ended(part) {
            subject.act(out, Words::from(text))?;
        }
    }
    if line.ends_with(b"\n") {
        subject.finish(out)?;
    }
    Ok(())
}

// All lines that are no comments.
pub(crate) fn run<W: Write, S: Subject>(out: &mut W, base: S, text: &[u8]) -> io::Result<()> {
    for text in text.split_inclusive(|byte| *byte == b'\n') {
        if !text.starts_with(b"#") {
            line(out, base, text)?;
        }
    }
    Ok(())
}
