// Writing what is printed for a journal, page by page. The buffer is lent in its size: memory is fixed, and a slice would need a clause about its
// room.
ghost use Rattle.std.specs.Prelude.{◌≡◌, ◌≤◌, true, length};
ghost use Rattle.replay.specs.Journal.{journal_limit, journal_text};
ghost use Rattle.output.specs.Appending.{Appended};
ghost use Rattle.output.specs.Left.{left_text};

use crate::full::write_full;
use replay::Replayed;
use report::ROOM;
use std::io;
use std::io::Write;

// Writes the replies to the records that are left after the beginning of a journal, a page at a time, then the table. It is a `while`, since
// only a page tells whether another follows, and k, the place of the next record, goes on by how many a page has: at most 16,384, so that
// the cast of `Replayed`'s count is exact, and a `try_from` would add a branch that never runs.
fn put_pages<W: Write>(
    to: &mut W,
    s: &[u8],
    begun: Replayed,
    out: &mut [u8; ROOM],
) -> io::Result<()>
    requires { begun.more ≡ true → length s.now ≤ journal_limit }
    ensures { Appended (W.contents to.old) (W.contents to.new) result (left_text s.now begun.next 1 begun.state begun.more) }
{
    let mut page = begun;
    let mut k = 1u32;
    while page.more {
        page = replay::next_page(page.state, s, page.next, k, out);
        write_full(to, &out[..page.length])?;
        k += page.count as u32;
    }
    let length = replay::table(page.state.balance, out);
    write_full(to, &out[..length])
}

// Writes what is printed for a journal, each page as it comes, then the table, through a lent buffer. Where something cannot be written, the
// error is returned, and what was written is a beginning of it. A refused journal leaves the fresh balance, which has no table.
pub fn put_journal<W: Write>(to: &mut W, s: &[u8], out: &mut [u8; ROOM]) -> io::Result<()>
    ensures { Appended (W.contents to.old) (W.contents to.new) result (journal_text s.now) }
{
    let begun = replay::begin_journal(s, out);
    write_full(to, &out[..begun.length])?;
    put_pages(to, s, begun, out)
}
