// A journal replayed: its opening, the replies to its records, put page by page into a lent buffer, and the table in the end.
#![tactic(auto)]

mod opening;
mod page;

ghost use Rattle.std.specs.Prelude.{◌≡◌};
ghost use Rattle.model.specs.View.{view_of};
ghost use Rattle.text.specs.Text.{Written};
ghost use Rattle.listing.specs.Listing.{table_text};
ghost use Rattle.replay.specs.Page.{replayed_so};

use model::Balance;
pub use opening::{LONGEST, begin_journal, open_journal};
pub use page::{next_page, next_record};
use planning::State;
use report::ROOM;
use text::Page;

// What replaying some records of a journal gives: the state after them, the offset of the next one, how many were replayed, how many
// bytes of the buffer their replies take, and whether there may be more. The reply to a record that fails with 1 or 2 is its line, and
// nothing follows it. `next` is promised where nothing follows too, as the place of the end or of the refusal, so it is no `Option`. The
// length stands beside the lent buffer, which the caller has.
#[derive(Clone, Copy)]
pub struct Replayed {
    pub state: State,
    pub next: usize,
    pub count: usize,
    pub length: usize,
    pub more: bool,
}

impl Replayed {
    // Where a journal stands before its first record.
    fn begun(state: State, next: usize, length: usize, more: bool) -> Self
        ensures { result ≡ replayed_so state next 0 length more }
    {
        Replayed {
            state,
            next,
            count: 0,
            length,
            more,
        }
    }
}

// The table of a balance, which is handed by value as everywhere, from the start of the buffer on, and how many bytes it takes: the caller has the
// buffer. It is lent in its size: memory is fixed, and a slice would need a clause about its room.
pub fn table(balance: Balance, out: &mut [u8; ROOM]) -> usize
    ensures { Written 1064960 out.old 0 (table_text (view_of balance)) out.new result }
{
    let mut page = Page::new(out);
    listing::table(&mut page, balance);
    page.len()
}
