// Reading the record at an offset of a journal.
ghost use Rattle.std.specs.Prelude.{◌≡◌, ◌+◌, ◌≤◌, length};
ghost use Rattle.requests.specs.Records as records;

use crate::watched::window_size;
use crate::{OwnMark, RecordAt};
use model::Refusal;
use planning::Name;
use record::CallAt;

// The record of a journal alone that two bytes are the mark of, if they are.
fn own_mark(a: u8, b: u8) -> Option<OwnMark>
    ensures { result ≡ records.own_mark a b }
{
    match (a, b) {
        (b'K', b'P') => Some(OwnMark::Kp),
        (b'G', b'B') => Some(OwnMark::Gb),
        (b'W', b'I') => Some(OwnMark::Wi),
        _ => None,
    }
}

// The mark of a journal alone that stands at an offset, if one does.
pub fn own_at(s: &[u8], at: usize) -> Option<OwnMark>
    ensures { result ≡ records.own_at s.now at }
{
    if s.len().saturating_sub(at) < 2 {
        return None;
    }
    own_mark(s[at], s[at + 1])
}

// The eight bytes of a name at an offset.
pub fn name_at(s: &[u8], at: usize) -> Name
    requires { at + 8 ≤ length s.now }
    ensures { result ≡ records.name_at s.now at }
{
    Name {
        bytes: s[at..at + Name::BYTES].try_into().unwrap(),
    }
}

// How many bytes the record of a mark at an offset has.
fn own_size(mark: OwnMark, s: &[u8], at: usize) -> usize
    requires { at + 2 ≤ length s.now }
    ensures { result ≡ records.own_size mark s.now at }
{
    match mark {
        OwnMark::Kp | OwnMark::Gb => 2 + Name::BYTES,
        OwnMark::Wi => window_size(s, at),
    }
}

// What no call of a book is: a record of a journal's own, or one refused as the calls of a book say.
fn own_record(s: &[u8], at: usize, refusal: Refusal) -> RecordAt
    ensures { result ≡ records.own_record s.now at refusal }
{
    let Some(mark) = own_at(s, at) else {
        return RecordAt::Fails { refusal };
    };
    let size = own_size(mark, s, at);
    if s.len().saturating_sub(at) < size {
        return RecordAt::Fails {
            refusal: Refusal::Short,
        };
    }
    let to = at + size;
    match mark {
        OwnMark::Kp => RecordAt::Keeps { to },
        OwnMark::Gb => RecordAt::Returns { to },
        OwnMark::Wi => RecordAt::Watches { to },
    }
}

// What stands at an offset after the description. Inlined into the loop over records, which is not its only caller.
#[inline]
#[tactic(auto, unfolding(crate::specs::Records::record_at))]
pub fn record_at(s: &[u8], at: usize) -> RecordAt
    ensures { result ≡ records.record_at s.now at }
{
    match record::call_at(s, at) {
        CallAt::End => RecordAt::End,
        CallAt::Asks { call, to } => RecordAt::Calls { call, to },
        CallAt::Fails { refusal } => own_record(s, at, refusal),
    }
}
