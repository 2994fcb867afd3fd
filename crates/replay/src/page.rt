// The replies to the records of a journal, one record or one page of them at a time. The buffer is lent in its size: memory is fixed, and a slice
// would need a clause about its room.
ghost use Rattle.std.specs.Prelude.{Bool, Some, ◌≡◌, ◌≤◌};
ghost use Rattle.planning.specs.State.{sound_state};
ghost use Rattle.planning.specs.Calls.{with_current, keep_reply, back_reply};
ghost use Rattle.report.specs.declared.Outcome.TheVariants.{Kept, Back};
ghost use Rattle.listing.specs.Outcomes.{answered};
ghost use Rattle.replay.specs.Page as pages;

use crate::Replayed;
use model::Balance;
use planning::decision::decide_back;
use planning::{Name, State};
use register::decision::decide;
use register::outcome::perform;
use report::{CallLine, Outcome, ROOM};
use requests::RecordAt;
use text::Page;

// The most records of a page.
const PAGE: usize = 16_384;

// The most bytes of a reply.
const REPLY: usize = 16_384;

// The most bytes of the buffer that may be used before a record, so that the longest reply still fits.
const PAGE_ROOM: usize = ROOM - REPLY;

// What was replayed, the current balance standing apart from what is kept: one literal for the three places where a page ends. `Replayed` would
// have to be made without its state to take fewer values.
fn replayed(
    kept: State,
    balance: Balance,
    next: usize,
    count: usize,
    length: usize,
    more: bool,
) -> Replayed
    ensures { result ≡ pages.replayed_so (with_current kept balance) next count length more }
{
    Replayed {
        state: State { balance, ..kept },
        next,
        count,
        length,
        more,
    }
}

// The test for 0 of the whole state, the current balance standing apart from what is kept. It copies all balances, so it is made once.
#[cold]
#[inline(never)]
fn sound_apart(kept: &State, balance: &Balance) -> bool
    ensures { result ≡ sound_state (with_current kept.now balance.now) }
{
    planning::sound(&State {
        balance: *balance,
        ..*kept
    })
}

// What that test gives, and from then on is known to give: no request changes it. In line it would make a keeping dearer.
#[inline(never)]
fn whole_sound(known: &mut Option<bool>, kept: &State, balance: &Balance) -> bool
    requires { (answer : Bool) → known.old ≡ Some answer → answer ≡ sound_state (with_current kept.now balance.now) }
    ensures value { result ≡ sound_state (with_current kept.now balance.now) }
    ensures known { known.new ≡ Some result }
{
    match *known {
        Some(answer) => answer,
        None => {
            let answer = sound_apart(kept, balance);
            *known = Some(answer);
            answer
        }
    }
}

// A keeping: the balance is kept under the name, and that is what the line says.
fn keeping(known: &mut Option<bool>, kept: &mut State, balance: &Balance, name: Name) -> Outcome
    requires { (answer : Bool) → known.old ≡ Some answer → answer ≡ sound_state (with_current kept.old balance.now) }
    ensures said { result ≡ answered (keep_reply (with_current kept.old balance.now) name).answer Kept }
    ensures state { with_current kept.new balance.now ≡ (keep_reply (with_current kept.old balance.now) name).state }
    ensures known { known.new ≡ Some (sound_state (with_current kept.old balance.now)) }
{
    let tested = whole_sound(known, kept, balance);
    let answer = planning::keep_apart(kept, *balance, tested, name);
    listing::answered(answer, Outcome::Kept)
}

// A return: what is kept under the name is the current balance.
fn returning(known: &mut Option<bool>, kept: &State, balance: &mut Balance, name: Name) -> Outcome
    requires { (answer : Bool) → known.old ≡ Some answer → answer ≡ sound_state (with_current kept.now balance.old) }
    ensures said { result ≡ answered (back_reply (with_current kept.now balance.old) name).answer Back }
    ensures state { with_current kept.now balance.new ≡ (back_reply (with_current kept.now balance.old) name).state }
    ensures known { known.new ≡ Some (sound_state (with_current kept.now balance.old)) }
{
    let tested = whole_sound(known, kept, balance);
    match decide_back(kept, tested, name) {
        Ok(place) => {
            *balance = kept.kept[place].balance;
            Outcome::Back
        }
        Err(refusal) => listing::refused(refusal),
    }
}

// The replies to at most so many records from an offset on, the first of them at place `first` among the records of its journal, as long as the
// longest reply fits. The current balance stands apart from what is kept, so that a call changes it alone: an accepted one takes as many
// instructions as in `balance`. The whole state is tested for 0 at the first keeping or return, since calls need the test of the current balance alone.
// It is a loop beside `listing::call_lines`, since the records are others and so is the state. It is a `while`, since the bytes end it too: with a
// return for them in a `for` the compiler leaves a line's digits out of line, and a call takes 41 instructions more. A name's bytes are read once,
// where they are needed: `RecordAt` has none. The count is a `usize` as `Replayed` has it, cast by `as u64`, since std has no `From` of it
// for `u64`. The values stay variables of this loop: a struct of them would be made and read here alone.
fn replies(
    state: State,
    s: &[u8],
    from: usize,
    first: u32,
    most: usize,
    out: &mut [u8; ROOM],
) -> Replayed
    requires { most ≤ pages.page_limit }
    ensures { pages.Replied (pages.page_within most 0 first state s.now from) out.old out.new result }
{
    let mut whole: Option<bool> = None;
    let mut kept = state;
    let mut balance = state.balance;
    let sound = basin::sound(balance);
    let mut next = from;
    let mut page = Page::new(out);
    let mut count = 0;
    let mut used = 0;
    while count < most && used <= PAGE_ROOM {
        let (outcome, to) = match requests::record_at(s, next) {
            RecordAt::End => return replayed(kept, balance, next, count, page.len(), false),
            RecordAt::Fails { refusal } => {
                listing::refused_line(&mut page, refusal, next);
                return replayed(kept, balance, next, count, page.len(), false);
            }
            RecordAt::Calls { call, to } => {
                let answer = decide(&balance, sound, call);
                let outcome = listing::called(call, answer, balance.given);
                if let Ok(()) = answer {
                    balance = perform(balance, call);
                }
                (outcome, to)
            }
            RecordAt::Keeps { to } => {
                let name = requests::name_at(s, next + 2);
                (keeping(&mut whole, &mut kept, &balance, name), to)
            }
            RecordAt::Returns { to } => {
                let name = requests::name_at(s, next + 2);
                (returning(&mut whole, &kept, &mut balance, name), to)
            }
            RecordAt::Watches { to } => {
                replies::watched(&mut page, s, next, u64::from(first) + count as u64);
                next = to;
                count += 1;
                used = page.len();
                continue;
            }
        };
        CallLine {
            call: u64::from(first) + count as u64,
            outcome,
        }
        .put(&mut page);
        next = to;
        count += 1;
        used = page.len();
    }
    replayed(kept, balance, next, count, page.len(), true)
}

// The reply to the record at an offset, which is at place k among the records of its journal.
pub fn next_record(state: State, s: &[u8], at: usize, k: u32, out: &mut [u8; ROOM]) -> Replayed
    ensures { pages.Replied (pages.record_reply k state s.now at) out.old out.new result }
{
    replies(state, s, at, k, 1, out)
}

// The replies to a page of records from an offset on, the first of them at place k among the records of its journal.
pub fn next_page(state: State, s: &[u8], at: usize, k: u32, out: &mut [u8; ROOM]) -> Replayed
    ensures { pages.Replied (pages.page_within pages.page_limit 0 k state s.now at) out.old out.new result }
{
    replies(state, s, at, k, PAGE, out)
}
