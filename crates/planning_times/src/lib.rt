// For timing: keeping, going back, an ordinary call and a journal's record, many times over, on the state of a book in which four balances are
// kept, and the reply to a moving window, many times over. The crate `planning_times_c` exports these functions to C.
#![tactic(auto)]

ghost use Rattle.std.specs.Prelude.{◌≡◌, ◌*◌, ℕ};
ghost use Rattle.planning.specs.declared.State.{State};
ghost use Rattle.requests.specs.Requests.{request_at};
ghost use Rattle.planning_times.specs.Timed.{Turn};
ghost use Rattle.planning_times.specs.Timed as timed;

use model::{Answer, Call};
use planning::{Name, State};
use report::ROOM;
use requests::RecordAt;
use window::Windows;

// The name that is in turn: 1, 2, 3 or 4 in its first byte, and 0 in the others. The cast is proved to fit: `try_from` would add a branch that
// never runs.
fn name_in_turn(i: u64) -> Name
    ensures { result ≡ timed.name_in_turn i }
{
    let mut name = Name::empty();
    name.bytes[0] = (i % 4) as u8 + 1;
    name
}

// 1 for an accepted answer, 0 for a refused one.
fn accepted(answer: Answer) -> u64
    ensures { result ≡ timed.accepted answer }
{
    u64::from(answer.is_ok())
}

// The state of a book after its calls; of a refused description the fresh one.
fn after_calls(book: &[u8]) -> State
    ensures { result ≡ timed.after_calls book.now }
{
    let o = planning::open_book(book);
    let mut s = o.state;
    if o.answer.is_ok() {
        s.balance = calls::run(book, o.place, s.balance).balance;
    }
    s
}

// Keeps under the name that is in turn, and counts 1 if that is accepted.
fn keep_in_turn(s: &mut State, i: u64) -> u64
    ensures next { s.new ≡ (timed.keep_turn s.old i).next }
    ensures counts { result ≡ (timed.keep_turn s.old i).counts }
{
    let r = planning::keep(*s, name_in_turn(i));
    *s = r.state;
    accepted(r.answer)
}

// Goes back to the name that is in turn, and counts 1 if that is accepted.
fn back_in_turn(s: &mut State, i: u64) -> u64
    ensures next { s.new ≡ (timed.back_turn s.old i).next }
    ensures counts { result ≡ (timed.back_turn s.old i).counts }
{
    let r = planning::back(*s, name_in_turn(i));
    *s = r.state;
    accepted(r.answer)
}

// Asks the current balance alone to cancel number 0, and counts 1 if that is refused.
fn ask_in_turn(s: &mut State, i: u64) -> u64
    ensures next { s.new ≡ (timed.ask_turn s.old i).next }
    ensures counts { result ≡ (timed.ask_turn s.old i).counts }
{
    let r = register::ask(s.balance, Call::Cancel { number: 0 });
    s.balance = r.balance;
    1 - accepted(r.answer)
}

// A journal's record: a cancellation of number 0.
const CANCEL_NOTHING: [u8; 4] = *b"CA\0\0";

// Replies to the record, the first of its journal, and counts 1 as one record is answered.
fn record_once(s: &mut State, out: &mut [u8; ROOM]) -> u64
    ensures next { s.new ≡ (timed.record_turn s.old 0).next }
    ensures counts { result ≡ (timed.record_turn s.old 0).counts }
{
    let r = replay::next_record(*s, &CANCEL_NOTHING, 0, 1, out);
    *s = r.state;
    r.count as u64
}

// So many calls, each in its turn on the state that the one before left: how many of them are counted. The ghost value says what a call
// comes to.
fn in_turn<F: Fn(&mut State, u64) -> u64>(s: &mut State, times: u64, call: F) -> u64
    ghost turn: { State → ℕ → Turn }
    requires callable { F.IsAlwaysCallable call }
    requires comes { timed.ComesTo (F.post call) turn }
    ensures state { s.new ≡ timed.states turn times 0 s.old }
    ensures counts { result ≡ timed.counted turn times 0 s.old }
{
    let mut counts = 0;
    for i in 0..times {
        counts += call(s, i);
    }
    counts
}

// The state of a book after its calls with that balance kept under the four names.
fn filled(book: &[u8]) -> State
    ensures { result ≡ timed.filled book.now }
{
    let mut s = after_calls(book);
    in_turn(&mut s, 4, keep_in_turn);
    s
}

// How many of so many keepings under the names in turn are accepted.
pub fn hasheqro_rekeep(book: &[u8], times: u64) -> u64
    ensures { result ≡ timed.counted timed.keep_turn times 0 (timed.filled book.now) }
{
    in_turn(&mut filled(book), times, keep_in_turn)
}

// How many of so many returns to the names in turn are accepted.
pub fn hasheqro_reback(book: &[u8], times: u64) -> u64
    ensures { result ≡ timed.counted timed.back_turn times 0 (timed.filled book.now) }
{
    in_turn(&mut filled(book), times, back_in_turn)
}

// How many of so many cancellations of number 0, each asked of the current balance alone, are refused.
pub fn hasheqro_reask(book: &[u8], times: u64) -> u64
    ensures { result ≡ timed.counted timed.ask_turn times 0 (timed.filled book.now) }
{
    in_turn(&mut filled(book), times, ask_in_turn)
}

// How many of so many records, each a cancellation of number 0, are answered. It is a loop of its own, since each reply is put into one buffer.
pub fn hasheqro_rerecord(book: &[u8], times: u64) -> u64
    ensures { result ≡ timed.counted timed.record_turn times 0 (timed.filled book.now) }
{
    let mut out = [0; ROOM];
    let mut s = filled(book);
    let mut counts = 0;
    for _ in 0..times {
        counts += record_once(&mut s, &mut out);
    }
    counts
}

// How many windows the record at the start of some bytes is given: only a WI is given any. Their runoffs are put where they are lent, by a call that
// is not in line, so that each repetition works them out.
#[inline(never)]
fn watch_once(bytes: &[u8], runoffs: &mut [u32; Windows::PLACES]) -> u64
    ensures { result ≡ timed.windows_given (request_at bytes.now 0) }
{
    let RecordAt::Watches { .. } = requests::record_at(bytes, 0) else {
        return 0;
    };
    let reply = requests::windows_at(bytes, 0);
    let worked_out = reply.runoffs;
    *runoffs = worked_out;
    reply.count as u64
}

// How many windows so many repetitions of the WI at the start of some bytes are given in all. The number of repetitions has 32 bits, so that the
// windows can be counted in 64.
pub fn hasheqro_rewatch(bytes: &[u8], times: u32) -> u64
    ensures { result ≡ times * timed.windows_given (request_at bytes.now 0) }
{
    let mut runoffs = [0; Windows::PLACES];
    let mut windows = 0;
    for _ in 0..times {
        windows += watch_once(bytes, &mut runoffs);
    }
    windows
}
