// The functions of `planning_times` for C, as a static library. A crate is a library or a static library, so that each function that C calls
// stands in both.
#![tactic(auto)]

ghost use Rattle.std.specs.Prelude.{◌≡◌, ◌*◌};
ghost use Rattle.requests.specs.Requests.{request_at};
ghost use Rattle.planning_times.specs.Timed as timed;

// How many of so many keepings under the names in turn are accepted.
#[unsafe(no_mangle)]
pub extern "C" fn hasheqro_rekeep(book: &[u8], times: u64) -> u64
    ensures { result ≡ timed.counted timed.keep_turn times 0 (timed.filled book.now) }
{
    planning_times::hasheqro_rekeep(book, times)
}

// How many of so many returns to the names in turn are accepted.
#[unsafe(no_mangle)]
pub extern "C" fn hasheqro_reback(book: &[u8], times: u64) -> u64
    ensures { result ≡ timed.counted timed.back_turn times 0 (timed.filled book.now) }
{
    planning_times::hasheqro_reback(book, times)
}

// How many of so many cancellations of number 0, each asked of the current balance alone, are refused.
#[unsafe(no_mangle)]
pub extern "C" fn hasheqro_reask(book: &[u8], times: u64) -> u64
    ensures { result ≡ timed.counted timed.ask_turn times 0 (timed.filled book.now) }
{
    planning_times::hasheqro_reask(book, times)
}

// How many of so many records, each a cancellation of number 0, are answered.
#[unsafe(no_mangle)]
pub extern "C" fn hasheqro_rerecord(book: &[u8], times: u64) -> u64
    ensures { result ≡ timed.counted timed.record_turn times 0 (timed.filled book.now) }
{
    planning_times::hasheqro_rerecord(book, times)
}

// How many windows so many repetitions of the WI at the start of some bytes are given in all.
#[unsafe(no_mangle)]
pub extern "C" fn hasheqro_rewatch(bytes: &[u8], times: u32) -> u64
    ensures { result ≡ times * timed.windows_given (request_at bytes.now 0) }
{
    planning_times::hasheqro_rewatch(bytes, times)
}
