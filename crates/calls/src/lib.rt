// The calls of a book, run over a balance one after the other.
#![tactic(auto)]

pub mod tested;

ghost use Rattle.std.specs.Prelude.{◌≡◌};
ghost use Rattle.calls.specs.Running as running;

use model::Balance;
use record::Ending;
use tested::run_tested;

// What running the calls of a book gives: how they end, and the balance after those that stand before the end. The balance
// stands beside the ending, since it is promised however they end.
#[derive(Clone, Copy)]
pub struct Ran {
    pub ending: Ending,
    pub balance: Balance,
}

// Runs every call that stands in a book from an offset on.
pub fn run(s: &[u8], from: usize, balance: Balance) -> Ran
    ensures { result ≡ running.ran s.now from balance }
{
    let sound = basin::sound(balance);
    run_tested(s, from, balance, sound)
}
