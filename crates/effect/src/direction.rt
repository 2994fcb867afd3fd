// What becomes of an entry where a title is put in, and where it is taken back.
ghost use Rattle.std.specs.Prelude.{◌≡◌, ◌≤◌, ◌+◌, ◌-◌, ℕ};
ghost use Rattle.std.proofs.Common.{arith};
ghost use Rattle.effect.specs.Granted.{lacking};
ghost use Rattle.effect.specs.Cancelled.{held};

// Which way a title goes: it is put in, or taken back.
pub trait Direction {
    // What an entry and an amount give, and the largest amount that an entry leaves room for.
    ghost op: { ℕ → ℕ → ℕ };

    ghost left: { ℕ → ℕ };

    // The entry changed by an amount.
    fn change(entry: u32, amount: u32) -> u32
        requires { amount ≤ left entry }
        ensures { result ≡ op entry amount };

    // An amount of 0 changes nothing.
    ghost neutral: { (e : ℕ) → op e 0 ≡ e };
}

// A title that is put in raises entries.
pub struct Entering;

impl Direction for Entering {
    ghost op = { ◌+◌ };

    ghost left = { lacking };

    ghost neutral = { λ e. Prim.omega arith };

    fn change(entry: u32, amount: u32) -> u32 {
        entry + amount
    }
}

// A title that is taken back lowers them.
pub struct Leaving;

impl Direction for Leaving {
    ghost op = { ◌-◌ };

    ghost left = { held };

    ghost neutral = { λ e. Prim.omega arith };

    fn change(entry: u32, amount: u32) -> u32 {
        entry - amount
    }
}
