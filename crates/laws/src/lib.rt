// The few signed steps of the balance. Everything else is worked in natural numbers.
#![tactic(auto)]

ghost use Rattle.std.specs.Prelude.{◌≡◌, ◌<◌, ◌^◌, pos, ◌-ℤ◌};
ghost use Rattle.laws.specs.Signed as parts;

// How far z lies above 0.
pub fn above(z: i64) -> u64
    ensures { result ≡ parts.above z }
{
    z.max(0).unsigned_abs()
}

// How far z lies below 0.
pub fn below(z: i64) -> u64
    ensures { result ≡ parts.below z }
{
    z.min(0).unsigned_abs()
}

// a - b, of numbers that leave room for the sign.
pub fn difference(a: u64, b: u64) -> i64
    requires { (a < 2 ^ 62) × (b < 2 ^ 62) }
    ensures { result ≡ pos a -ℤ pos b }
{
    a.cast_signed() - b.cast_signed()
}

// The number that 32 bits hold in two's complement.
pub fn signed32(n: u32) -> i64
    ensures { result ≡ parts.signed32 n }
{
    i64::from(n.cast_signed())
}
