// The rule on an aquifer's recharge.
ghost use Rattle.std.specs.Prelude.{◌≡◌};
ghost use Rattle.figures.specs.Recharge as rule;

use model::Aquifer;

// Recharge is not negative: storage falls by no more than natural and pumped discharge together.
pub fn is_recharged(a: &Aquifer) -> bool
    ensures { result ≡ rule.is_recharged a.now }
{
    let discharge = i64::from(a.natural) + i64::from(a.pumped);
    -discharge <= a.storage
}
