// The conditions of the families of plans.
// Public for the crates above only.
#![tactic(auto)]

ghost use Rattle.std.specs.Prelude.{◌≡◌};
ghost use Rattle.families.specs.Families.{powers_need};

use shifts::gcd;

#[tactic(auto, unfolding(crate::specs::Families::powers_need))]
pub fn powers_need(n: usize, t: usize, q: usize) -> bool
    ensures { result ≡ powers_need n t q }
{
    3 <= n && n <= t && 2 <= q && gcd(t, q) == 1 && gcd(t, q - 1) == 1
}
