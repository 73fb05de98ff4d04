// The number of check places (01), here parity places: 2t - g.
ghost use Rattle.std.specs.Prelude.{◌≡◌, ◌-◌, ◌*◌};
ghost use Rattle.plan.specs.Layout.{layout, divisor};
ghost use Rattle.plan.specs.GoodPlan.{GoodPlan};

pub fn count(n: usize, t: usize, s: &[u16]) -> usize
    requires { GoodPlan n t s.now }
    ensures { result ≡ 2 * t - divisor (layout n t s.now) }
{
    let g = shifts::divisor(t, &s[..n]);
    2 * t - g
}
