// The distance: the least number of nonzero symbols in a nonzero codeword.
ghost use Rattle.plan.specs.Layout.{layout};
ghost use Rattle.plan.specs.GoodPlan.{GoodPlan};
ghost use Rattle.code.specs.Figures.{Least, Capability, Pair, NonzeroWeight};

use differences::all_distinct;

// The pair figure is 1 exactly where two shifts are equal.
pub fn distance(n: usize, t: usize, s: &[u16], pair: usize) -> usize
    requires { GoodPlan n t s.now × Least (Capability (layout n t s.now) (Pair (layout n t s.now))) pair }
    ensures { Least (NonzeroWeight (layout n t s.now)) result }
{
    if n == 2 {
        return pair + 1;
    }
    if pair == 1 {
        return 2;
    }
    if all_distinct(n, t, s) { 6 } else { 4 }
}
