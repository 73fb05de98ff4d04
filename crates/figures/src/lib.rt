// The four figures of a plan (01, "Families and figures"): check places, pair figure, neighbour figure, distance.
// Entry: figures.
#![tactic(auto)]

ghost use Rattle.plan.specs.Layout.{layout};
ghost use Rattle.plan.specs.GoodPlan.{GoodPlan};
ghost use Rattle.code.specs.Figures.{Figures};
ghost use Rattle.figures.specs.Answers.{Answered};

use plan::Plan;
use refusals::Refusal;

mod distance;
mod parity;

#[derive(Clone, Copy)]
pub struct Four {
    pub parity: usize,
    pub pair: usize,
    pub neighbour: usize,
    pub distance: usize,
}

// The figures of a plan, or its refusal.
pub fn figures(plan: Plan) -> Result<Four, Refusal>
    ensures { Answered plan result }
{
    let s = plan.shifts;
    plan.check()?;
    Ok(of_good(plan.n, plan.t, &s[..]))
}

// The figures of a plan that is not refused. Public for the crates above only.
pub fn of_good(n: usize, t: usize, s: &[u16]) -> Four
    requires { GoodPlan n t s.now }
    ensures { Figures (layout n t s.now) result.parity result.pair result.neighbour result.distance }
{
    let all = divisors::of_pairs(n, t, s);
    let near = divisors::of_neighbours(n, t, s);
    let pair = divisors::figure(t, all);
    let neighbour = divisors::figure(t, near);
    Four {
        parity: parity::count(n, t, s),
        pair,
        neighbour,
        distance: distance::distance(n, t, s, pair),
    }
}
