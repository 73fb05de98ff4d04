// 01: place c = j × t + k meets top row k and bottom row t + ((k - p_j) mod t).
use crate::numbers::{quotient, remainder};
use plan::Plan;

// n × t.
pub(crate) fn places(plan: Plan) -> usize {
    plan.n.wrapping_mul(plan.t)
}

// 2t.
pub(crate) fn rows(plan: Plan) -> usize {
    plan.t.wrapping_mul(2)
}

// The shift of section j; of a section that no plan has it is 0.
pub(crate) fn shift(plan: Plan, j: usize) -> usize {
    plan.shifts.get(j).map_or(0, |p| usize::from(*p))
}

pub(crate) fn top(plan: Plan, c: usize) -> usize {
    remainder(c, plan.t)
}

pub(crate) fn bottom(plan: Plan, c: usize) -> usize {
    let t = plan.t;
    let p = shift(plan, quotient(c, t));
    let k = remainder(c, t).wrapping_add(t).wrapping_sub(p);
    remainder(k, t).wrapping_add(t)
}

// The place of section j that meets row r.
pub(crate) fn place_on(plan: Plan, r: usize, j: usize) -> usize {
    let t = plan.t;
    let k = if r < t {
        r
    } else {
        remainder((r - t).wrapping_add(shift(plan, j)), t)
    };
    j.wrapping_mul(t).wrapping_add(k)
}
