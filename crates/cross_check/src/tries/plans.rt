// Plans: the making of them, their verdict and their figures.
use crate::second::refusing::Refused;
use crate::second::rows::places;
use crate::second::{measures, messages, plans, refusing};
use crate::tally::Outcome;
use crate::tries::library::{self, same_plan};
use figures::Four;
use plan::Plan;
use refusals::Refusal;
use std::alloc::{AllocError, Global};

// The outcome where the plan was made as expected.
fn made_as(theirs: Result<Plan, Refusal>, mine: Result<Plan, Refused>) -> Outcome {
    match (library::made(theirs), mine) {
        (Ok(theirs), Ok(mine)) => Outcome::Planned.judged(same_plan(theirs, mine)),
        (Err(theirs), Err(mine)) => theirs.must_be(Outcome::from(mine)),
        _ => Outcome::Mismatch,
    }
}

// Plan::of with some of the shifts lent, at most 40: past the plan's they are zeros.
pub(crate) fn of(plan: Plan, lent: usize) -> Outcome {
    let mut shifts = [0u16; 40];
    for (shift, p) in shifts.iter_mut().zip(plan.shifts) {
        *shift = p;
    }
    made_as(
        Plan::of(plan.n, plan.t, &shifts[..lent.min(40)]),
        plans::of(plan, lent),
    )
}

pub(crate) fn straight(n: usize, t: usize) -> Outcome {
    made_as(Plan::straight(n, t), plans::straight(n, t))
}

pub(crate) fn powers(n: usize, t: usize, q: usize) -> Outcome {
    made_as(Plan::powers(n, t, q), plans::powers(n, t, q))
}

pub(crate) fn ruler(n: usize) -> Outcome {
    made_as(Plan::ruler(n), plans::ruler(n))
}

// The outcome of a plan's verdict.
pub(crate) fn verdict(plan: Plan) -> Outcome {
    match (library::checked(plan.check()), refusing::of_plan(plan)) {
        (Ok(()), Ok(())) => Outcome::Planned,
        (Err(theirs), Err(mine)) => theirs.must_be(Outcome::from(mine)),
        _ => Outcome::Mismatch,
    }
}

fn same_figures(alloc: Global, plan: Plan, four: Four) -> Result<bool, AllocError> {
    Ok(
        four.parity == measures::parity(alloc, plan)?
            && four.pair == measures::pair(plan)
            && four.neighbour == measures::neighbour(plan)
            && four.distance == measures::distance(alloc, plan)?,
    )
}

// A small plan's distance by trying every word.
fn same_weight(plan: Plan, distance: usize) -> bool {
    14 < places(plan) || distance == measures::least_weight(plan)
}

pub(crate) fn figures(alloc: Global, plan: Plan) -> Result<Outcome, AllocError> {
    match (
        library::measured(figures::figures(plan)),
        refusing::of_plan(plan),
    ) {
        (Ok(four), Ok(())) => {
            let same = same_figures(alloc, plan, four)? && same_weight(plan, four.distance);
            Ok(Outcome::Figures.judged(same))
        }
        (Err(theirs), Err(mine)) => Ok(theirs.must_be(Outcome::from(mine))),
        _ => Ok(Outcome::Mismatch),
    }
}

pub(crate) fn message_count(alloc: Global, plan: Plan) -> Result<Outcome, AllocError> {
    match (
        library::counted(plan.message_count()),
        refusing::of_plan(plan),
    ) {
        (Ok(count), Ok(())) => {
            Ok(Outcome::Figures.judged(count == messages::count(alloc, plan)?))
        }
        (Err(theirs), Err(mine)) => Ok(theirs.must_be(Outcome::from(mine))),
        _ => Ok(Outcome::Mismatch),
    }
}
