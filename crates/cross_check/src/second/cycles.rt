// 01's ring, here a cycle: an even number of distinct places, sharing a top row and a bottom row in turn, the last and the
// first a bottom row; no row twice; from its lowest place; marked places only.
use crate::marks::is_marked;
use crate::second::rows::{bottom, places, top};
use plan::Plan;
use std::alloc::{AllocError, Global};

// The row by which the i-th place of the list goes on.
fn row_of(plan: Plan, i: usize, c: usize) -> usize {
    if i % 2 == 0 {
        top(plan, c)
    } else {
        bottom(plan, c)
    }
}

// Whether no number, each below a bound, is met twice.
fn are_distinct(alloc: Global, numbers: &[usize], bound: usize) -> Result<bool, AllocError> {
    let mut met = vec![in alloc; false; bound]?;
    for x in numbers {
        match met.get_mut(*x) {
            Some(is_met) if !*is_met => *is_met = true,
            _ => return Ok(false),
        }
    }
    Ok(true)
}

// Whether the places are erased ones, and none is below the first.
fn are_erased(plan: Plan, marks: &[u8], ring: &[usize]) -> bool {
    let lowest = ring.first().copied().unwrap_or(0);
    ring.iter().all(|c| *c < places(plan) && is_marked(marks, *c) && lowest <= *c)
}

// Whether each place has the row by which the one before it goes on.
fn are_joined(plan: Plan, ring: &[usize]) -> bool {
    let following = ring.iter().skip(1).chain(ring.first());
    ring.iter().zip(following).enumerate().all(|(i, (c, next))| row_of(plan, i, *c)
        == row_of(plan, i, *next))
}

// Whether the list is a cycle of z erased places, then zeros.
pub(crate) fn is_cycle(
    alloc: Global,
    plan: Plan,
    marks: &[u8],
    list: &[u16],
    z: usize,
) -> Result<bool, AllocError> {
    let Some((listed, rest)) = list.split_at_checked(z) else {
        return Ok(false);
    };
    let ring: Vec<usize> = listed.iter().map(|c| usize::from(*c)).collect(alloc)?;
    let rows: Vec<usize> = ring
        .iter()
        .enumerate()
        .map(|(i, c)| row_of(plan, i, *c))
        .collect(alloc)?;
    Ok(
        2 <= z
            && z % 2 == 0
            && rest.iter().all(|c| *c == 0)
            && are_erased(plan, marks, &ring)
            && are_joined(plan, &ring)
            && are_distinct(alloc, &ring, places(plan))?
            && are_distinct(alloc, &rows, list.len())?,
    )
}
