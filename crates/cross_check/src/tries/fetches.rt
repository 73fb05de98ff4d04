// The fetch list, into a list that holds other bits.
use crate::random::fill8;
use crate::second::refusing::{Refused, mark_bytes, marked, of_marks, of_plan};
use crate::second::{fetches, rows};
use crate::tally::{Answer, Outcome};
use crate::tries::library;
use plan::Plan;
use std::alloc::{AllocError, Global};

fn check(plan: Plan, marks: &[u8], list: &[u8]) -> Result<(), Refused> {
    of_plan(plan)?;
    if list.len() != mark_bytes(rows::places(plan)) {
        return Err(Refused::Length);
    }
    of_marks(rows::places(plan), marks)
}

fn fetch_second(
    alloc: Global,
    plan: Plan,
    marks: &[u8],
    list: &mut [u8],
) -> Result<Answer, AllocError> {
    if let Err(refused) = check(plan, marks, list) {
        return Ok(Answer::from(refused));
    }
    list.fill(0);
    fetches::fetch(alloc, plan, marks, list)?;
    Ok(Answer {
        outcome: Outcome::Fetched,
        count: marked(list, 0, rows::places(plan)),
    })
}

// The list is of so many bytes.
pub(crate) fn fetch(
    alloc: Global,
    plan: Plan,
    marks: &[u8],
    bytes: usize,
    seed: u64,
) -> Result<Outcome, AllocError> {
    let mut my_list = vec![in alloc; 0u8; bytes]?;
    fill8(&mut my_list, seed);
    let mut their_list = my_list.clone()?;
    let mine = fetch_second(alloc, plan, marks, &mut my_list)?;
    let theirs = library::fetched(fetch::fetch(plan, marks, &mut their_list));
    let same = mine == theirs && my_list == their_list;
    Ok(mine.outcome.judged(same))
}
