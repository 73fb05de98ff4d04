// Recovery by 01: the fixed point settles every place, or the components decide between crossed and loose.
use crate::marks::is_marked;
use crate::second::labels::{first_crossed, labels, list_rows};
use crate::second::peeling::{is_settled, put_known, settle};
use plan::Plan;
use std::alloc::{AllocError, Global};

// A crossed block has the count of its list; of a loose block the list is left to the other implementation.
#[derive(Clone, Copy)]
pub(crate) enum Recovered {
    Whole,
    Crossed(usize),
    Loose,
}

// The symbols of a block, the marked ones not known.
fn unmarked(alloc: Global, marks: &[u8], block: &[u8]) -> Result<Vec<Option<u8>>, AllocError> {
    block
        .iter()
        .enumerate()
        .map(|(c, symbol)| (!is_marked(marks, c)).then_some(*symbol))
        .collect(alloc)
}

// Crossed with its list, or loose.
fn explain(
    alloc: Global,
    plan: Plan,
    symbols: &[Option<u8>],
    list: &mut [u16],
) -> Result<Recovered, AllocError> {
    let label = labels(alloc, plan, symbols)?;
    match first_crossed(alloc, plan, symbols, &label)? {
        Some(lowest) => Ok(Recovered::Crossed(list_rows(&label, lowest, list))),
        None => Ok(Recovered::Loose),
    }
}

// The block is written only where the passes settle all that is erased and every row then sums to 0.
pub(crate) fn recover(
    alloc: Global,
    plan: Plan,
    marks: &[u8],
    block: &mut [u8],
    list: &mut [u16],
) -> Result<Recovered, AllocError> {
    let symbols = unmarked(alloc, marks, block)?;
    let mut work = symbols.to_vec(alloc)?;
    list.fill(0);
    settle(plan, &mut work);
    if is_settled(plan, &work) {
        put_known(&work, block);
        return Ok(Recovered::Whole);
    }
    explain(alloc, plan, &symbols, list)
}
