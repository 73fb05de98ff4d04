// 01: two rows are joined if a chain of marked places leads from one to the other. A row's label becomes the lowest row
// that it is joined with, by passes over all erased places, up and down in turn, until nothing changes.
use crate::numbers::low16;
use crate::second::peeling::sum;
use crate::second::rows::{bottom, places, rows, top};
use plan::Plan;
use std::alloc::{AllocError, Global};

// Each of the rows is a component by itself.
pub(crate) fn alone(alloc: Global, plan: Plan) -> Result<Vec<usize>, AllocError> {
    (0..rows(plan)).collect(alloc)
}

// Whether two rows have different labels, which then become the lower one.
fn join_rows(a: usize, b: usize, label: &mut [usize]) -> bool {
    if label.len() <= a || label.len() <= b || label[a] == label[b] {
        return false;
    }
    let lowest = label[a].min(label[b]);
    label[a] = lowest;
    label[b] = lowest;
    true
}

// Whether a pass over the erased places changes a label.
fn pass(plan: Plan, is_down: bool, symbols: &[Option<u8>], label: &mut [usize]) -> bool {
    let end = places(plan);
    let mut any = false;
    for i in 0..end {
        let c = if is_down { end - 1 - i } else { i };
        if symbols.get(c) == Some(&None) {
            any |= join_rows(top(plan, c), bottom(plan, c), label);
        }
    }
    any
}

// The labels of all rows. No row is further than 2t steps from the lowest of its component.
pub(crate) fn labels(
    alloc: Global,
    plan: Plan,
    symbols: &[Option<u8>],
) -> Result<Vec<usize>, AllocError> {
    let mut label = alone(alloc, plan)?;
    for i in 0..=rows(plan) {
        if !pass(plan, i % 2 == 1, symbols, &mut label) {
            break;
        }
    }
    Ok(label)
}

// The sums of the components, each at its lowest row.
fn totals(
    alloc: Global,
    plan: Plan,
    symbols: &[Option<u8>],
    label: &[usize],
) -> Result<Vec<u8>, AllocError> {
    let mut totals = vec![in alloc; 0u8; label.len()]?;
    for (r, lowest) in label.iter().enumerate() {
        let found = sum(plan, symbols, r);
        if let Some(total) = totals.get_mut(*lowest) {
            *total ^= found;
        }
    }
    Ok(totals)
}

// The lowest row whose component does not add up to 0.
pub(crate) fn first_crossed(
    alloc: Global,
    plan: Plan,
    symbols: &[Option<u8>],
    label: &[usize],
) -> Result<Option<usize>, AllocError> {
    let totals = totals(alloc, plan, symbols, label)?;
    Ok(totals.iter().position(|total| *total != 0))
}

// Writes the rows of a component, rising, and answers how many there are.
pub(crate) fn list_rows(label: &[usize], lowest: usize, list: &mut [u16]) -> usize {
    let rows = label.iter().enumerate().filter(|(_, l)| **l == lowest);
    for (entry, (r, _)) in list.iter_mut().zip(rows) {
        *entry = low16(r);
    }
    label.iter().filter(|l| **l == lowest).count()
}
