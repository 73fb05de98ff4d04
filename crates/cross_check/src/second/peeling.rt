// The whole-block fixed point: passes over all rows, up and down in turn, in which a row with exactly one unknown symbol
// settles it. Each row is looked at anew every time.
use crate::second::rows::{place_on, rows};
use plan::Plan;

// The only place of a row whose symbol is not known; none where there are more, or none.
fn only_unknown(plan: Plan, symbols: &[Option<u8>], r: usize) -> Option<usize> {
    let mut unknown = (0..plan.n)
        .map(|j| place_on(plan, r, j))
        .filter(|c| symbols.get(*c) == Some(&None));
    let c = unknown.next()?;
    match unknown.next() {
        None => Some(c),
        Some(_) => None,
    }
}

// The sum of the known symbols of a row.
pub(crate) fn sum(plan: Plan, symbols: &[Option<u8>], r: usize) -> u8 {
    (0..plan.n)
        .filter_map(|j| symbols.get(place_on(plan, r, j)).copied().flatten())
        .fold(0, |sum, symbol| sum ^ symbol)
}

// Whether the row settles a place.
fn settle_row(plan: Plan, r: usize, symbols: &mut [Option<u8>]) -> bool {
    let Some(c) = only_unknown(plan, symbols, r) else {
        return false;
    };
    let settled = sum(plan, symbols, r);
    if let Some(symbol) = symbols.get_mut(c) {
        *symbol = Some(settled);
    }
    true
}

// Whether a pass settles a place.
fn pass(plan: Plan, is_down: bool, symbols: &mut [Option<u8>]) -> bool {
    let end = rows(plan);
    let mut any = false;
    for i in 0..end {
        let r = if is_down { end - 1 - i } else { i };
        any |= settle_row(plan, r, symbols);
    }
    any
}

// Passes until one settles nothing. Every other settles a place, and no more than 2t can be settled.
pub(crate) fn settle(plan: Plan, symbols: &mut [Option<u8>]) {
    for i in 0..=rows(plan) {
        if !pass(plan, i % 2 == 1, symbols) {
            return;
        }
    }
}

// Whether every symbol is known and every row sums to 0.
pub(crate) fn is_settled(plan: Plan, symbols: &[Option<u8>]) -> bool {
    symbols.iter().all(|symbol| symbol.is_some())
        && (0..rows(plan)).all(|r| sum(plan, symbols, r) == 0)
}

// The known symbols, into the block.
pub(crate) fn put_known(symbols: &[Option<u8>], block: &mut [u8]) {
    for (to, symbol) in block.iter_mut().zip(symbols) {
        if let Some(symbol) = symbol {
            *to = *symbol;
        }
    }
}
