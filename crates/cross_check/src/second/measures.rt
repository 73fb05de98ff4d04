// The four figures of 01, over all pairs of sections. And the distance of a small plan by trying every word of bits:
// each bit of the bytes is a codeword of its own.
use crate::numbers::{quotient, remainder};
use crate::second::messages::parities;
use crate::second::rows::{bottom, places, rows, shift, top};
use plan::Plan;
use std::alloc::{AllocError, Global};

// The greatest d that divides a and t; of 0 and t it is t.
fn greatest(a: usize, t: usize) -> usize {
    (1..=t)
        .rev()
        .find(|d| a.is_multiple_of(*d) && t.is_multiple_of(*d))
        .unwrap_or(0)
}

// 2t / gcd(p_i - p_j, t) - 1
fn figure(plan: Plan, i: usize, j: usize) -> usize {
    let g = greatest(shift(plan, i).abs_diff(shift(plan, j)), plan.t);
    quotient(rows(plan), g).saturating_sub(1)
}

pub(crate) fn pair(plan: Plan) -> usize {
    let mut found = rows(plan);
    for i in 0..plan.n {
        for j in 0..i {
            found = found.min(figure(plan, i, j));
        }
    }
    found
}

// Once around the drum. Of two sections each comes after the other, which is one pair twice.
pub(crate) fn neighbour(plan: Plan) -> usize {
    let mut found = rows(plan);
    for j in 0..plan.n {
        found = found.min(figure(plan, j, remainder(j + 1, plan.n)));
    }
    found
}

pub(crate) fn parity(alloc: Global, plan: Plan) -> Result<usize, AllocError> {
    let parity = parities(alloc, plan)?;
    Ok(parity.iter().filter(|is_parity| **is_parity).count())
}

// p_i - p_j mod t
fn difference(plan: Plan, i: usize, j: usize) -> usize {
    let p = shift(plan, i).wrapping_add(plan.t);
    remainder(p.wrapping_sub(shift(plan, j)), plan.t)
}

// All differences of two distinct sections.
fn differences(alloc: Global, plan: Plan) -> Result<Vec<usize>, AllocError> {
    let mut found = Vec::new(alloc);
    for i in 0..plan.n {
        for j in 0..plan.n {
            if i != j {
                found.push(difference(plan, i, j))?;
            }
        }
    }
    Ok(found)
}

fn are_distinct(numbers: &[usize]) -> bool {
    for (k, x) in numbers.iter().enumerate() {
        if numbers[..k].contains(x) {
            return false;
        }
    }
    true
}

pub(crate) fn distance(alloc: Global, plan: Plan) -> Result<usize, AllocError> {
    if plan.n == 2 {
        return Ok(pair(plan).wrapping_add(1));
    }
    let shifts: Vec<usize> = (0..plan.n).map(|j| shift(plan, j)).collect(alloc)?;
    if !are_distinct(&shifts) {
        return Ok(2);
    }
    let is_ruler = are_distinct(&differences(alloc, plan)?);
    Ok(if is_ruler { 6 } else { 4 })
}

// Bit r; past the last bit none.
fn bit(r: usize) -> u64 {
    if r < 64 { 1u64 << r } else { 0 }
}

// The rows that do not sum to 0, as bits, for the word whose symbol at place c is bit c.
fn syndrome(plan: Plan, word: u64) -> u64 {
    (0..places(plan))
        .filter(|c| word & bit(*c) != 0)
        .fold(0, |sums, c| {
            sums ^ bit(top(plan, c)) ^ bit(bottom(plan, c))
        })
}

// The least weight over all nonzero words of bits. For plans of at most 16 places and 64 rows.
pub(crate) fn least_weight(plan: Plan) -> usize {
    (1..bit(places(plan)))
        .filter(|word| syndrome(plan, *word) == 0)
        .map(|word| word.count_ones() as usize)
        .min()
        .unwrap_or(places(plan).wrapping_add(1))
}
