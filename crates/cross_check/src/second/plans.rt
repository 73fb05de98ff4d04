// The making of plans by 01.
use crate::numbers::{low16, remainder};
use crate::second::refusing::{Refused, of_plan, of_size};
use crate::second::rows::shift;
use plan::Plan;
use std::array;

// Table I of 002 as 01 has it: for each n from 3 to 14 its t, then its shifts.
const RULERS: [(usize, &[u16]); 12] = [
    (7, &[0, 1, 3]),
    (13, &[0, 1, 3, 9]),
    (21, &[4, 0, 1, 14, 16]),
    (31, &[0, 1, 3, 8, 12, 18]),
    (48, &[0, 1, 3, 15, 20, 38, 42]),
    (57, &[13, 36, 32, 1, 3, 43, 0, 52]),
    (73, &[0, 1, 3, 7, 15, 31, 36, 54, 63]),
    (91, &[61, 77, 81, 49, 3, 9, 27, 56, 1, 0]),
    (120, &[45, 58, 35, 114, 1, 20, 3, 74, 31, 0, 53]),
    (133, &[0, 1, 3, 12, 20, 38, 34, 81, 94, 88, 104, 109]),
    (168, &[1, 0, 121, 108, 103, 30, 11, 162, 83, 46, 3, 34, 147]),
    (
        183,
        &[0, 1, 3, 16, 23, 28, 42, 76, 82, 86, 119, 137, 154, 175],
    ),
];

// With some of the shifts lent: refused where these are not n.
pub(crate) fn of(plan: Plan, lent: usize) -> Result<Plan, Refused> {
    of_size(plan.n, plan.t)?;
    if lent != plan.n {
        return Err(Refused::Shift);
    }
    of_plan(plan)?;
    let shifts = array::from_fn(|j| if j < plan.n { low16(shift(plan, j)) } else { 0 });
    Ok(Plan::raw(plan.n, plan.t, shifts))
}

pub(crate) fn straight(n: usize, t: usize) -> Result<Plan, Refused> {
    of_size(n, t)?;
    if t < n {
        return Err(Refused::Family);
    }
    let shifts = array::from_fn(|j| if j < n { low16(j) } else { 0 });
    Ok(Plan::raw(n, t, shifts))
}

// Whether a number above 1 divides both. No divisor of t is above t.
fn have_factor(t: usize, q: usize) -> bool {
    (2..=t).any(|d| t.is_multiple_of(d) && q.is_multiple_of(d))
}

// Whether q is above 1, and neither q nor q - 1 has a factor in common with t.
fn is_base(t: usize, q: usize) -> bool {
    1 < q && !have_factor(t, q) && !have_factor(t, q - 1)
}

pub(crate) fn powers(n: usize, t: usize, q: usize) -> Result<Plan, Refused> {
    of_size(n, t)?;
    if n < 3 || t < n || !is_base(t, q) {
        return Err(Refused::Family);
    }
    let mut shifts = [0u16; 32];
    let mut p = remainder(1, t);
    for shift in shifts.iter_mut().take(n) {
        *shift = low16(p);
        p = remainder(p.wrapping_mul(remainder(q, t)), t);
    }
    Ok(Plan::raw(n, t, shifts))
}

pub(crate) fn ruler(n: usize) -> Result<Plan, Refused> {
    if n < 2 || 32 < n {
        return Err(Refused::Size);
    }
    let Some((t, list)) = RULERS.iter().find(|(_, list)| list.len() == n).copied() else {
        return Err(Refused::Family);
    };
    let mut shifts = [0u16; 32];
    for (shift, p) in shifts.iter_mut().zip(list) {
        *shift = *p;
    }
    Ok(Plan::raw(n, t, shifts))
}
