// What is turned away, in the order of 01's table.
use crate::marks::is_marked;
use crate::second::rows::shift;
use plan::Plan;

#[derive(Clone, Copy, PartialEq, Eq)]
pub(crate) enum Refused {
    Size,
    Shift,
    Length,
    Spare,
    Family,
}

// Where n, t or n × t is out of bounds.
pub(crate) fn of_size(n: usize, t: usize) -> Result<(), Refused> {
    if n < 2 || 32 < n || t < 1 || 2048 < t || 32768 < n.wrapping_mul(t) {
        return Err(Refused::Size);
    }
    Ok(())
}

// Then where one of the first n shifts is t or more.
pub(crate) fn of_plan(plan: Plan) -> Result<(), Refused> {
    of_size(plan.n, plan.t)?;
    if (0..plan.n).any(|j| plan.t <= shift(plan, j)) {
        return Err(Refused::Shift);
    }
    Ok(())
}

// The number of marked places from one place up to another.
pub(crate) fn marked(marks: &[u8], from: usize, end: usize) -> usize {
    (from..end).filter(|c| is_marked(marks, *c)).count()
}

pub(crate) fn mark_bytes(places: usize) -> usize {
    places.div_ceil(8)
}

// Where the marks have another length, or a spare bit is 1.
pub(crate) fn of_marks(places: usize, marks: &[u8]) -> Result<(), Refused> {
    if marks.len() != mark_bytes(places) {
        return Err(Refused::Length);
    }
    if 0 < marked(marks, places, marks.len().wrapping_mul(8)) {
        return Err(Refused::Spare);
    }
    Ok(())
}
