// 02, N2: a marked place is fetched exactly when its two rows are joined by the marked places above it.
// The places are taken from the highest down, and every join renames the labels of all rows.
use crate::marks::{is_marked, mark};
use crate::second::labels::alone;
use crate::second::messages::visit;
use crate::second::rows::places;
use plan::Plan;
use std::alloc::{AllocError, Global};

// Sets the bits of the places fetched in a list of zeros.
pub(crate) fn fetch(
    alloc: Global,
    plan: Plan,
    marks: &[u8],
    list: &mut [u8],
) -> Result<(), AllocError> {
    let mut label = alone(alloc, plan)?;
    for c in (0..places(plan)).rev() {
        if is_marked(marks, c) && !visit(plan, c, &mut label) {
            mark(list, c);
        }
    }
    Ok(())
}
