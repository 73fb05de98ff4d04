// What refuses the lent state of a job, by the tests of every call: 1 and 2 where a plan is held, then 3, then 4.
// Public for the crates above only.
#![tactic(auto)]

ghost use Rattle.std.specs.Prelude.{◌≡◌};
ghost use Rattle.standing.specs.Standing.{buffers_fit, state_check, held_check};

use act::{BLOCK, MARKS};
use calls::check_lent;
use lines::LINE;
use plan::Plan;
use refusals::Refusal;

pub fn check_held(
    held: Option<Plan>,
    block: &[u8],
    marks: &[u8],
    line: &[u8],
) -> Result<(), Refusal>
    ensures { result ≡ held_check held block.now marks.now line.now }
{
    let fits = buffers_fit(block, marks, line);
    check_state(held, fits, marks)
}

// With no plan there are no places, and so no spare bits. `fits`: every lent buffer has its length.
pub fn check_state(held: Option<Plan>, fits: bool, marks: &[u8]) -> Result<(), Refusal>
    ensures { result ≡ state_check held fits marks.now }
{
    let Some(plan) = held else {
        return check_lent(fits, 0, marks);
    };
    plan.check()?;
    check_lent(fits, plan.n * plan.t, marks)
}

// Whether the buffers have their lengths.
fn buffers_fit(block: &[u8], marks: &[u8], line: &[u8]) -> bool
    ensures { result ≡ buffers_fit block.now marks.now line.now }
{
    if block.len() != BLOCK {
        return false;
    }
    if marks.len() != MARKS {
        return false;
    }
    line.len() == LINE
}
