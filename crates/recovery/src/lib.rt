// Recovery: a block with erasures is filled, or the answer says why it cannot be.
// Entry: recover.
#![tactic(auto)]

ghost use Rattle.std.specs.Prelude.{◌*◌, ◌^◌, ◌≤◌, ◌<◌};
ghost use Rattle.plan.specs.Layout.{layout};
ghost use Rattle.code.specs.Marks.{erasures};
ghost use Rattle.promises.specs.Promises.{Recovers, Decides};
ghost use Rattle.deciding.specs.Attempts.{Given};

use answers::Recovery;
use calls::{Lent, check_call};
use deciding::cut;
use plan::Plan;
use whole::{intact, recovered};

// Tables that stand whole pages apart are slower: the large ones have some entries to spare.
const SPARE: usize = 64;

// Entries for the rows of the plans up to t = 32, 192, 512, 1024 and the largest t.
const SMALL: usize = 2 * 32;

const MEDIUM: usize = 2 * 192;

const WIDE: usize = 2 * 512 + SPARE;

const WIDER: usize = 2 * 1024 + SPARE;

const LARGE: usize = 2 * Plan::MAX_T + SPARE;

// Recovers the block, or leaves it as it is and says why; the witness list shows the answer's reason.
pub fn recover(plan: Plan, block: &mut [u8], marks: &[u8], witness: &mut [u16]) -> Recovery
    ensures { Recovers plan block.old marks.now witness.old result block.new witness.new }
{
    let lent = Lent {
        block: Some(block.len()),
        marks: Some(marks.len()),
        witness: Some(witness.len()),
        message: None,
    };
    match check_call(plan, lent, marks) {
        Err(x) => Recovery::Refused(x),
        Ok(()) => {
            let s = plan.shifts;
            decide(plan.n, plan.t, &s[..], block, marks, witness)
        }
    }
}

// With tables of the plan's size.
fn decide(
    n: usize,
    t: usize,
    shifts: &[u16],
    block: &mut [u8],
    marks: &[u8],
    witness: &mut [u16],
) -> Recovery
    requires { Given n t shifts.now block.old marks.now witness.old }
    ensures { Decides (layout n t shifts.now) (erasures (layout n t shifts.now) marks.now) block.old result block.new witness.new }
{
    if t <= 32 {
        decide_in::<SMALL>(n, t, shifts, block, marks, witness)
    } else if t <= 192 {
        decide_in::<MEDIUM>(n, t, shifts, block, marks, witness)
    } else if t <= 512 {
        decide_in::<WIDE>(n, t, shifts, block, marks, witness)
    } else if t <= 1024 {
        decide_in::<WIDER>(n, t, shifts, block, marks, witness)
    } else {
        decide_in::<LARGE>(n, t, shifts, block, marks, witness)
    }
}

// With tables of ROWS entries: the language clears local arrays whole, so a small plan takes small tables.
fn decide_in<const ROWS: usize>(
    n: usize,
    t: usize,
    shifts: &[u16],
    block: &mut [u8],
    marks: &[u8],
    witness: &mut [u16],
) -> Recovery
    requires given { Given n t shifts.now block.old marks.now witness.old }
    requires rows { (2 * t ≤ ROWS) × (ROWS < 2 ^ 16) }
    ensures { Decides (layout n t shifts.now) (erasures (layout n t shifts.now) marks.now) block.old result block.new witness.new }
{
    let mut sum = [0u8; ROWS];
    if intact(n, t, shifts, block, marks, &mut sum) {
        return recovered(witness);
    }
    let mut tally = [0u16; ROWS];
    let mut place = [0u16; ROWS];
    let mut value = [0u8; ROWS];
    cut(
        n, t, shifts, block, marks, &mut sum, &mut tally, &mut place, &mut value, witness,
    )
}
