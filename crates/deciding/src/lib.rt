// The answer of recovery over lent tables: the block is filled, or it stays and the answer says why.
// Public for the crate recovery only: cut.
#![tactic(auto)]

ghost use Rattle.std.specs.Prelude.{◌≡◌};
ghost use Rattle.plan.specs.Layout.{layout};
ghost use Rattle.code.specs.Marks.{erasures};
ghost use Rattle.settling.specs.Fill.{clean_of};
ghost use Rattle.promises.specs.Promises.{Decides};
ghost use Rattle.deciding.specs.Attempts.{Given, Cut, Tables, Tried};

use answers::Recovery;
use explaining::explain;
use peel::peel_marked;
use plan::Place;
use settling::fill::clean;
use tables::marks::note_marks;
use whole::put_in;

// The part of each table that the plan's rows take.
pub fn cut(
    n: usize,
    t: usize,
    shifts: &[u16],
    block: &mut [u8],
    marks: &[u8],
    sum: &mut [u8],
    tally: &mut [u16],
    place: &mut [u16],
    value: &mut [u8],
    witness: &mut [u16],
) -> Recovery
    requires given { Given n t shifts.now block.old marks.now witness.old }
    requires cut { Cut n t shifts.now block.old sum.old tally.old place.old value.old }
    ensures { Decides (layout n t shifts.now) (erasures (layout n t shifts.now) marks.now) block.old result block.new witness.new }
{
    let rows = 2 * t;
    attempt(
        n,
        t,
        shifts,
        block,
        marks,
        &mut sum[..rows],
        &mut tally[..rows],
        &mut place[..rows],
        &mut value[..rows],
        witness,
    )
}

// Counts the erasures, peels, and finishes by what is left: the block is whole where no erasure is, and every row sums to 0. Meanwhile the witness list
// is the queue.
fn attempt(
    n: usize,
    t: usize,
    shifts: &[u16],
    block: &mut [u8],
    marks: &[u8],
    sum: &mut [u8],
    tally: &mut [u16],
    place: &mut [u16],
    value: &mut [u8],
    witness: &mut [u16],
) -> Recovery
    requires given { Given n t shifts.now block.old marks.now witness.old }
    requires tables { Tables n t shifts.now block.old sum.old tally.old place.old value.old }
    ensures { Decides (layout n t shifts.now) (erasures (layout n t shifts.now) marks.now) block.old result block.new witness.new }
{
    note_marks(n, t, shifts, marks, Place(0), &mut tally[..]);
    let k = peel_marked(
        n,
        t,
        shifts,
        marks,
        &mut sum[..],
        &mut tally[..],
        &mut witness[..],
        &mut place[..],
        &mut value[..],
    );
    let whole = clean(&sum[..], &tally[..]);
    finish(
        n, t, shifts, block, marks, sum, tally, place, value, k, whole, witness,
    )
}

// A whole block is filled; otherwise it stays, and the refusal is explained by
// the sums that are left: peeling changes none of a component.
fn finish(
    n: usize,
    t: usize,
    shifts: &[u16],
    block: &mut [u8],
    marks: &[u8],
    sum: &mut [u8],
    tally: &mut [u16],
    place: &mut [u16],
    value: &mut [u8],
    k: usize,
    whole: bool,
    witness: &mut [u16],
) -> Recovery
    requires given { Given n t shifts.now block.old marks.now witness.old }
    requires tried { Tried n t shifts.now block.old marks.now sum.old tally.old place.old value.old k × (whole ≡ clean_of sum.old tally.old) }
    ensures { Decides (layout n t shifts.now) (erasures (layout n t shifts.now) marks.now) block.old result block.new witness.new }
{
    if whole {
        return put_in(block, &place[..], &value[..], k, witness);
    }
    explain(
        n,
        t,
        shifts,
        marks,
        sum,
        tally,
        place,
        value,
        &mut witness[..],
    )
}
