// The number of peeling rounds that marked places take (document 02, N5), through the queue of rows with one erasure left: the rows that stand in it when a round
// starts are the round, and those that enter meanwhile wait for the next.
// Public for the crate recovering only.
#![tactic(auto)]

ghost use Rattle.std.specs.Prelude.{◌≡◌, ◌*◌, ◌<◌, length, replicate, Ok};
ghost use Rattle.plan.specs.Plans.{layout_of, plan_check};
ghost use Rattle.plan.specs.Layout.{layout};
ghost use Rattle.code.specs.Marks.{mark_bytes, NoSpare, erasures};
ghost use Rattle.code.specs.Rounds.{Rounds};
ghost use Rattle.code.specs.Laws.Forest.{Forest};
ghost use Rattle.tables.specs.Scan.{Lent};
ghost use Rattle.rounding.specs.OneRow.{Ready, Turned};
ghost use Rattle.rounding.specs.OneRound.{Rounded};

use plan::{Place, Plan};
use queue::{Branching, Enter, seed};
use settling::settle::settle;
use tables::lists::row_at;
use tables::marks::note_marks;
use tables::rows::TALLY_UNIT;

// The end of the queue, and the number of erasures left.
#[derive(Clone, Copy)]
struct Ends {
    tail: usize,
    left: usize,
}

// One row of a round: the one erasure that it has is settled. It may have none by now.
fn turn(
    n: usize,
    t: usize,
    shifts: &[u16],
    sum: &mut [u8],
    tally: &mut [u16],
    queue: &mut [u16],
    i: usize,
    ends: Ends,
) -> Ends
    requires ready { Ready n t shifts.now sum.old tally.old queue.old i ends.tail ends.left }
    requires i_lt_tail { i < ends.tail }
    ensures { Turned n t shifts.now sum.old tally.old queue.old i ends.tail ends.left sum.new tally.new queue.new result.tail result.left }
{
    let Ends { tail, left } = ends;
    let row = row_at(queue, i);
    let r = row.0 as usize;
    if tally[r] / TALLY_UNIT != 1 {
        return ends;
    }
    let s = settle(n, t, shifts, sum, tally, row);
    let longer = Branching::enter(queue, tail, s.other, s.rest);
    Ends {
        tail: longer,
        left: left - 1,
    }
}

// One round: the rows that stand in the queue from `head` to `end`.
fn round(
    n: usize,
    t: usize,
    shifts: &[u16],
    sum: &mut [u8],
    tally: &mut [u16],
    queue: &mut [u16],
    head: usize,
    end: usize,
    erased: usize,
) -> Ends
    requires { Ready n t shifts.now sum.old tally.old queue.old head end erased }
    ensures { Rounded n t shifts.now sum.old tally.old end erased sum.new tally.new queue.new result.tail result.left }
{
    let mut ends = Ends {
        tail: end,
        left: erased,
    };
    for i in head..end {
        ends = turn(n, t, shifts, sum, tally, queue, i, ends);
    }
    ends
}

// The rounds until no erasure is left, of `count` marked places that hold no cycle. The tables are zeros.
fn count_rounds(
    n: usize,
    t: usize,
    shifts: &[u16],
    marks: &[u8],
    count: usize,
    sum: &mut [u8],
    tally: &mut [u16],
    queue: &mut [u16],
) -> usize
    requires lent { Lent n t shifts.now marks.now × Forest (layout n t shifts.now) (erasures (layout n t shifts.now) marks.now) × (count ≡ length (erasures (layout n t shifts.now) marks.now)) }
    requires sum_value { (sum.old ≡ replicate (2 * t) 0) × (tally.old ≡ replicate (2 * t) 0) × (length queue.old ≡ 2 * t) }
    ensures { Rounds (layout n t shifts.now) (erasures (layout n t shifts.now) marks.now) result }
{
    note_marks(n, t, shifts, marks, Place(0), tally);
    let mut tail = seed(t, tally, queue);
    let mut head = 0;
    let mut left = count;
    let mut k = 0;
    while 0 < left {
        let ends = round(n, t, shifts, sum, tally, queue, head, tail, left);
        head = tail;
        tail = ends.tail;
        left = ends.left;
        k += 1;
    }
    k
}

// The same of a plan.
pub fn rounds(plan: Plan, marks: &[u8], count: usize) -> usize
    requires plan_value { (plan_check plan ≡ Ok tt) × (length marks.now ≡ mark_bytes (layout_of plan)) × NoSpare (layout_of plan) marks.now }
    requires forest { Forest (layout_of plan) (erasures (layout_of plan) marks.now) × (count ≡ length (erasures (layout_of plan) marks.now)) }
    ensures { Rounds (layout_of plan) (erasures (layout_of plan) marks.now) result }
{
    let mut sum = [0u8; 2 * Plan::MAX_T];
    let mut tally = [0u16; 2 * Plan::MAX_T];
    let mut queue = [0u16; 2 * Plan::MAX_T];
    let s = plan.shifts;
    let rows = 2 * plan.t;
    count_rounds(
        plan.n,
        plan.t,
        &s[..],
        marks,
        count,
        &mut sum[..rows],
        &mut tally[..rows],
        &mut queue[..rows],
    )
}
