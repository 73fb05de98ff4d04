// Peeling: settling erasures row by row, as far as some row has exactly one left.
// Public for the crates above only.
#![tactic(auto)]

ghost use Rattle.std.specs.Prelude.{◌≡◌, ◌*◌, ◌<◌};
ghost use Rattle.plan.specs.Layout.{layout};
ghost use Rattle.starts.specs.Starts.{Startable};
ghost use Rattle.peel.specs.Peels.{Ready, Steps, Peelable, Peels};

use queue::{Branching, Enter, Storing, seed};
use settling::settle::settle;
use starts::seed_marked;
use tables::lists::{put_place, row_at};
use tables::rows::TALLY_UNIT;

// The ends of the queue and of the list of settled places.
#[derive(Clone, Copy)]
struct Ends {
    tail: usize,
    count: usize,
}

// One turn: the row at the head of the queue, if it still has exactly one left, by its tally over the unit.
fn step<E: Enter>(
    n: usize,
    t: usize,
    shifts: &[u16],
    sum: &mut [u8],
    tally: &mut [u16],
    queue: &mut [u16],
    place: &mut [u16],
    value: &mut [u8],
    head: usize,
    ends: Ends,
) -> Ends
    requires ready { Ready n t shifts.now sum.old tally.old queue.old place.old value.old head ends.tail ends.count }
    requires head_lt_tail { head < ends.tail }
    ensures { Steps n t shifts.now sum.old tally.old queue.old place.old value.old head ends.count sum.new tally.new queue.new place.new value.new result.tail result.count }
{
    let Ends { tail, count } = ends;
    let row = row_at(queue, head);
    let r = row.0 as usize;
    if tally[r] / TALLY_UNIT != 1 {
        return ends;
    }
    let s = settle(n, t, shifts, sum, tally, row);
    let longer = E::enter(queue, tail, s.other, s.rest);
    put_place(place, count, s.place);
    value[count] = s.value;
    Ends {
        tail: longer,
        count: count + 1,
    }
}

// The turns until the queue is empty, in which rows enter by one of the two ways; gives the number of places settled.
fn drain_by<E: Enter>(
    n: usize,
    t: usize,
    shifts: &[u16],
    sum: &mut [u8],
    tally: &mut [u16],
    queue: &mut [u16],
    place: &mut [u16],
    value: &mut [u8],
    seeds: usize,
) -> usize
    requires { Ready n t shifts.now sum.old tally.old queue.old place.old value.old 0 seeds 0 }
    ensures { Peels (layout n t shifts.now) sum.old tally.old sum.new tally.new place.new value.new result }
{
    let mut ends = Ends {
        tail: seeds,
        count: 0,
    };
    let mut head = 0;
    while head < ends.tail {
        ends = step::<E>(n, t, shifts, sum, tally, queue, place, value, head, ends);
        head += 1;
    }
    ends.count
}

// The turns from the rows at the front of the queue on; gives the number of places settled.
fn drain(
    n: usize,
    t: usize,
    shifts: &[u16],
    sum: &mut [u8],
    tally: &mut [u16],
    queue: &mut [u16],
    place: &mut [u16],
    value: &mut [u8],
    seeds: usize,
) -> usize
    requires { Ready n t shifts.now sum.old tally.old queue.old place.old value.old 0 seeds 0 }
    ensures { Peels (layout n t shifts.now) sum.old tally.old sum.new tally.new place.new value.new result }
{
    // Few rows to start from: the erasures lie in chains.
    if seeds < t / 8 {
        drain_by::<Branching>(n, t, shifts, sum, tally, queue, place, value, seeds)
    } else {
        drain_by::<Storing>(n, t, shifts, sum, tally, queue, place, value, seeds)
    }
}

// Settles what it can; gives the number of places settled, which stand with their values at the front of the two lists.
pub fn peel(
    n: usize,
    t: usize,
    shifts: &[u16],
    sum: &mut [u8],
    tally: &mut [u16],
    queue: &mut [u16],
    place: &mut [u16],
    value: &mut [u8],
) -> usize
    requires { Peelable n t shifts.now sum.old tally.old queue.old place.old value.old }
    ensures { Peels (layout n t shifts.now) sum.old tally.old sum.new tally.new place.new value.new result }
{
    let seeds = seed(t, tally, queue);
    drain(n, t, shifts, sum, tally, queue, place, value, seeds)
}

// The same where the table tallies the marked places: the rows to start from are found by the marks where these are few.
pub fn peel_marked(
    n: usize,
    t: usize,
    shifts: &[u16],
    marks: &[u8],
    sum: &mut [u8],
    tally: &mut [u16],
    queue: &mut [u16],
    place: &mut [u16],
    value: &mut [u8],
) -> usize
    requires { Peelable n t shifts.now sum.old tally.old queue.old place.old value.old × Startable n t shifts.now marks.now tally.old queue.old place.old }
    ensures { Peels (layout n t shifts.now) sum.old tally.old sum.new tally.new place.new value.new result }
{
    let seeds = seed_marked(n, t, shifts, marks, tally, queue, place);
    drain(n, t, shifts, sum, tally, queue, place, value, seeds)
}
