// The queue of rows with one erasure left. Public for the crates starts, peel and rounding only.
#![tactic(auto)]

mod zeros;

ghost use Rattle.std.specs.Prelude.{◌≡◌, ◌+◌, ◌*◌, ◌<◌, ◌≤◌, length};
ghost use Rattle.bounds.specs.Bounds.{max_t};
ghost use Rattle.queue.specs.Queue.{Below, Enters, Queued, Sweepable};

use crate::zeros::no_ones;
use plan::Row;
use tables::lists::put_row;
use tables::rows::TALLY_UNIT;

// How a row enters the queue: at the tail, if the number that it has left is exactly one; gives the new tail.
pub trait Enter {
    fn enter(queue: &mut [u16], tail: usize, row: Row, rest: u16) -> usize
        requires { rest ≡ 1 → tail < length queue.old }
        ensures { Enters queue.old tail row.0 rest queue.new result };
}

// By a branch: in chains the next row nearly always enters, and the processor runs ahead.
pub struct Branching;

impl Enter for Branching {
    fn enter(queue: &mut [u16], tail: usize, row: Row, rest: u16) -> usize {
        if rest != 1 {
            return tail;
        }
        put_row(queue, tail, row);
        tail + 1
    }
}

// With no branch on what is left, where that would be hard to foresee: the row is stored in any case.
pub struct Storing;

impl Enter for Storing {
    fn enter(queue: &mut [u16], tail: usize, row: Row, rest: u16) -> usize {
        if queue.len() <= tail {
            return tail;
        }
        put_row(queue, tail, row);
        tail + usize::from(rest == 1)
    }
}

// The rows from `from` up to `to` enter if they have exactly one left, by their tallies over the unit. Each is stored at the tail, and the tail moves on if it enters:
// no branch, since which rows enter is hard to foresee.
fn sweep(tally: &[u16], queue: &mut [u16], from: usize, to: usize, tail: usize) -> usize
    requires { Sweepable tally.now queue.old from to tail }
    ensures { Queued tally.now queue.new (Below to) 0 result }
{
    let mut end = tail;
    for r in from..to {
        put_row(queue, end, Row(r as u16));
        end += usize::from(tally[r] / TALLY_UNIT == 1);
    }
    end
}

// The same of eight rows, passed at once if none has exactly one left.
fn sweep_group(tally: &[u16], queue: &mut [u16], from: usize, tail: usize) -> usize
    requires { Sweepable tally.now queue.old from (from + 8) tail }
    ensures { Queued tally.now queue.new (Below (from + 8)) 0 result }
{
    let to = from + 8;
    if no_ones(&tally[from..to]) {
        return tail;
    }
    sweep(tally, queue, from, to, tail)
}

// Every row with exactly one left enters, in rising order; gives the tail.
pub fn seed(t: usize, tally: &[u16], queue: &mut [u16]) -> usize
    requires { (t ≤ max_t) × (length tally.now ≡ 2 * t) × (length queue.old ≡ 2 * t) }
    ensures { Queued tally.now queue.new (Below (2 * t)) 0 result }
{
    let rows = 2 * t;
    let groups = rows / 8;
    let mut tail = 0;
    for g in 0..groups {
        tail = sweep_group(tally, queue, 8 * g, tail);
    }
    sweep(tally, queue, 8 * groups, rows, tail)
}
