// The line of a turn put on a lent sheet behind those that stand there, and how far the job has come by it.
// Public for the crate sheet only: put_turn.
#![tactic(auto)]

ghost use Rattle.std.specs.Prelude.{◌≡◌, ◌≤◌, length};
ghost use Rattle.putting.specs.Putting.{Put, Fits, Placed};

use plan::Plan;
use turns::{Step, Turn};

// Going: more may follow. Closed: the last line is on the sheet. Full: the sheet has no room for the line.
#[derive(Clone, Copy, PartialEq, Eq)]
pub enum Phase {
    Going,
    Closed,
    Full,
}

// After a turn: the plan, the place in the job, the length of the sheet so far.
#[derive(Clone, Copy)]
pub struct Reached {
    pub held: Option<Plan>,
    pub at: usize,
    pub to: usize,
    pub phase: Phase,
}

// After a command more may follow; the line of any other turn is the last. A turn without a line puts nothing, and the job goes no further.
pub fn put_turn(step: Step, at: usize, line: &[u8], sheet: &mut [u8], to: usize) -> Reached
    requires { Fits step.turn at (length line.now) × (to ≤ length sheet.old) }
    ensures { (result.held ≡ step.held) × Placed step.turn at line.now sheet.old to sheet.new result.at result.to result.phase }
{
    let held = step.held;
    let turn = step.turn;
    match turn {
        Turn::On(used, count) => put_line(held, at + used, line, count, sheet, to, Phase::Going),
        Turn::End(count) => put_line(held, at, line, count, sheet, to, Phase::Closed),
        Turn::Stop(_, count) => put_line(held, at, line, count, sheet, to, Phase::Closed),
        Turn::Wait => Reached {
            held,
            at,
            to,
            phase: Phase::Full,
        },
        Turn::Bad(_) => Reached {
            held,
            at,
            to,
            phase: Phase::Full,
        },
    }
}

// The line is put on the sheet, if it fits.
fn put_line(
    held: Option<Plan>,
    at: usize,
    line: &[u8],
    count: usize,
    sheet: &mut [u8],
    to: usize,
    phase: Phase,
) -> Reached
    requires { (count ≤ length line.now) × (to ≤ length sheet.old) }
    ensures { (result.held ≡ held) × (result.at ≡ at) × Put line.now count sheet.old to phase sheet.new result.to result.phase }
{
    if sheet.len() - to < count {
        return Reached {
            held,
            at,
            to,
            phase: Phase::Full,
        };
    }
    let end = to + count;
    sheet[to..end].copy_from_slice(&line[..count]);
    Reached {
        held,
        at,
        to: end,
        phase,
    }
}
