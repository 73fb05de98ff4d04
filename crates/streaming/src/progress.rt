// Commands performed one after another until something is wanted: more bytes, room on the sheet, or nothing, since the job is closed.
ghost use Rattle.std.specs.Prelude.{◌≡◌, Bool, ℕ, ◌+◌, ◌*◌, ◌^◌, ◌≤◌, ◌<◌, length};
ghost use Rattle.act.specs.Acts.{Kept};
ghost use Rattle.turns.specs.Turns.{turn_used, turn_wrote};
ghost use Rattle.stream.specs.Course.{halt_of, Course};
ghost use Rattle.stream.specs.declared.Halt.TheVariants as halt;

use job::take_turn;
use lines::LINE;
use plan::Plan;
use quick::{Passed, quick};
use stream::Halt;
use turns::{Step, Turn};

// How far the commands were performed and the sheet is filled, and the plan then.
#[derive(Clone, Copy)]
pub struct Reached {
    pub held: Option<Plan>,
    pub at: usize,
    pub to: usize,
    pub halt: Halt,
}

// `last`: no more bytes come. `offset`: where the bytes stand in the job.
pub fn perform_all(
    held: Option<Plan>,
    block: &mut [u8],
    marks: &mut [u8],
    sheet: &mut [u8],
    filled: usize,
    bytes: &[u8],
    last: bool,
    offset: u64,
) -> Reached
    requires { Kept held block.old marks.old × (filled ≤ length sheet.old) × (offset + length bytes.now < 2 ^ 64) }
    ensures { Course bytes.now last offset held block.old marks.old 0 sheet.old filled result.held block.new marks.new result.at sheet.new result.to result.halt × (result.halt ≡ halt.On → ⊥) }
{
    let mut here = Reached {
        held,
        at: 0,
        to: filled,
        halt: Halt::On,
    };
    while let Halt::On = here.halt {
        here = next(
            here,
            &mut block[..],
            &mut marks[..],
            &mut sheet[..],
            bytes,
            last,
            offset,
        );
    }
    here
}

// The commands that come by the thousand, then one of any kind.
fn next(
    here: Reached,
    block: &mut [u8],
    marks: &mut [u8],
    sheet: &mut [u8],
    bytes: &[u8],
    last: bool,
    offset: u64,
) -> Reached
    requires { Kept here.held block.old marks.old × (here.to ≤ length sheet.old) × (here.at ≤ length bytes.now) × (offset + length bytes.now < 2 ^ 64) }
    ensures { Course bytes.now last offset here.held block.old marks.old here.at sheet.old here.to result.held block.new marks.new result.at sheet.new result.to result.halt × (result.halt ≡ halt.On → here.at < result.at) }
{
    let held = here.held;
    let went = quickly(
        held,
        &mut block[..],
        &mut marks[..],
        &mut sheet[..],
        here.to,
        bytes,
        here.at,
    );
    turn(
        held,
        &mut block[..],
        &mut marks[..],
        &mut sheet[..],
        went.to,
        bytes,
        went.at,
        last,
        offset,
    )
}

// Without a plan there is none of them.
fn quickly(
    held: Option<Plan>,
    block: &mut [u8],
    marks: &mut [u8],
    sheet: &mut [u8],
    to: usize,
    bytes: &[u8],
    at: usize,
) -> Passed
    requires { Kept held block.old marks.old × (to ≤ length sheet.old) × (at ≤ length bytes.now) }
    ensures { (last : Bool) (o : ℕ) → Course bytes.now last o held block.old marks.old at sheet.old to held block.new marks.new result.at sheet.new result.to halt.On }
{
    let Some(plan) = held else {
        return Passed { at, to };
    };
    quick(plan.n * plan.t, block, marks, bytes, at, sheet, to)
}

// One turn, if there is room for its line.
fn turn(
    held: Option<Plan>,
    block: &mut [u8],
    marks: &mut [u8],
    sheet: &mut [u8],
    to: usize,
    bytes: &[u8],
    at: usize,
    last: bool,
    offset: u64,
) -> Reached
    requires { Kept held block.old marks.old × (to ≤ length sheet.old) × (at ≤ length bytes.now) × (offset + length bytes.now < 2 ^ 64) }
    ensures { Course bytes.now last offset held block.old marks.old at sheet.old to result.held block.new marks.new result.at sheet.new result.to result.halt × (result.halt ≡ halt.On → at < result.at) }
{
    if sheet.len() - to < LINE {
        return Reached {
            held,
            at,
            to,
            halt: Halt::Room,
        };
    }
    let most = to + LINE;
    let step = take_turn(
        held,
        block,
        marks,
        &mut sheet[to..most],
        &bytes[at..],
        last,
        offset + at as u64,
    );
    after_turn(step, at, to)
}

// Where a turn leads.
fn after_turn(step: Step, at: usize, to: usize) -> Reached
    requires { (at + turn_used step.turn < 2 ^ 64) × (to + turn_wrote step.turn < 2 ^ 64) }
    ensures { (result.held ≡ step.held) × (result.at ≡ at + turn_used step.turn) × (result.to ≡ to + turn_wrote step.turn) × (result.halt ≡ halt_of step.turn) }
{
    let held = step.held;
    let turn = step.turn;
    match turn {
        Turn::On(used, count) => Reached {
            held,
            at: at + used,
            to: to + count,
            halt: Halt::On,
        },
        Turn::Wait => Reached {
            held,
            at,
            to,
            halt: Halt::Input,
        },
        Turn::End(count) => Reached {
            held,
            at,
            to: to + count,
            halt: Halt::Closed,
        },
        Turn::Stop(_, count) => Reached {
            held,
            at,
            to: to + count,
            halt: Halt::Closed,
        },
        Turn::Bad(_) => Reached {
            held,
            at,
            to,
            halt: Halt::Closed,
        },
    }
}
