// A job over lent buffers: its next command is read and performed, and its line written.
// Entry: perform. take_turn is public for the crates above only.
#![tactic(auto)]

ghost use Rattle.std.specs.Prelude.{◌≡◌, Bool, true, List, ℕ, length, get_or};
ghost use Rattle.lines.specs.Lines.{line_length};
ghost use Rattle.commands.specs.Commands.{size_of, parsed};
ghost use Rattle.commands.specs.declared.Parsed.TheVariants as parsedAs;
ghost use Rattle.state.specs.Refusing.{makes_plan};
ghost use Rattle.act.specs.Acts.{Kept};
ghost use Rattle.turns.specs.Turns.{Turns};
ghost use Rattle.job.specs.Performs.{Performs};

use act::plans::{begin, made};
use commands::{Command, Parsed, parse, size_of};
use dispatch::dispatch;
use plan::Plan;
use standing::check_held;
use state::refusing::{makes_plan, refusal};
use turns::{Step, Turn, at_end, cut_off, stop, unknown};

// Performs the command at the front of the bytes. `last`: no more bytes come. `offset`: where the bytes stand in the job.
pub fn perform(
    held: Option<Plan>,
    block: &mut [u8],
    marks: &mut [u8],
    line: &mut [u8],
    bytes: &[u8],
    last: bool,
    offset: u64,
) -> Step
    ensures { Performs held block.old marks.old line.old bytes.now last offset result.turn result.held block.new marks.new line.new }
{
    match check_held(held, &block[..], &marks[..], &line[..]) {
        Err(x) => Step {
            turn: Turn::Bad(x),
            held,
        },
        Ok(()) => take_turn(held, block, marks, line, bytes, last, offset),
    }
}

// The turn on a state that nothing refuses.
pub fn take_turn(
    held: Option<Plan>,
    block: &mut [u8],
    marks: &mut [u8],
    line: &mut [u8],
    bytes: &[u8],
    last: bool,
    offset: u64,
) -> Step
    requires { Kept held block.old marks.old × (length line.old ≡ line_length) }
    ensures { Turns held block.old marks.old line.old bytes.now last offset result.turn result.held block.new marks.new line.new }
{
    match parse(bytes) {
        Parsed::Nothing => at_end(held, line, last),
        Parsed::Unknown => unknown(held, line, offset),
        Parsed::Short => cut_off(held, line, last, offset),
        Parsed::Whole(command) => go(held, block, marks, line, command, size_at(bytes), offset),
    }
}

// The size of the command that the first byte says.
fn size_at(bytes: &[u8]) -> usize
    ensures { result ≡ size_of (get_or bytes.now 0 0) }
{
    if bytes.len() == 0 {
        return 0;
    }
    size_of(bytes[0]).unwrap_or(0)
}

// A whole command of this size: refused, or performed.
fn go(
    held: Option<Plan>,
    block: &mut [u8],
    marks: &mut [u8],
    line: &mut [u8],
    command: Command,
    size: usize,
    offset: u64,
) -> Step
    requires { Kept held block.old marks.old × (length line.old ≡ line_length) }
    ensures { (b : List ℕ) (last : Bool) → parsed b ≡ parsedAs.Whole command → size ≡ size_of (get_or b 0 0) → Turns held block.old marks.old line.old b last offset result.turn result.held block.new marks.new line.new }
{
    if makes_plan(command) {
        return make(held, block, marks, line, command, size, offset);
    }
    match refusal(held, command) {
        Err(x) => stop(held, line, x, offset),
        Ok(()) => {
            let done = dispatch(held.unwrap(), block, marks, line, command);
            let plan = done.plan;
            Step {
                turn: Turn::On(size, done.count),
                held: Some(plan),
            }
        }
    }
}

// A command that makes a plan: the plan is made once, and then begun or refused.
fn make(
    held: Option<Plan>,
    block: &mut [u8],
    marks: &mut [u8],
    line: &mut [u8],
    command: Command,
    size: usize,
    offset: u64,
) -> Step
    requires { Kept held block.old marks.old × (length line.old ≡ line_length) × (makes_plan command ≡ true) }
    ensures { (b : List ℕ) (last : Bool) → parsed b ≡ parsedAs.Whole command → size ≡ size_of (get_or b 0 0) → Turns held block.old marks.old line.old b last offset result.turn result.held block.new marks.new line.new }
{
    match made(command) {
        Err(x) => stop(held, line, x, offset),
        Ok(plan) => {
            begin(plan, block, marks);
            Step {
                turn: Turn::On(size, 0),
                held: Some(plan),
            }
        }
    }
}
