// One turn of a job: what comes of it, and the turns that perform no command.
// Entries: Turn::number, start. The rest is public for the crates above only.
#![tactic(auto)]

ghost use Rattle.std.specs.Prelude.{◌≡◌, Bool, List, ℕ, length, Ok};
ghost use Rattle.lines.specs.Lines.{line_length};
ghost use Rattle.commands.specs.Commands.{parsed};
ghost use Rattle.commands.specs.declared.Parsed.TheVariants as parsedAs;
ghost use Rattle.turns.specs.Turns.{turn_number, Stops, Turns, unplanned};

use lines::{end_line, refused_line};
use plan::Plan;
use refusals::Refusal;

// What comes of the bytes at hand. On: the bytes used and the length of the line. End, Stop: the length of the last line. Bad: what refuses the lent state.
#[derive(Clone, Copy)]
pub enum Turn {
    Wait,
    End(usize),
    Stop(Refusal, usize),
    On(usize, usize),
    Bad(Refusal),
}

impl Turn {
    // 01's number of the turn.
    pub fn number(self) -> u8
        ensures { result ≡ turn_number self }
    {
        match self {
            Turn::Wait => 0,
            Turn::End(_) => 0,
            Turn::Stop(x, _) => x.number(),
            Turn::On(_, _) => 0,
            Turn::Bad(x) => x.number(),
        }
    }
}

// A turn, and the plan after it.
#[derive(Clone, Copy)]
pub struct Step {
    pub turn: Turn,
    pub held: Option<Plan>,
}

// A job starts with no plan.
pub fn start() -> Option<Plan>
    ensures { result ≡ unplanned }
{
    None
}

// No bytes are at hand.
pub fn at_end(held: Option<Plan>, line: &mut [u8], last: bool) -> Step
    requires { length line.old ≡ line_length }
    ensures { (v m b : List ℕ) (offset : ℕ) → parsed b ≡ parsedAs.Nothing → Turns held v m line.old b last offset result.turn result.held v m line.new }
{
    if !last {
        return Step {
            turn: Turn::Wait,
            held,
        };
    }
    let count = end_line(line, 0);
    Step {
        turn: Turn::End(count),
        held,
    }
}

// The first byte is no command's.
pub fn unknown(held: Option<Plan>, line: &mut [u8], offset: u64) -> Step
    requires { length line.old ≡ line_length }
    ensures { (v m b : List ℕ) (last : Bool) → parsed b ≡ parsedAs.Unknown → Turns held v m line.old b last offset result.turn result.held v m line.new }
{
    stop(held, line, Refusal::Command, offset)
}

// The bytes end inside a command.
pub fn cut_off(held: Option<Plan>, line: &mut [u8], last: bool, offset: u64) -> Step
    requires { length line.old ≡ line_length }
    ensures { (v m b : List ℕ) → parsed b ≡ parsedAs.Short → Turns held v m line.old b last offset result.turn result.held v m line.new }
{
    if !last {
        return Step {
            turn: Turn::Wait,
            held,
        };
    }
    stop(held, line, Refusal::Short, offset)
}

// The refusal is written; nothing else changes.
pub fn stop(held: Option<Plan>, line: &mut [u8], x: Refusal, offset: u64) -> Step
    requires { length line.old ≡ line_length }
    ensures { (result.held ≡ held) × Stops (Err x) offset line.old result.turn line.new }
{
    let count = refused_line(line, 0, x.number(), offset);
    Step {
        turn: Turn::Stop(x, count),
        held,
    }
}
