// A job that is read in parts of any size: how far it has come, and what it wants. The crate streaming works on it.
// Entry: Ask::number.
#![tactic(auto)]

ghost use Rattle.std.specs.Prelude.{◌≡◌};
ghost use Rattle.stream.specs.Streams.{ask_number};

use plan::Plan;
use reading::Cursor;
use refusals::Refusal;

// Going: more may follow. Closed: the last line is on the sheet. Past: the job goes on at offset 2^64 - 1. Lost: a read or a write failed.
#[derive(Clone, Copy)]
pub enum Phase {
    Going,
    Closed,
    Past,
    Lost,
}

// Where the commands at hand stop. On: they do not yet. Input: more bytes are wanted. Room: room on the sheet is. Closed: the job is closed.
#[derive(Clone, Copy, PartialEq, Eq)]
pub enum Halt {
    On,
    Input,
    Room,
    Closed,
}

// How far a job has come: its plan, what of the input is at hand, how much of the sheet waits to be written. `last`: the input has ended.
#[derive(Clone, Copy)]
pub struct Stream {
    pub held: Option<Plan>,
    pub cursor: Cursor,
    pub filled: usize,
    pub phase: Phase,
    pub last: bool,
}

// What is wanted. Read: more input. Write: that what waits on the sheet is written. Closed: nothing more. Past, Lost: nothing more, and the sheet is incomplete.
// Bad: what refuses the lent state.
#[derive(Clone, Copy)]
pub enum Ask {
    Read,
    Write,
    Closed,
    Past,
    Lost,
    Bad(Refusal),
}

impl Ask {
    // 01's number of the answer.
    pub fn number(self) -> u8
        ensures { result ≡ ask_number self }
    {
        match self {
            Ask::Read => 0,
            Ask::Write => 0,
            Ask::Closed => 0,
            Ask::Past => 0,
            Ask::Lost => 0,
            Ask::Bad(x) => x.number(),
        }
    }
}

// What is wanted, and how far the job has come.
#[derive(Clone, Copy)]
pub struct Worked {
    pub ask: Ask,
    pub stream: Stream,
}
