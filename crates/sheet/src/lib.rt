// A whole job over one slice: command after command is performed, line after line is put on a lent sheet.
// Entry: run.
#![tactic(auto)]

ghost use Rattle.std.specs.Prelude.{◌≡◌, List, ℕ, ◌<◌, length};
ghost use Rattle.lines.specs.Lines.{line_length};
ghost use Rattle.act.specs.Acts.{Kept, state_of};
ghost use Rattle.turns.specs.Sheets as sheets;
ghost use Rattle.putting.specs.declared.Phase.TheVariants as phase;
ghost use Rattle.sheet.specs.Running.{Runs, Running};

use act::{BLOCK, MARKS};
use job::perform;
use lines::LINE;
use plan::Plan;
use putting::{Phase, Reached, put_turn};
use turns::start;

// The lent sheet is too short; the length of the lines that fitted.
#[derive(Clone, Copy, Debug, PartialEq, Eq)]
pub struct Full {
    pub written: usize,
}

// The sheet's length.
pub fn run(job: &[u8], sheet: &mut [u8]) -> Result<usize, Full>
    ensures { Runs job.now sheet.old result sheet.new }
{
    let mut block = [0u8; BLOCK];
    let mut marks = [0u8; MARKS];
    let mut line = [0u8; LINE];
    run_all(
        start(),
        &mut block[..],
        &mut marks[..],
        &mut line[..],
        job,
        sheet,
    )
}

fn run_all(
    held: Option<Plan>,
    block: &mut [u8],
    marks: &mut [u8],
    line: &mut [u8],
    job: &[u8],
    sheet: &mut [u8],
) -> Result<usize, Full>
    requires { Kept held block.old marks.old × (length line.old ≡ line_length) × (state_of held block.old marks.old ≡ sheets.start) }
    ensures { Runs job.now sheet.old result sheet.new }
{
    let mut here = Reached {
        held,
        at: 0,
        to: 0,
        phase: Phase::Going,
    };
    while let Phase::Going = here.phase {
        here = next(
            here,
            &mut block[..],
            &mut marks[..],
            &mut line[..],
            job,
            &mut sheet[..],
        );
    }
    match here.phase {
        Phase::Closed => Ok(here.to),
        _ => Err(Full { written: here.to }),
    }
}

// One command: its turn, and its line put on the sheet.
fn next(
    here: Reached,
    block: &mut [u8],
    marks: &mut [u8],
    line: &mut [u8],
    job: &[u8],
    sheet: &mut [u8],
) -> Reached
    requires { ((x : List ℕ) × Running job.now x here.held block.old marks.old line.old here.at here.to sheet.old here.phase) × (here.phase ≡ phase.Going) }
    ensures { ((x : List ℕ) → Running job.now x here.held block.old marks.old line.old here.at here.to sheet.old here.phase → Running job.now x result.held block.new marks.new line.new result.at result.to sheet.new result.phase) × (result.phase ≡ phase.Going → here.at < result.at) }
{
    let held = here.held;
    let at = here.at;
    let to = here.to;
    let step = perform(
        held,
        &mut block[..],
        &mut marks[..],
        &mut line[..],
        &job[at..],
        true,
        at as u64,
    );
    put_turn(step, at, &line[..], &mut sheet[..], to)
}
