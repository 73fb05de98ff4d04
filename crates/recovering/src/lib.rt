// The command 06: recovery of the whole block.
// Public for the crates above only.
#![tactic(auto)]

ghost use Rattle.std.specs.Prelude.{◌≡◌, Some, ◌*◌, length, take, Ok};
ghost use Rattle.plan.specs.Plans.{layout_of, plan_check};
ghost use Rattle.code.specs.Marks.{mark_bytes, NoSpare, erasures};
ghost use Rattle.lines.specs.Lines.{line_length, Wrote};
ghost use Rattle.commands.specs.declared.Command.TheVariants as commands;
ghost use Rattle.act.specs.Acts.{Kept, Acts};
ghost use Rattle.blocks.specs.Wholes.{Whole, Recovered};

use answers::Recovery;
use calls::erasure_count;
use lines::{crossed_line, loose_line, recovered_line};
use plan::Plan;
use recovery::recover;

// The number of marked places.
fn marked(plan: Plan, marks: &[u8]) -> usize
    requires { (plan_check plan ≡ Ok tt) × (length marks.now ≡ mark_bytes (layout_of plan)) × NoSpare (layout_of plan) marks.now }
    ensures { result ≡ length (erasures (layout_of plan) marks.now) }
{
    erasure_count(plan, marks).unwrap_or(0)
}

// Recovery on buffers of the plan's lengths: nothing refuses the call.
fn recover_whole(
    plan: Plan,
    block: &mut [u8],
    marks: &mut [u8],
    line: &mut [u8],
    witness: &mut [u16],
) -> usize
    requires { Whole plan block.old marks.old × (length line.old ≡ line_length) × (length witness.old ≡ 2 * plan.t) }
    ensures { Recovered plan block.old marks.old (take result line.new) block.new marks.new × Wrote line.old (take result line.new) line.new result }
{
    let count = marked(plan, &marks[..]);
    match recover(plan, &mut block[..], &marks[..], &mut witness[..]) {
        Recovery::Recovered => {
            marks.fill(0);
            recovered_line(line, 0, count)
        }
        Recovery::Loose(z) => loose_line(line, 0, &witness[..z]),
        Recovery::Crossed(z) => crossed_line(line, 0, &witness[..z]),
        Recovery::Refused(_) => unreachable!(),
    }
}

pub fn recover_state(plan: Plan, block: &mut [u8], marks: &mut [u8], line: &mut [u8]) -> usize
    requires { Kept (Some plan) block.old marks.old × (length line.old ≡ line_length) }
    ensures { Acts commands.Recover (Some plan) block.old marks.old (take result line.new) (Some plan) block.new marks.new × Wrote line.old (take result line.new) line.new result }
{
    let places = plan.n * plan.t;
    let bytes = (places + 7) / 8;
    let mut witness = [0u16; 2 * Plan::MAX_T];
    let rows = 2 * plan.t;
    recover_whole(
        plan,
        &mut block[..places],
        &mut marks[..bytes],
        line,
        &mut witness[..rows],
    )
}
