// A command that makes no plan and is not refused, performed by the function that is its own.
// Public for the crate job only: dispatch.
#![tactic(auto)]

ghost use Rattle.std.specs.Prelude.{◌≡◌, false, length, take, Ok, Some};
ghost use Rattle.lines.specs.Lines.{line_length, Wrote};
ghost use Rattle.state.specs.Refusing.{makes_plan, refusal_of};
ghost use Rattle.act.specs.Acts.{state_of, Kept, Acts};

use act::{plans, symbols};
use commands::Command;
use plan::Plan;

// The plan after a command, and the length of its line; 0 where it writes none.
#[derive(Clone, Copy)]
pub struct Done {
    pub plan: Plan,
    pub count: usize,
}

pub fn dispatch(
    plan: Plan,
    block: &mut [u8],
    marks: &mut [u8],
    line: &mut [u8],
    command: Command,
) -> Done
    requires { Kept (Some plan) block.old marks.old × (length line.old ≡ line_length) × (refusal_of (state_of (Some plan) block.old marks.old) command ≡ Ok tt) × (makes_plan command ≡ false) }
    ensures { Acts command (Some plan) block.old marks.old (take result.count line.new) (Some result.plan) block.new marks.new × Wrote line.old (take result.count line.new) line.new result.count }
{
    match command {
        Command::SetShift { j, p } => Done {
            plan: plans::set_shift(plan, j, p),
            count: 0,
        },
        Command::SetSymbol { c, v } => {
            symbols::set_symbol(plan, block, marks, c, v);
            Done { plan, count: 0 }
        }
        Command::MarkOne { c } => {
            symbols::mark_one(plan, marks, c);
            Done { plan, count: 0 }
        }
        Command::MarkRun { c, m } => {
            symbols::mark_run(plan, marks, c, m);
            Done { plan, count: 0 }
        }
        Command::Recover => Done {
            plan,
            count: recovering::recover_state(plan, block, marks, line),
        },
        Command::Seal => Done {
            plan,
            count: blocks::seal_state(plan, block, marks, line),
        },
        Command::Show { c } => Done {
            plan,
            count: symbols::show(plan, block, line, c),
        },
        Command::Figures => Done {
            plan,
            count: blocks::tell_figures(plan, line),
        },
        Command::Fetch => Done {
            plan,
            count: fetching::fetch_state(plan, marks, line),
        },
        _ => Done { plan, count: 0 },
    }
}
