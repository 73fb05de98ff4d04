// Commands on the whole block: 07 and 09, and the laws of 06, which is the crate recovering.
// Public for the crates above only.
#![tactic(auto)]

ghost use Rattle.std.specs.Prelude.{◌≡◌, Some, List, ℕ, length, take, Ok};
ghost use Rattle.plan.specs.Layout.{message_count};
ghost use Rattle.plan.specs.Plans.{layout_of, plan_check};
ghost use Rattle.lines.specs.Lines.{line_length, Wrote};
ghost use Rattle.commands.specs.declared.Command.TheVariants as commands;
ghost use Rattle.act.specs.Acts.{Kept, Acts};

use figures::of_good;
use lines::{figures_line, sealed_line};
use plan::{Plan, message_places};
use sealing::reseal;

pub fn tell_figures(plan: Plan, line: &mut [u8]) -> usize
    requires { (length line.old ≡ line_length) × (plan_check plan ≡ Ok tt) }
    ensures { ((v m : List ℕ) → Kept (Some plan) v m → Acts commands.Figures (Some plan) v m (take result line.new) (Some plan) v m) × Wrote line.old (take result line.new) line.new result }
{
    let s = plan.shifts;
    let four = of_good(plan.n, plan.t, &s[..]);
    figures_line(
        line,
        0,
        four.parity,
        four.pair,
        four.neighbour,
        four.distance,
    )
}

// The number of message places.
fn message_length(plan: Plan) -> usize
    requires { plan_check plan ≡ Ok tt }
    ensures { result ≡ message_count (layout_of plan) }
{
    let s = plan.shifts;
    message_places(plan.n, plan.t, &s[..])
}

pub fn seal_state(plan: Plan, block: &mut [u8], marks: &mut [u8], line: &mut [u8]) -> usize
    requires { Kept (Some plan) block.old marks.old × (length line.old ≡ line_length) }
    ensures { Acts commands.Seal (Some plan) block.old marks.old (take result line.new) (Some plan) block.new marks.new × Wrote line.old (take result line.new) line.new result }
{
    let places = plan.n * plan.t;
    let bytes = (places + 7) / 8;
    let count = message_length(plan);
    reseal(plan, &mut block[..places]);
    marks[..bytes].fill(0);
    sealed_line(line, 0, count)
}
