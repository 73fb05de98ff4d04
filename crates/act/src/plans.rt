// Commands that make a plan or change its shifts: 01, 02, 0A, 0B, 0C. They write no line.
ghost use Rattle.std.specs.Prelude.{◌≡◌, true, List, [], ℕ, length, Ok, Some};
ghost use Rattle.plan.specs.Plans.{plan_check};
ghost use Rattle.commands.specs.declared.Command.TheVariants as commands;
ghost use Rattle.state.specs.State.{fresh};
ghost use Rattle.state.specs.Refusing.{makes_plan, refusal_of};
ghost use Rattle.act.specs.Acts.{block_length, marks_length, state_of, Kept, Rest, Makes, Acts};

use commands::Command;
use plan::Plan;
use refusals::Refusal;

// The plan that a command makes, or what refuses it.
pub fn made(command: Command) -> Result<Plan, Refusal>
    requires { makes_plan command ≡ true }
    ensures { Makes command result }
{
    match command {
        Command::NewPlan { n, t } => Plan::blank(n as usize, t as usize),
        Command::Straight { n, t } => Plan::straight(n as usize, t as usize),
        Command::Powers { n, t, q } => Plan::powers(n as usize, t as usize, q as usize),
        Command::Ruler { n } => Plan::ruler(n as usize),
        _ => Plan::blank(0, 0),
    }
}

// The state of a new plan: symbols 0, no marks.
pub fn begin(plan: Plan, block: &mut [u8], marks: &mut [u8])
    requires { (plan_check plan ≡ Ok tt) × (length block.old ≡ block_length) × (length marks.old ≡ marks_length) }
    ensures { (state_of (Some plan) block.new marks.new ≡ fresh plan) × Kept (Some plan) block.new marks.new × Rest (Some plan) block.old marks.old block.new marks.new }
{
    let places = plan.n * plan.t;
    let bytes = (places + 7) / 8;
    block[..places].fill(0);
    marks[..bytes].fill(0);
}

// The block and the marks stay as they are.
pub fn set_shift(plan: Plan, j: u8, p: u16) -> Plan
    requires { ((v m : List ℕ) → refusal_of (state_of (Some plan) v m) (commands.SetShift j p) ≡ Ok tt) × (plan_check plan ≡ Ok tt) }
    ensures { (v m : List ℕ) → Kept (Some plan) v m → Acts (commands.SetShift j p) (Some plan) v m [] (Some result) v m }
{
    plan.with_shift(j as usize, p)
}
