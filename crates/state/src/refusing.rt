// What refuses a command, by the plan alone: one function per test. Nothing here can wrap, whatever the plan says.
ghost use Rattle.std.specs.Prelude.{◌≡◌, true, false, ◌+◌, ◌*◌, leb, ltb, Ok, is_some, IfSome};
ghost use Rattle.refusals.specs.Refusals.{unless};
ghost use Rattle.refusals.specs.declared.Refusal.TheVariants as refusals;
ghost use Rattle.state.specs.State.{State};
ghost use Rattle.state.specs.Refusing.{makes_plan, early, refusal_of};

use commands::Command;
use plan::Plan;
use refusals::Refusal;

// Whether a command makes a plan.
pub fn makes_plan(command: Command) -> bool
    ensures { result ≡ makes_plan command }
{
    match command {
        Command::NewPlan { n: _, t: _ } => true,
        Command::Straight { n: _, t: _ } => true,
        Command::Powers { n: _, t: _, q: _ } => true,
        Command::Ruler { n: _ } => true,
        _ => false,
    }
}

// A command that makes no plan: one that makes a plan is refused with its plan. Each but these needs a plan.
pub fn refusal(held: Option<Plan>, command: Command) -> Result<(), Refusal>
    requires { makes_plan command ≡ false }
    ensures { (s : State) → s.planned ≡ is_some held → IfSome held (λ p. s.plan ≡ p) → result ≡ refusal_of s command }
{
    let plan = held.ok_or(Refusal::Early)?;
    let n = plan.n;
    let t = plan.t;
    match command {
        Command::SetShift { j, p } => shift(n, t, j as usize, p as usize),
        Command::SetSymbol { c, v: _ } => place(n, t, c as usize),
        Command::MarkOne { c } => place(n, t, c as usize),
        Command::MarkRun { c, m } => run(n, t, c as usize + m as usize),
        Command::Show { c } => place(n, t, c as usize),
        _ => Ok(()),
    }
}

fn shift(n: usize, t: usize, j: usize, p: usize) -> Result<(), Refusal>
    ensures { result ≡ early true (ltb j n) (unless (ltb p t) refusals.Shift) }
{
    if n <= j {
        return Err(Refusal::Early);
    }
    if t <= p {
        return Err(Refusal::Shift);
    }
    Ok(())
}

fn place(n: usize, t: usize, c: usize) -> Result<(), Refusal>
    ensures { result ≡ early true (ltb c (n * t)) (Ok tt) }
{
    if !inside(n, t, c) {
        return Err(Refusal::Early);
    }
    Ok(())
}

// The run's end is handed over.
fn run(n: usize, t: usize, end: usize) -> Result<(), Refusal>
    ensures { result ≡ early true (leb end (n * t)) (Ok tt) }
{
    if end == 0 {
        return Ok(());
    }
    if !inside(n, t, end - 1) {
        return Err(Refusal::Early);
    }
    Ok(())
}

// c is below n × t, with no product.
fn inside(n: usize, t: usize, c: usize) -> bool
    ensures { result ≡ ltb c (n * t) }
{
    if n == 0 {
        return false;
    }
    c / n < t
}
