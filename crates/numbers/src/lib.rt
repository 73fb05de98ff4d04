// Answers as numbers of document 01's table, their values through out parameters: the work of the C entry points that is no recovery and no sealing.
// What each C entry promises is in specs/Entries.antt. Public for the crate capi only.
#![tactic(auto)]

ghost use Rattle.std.specs.Prelude.{◌≡◌};
ghost use Rattle.refusals.specs.Refusals.{check_number, count_value};
ghost use Rattle.plan.specs.Plans.{message_count_of};
ghost use Rattle.calls.specs.Calls.{counted_of};
ghost use Rattle.numbers.specs.Entries.{numbered, FiguresOut};

use plan::Plan;
use refusals::{Refusal, number};

// A constructor's answer by its number, with the plan beside it; a refusal makes none, and the record is all zeros.
#[repr(C)]
#[derive(Clone, Copy)]
pub struct Made {
    pub answer: u8,
    pub plan: Plan,
}

pub fn number_made(made: Result<Plan, Refusal>) -> Made
    ensures { result ≡ numbered made }
{
    Made {
        answer: number(&made),
        plan: made.unwrap_or(Plan::none()),
    }
}

pub fn number_message_count(plan: Plan, count: &mut usize) -> u8
    ensures value { result ≡ check_number (message_count_of plan) }
    ensures count_after { count.new ≡ count_value (message_count_of plan) }
{
    let messages = plan.message_count();
    *count = messages.unwrap_or(0);
    number(&messages)
}

pub fn number_figures(
    plan: Plan,
    parity: &mut usize,
    pair: &mut usize,
    neighbour: &mut usize,
    distance: &mut usize,
) -> u8
    ensures { FiguresOut plan result parity.new pair.new neighbour.new distance.new }
{
    match figures::figures(plan) {
        Ok(f) => {
            *parity = f.parity;
            *pair = f.pair;
            *neighbour = f.neighbour;
            *distance = f.distance;
            0
        }
        Err(x) => {
            *parity = 0;
            *pair = 0;
            *neighbour = 0;
            *distance = 0;
            x.number()
        }
    }
}

pub fn number_erasure_count(plan: Plan, marks: &[u8], count: &mut usize) -> u8
    ensures value { result ≡ check_number (counted_of plan marks.now) }
    ensures count_after { count.new ≡ count_value (counted_of plan marks.now) }
{
    let erasures = calls::erasure_count(plan, marks);
    *count = erasures.unwrap_or(0);
    number(&erasures)
}
