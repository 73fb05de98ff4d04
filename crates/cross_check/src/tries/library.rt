// The library's answers in the words of the tally. Of the types of these answers only this file knows.
use crate::tally::{Answer, Outcome};
use answers::{Reading, Recovery};
use figures::Four;
use plan::Plan;
use refusals::{Refusal, number};
use turns::Turn;

// The outcome of a refusal's number; of one that no call here may answer with, a mismatch.
fn refused(number: u8) -> Outcome {
    match number {
        1 => Outcome::Size,
        2 => Outcome::Shift,
        3 => Outcome::Length,
        4 => Outcome::Spare,
        10 => Outcome::Family,
        _ => Outcome::Mismatch,
    }
}

fn of_refusal(refusal: Refusal) -> Outcome {
    refused(refusal.number())
}

pub(crate) fn checked(answer: Result<(), Refusal>) -> Result<(), Outcome> {
    answer.map_err(of_refusal)
}

pub(crate) fn same_plan(a: Plan, b: Plan) -> bool {
    a.n == b.n && a.t == b.t && a.shifts == b.shifts
}

pub(crate) fn made(answer: Result<Plan, Refusal>) -> Result<Plan, Outcome> {
    answer.map_err(of_refusal)
}

// The plan, where one was made; else the plan of zeros.
pub(crate) fn plan_of(answer: Result<Plan, Refusal>) -> Plan {
    answer.unwrap_or(Plan::none())
}

pub(crate) fn counted(answer: Result<usize, Refusal>) -> Result<usize, Outcome> {
    answer.map_err(of_refusal)
}

pub(crate) fn measured(answer: Result<Four, Refusal>) -> Result<Four, Outcome> {
    answer.map_err(of_refusal)
}

pub(crate) fn recovered(answer: Recovery) -> Answer {
    let outcome = match answer.number() {
        0 => Outcome::Recovered,
        5 => Outcome::Crossed,
        6 => Outcome::Loose,
        number => refused(number),
    };
    Answer {
        outcome,
        count: answer.count(),
    }
}

pub(crate) fn fetched(answer: Result<usize, Refusal>) -> Answer {
    let outcome = match number(&answer) {
        0 => Outcome::Fetched,
        number => refused(number),
    };
    Answer {
        outcome,
        count: answer.unwrap_or(0),
    }
}

pub(crate) fn sealed(answer: Result<(), Refusal>) -> Outcome {
    match number(&answer) {
        0 => Outcome::Sealed,
        number => refused(number),
    }
}

pub(crate) fn read(answer: Reading) -> Outcome {
    match answer.number() {
        0 => Outcome::Read,
        5 => Outcome::ReadCrossed,
        number => refused(number),
    }
}

// The length of the line that a turn writes, 0 where it waits; none of any other turn.
pub(crate) fn written(turn: Turn) -> Option<usize> {
    match turn {
        Turn::End(length) => Some(length),
        Turn::Wait => Some(0),
        _ => None,
    }
}
