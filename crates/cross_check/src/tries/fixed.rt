// The cases that 01 names, each with the outcome that it must have.
use crate::second::rows::shift;
use crate::tally::{Answer, Outcome, Tally};
use crate::tries::given::{Erasure, Style};
use crate::tries::{given, jobs, lent, library, plans, seeded};
use plan::Plan;
use std::alloc::{AllocError, Global};

// n, t, and what becomes of n sections of t symbols.
const SIZES: [(usize, usize, Outcome); 9] = [
    (16, 2048, Outcome::Planned),
    (32, 1024, Outcome::Planned),
    (2, 2048, Outcome::Planned),
    (2, 5, Outcome::Planned),
    (32, 5, Outcome::Planned),
    (29, 1130, Outcome::Size),
    (2, 2049, Outcome::Size),
    (1, 5, Outcome::Size),
    (33, 5, Outcome::Size),
];

// By the record, and by the constructor with all shifts 0.
fn sizes(tally: &mut Tally) {
    for (n, t, known) in SIZES {
        let record = given::plan_of(n, t, Style::Any, 0);
        tally.note(plans::verdict(record).must_be(known));
        let zeros = Plan::raw(n, t, [0; 32]);
        tally.note(plans::of(zeros, n).must_be(known));
    }
}

// Powers 3, 7, 2 has shifts 1 2 4.
fn powers_taken() -> Outcome {
    let plan = library::plan_of(Plan::powers(3, 7, 2));
    let is_known = shift(plan, 0) == 1 && shift(plan, 1) == 2 && shift(plan, 2) == 4;
    plans::powers(3, 7, 2)
        .must_be(Outcome::Planned)
        .judged(is_known)
}

// The neighbour figure of a ruler plan.
fn ruler_neighbour(n: usize, known: usize) -> Outcome {
    let plan = library::plan_of(Plan::ruler(n));
    let four = library::measured(figures::figures(plan));
    Outcome::Figures.judged(four.is_ok_and(|four| four.neighbour == known))
}

// The third: 3 and 15 at t 48 share 12, 96 / 12 - 1. The last: 76 and 82 at t 183 share 3, 366 / 3 - 1.
fn families(tally: &mut Tally) {
    tally.note(powers_taken());
    tally.note(plans::powers(3, 6, 5).must_be(Outcome::Family));
    tally.note(ruler_neighbour(7, 7));
    tally.note(ruler_neighbour(14, 121));
}

// The places 0 2 7, then 10, then 16 17; or without the first.
const JOB_MARKS: [u8; 3] = [133, 4, 3];

const LATER_MARKS: [u8; 3] = [132, 4, 3];

// Whether 01's job comes to this answer and list.
fn job(plan: Plan, marks: &[u8], block: &mut [u8], known: Answer, listed: [u16; 14]) -> bool {
    let mut list = [9u16; 14];
    lent::recover_library(plan, marks, block, &mut list) == known && list == listed
}

// loose 6 0 7 16 2 10 17
fn job_loose(plan: Plan) -> Outcome {
    let outcome = Outcome::Loose;
    let known = Answer { outcome, count: 6 };
    let listed = [0, 7, 16, 2, 10, 17, 0, 0, 0, 0, 0, 0, 0, 0];
    outcome.judged(job(plan, &JOB_MARKS, &mut [0; 21], known, listed))
}

// recovered 5, and symbol 17 is 5
fn job_recovered(plan: Plan) -> Outcome {
    let outcome = Outcome::Recovered;
    let known = Answer { outcome, count: 0 };
    let mut block = [0u8; 21];
    block[0] = 5;
    let is_job = job(plan, &LATER_MARKS, &mut block, known, [0; 14]);
    let counts = lent::count_library(plan, &LATER_MARKS) == Ok(5);
    outcome.judged(is_job && block[17] == 5 && counts)
}

// crossed 1 0: the recovered block with symbol 0 set to 0, and no marks
fn job_crossed(plan: Plan) -> Outcome {
    let outcome = Outcome::Crossed;
    let known = Answer { outcome, count: 1 };
    let mut block = [0u8; 21];
    for c in [2, 7, 10, 16, 17] {
        block[c] = 5;
    }
    outcome.judged(job(plan, &[0; 3], &mut block, known, [0; 14]))
}

fn job_cases(alloc: Global, tally: &mut Tally) -> Result<(), AllocError> {
    let plan = library::plan_of(Plan::of(3, 7, &[0, 1, 3]));
    tally.note(job_loose(plan));
    tally.note(job_recovered(plan));
    tally.note(job_crossed(plan));
    tally.note(jobs::out_of_bytes(alloc, true, 0)?.must_be(Outcome::Ended));
    Ok(())
}

// A recovery of each of these erasures, of a block as it was sent or a damaged one, with its seed.
const RECOVERIES: [(Erasure, bool, u64, Outcome); 5] = [
    (Erasure::None, true, 4, Outcome::Recovered),
    (Erasure::None, false, 5, Outcome::Crossed),
    (Erasure::Each, true, 6, Outcome::Loose),
    (Erasure::Parity, true, 7, Outcome::Recovered),
    (Erasure::Few, true, 8, Outcome::Recovered),
];

// Figures, messages, and blocks of each outcome.
fn full(alloc: Global, plan: Plan, tally: &mut Tally) -> Result<(), AllocError> {
    tally.note(plans::figures(alloc, plan)?.must_be(Outcome::Figures));
    tally.note(seeded::encoding(alloc, plan, 1)?.must_be(Outcome::Sealed));
    tally.note(seeded::reading(alloc, plan, true, 2)?.must_be(Outcome::Read));
    tally.note(seeded::reading(alloc, plan, false, 3)?.must_be(Outcome::ReadCrossed));
    for (erasure, is_sent, seed, known) in RECOVERIES {
        tally.note(seeded::recovery_of(alloc, plan, erasure, is_sent, seed)?.must_be(known));
    }
    Ok(())
}

// A ruler plan: its making, its figures, and a block of it.
fn ruler(alloc: Global, n: usize, tally: &mut Tally) -> Result<(), AllocError> {
    let plan = library::plan_of(Plan::ruler(n));
    let seed = n as u64;
    tally.note(plans::ruler(n).must_be(Outcome::Planned));
    tally.note(plans::figures(alloc, plan)?.must_be(Outcome::Figures));
    let recovered = seeded::recovery_of(alloc, plan, Erasure::Parity, true, seed)?;
    tally.note(recovered.must_be(Outcome::Recovered));
    tally.note(seeded::encoding(alloc, plan, seed)?.must_be(Outcome::Sealed));
    tally.note(seeded::reading(alloc, plan, true, seed)?.must_be(Outcome::Read));
    Ok(())
}

pub(crate) fn all(alloc: Global, tally: &mut Tally) -> Result<(), AllocError> {
    sizes(tally);
    families(tally);
    job_cases(alloc, tally)?;
    full(alloc, given::plan_of(16, 2048, Style::Counting, 0), tally)?;
    full(alloc, given::plan_of(32, 1024, Style::Counting, 0), tally)?;
    for n in 3..=14 {
        ruler(alloc, n, tally)?;
    }
    Ok(())
}
