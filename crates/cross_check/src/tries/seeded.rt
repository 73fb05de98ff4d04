// A case of each kind for every seed.
use crate::random::{pick, seeded};
use crate::tally::{Outcome, Tally};
use crate::tries::given::{self, Erasure};
use crate::tries::lent::Lens;
use crate::tries::{fetches, jobs, lent, plans};
use plan::Plan;
use std::alloc::{AllocError, Global};

// A codeword with erasures; damaged where it is not as it was sent.
pub(crate) fn recovery_of(
    alloc: Global,
    plan: Plan,
    erasure: Erasure,
    is_sent: bool,
    seed: u64,
) -> Result<Outcome, AllocError> {
    let lens = given::lens(alloc, plan)?;
    let sent = given::codeword(alloc, plan, seeded(seed, 20))?;
    let marks = given::marks(alloc, plan, erasure, seeded(seed, 21))?;
    let mut block = sent.clone()?;
    if !is_sent {
        given::damage(seeded(seed, 22), &mut block);
    }
    given::rub(&marks, seeded(seed, 23), &mut block);
    let sent = is_sent.then_some(sent.as_slice());
    lent::recover(alloc, plan, &block, &marks, lens.list, sent, seed)
}

fn recovery(alloc: Global, plan: Plan, seed: u64) -> Result<Outcome, AllocError> {
    let is_sent = pick(seed, 25, 4) != 0;
    recovery_of(alloc, plan, given::picked_erasure(seed), is_sent, seed)
}

fn marks_of(alloc: Global, plan: Plan, seed: u64) -> Result<Vec<u8>, AllocError> {
    given::marks(alloc, plan, given::picked_erasure(seed), seeded(seed, 21))
}

fn erasure_count(alloc: Global, plan: Plan, seed: u64) -> Result<Outcome, AllocError> {
    let marks = marks_of(alloc, plan, seed)?;
    Ok(lent::count(plan, &marks))
}

fn fetching(alloc: Global, plan: Plan, seed: u64) -> Result<Outcome, AllocError> {
    let marks = marks_of(alloc, plan, seed)?;
    fetches::fetch(alloc, plan, &marks, marks.len(), seed)
}

// Any message.
fn encode(alloc: Global, plan: Plan, lens: Lens, seed: u64) -> Result<Outcome, AllocError> {
    let message = given::bytes(alloc, lens.message, seeded(seed, 26))?;
    let block = given::bytes(alloc, lens.block, seeded(seed, 27))?;
    lent::encode(alloc, plan, &message, &block)
}

// Any block.
fn read(alloc: Global, plan: Plan, lens: Lens, seed: u64) -> Result<Outcome, AllocError> {
    let message = given::bytes(alloc, lens.message, seeded(seed, 26))?;
    let block = given::bytes(alloc, lens.block, seeded(seed, 27))?;
    lent::read(alloc, plan, &block, &message)
}

pub(crate) fn encoding(alloc: Global, plan: Plan, seed: u64) -> Result<Outcome, AllocError> {
    encode(alloc, plan, given::lens(alloc, plan)?, seed)
}

// A codeword; damaged where it is not as it was sent.
pub(crate) fn reading(
    alloc: Global,
    plan: Plan,
    is_sent: bool,
    seed: u64,
) -> Result<Outcome, AllocError> {
    let lens = given::lens(alloc, plan)?;
    let message = given::bytes(alloc, lens.message, seeded(seed, 26))?;
    let mut block = given::codeword(alloc, plan, seeded(seed, 20))?;
    if !is_sent {
        given::damage(seeded(seed, 22), &mut block);
    }
    lent::read(alloc, plan, &block, &message)
}

// The marks of a plan, so many bytes of them, with a fault of the spoilt one.
fn faulty_marks(
    alloc: Global,
    plan: Plan,
    spoilt: Plan,
    bytes: usize,
    seed: u64,
) -> Result<Vec<u8>, AllocError> {
    let mut marks = marks_of(alloc, plan, seed)?;
    marks.resize(bytes, 0)?;
    given::spoil_marks(spoilt, seed, &mut marks);
    Ok(marks)
}

fn faulty_recovery(
    alloc: Global,
    plan: Plan,
    spoilt: Plan,
    lens: Lens,
    seed: u64,
) -> Result<Outcome, AllocError> {
    let block = given::bytes(alloc, lens.block, seeded(seed, 27))?;
    let marks = faulty_marks(alloc, plan, spoilt, lens.marks, seed)?;
    lent::recover(alloc, spoilt, &block, &marks, lens.list, None, seed)
}

// The list has the marks' length as it should be, or a fault of its own.
fn faulty_fetching(alloc: Global, plan: Plan, seed: u64) -> Result<Outcome, AllocError> {
    let spoilt = given::spoilt(plan, seed);
    let right = given::lens(alloc, spoilt)?;
    let lens = given::spoilt_lens(right, seed);
    let marks = faulty_marks(alloc, plan, spoilt, lens.marks, seed)?;
    let is_short = pick(seed, 37, 4) == 0;
    let bytes = right.marks.saturating_sub(usize::from(is_short));
    fetches::fetch(alloc, spoilt, &marks, bytes, seed)
}

// A call with faults in the plan, the lengths or the marks; one in four has none.
fn faulty(alloc: Global, plan: Plan, seed: u64) -> Result<Outcome, AllocError> {
    let spoilt = given::spoilt(plan, seed);
    let lens = given::spoilt_lens(given::lens(alloc, spoilt)?, seed);
    match pick(seed, 28, 6) {
        0 | 1 => faulty_recovery(alloc, plan, spoilt, lens, seed),
        2 => {
            let marks = faulty_marks(alloc, plan, spoilt, lens.marks, seed)?;
            Ok(lent::count(spoilt, &marks))
        }
        3 => encode(alloc, spoilt, lens, seed),
        4 => read(alloc, spoilt, lens, seed),
        _ => plans::message_count(alloc, spoilt),
    }
}

// Plan::of with a length that is n, or not.
fn making(alloc: Global, plan: Plan, seed: u64) -> Result<Outcome, AllocError> {
    let spoilt = given::spoilt(plan, seed);
    match pick(seed, 29, 4) {
        0 => Ok(plans::of(spoilt, plan.n)),
        1 => Ok(plans::of(spoilt, plan.n.saturating_sub(1))),
        2 => Ok(plans::verdict(spoilt)),
        _ => plans::figures(alloc, spoilt),
    }
}

fn family(seed: u64) -> Outcome {
    let n = pick(seed, 30, 40);
    let t = pick(seed, 31, 80);
    match pick(seed, 32, 8) {
        0 => plans::ruler(n),
        1 => plans::straight(n, t),
        2 => plans::straight(n, pick(seed, 33, 2100)),
        3 => plans::powers(n, t, pick(seed, 33, 65536)),
        4 => plans::powers(n, pick(seed, 34, 2100), pick(seed, 33, 4)),
        _ => plans::powers(pick(seed, 35, 8).wrapping_add(2), t, pick(seed, 33, 100)),
    }
}

// The numbers of the kinds are part of their seeds.
#[derive(Clone, Copy)]
enum Kind {
    Recovery,
    Count,
    Encoding,
    Reading,
    Figures,
    Faults,
    Plans,
    Families,
    Jobs,
    Fetching,
    FetchingFaults,
}

fn one(alloc: Global, kind: Kind, plan: Plan, seed: u64) -> Result<Outcome, AllocError> {
    match kind {
        Kind::Recovery => recovery(alloc, plan, seed),
        Kind::Count => erasure_count(alloc, plan, seed),
        Kind::Encoding => encoding(alloc, plan, seed),
        Kind::Reading => reading(alloc, plan, pick(seed, 25, 2) == 0, seed),
        Kind::Figures => plans::figures(alloc, plan),
        Kind::Faults => faulty(alloc, plan, seed),
        Kind::Plans => making(alloc, plan, seed),
        Kind::Families => Ok(family(seed)),
        Kind::Jobs => jobs::out_of_bytes(alloc, pick(seed, 36, 2) == 0, seed),
        Kind::Fetching => fetching(alloc, plan, seed),
        Kind::FetchingFaults => faulty_fetching(alloc, plan, seed),
    }
}

// The kind of the cases, the most sections and symbols of their plans, and how many cases there are: small plans, refusals
// and larger plans.
const CASES: [(Kind, usize, usize, u64); 17] = [
    (Kind::Recovery, 5, 6, 3000),
    (Kind::Count, 6, 20, 500),
    (Kind::Encoding, 6, 20, 800),
    (Kind::Reading, 6, 20, 1200),
    (Kind::Figures, 3, 5, 400),
    (Kind::Faults, 8, 12, 6000),
    (Kind::Plans, 6, 9, 2000),
    (Kind::Families, 0, 0, 3000),
    (Kind::Recovery, 14, 64, 1500),
    (Kind::Recovery, 32, 300, 60),
    (Kind::Encoding, 16, 100, 100),
    (Kind::Reading, 16, 100, 100),
    (Kind::Figures, 12, 60, 300),
    (Kind::Jobs, 0, 0, 600),
    (Kind::Fetching, 6, 20, 1000),
    (Kind::Fetching, 32, 300, 60),
    (Kind::FetchingFaults, 8, 12, 1200),
];

pub(crate) fn all(alloc: Global, tally: &mut Tally) -> Result<(), AllocError> {
    for (kind, most_n, most_t, count) in CASES {
        for i in 0..count {
            let seed = seeded(i, kind as u64);
            let plan = given::plan(most_n, most_t, seed);
            tally.note(one(alloc, kind, plan, seed)?);
        }
    }
    Ok(())
}
