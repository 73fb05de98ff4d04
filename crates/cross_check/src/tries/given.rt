// What a seed gives: plans, blocks, marks, lengths, and faults in each.
use crate::marks::{is_marked, mark};
use crate::numbers::{low8, low16, quotient, remainder};
use crate::random::{Numbers, fill8, pick, seeded};
use crate::second::{messages, refusing, rows};
use crate::tries::lent::Lens;
use plan::Plan;
use std::alloc::{AllocError, Global};

// How the shifts are made of random numbers below t: in pairs, in twos, counting, in sixes, or as they are.
#[derive(Clone, Copy)]
pub(crate) enum Style {
    Pairs,
    Twos,
    Counting,
    Sixes,
    Any,
}

fn picked_style(seed: u64) -> Style {
    match pick(seed, 3, 8) {
        0 => Style::Pairs,
        1 => Style::Twos,
        2 => Style::Counting,
        3 => Style::Sixes,
        _ => Style::Any,
    }
}

// The shift of section j. Past the first n any number may stand.
fn shaped(style: Style, n: usize, t: usize, j: usize, p: usize) -> usize {
    if n <= j {
        return p.wrapping_mul(31);
    }
    match style {
        Style::Pairs => remainder(j / 2, t),
        Style::Twos => remainder(p.wrapping_mul(2), t),
        Style::Counting => remainder(j, t),
        Style::Sixes => remainder(p.wrapping_mul(6), t),
        Style::Any => p,
    }
}

// A plan of n sections of t symbols.
pub(crate) fn plan_of(n: usize, t: usize, style: Style, seed: u64) -> Plan {
    let mut shifts = [0u16; 32];
    for ((j, shift), x) in shifts.iter_mut().enumerate().zip(Numbers::new(seed)) {
        *shift = low16(shaped(style, n, t, j, remainder(x, t)));
    }
    Plan::raw(n, t, shifts)
}

// A plan of at most so many sections and symbols.
pub(crate) fn plan(most_n: usize, most_t: usize, seed: u64) -> Plan {
    let n = pick(seed, 1, most_n.saturating_sub(1)).wrapping_add(2);
    let t = pick(seed, 2, most_t).wrapping_add(1);
    plan_of(n, t, picked_style(seed), seeded(seed, 4))
}

fn with_size(plan: Plan, n: usize, t: usize) -> Plan {
    Plan::raw(n, t, plan.shifts)
}

// The plan with a fault, or as it is.
pub(crate) fn spoilt(plan: Plan, seed: u64) -> Plan {
    let n = plan.n;
    let t = plan.t;
    match pick(seed, 5, 24) {
        0 => with_size(plan, 0, t),
        1 => with_size(plan, 1, t),
        2 => with_size(plan, 33, t),
        3 => with_size(plan, n, 0),
        4 => with_size(plan, n, 2049),
        5 => with_size(plan, 29, 1130),
        6 => with_size(plan, pick(seed, 6, 16).wrapping_add(17), 2048),
        7 => with_size(plan, 1 << 63, 2),
        8 => with_size(plan, 2, 1 << 63),
        9 => plan.with_shift(pick(seed, 6, n), low16(t)),
        10 => plan.with_shift(
            pick(seed, 6, n),
            low16(t.wrapping_add(pick(seed, 7, 60000))),
        ),
        11 => plan.with_shift(0, u16::MAX),
        12 => plan.with_shift(n.saturating_sub(1), low16(t)),
        _ => plan,
    }
}

// The places of a plan that may be refused, as far as a block can be lent.
fn least_of_places(plan: Plan) -> usize {
    rows::places(plan).min(Plan::MAX_PLACES)
}

// The lengths that the plan asks for; any where the plan is refused.
pub(crate) fn lens(alloc: Global, plan: Plan) -> Result<Lens, AllocError> {
    let block = least_of_places(plan);
    if refusing::of_plan(plan).is_err() {
        return Ok(Lens {
            block,
            marks: 5,
            list: 6,
            message: 7,
        });
    }
    Ok(Lens {
        block,
        marks: refusing::mark_bytes(block),
        list: rows::rows(plan),
        message: messages::count(alloc, plan)?,
    })
}

// One more, one less, or none.
fn off(k: usize, seed: u64) -> usize {
    match pick(seed, 8, 3) {
        0 => k.wrapping_add(1),
        1 => k.saturating_sub(1),
        _ => 0,
    }
}

// The lengths with a fault in one, or as they are.
pub(crate) fn spoilt_lens(lens: Lens, seed: u64) -> Lens {
    match pick(seed, 9, 8) {
        0 => Lens {
            block: off(lens.block, seed),
            ..lens
        },
        1 => Lens {
            marks: off(lens.marks, seed),
            ..lens
        },
        2 => Lens {
            list: off(lens.list, seed),
            ..lens
        },
        3 => Lens {
            message: off(lens.message, seed),
            ..lens
        },
        _ => lens,
    }
}

// Random bytes.
pub(crate) fn bytes(alloc: Global, length: usize, seed: u64) -> Result<Vec<u8>, AllocError> {
    let mut found = vec![in alloc; 0u8; length]?;
    fill8(&mut found, seed);
    Ok(found)
}

// A codeword of a random message.
pub(crate) fn codeword(alloc: Global, plan: Plan, seed: u64) -> Result<Vec<u8>, AllocError> {
    let mut block = bytes(alloc, least_of_places(plan), seed)?;
    messages::complete(alloc, plan, &mut block)?;
    Ok(block)
}

// A number of a seed and a place, below n.
fn chance(seed: u64, c: usize, n: usize) -> usize {
    pick(seed, c.wrapping_add(1000) as u64, n)
}

// Whether c is one of k numbers.
fn is_in(c: usize, from: usize, k: usize) -> bool {
    from <= c && c < from.wrapping_add(k)
}

// Whether a place is in one of two neighbouring sections, all of them but one place.
fn is_in_two(places: usize, t: usize, seed: u64, c: usize) -> bool {
    let both = t.wrapping_mul(2);
    let from = t.wrapping_mul(pick(seed, 10, quotient(places, t)));
    let but = from.wrapping_add(pick(seed, 11, both.wrapping_add(1)));
    is_in(c, from, both) && c != but
}

// Which places are erased: none; each with the same chance; two neighbouring sections but for one place; parity places; a
// few; a run.
#[derive(Clone, Copy, PartialEq, Eq)]
pub(crate) enum Erasure {
    None,
    Each,
    Two,
    Parity,
    Few,
    Run,
}

pub(crate) fn picked_erasure(seed: u64) -> Erasure {
    match pick(seed, 24, 6) {
        0 => Erasure::None,
        1 => Erasure::Each,
        2 => Erasure::Two,
        3 => Erasure::Parity,
        4 => Erasure::Few,
        _ => Erasure::Run,
    }
}

fn is_erased(erasure: Erasure, plan: Plan, seed: u64, c: usize, parity: &[bool]) -> bool {
    let places = least_of_places(plan);
    let t = plan.t;
    match erasure {
        Erasure::None => false,
        Erasure::Each => chance(seed, c, 64) < pick(seed, 10, 48),
        Erasure::Two => is_in_two(places, t, seed, c),
        Erasure::Parity => parity.get(c) == Some(&true) && chance(seed, c, 8) != 0,
        Erasure::Few => chance(seed, c, places) < 4,
        Erasure::Run => is_in(c, pick(seed, 10, places), pick(seed, 11, t.wrapping_mul(2))),
    }
}

// The parity places, looked for only where they are to be erased.
fn parities_for(alloc: Global, erasure: Erasure, plan: Plan) -> Result<Vec<bool>, AllocError> {
    if erasure != Erasure::Parity {
        return Ok(Vec::new(alloc));
    }
    messages::parities(alloc, plan)
}

pub(crate) fn marks(
    alloc: Global,
    plan: Plan,
    erasure: Erasure,
    seed: u64,
) -> Result<Vec<u8>, AllocError> {
    let places = least_of_places(plan);
    let parity = parities_for(alloc, erasure, plan)?;
    let mut marks = vec![in alloc; 0u8; refusing::mark_bytes(places)]?;
    for c in 0..places {
        if is_erased(erasure, plan, seed, c, &parity) {
            mark(&mut marks, c);
        }
    }
    Ok(marks)
}

// A spare bit, where there is one, or none.
pub(crate) fn spoil_marks(plan: Plan, seed: u64, marks: &mut [u8]) {
    let places = least_of_places(plan);
    if pick(seed, 12, 2) == 0 && places % 8 != 0 {
        mark(marks, places.wrapping_add(pick(seed, 13, 8 - places % 8)));
    }
}

// Any symbols at the erased places.
pub(crate) fn rub(marks: &[u8], seed: u64, block: &mut [u8]) {
    for (c, symbol) in block.iter_mut().enumerate() {
        if is_marked(marks, c) {
            *symbol = low8(chance(seed, c, 256));
        }
    }
}

// Another symbol at one place.
pub(crate) fn damage(seed: u64, block: &mut [u8]) {
    let c = pick(seed, 14, block.len());
    if let Some(symbol) = block.get_mut(c) {
        *symbol ^= low8(pick(seed, 15, 255).wrapping_add(1));
    }
}
