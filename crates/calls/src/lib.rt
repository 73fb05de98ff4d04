// What refuses a call: one test for every entry. And the number of marked places, counted from the bits (the crate stretches).
// Entry: erasure_count. The rest is public for the crates above only: it takes the buffers' lengths, or that they fit, as its caller says.
#![tactic(auto)]

ghost use Rattle.std.specs.Prelude.{◌≡◌, ◌*◌, ◌≤◌};
ghost use Rattle.bounds.specs.Bounds.{max_places, max_t};
ghost use Rattle.refusals.specs.Refusals.{check_number};
ghost use Rattle.plan.specs.GoodPlan.{GoodPlan};
ghost use Rattle.plan.specs.Layout.{layout, message_count};
ghost use Rattle.calls.specs.Calls.{part_fits, lengths_fit, spare_clear, lent_check, check_of, also_lent, count_lent, counted_of};

use plan::{Plan, message_places};
use refusals::{Refusal, earlier};
use stretches::{count_ones, none_from};

// What a call is lent: the length of each buffer, or none where the call takes no such buffer.
#[derive(Clone, Copy)]
pub struct Lent {
    pub block: Option<usize>,
    pub marks: Option<usize>,
    pub witness: Option<usize>,
    pub message: Option<usize>,
}

// The first refusal in the order 1 to 4, or none. The lengths are the caller's word; the marks are looked at as they are.
pub fn check_call(plan: Plan, lent: Lent, marks: &[u8]) -> Result<(), Refusal>
    ensures { result ≡ check_of plan lent marks.now }
{
    let n = plan.n;
    let t = plan.t;
    let s = plan.shifts;
    let message = lent.message;
    plan.check()?;
    let count = message_length(n, t, &s[..], message);
    check_lent(lengths_fit(n, t, count, lent), n * t, marks)
}

// The same of a call that is lent marks alone.
pub fn check_marks(plan: Plan, marks: &[u8]) -> Result<(), Refusal>
    ensures { result ≡ check_of plan (count_lent marks.now) marks.now }
{
    let lent = Lent {
        block: None,
        marks: Some(marks.len()),
        witness: None,
        message: None,
    };
    check_call(plan, lent, marks)
}

// 3, then 4. `fits`: every lent buffer has its length.
pub fn check_lent(fits: bool, places: usize, marks: &[u8]) -> Result<(), Refusal>
    requires { places ≤ max_places }
    ensures { result ≡ lent_check places fits marks.now }
{
    if !fits {
        return Err(Refusal::Length);
    }
    if !spare_clear(marks, places) {
        return Err(Refusal::Spare);
    }
    Ok(())
}

// A further buffer beside those that were checked; `fits`: it has its length.
pub fn also_lent(check: Result<(), Refusal>, fits: bool) -> Result<(), Refusal>
    ensures { result ≡ also_lent check fits }
{
    if fits {
        return earlier(check, Ok(()));
    }
    earlier(check, Err(Refusal::Length))
}

// `count` is the number of message places.
pub fn lengths_fit(n: usize, t: usize, count: usize, lent: Lent) -> bool
    requires { (n * t ≤ max_places) × (t ≤ max_t) }
    ensures { result ≡ lengths_fit n t count lent }
{
    let places = n * t;
    let block = lent.block;
    let marks = lent.marks;
    let witness = lent.witness;
    let message = lent.message;
    if !part_fits(block, places) {
        return false;
    }
    if !part_fits(marks, (places + 7) / 8) {
        return false;
    }
    if !part_fits(witness, 2 * t) {
        return false;
    }
    part_fits(message, count)
}

fn part_fits(part: Option<usize>, k: usize) -> bool
    ensures { result ≡ part_fits part k }
{
    match part {
        None => true,
        Some(m) => m == k,
    }
}

// The number of message places, which is worked out only where a message is lent.
fn message_length(n: usize, t: usize, shifts: &[u16], part: Option<usize>) -> usize
    requires { GoodPlan n t shifts.now }
    ensures { part_fits part result ≡ part_fits part (message_count (layout n t shifts.now)) }
{
    match part {
        None => 0,
        Some(_) => message_places(n, t, shifts),
    }
}

// The spare bits are those from place `places` on, in the bytes that so many places take.
fn spare_clear(marks: &[u8], places: usize) -> bool
    requires { places ≤ max_places }
    ensures { result ≡ spare_clear places marks.now }
{
    let bytes = (places + 7) / 8;
    if marks.len() < bytes {
        return true;
    }
    none_from(&marks[..bytes], places)
}

// The number of marked places, or the refusal.
pub fn erasure_count(plan: Plan, marks: &[u8]) -> Result<usize, Refusal>
    ensures value { result ≡ counted_of plan marks.now }
    ensures result_value { check_number result ≡ check_number (check_of plan (count_lent marks.now) marks.now) }
{
    check_marks(plan, marks)?;
    Ok(count_ones(marks))
}
