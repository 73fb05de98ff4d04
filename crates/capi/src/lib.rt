// The C entry points: each hands its arguments to an entry of the library and gives the answer back as a number of document 01's table.
// Entries: every function. Declared for C in include/fumizhaki.h. What each promises is in the crate numbers, specs/Entries.antt.
#![tactic(auto)]

ghost use Rattle.std.specs.Prelude.{◌≡◌};
ghost use Rattle.refusals.specs.Refusals.{check_number, count_value};
ghost use Rattle.plan.specs.Plans.{plan_check, plan_of, straight_of, powers_of, ruler_of, message_count_of};
ghost use Rattle.calls.specs.Calls.{counted_of};
ghost use Rattle.numbers.specs.Entries.{numbered, FiguresOut, RecoverOut, EncodeOut, MessageOut, FetchOut};

use numbers::{Made, number_erasure_count, number_figures, number_made, number_message_count};
use plan::Plan;
use refusals::number;

#[unsafe(no_mangle)]
pub extern "C" fn fumizhaki_plan_of(n: usize, t: usize, shifts: &[u16]) -> Made
    ensures { result ≡ numbered (plan_of n t shifts.now) }
{
    number_made(Plan::of(n, t, shifts))
}

#[unsafe(no_mangle)]
pub extern "C" fn fumizhaki_straight(n: usize, t: usize) -> Made
    ensures { result ≡ numbered (straight_of n t) }
{
    number_made(Plan::straight(n, t))
}

#[unsafe(no_mangle)]
pub extern "C" fn fumizhaki_powers(n: usize, t: usize, q: usize) -> Made
    ensures { result ≡ numbered (powers_of n t q) }
{
    number_made(Plan::powers(n, t, q))
}

#[unsafe(no_mangle)]
pub extern "C" fn fumizhaki_ruler(n: usize) -> Made
    ensures { result ≡ numbered (ruler_of n) }
{
    number_made(Plan::ruler(n))
}

#[unsafe(no_mangle)]
pub extern "C" fn fumizhaki_verdict(plan: Plan) -> u8
    ensures { result ≡ check_number (plan_check plan) }
{
    number(&plan.check())
}

#[unsafe(no_mangle)]
pub extern "C" fn fumizhaki_message_count(plan: Plan, count: &mut usize) -> u8
    ensures value { result ≡ check_number (message_count_of plan) }
    ensures count_after { count.new ≡ count_value (message_count_of plan) }
{
    number_message_count(plan, count)
}

#[unsafe(no_mangle)]
pub extern "C" fn fumizhaki_figures(
    plan: Plan,
    parity: &mut usize,
    pair: &mut usize,
    neighbour: &mut usize,
    distance: &mut usize,
) -> u8
    ensures { FiguresOut plan result parity.new pair.new neighbour.new distance.new }
{
    number_figures(plan, parity, pair, neighbour, distance)
}

#[unsafe(no_mangle)]
pub extern "C" fn fumizhaki_erasure_count(plan: Plan, marks: &[u8], count: &mut usize) -> u8
    ensures value { result ≡ check_number (counted_of plan marks.now) }
    ensures count_after { count.new ≡ count_value (counted_of plan marks.now) }
{
    number_erasure_count(plan, marks, count)
}

#[unsafe(no_mangle)]
pub extern "C" fn fumizhaki_recover(
    plan: Plan,
    block: &mut [u8],
    marks: &[u8],
    witness: &mut [u16],
    count: &mut usize,
) -> u8
    ensures { RecoverOut plan block.old marks.now witness.old result count.new block.new witness.new }
{
    let answer = recovery::recover(plan, block, marks, witness);
    *count = answer.count();
    answer.number()
}

#[unsafe(no_mangle)]
pub extern "C" fn fumizhaki_encode(plan: Plan, message: &[u8], block: &mut [u8]) -> u8
    ensures { EncodeOut plan message.now block.old result block.new }
{
    number(&sealing::encode(plan, message, block))
}

#[unsafe(no_mangle)]
pub extern "C" fn fumizhaki_message_of(plan: Plan, block: &[u8], message: &mut [u8]) -> u8
    ensures { MessageOut plan block.now message.old result message.new }
{
    sealing::message_of(plan, block, message).number()
}

#[unsafe(no_mangle)]
pub extern "C" fn fumizhaki_fetch(
    plan: Plan,
    marks: &[u8],
    list: &mut [u8],
    count: &mut usize,
) -> u8
    ensures { FetchOut plan marks.now list.old result count.new list.new }
{
    let fetched = fetch::fetch(plan, marks, list);
    *count = fetched.unwrap_or(0);
    number(&fetched)
}
