// Encoding: the codeword that carries a message. And reading the message of a codeword.
// Entries: encode, message_of. The function reseal is public for the crates above only.
#![tactic(auto)]

ghost use Rattle.std.specs.Prelude.{◌≡◌, map, ◌*◌, ◌^◌, ◌≤◌, ◌<◌, length, replicate, Ok};
ghost use Rattle.plan.specs.Layout.{layout, message_count};
ghost use Rattle.plan.specs.GoodPlan.{GoodPlan};
ghost use Rattle.plan.specs.Plans.{layout_of, plan_check};
ghost use Rattle.code.specs.Codewords.{Codeword, at};
ghost use Rattle.code.specs.Messages.{Carries};
ghost use Rattle.code.specs.Laws.ParityCount.{messages};
ghost use Rattle.runs.specs.Laws.Fronts.{total};
ghost use Rattle.promises.specs.Promises.{Encodes, Reads};
ghost use Rattle.sealing.specs.Reading.{Tells};
ghost use Rattle.tables.specs.Zeros.{Zeros};
ghost use Rattle.parities.specs.Settling.{Sealable};
ghost use Rattle.sealing.specs.Passing.{Checks};

use answers::Reading;
use calls::{Lent, check_lent, lengths_fit};
use parities::fill_parities;
use plan::Plan;
use refusals::Refusal;
use runs::{gather, runs, spread};
use slices::zero_bytes;
use sums::syndromes;

// The sum of the first n runs.
fn run_total(n: usize, runs: &[u16]) -> usize
    requires { (n ≤ 32) × (n ≤ length runs.now) }
    ensures { result ≡ total runs.now n }
{
    let mut sum = 0;
    for run in &runs[..n] {
        sum += usize::from(*run);
    }
    sum
}

// What refuses a call with a message and a block, and no marks. The runs of a good plan are put into zeros: they say how many message places there are.
fn check(plan: Plan, message: &[u8], block: &[u8], r: &mut [u16]) -> Result<(), Refusal>
    requires { r.old ≡ replicate 32 0 }
    ensures { Checks plan message.now block.now result r.new }
{
    let lent = Lent {
        block: Some(block.len()),
        marks: None,
        witness: None,
        message: Some(message.len()),
    };
    let n = plan.n;
    let t = plan.t;
    let s = plan.shifts;
    plan.check()?;
    runs(n, t, &s[..], &mut r[..]);
    let fits = lengths_fit(n, t, run_total(n, &r[..]), lent);
    check_lent(fits, n * t, &message[0..0])
}

// Writes the codeword that carries the message.
fn seal(n: usize, t: usize, shifts: &[u16], runs: &[u16], message: &[u8], block: &mut [u8])
    requires { Sealable n t shifts.now runs.now block.old × (length message.now ≡ message_count (layout n t shifts.now)) }
    ensures { Carries (layout n t shifts.now) block.new message.now }
{
    spread(n, t, runs, message, block);
    fill_parities(n, t, shifts, runs, block);
}

// The one codeword that carries the message is written to the block. There always is one.
pub fn encode(plan: Plan, message: &[u8], block: &mut [u8]) -> Result<(), Refusal>
    ensures { Encodes plan message.now block.old result block.new }
{
    let n = plan.n;
    let t = plan.t;
    let s = plan.shifts;
    let mut r = [0u16; 32];
    check(plan, message, &block[..], &mut r[..])?;
    seal(n, t, &s[..], &r[..], message, &mut block[..]);
    Ok(())
}

// The block becomes the codeword that carries what stands at its message places. Only parity places are written, and nothing is copied.
pub fn reseal(plan: Plan, block: &mut [u8])
    requires { (plan_check plan ≡ Ok tt) × (length block.old ≡ plan.n * plan.t) }
    ensures { Carries (layout_of plan) block.new (map (at block.old) (messages (layout_of plan))) }
{
    let n = plan.n;
    let t = plan.t;
    let s = plan.shifts;
    let mut r = [0u16; 32];
    runs(n, t, &s[..], &mut r[..]);
    fill_parities(n, t, &s[..], &r[..], block);
}

// Whether every row of the block sums to 0, by a table of zeros. There are no erasures, so none is left.
fn rows_clean(n: usize, t: usize, shifts: &[u16], block: &[u8], sum: &mut [u8]) -> bool
    requires good_plan { GoodPlan n t shifts.now × (length block.now ≡ n * t) }
    requires zeros { Zeros (2 * t) sum.old }
    ensures { Tells (Codeword (layout n t shifts.now) block.now) result }
{
    let rows = 2 * t;
    syndromes(n, t, shifts, block, &mut sum[..rows]);
    zero_bytes(&sum[..rows])
}

// With a table of ROWS entries: the language clears a local array whole, so a small plan takes a small one.
fn clean_in<const ROWS: usize>(n: usize, t: usize, shifts: &[u16], block: &[u8]) -> bool
    requires good_plan { GoodPlan n t shifts.now × (length block.now ≡ n * t) }
    requires rows { (2 * t ≤ ROWS) × (ROWS < 2 ^ 16) }
    ensures { Tells (Codeword (layout n t shifts.now) block.now) result }
{
    let mut sum = [0u8; ROWS];
    rows_clean(n, t, shifts, block, &mut sum)
}

// Entries for the rows of the plans up to t = 32, 256 and the largest t.
const SMALL: usize = 2 * 32;

const MEDIUM: usize = 2 * 256;

const LARGE: usize = 2 * Plan::MAX_T;

// The row test, with a table of the plan's size.
fn is_codeword(n: usize, t: usize, shifts: &[u16], block: &[u8]) -> bool
    requires { GoodPlan n t shifts.now × (length block.now ≡ n * t) }
    ensures { Tells (Codeword (layout n t shifts.now) block.now) result }
{
    if t <= 32 {
        clean_in::<SMALL>(n, t, shifts, block)
    } else if t <= 256 {
        clean_in::<MEDIUM>(n, t, shifts, block)
    } else {
        clean_in::<LARGE>(n, t, shifts, block)
    }
}

// The message that the block carries. A block that is no codeword carries none, and nothing is written.
pub fn message_of(plan: Plan, block: &[u8], message: &mut [u8]) -> Reading
    ensures { Reads plan block.now message.old result message.new }
{
    let n = plan.n;
    let t = plan.t;
    let s = plan.shifts;
    let mut r = [0u16; 32];
    match check(plan, &message[..], block, &mut r[..]) {
        Ok(()) => {
            if !is_codeword(n, t, &s[..], block) {
                return Reading::Crossed;
            }
            gather(n, t, &r[..], block, &mut message[..]);
            Reading::Read
        }
        Err(x) => Reading::Refused(x),
    }
}
