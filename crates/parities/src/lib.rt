// The parity symbols of a block that holds a message: erasures that peeling settles, all of them.
// Public for the crate sealing only: fill_parities.
#![tactic(auto)]

ghost use Rattle.std.specs.Prelude.{◌≡◌, ◌*◌, ◌^◌, ◌≤◌, ◌<◌, replicate};
ghost use Rattle.plan.specs.Layout.{layout};
ghost use Rattle.plan.specs.GoodPlan.{GoodPlan};
ghost use Rattle.code.specs.Laws.ParityCount.{parities};
ghost use Rattle.tables.specs.Picture.{Counted};
ghost use Rattle.runs.specs.Runs.{RunsOf};
ghost use Rattle.parities.specs.Settling.{Sealable, Room, Blank, Cut, Settled};

use peel::peel;
use plan::Plan;
use settling::fill::fill;
use sums::syndromes;
use tables::marks::note_places;
use tables::walk::Section;

// Tables that stand whole pages apart are slower: the large ones have some entries to spare.
const SPARE: usize = 64;

// Entries for the rows of the plans up to t = 32, 192, 1024 and the largest t.
const SMALL: usize = 2 * 32;

const MEDIUM: usize = 2 * 192;

const WIDE: usize = 2 * 1024 + SPARE;

const LARGE: usize = 2 * Plan::MAX_T + SPARE;

// Counts the parity places in a table of zeros: of each section those from its run on.
fn count_parities(n: usize, t: usize, shifts: &[u16], runs: &[u16], tally: &mut [u16])
    requires good_plan { GoodPlan n t shifts.now × RunsOf n t (layout n t shifts.now) runs.now }
    requires tally_value { tally.old ≡ replicate (2 * t) 0 }
    ensures { Counted (layout n t shifts.now) (parities (layout n t shifts.now)) tally.new }
{
    let mut at = Section::start(n, t, shifts);
    for j in 0..n {
        let begin = j * t;
        let c = begin + usize::from(runs[j]);
        let end = begin + t;
        at = note_places(n, t, shifts, c, end, at, tally);
    }
}

// Settles the parity places, with the tables lent.
fn settle_parities(
    n: usize,
    t: usize,
    shifts: &[u16],
    runs: &[u16],
    block: &mut [u8],
    sum: &mut [u8],
    tally: &mut [u16],
    queue: &mut [u16],
    place: &mut [u16],
    value: &mut [u8],
)
    requires sealable { Sealable n t shifts.now runs.now block.old }
    requires blank { Blank t sum.old tally.old }
    requires room { Room t queue.old place.old value.old }
    ensures { Settled (layout n t shifts.now) block.old block.new }
{
    syndromes(n, t, shifts, block, sum);
    count_parities(n, t, shifts, runs, tally);
    let k = peel(n, t, shifts, sum, tally, queue, place, value);
    fill(block, place, value, k);
}

// The part of each table that the plan takes.
fn cut(
    n: usize,
    t: usize,
    shifts: &[u16],
    runs: &[u16],
    block: &mut [u8],
    sum: &mut [u8],
    tally: &mut [u16],
    queue: &mut [u16],
    place: &mut [u16],
    value: &mut [u8],
)
    requires sealable { Sealable n t shifts.now runs.now block.old }
    requires cut { Cut t sum.old tally.old queue.old place.old value.old }
    ensures { Settled (layout n t shifts.now) block.old block.new }
{
    let rows = 2 * t;
    settle_parities(
        n,
        t,
        shifts,
        runs,
        block,
        &mut sum[..rows],
        &mut tally[..rows],
        &mut queue[..rows],
        &mut place[..rows],
        &mut value[..rows],
    );
}

// Tables of ROWS entries each: the language clears local arrays whole, so a small plan takes small tables.
fn fill_in<const ROWS: usize>(n: usize, t: usize, shifts: &[u16], runs: &[u16], block: &mut [u8])
    requires sealable { Sealable n t shifts.now runs.now block.old }
    requires rows { (2 * t ≤ ROWS) × (ROWS < 2 ^ 16) }
    ensures { Settled (layout n t shifts.now) block.old block.new }
{
    let mut sum = [0u8; ROWS];
    let mut tally = [0u16; ROWS];
    let mut queue = [0u16; ROWS];
    let mut place = [0u16; ROWS];
    let mut value = [0u8; ROWS];
    cut(
        n, t, shifts, runs, block, &mut sum, &mut tally, &mut queue, &mut place, &mut value,
    );
}

// The block becomes the codeword that agrees with it off the parity places.
pub fn fill_parities(n: usize, t: usize, shifts: &[u16], runs: &[u16], block: &mut [u8])
    requires { Sealable n t shifts.now runs.now block.old }
    ensures { Settled (layout n t shifts.now) block.old block.new }
{
    if t <= 32 {
        fill_in::<SMALL>(n, t, shifts, runs, block);
    } else if t <= 192 {
        fill_in::<MEDIUM>(n, t, shifts, runs, block);
    } else if t <= 1024 {
        fill_in::<WIDE>(n, t, shifts, runs, block);
    } else {
        fill_in::<LARGE>(n, t, shifts, runs, block);
    }
}
