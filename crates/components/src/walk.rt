// The walk over the marked places, from the highest down: their rows are joined, and the first place that closes a cycle is remembered.
ghost use Rattle.std.specs.Prelude.{◌≡◌, ℕ, ◌+◌, ◌*◌, ◌/◌, ◌≤◌, ◌<◌, length, get_or};
ghost use Rattle.bounds.specs.Bounds.{max_t, max_places};
ghost use Rattle.plan.specs.Layout.{layout};
ghost use Rattle.plan.specs.GoodPlan.{GoodPlan};
ghost use Rattle.code.specs.Marks.{erasures};
ghost use Rattle.tables.specs.Spots.{Stands};
ghost use Rattle.components.specs.Walks.{Passed, Labelled};
ghost use Rattle.components.specs.Gaps.{Gap};
ghost use Rattle.components.specs.Walking.{Walking, Joinable, UnitesAt, Bare, Stepped, Descends};

use crate::parents::{own, settle, unite};
use bits::marks::bit;
use bits::words::{pass_zeros, word_from};
use plan::Place;
use tables::rows::{bottom, top};
use tables::walk::Spot;

// Every place from the spot on is passed; its own closes a cycle or not.
#[derive(Clone, Copy)]
struct Walk {
    spot: Spot,
    closes: bool,
}

// m places back.
pub fn back(spot: Spot, t: usize, m: usize) -> Spot
    requires { Stands t spot.place.0 spot.section spot.offset × (m ≤ spot.place.0) × (m ≤ 64) × (t ≤ max_t) }
    ensures { Stands t result.place.0 result.section result.offset × (result.place.0 + m ≡ spot.place.0) }
{
    let mut section = spot.section;
    let mut offset = spot.offset;
    while offset < m {
        offset += t;
        section -= 1;
    }
    Spot {
        place: Place(spot.place.0 - m as u16),
        section,
        offset: offset - m,
    }
}

// The byte where a word of marks begins that holds the place before c, near its end if it can.
fn byte_below(c: Place) -> usize
    requires { (0 < c.0) × (c.0 ≤ max_places) }
    ensures { (8 * result < c.0) × (c.0 ≤ 8 * result + 64) }
{
    (c.0 as usize).div_ceil(8).saturating_sub(8)
}

// The number of places next below c that are not marked, as far as a word of marks tells.
pub fn gap(marks: &[u8], c: Place) -> usize
    requires { (c.0 ≤ 8 * length marks.now) × (length marks.now ≤ max_places / 8) }
    ensures { Gap marks.now c.0 result }
{
    if c.0 == 0 {
        return 0;
    }
    let i = byte_below(c);
    let known = c.0 as usize - 8 * i;
    let word = word_from(marks, i, Place(0)) << (64 - known);
    let zeros = u64::leading_zeros(word) as usize;
    zeros.min(known)
}

// The rows of the spot's place are joined. The answer: they were joined before.
pub fn join(n: usize, t: usize, shifts: &[u16], parent: &mut [u16], spot: Spot) -> bool
    requires { GoodPlan n t shifts.now × Joinable n t parent.old spot.place.0 spot.section spot.offset }
    ensures { UnitesAt (layout n t shifts.now) spot.place.0 parent.old parent.new result }
{
    let section = spot.section;
    unite(parent, top(spot), bottom(spot, t, shifts[section] as usize))
}

// One step of the walk: a place that is marked, or one that is not and those next below it that are not.
fn step(n: usize, t: usize, shifts: &[u16], marks: &[u8], parent: &mut [u16], spot: Spot) -> Walk
    requires { Walking n t shifts.now marks.now parent.old spot.place.0 spot.section spot.offset × (0 < spot.place.0) }
    ensures { Stepped n t shifts.now marks.now parent.new spot.place.0 result.spot.place.0 result.spot.section result.spot.offset result.closes }
{
    let at = back(spot, t, 1);
    if bit(marks, at.place) == 0 {
        let c = at.place;
        let m = gap(marks, c);
        return Walk {
            spot: back(at, t, m),
            closes: false,
        };
    }
    let closes = join(n, t, shifts, parent, at);
    Walk { spot: at, closes }
}

// The steps from a spot on: to the next place that closes a cycle, which is the answer, if it is to stop there, else to the end. No place below `low` is marked.
fn descend(
    n: usize,
    t: usize,
    shifts: &[u16],
    marks: &[u8],
    parent: &mut [u16],
    low: usize,
    from: Spot,
    stop: bool,
) -> Option<Spot>
    requires { Walking n t shifts.now marks.now parent.old from.place.0 from.section from.offset × Bare marks.now low }
    ensures { Descends n t shifts.now marks.now parent.new from.place.0 stop result }
{
    let mut spot = from;
    let mut left = from.place.0 as usize;
    while low < left {
        let passed = step(n, t, shifts, marks, &mut parent[..], spot);
        spot = passed.spot;
        if passed.closes & stop {
            return Some(spot);
        }
        left = spot.place.0 as usize;
    }
    None
}

// The whole walk, from a table in which every row is its own parent. The closing place is kept outside the steps, which then have less to carry.
fn pass(n: usize, t: usize, shifts: &[u16], marks: &[u8], parent: &mut [u16]) -> Option<Spot>
    requires { Walking n t shifts.now marks.now parent.old (n * t) n 0 }
    ensures { Passed (layout n t shifts.now) (erasures (layout n t shifts.now) marks.now) parent.new result }
{
    let low = 8 * pass_zeros(marks, 0);
    let places = n * t;
    let start = Spot {
        place: Place(places as u16),
        section: n,
        offset: 0,
    };
    let spot = descend(n, t, shifts, marks, &mut parent[..], low, start, true)?;
    descend(n, t, shifts, marks, &mut parent[..], low, spot, false);
    Some(spot)
}

// The label of every row, which is the lowest row of its component, and the highest place that closes a cycle of marked places, with the section and the offset
// that the walk had there.
pub fn labels(n: usize, t: usize, shifts: &[u16], marks: &[u8], parent: &mut [u16]) -> Option<Spot>
    requires { GoodPlan n t shifts.now × (length marks.now ≡ (n * t + 7) / 8) × (length parent.old ≡ 2 * t) }
    ensures { Labelled (layout n t shifts.now) (erasures (layout n t shifts.now) marks.now) parent.new result }
{
    own(&mut parent[..]);
    let closing = pass(n, t, shifts, marks, &mut parent[..]);
    settle(parent);
    closing
}
