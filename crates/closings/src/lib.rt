// The places that close a cycle of marked places above them, as mark bits: the walk over the marked places from the highest down, which joins the rows of each.
// Public for the crate fetch only.
#![tactic(auto)]

ghost use Rattle.std.specs.Prelude.{◌≡◌, ◌+◌, ◌*◌, ◌/◌, ◌<◌, length};
ghost use Rattle.plan.specs.Layout.{layout};
ghost use Rattle.plan.specs.GoodPlan.{GoodPlan};
ghost use Rattle.code.specs.Marks.{erasures};
ghost use Rattle.code.specs.FetchList.{FetchBits};
ghost use Rattle.closings.specs.Collecting.{Collecting};

use bits::marks::{bit, set_mark};
use components::parents::own;
use components::walk::{back, gap, join};
use plan::Place;
use tables::walk::Spot;

// Every place from the spot on is passed; so many of them close a cycle, and their bits are set.
#[derive(Clone, Copy)]
struct Walk {
    spot: Spot,
    count: usize,
}

// One step of the walk: a place that is marked, or one that is not and those next below it that are not.
fn step(
    n: usize,
    t: usize,
    shifts: &[u16],
    marks: &[u8],
    parent: &mut [u16],
    list: &mut [u8],
    walk: Walk,
) -> Walk
    requires { Collecting n t shifts.now marks.now parent.old list.old walk.spot.place.0 walk.spot.section walk.spot.offset walk.count × (0 < walk.spot.place.0) }
    ensures { Collecting n t shifts.now marks.now parent.new list.new result.spot.place.0 result.spot.section result.spot.offset result.count × (result.spot.place.0 < walk.spot.place.0) }
{
    let count = walk.count;
    let at = back(walk.spot, t, 1);
    let c = at.place;
    if bit(marks, c) == 0 {
        let m = gap(marks, c);
        return Walk {
            spot: back(at, t, m),
            count,
        };
    }
    let closes = join(n, t, shifts, parent, at);
    if closes {
        set_mark(list, c);
        return Walk {
            spot: at,
            count: count + 1,
        };
    }
    Walk { spot: at, count }
}

// The whole walk, from a table in which every row is its own parent and a list of no places.
fn pass(
    n: usize,
    t: usize,
    shifts: &[u16],
    marks: &[u8],
    parent: &mut [u16],
    list: &mut [u8],
) -> usize
    requires { Collecting n t shifts.now marks.now parent.old list.old (n * t) n 0 0 }
    ensures { FetchBits (layout n t shifts.now) (erasures (layout n t shifts.now) marks.now) (length marks.now) list.new result }
{
    let mut left = n * t;
    let mut walk = Walk {
        spot: Spot {
            place: Place(left as u16),
            section: n,
            offset: 0,
        },
        count: 0,
    };
    while 0 < left {
        walk = step(n, t, shifts, marks, &mut parent[..], &mut list[..], walk);
        left = walk.spot.place.0 as usize;
    }
    walk.count
}

// The fetch list of the marked places, whatever stood in the list. The answer: the number of its places.
pub fn closings(
    n: usize,
    t: usize,
    shifts: &[u16],
    marks: &[u8],
    parent: &mut [u16],
    list: &mut [u8],
) -> usize
    requires { GoodPlan n t shifts.now × (length marks.now ≡ (n * t + 7) / 8) × (length parent.old ≡ 2 * t) × (length list.old ≡ length marks.now) }
    ensures { FetchBits (layout n t shifts.now) (erasures (layout n t shifts.now) marks.now) (length marks.now) list.new result }
{
    own(&mut parent[..]);
    list.fill(0);
    pass(n, t, shifts, marks, parent, list)
}
