// Walking a cycle by the tallies of its rows: each has two places, and the other's section is what the tally has beside the one at hand.
ghost use Rattle.std.specs.Prelude.{◌≡◌, ◌+◌, ◌*◌, ◌<◌, length};
ghost use Rattle.cycle.specs.Walks.{Coupled, Mate, Mating, Paired, Walkable, Walked};

use plan::{Place, Row};
use tables::lists::put_place;
use tables::rows::{TALLY_UNIT, beside, bottom, top};
use tables::walk::Spot;

// The other place on a row that has two: its tally is twice the unit and the two sections.
fn mate(n: usize, t: usize, shifts: &[u16], tally: &[u16], row: Row, spot: Spot) -> Spot
    requires { Mating n t shifts.now tally.now row.0 spot.place.0 spot.section spot.offset }
    ensures { Mate n t shifts.now tally.now row.0 spot.place.0 result.place.0 result.section result.offset }
{
    let r = row.0 as usize;
    let section = tally[r] as usize - 2 * TALLY_UNIT as usize - spot.section;
    let p = shifts[section] as usize;
    let offset = beside(t, p, r).offset;
    Spot {
        place: Place((section * t + offset) as u16),
        section,
        offset,
    }
}

// Writes a place and the next one, on its top row, at z; gives the one after, on the bottom row.
fn pair(
    n: usize,
    t: usize,
    shifts: &[u16],
    tally: &[u16],
    one: Spot,
    witness: &mut [u16],
    z: usize,
) -> Spot
    requires coupled { Coupled n t shifts.now tally.now one.place.0 one.section one.offset }
    requires z_in_bounds { z + 1 < length witness.old }
    ensures { Paired n t shifts.now tally.now one.place.0 witness.old witness.new z result.place.0 result.section result.offset }
{
    let high = top(one);
    let two = mate(n, t, shifts, tally, high, one);
    let j = two.section;
    let p = shifts[j] as usize;
    let c = one.place;
    let d = two.place;
    put_place(&mut witness[..], z, c);
    put_place(&mut witness[..], z + 1, d);
    let low = bottom(two, t, p);
    mate(n, t, shifts, tally, low, two)
}

// Writes the cycle that begins with a place, zeros after it, and gives its length.
pub(crate) fn walk(
    n: usize,
    t: usize,
    shifts: &[u16],
    tally: &[u16],
    first: Spot,
    witness: &mut [u16],
) -> usize
    requires walkable { Walkable n t shifts.now tally.now first.place.0 first.section first.offset }
    requires witness_len { length witness.old ≡ 2 * t }
    ensures { Walked n t shifts.now tally.now first.place.0 witness.new result }
{
    witness.fill(0);
    let mut spot = first;
    let mut z = 0;
    loop {
        spot = pair(n, t, shifts, tally, spot, &mut witness[..], z);
        z += 2;
        if spot.place.0 == first.place.0 {
            return z;
        }
    }
}
