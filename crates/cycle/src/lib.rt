// The cycle of erasures that a closing place makes: walking it by the row tables.
// Public for the crates above only.
#![tactic(auto)]

ghost use Rattle.std.specs.Prelude.{◌≡◌, ◌*◌, length};
ghost use Rattle.tables.specs.Spots.{Stands};
ghost use Rattle.cycle.specs.Shows.{Closing, Room, Begun, Stripped, Showing};

use crate::walk::walk;
use peel::peel;
use plan::Place;
use tables::count;
use tables::walk::Spot;

pub mod walk;

// The tables of a block of zeros with the erasures from c on.
fn picture_from(
    n: usize,
    t: usize,
    shifts: &[u16],
    marks: &[u8],
    c: Place,
    sum: &mut [u8],
    tally: &mut [u16],
)
    requires closing { Closing n t shifts.now marks.now c.0 }
    requires sum_len { (length sum.old ≡ 2 * t) × (length tally.old ≡ 2 * t) }
    ensures { Begun n t shifts.now marks.now c.0 sum.new tally.new }
{
    sum.fill(0);
    count(n, t, shifts, marks, c, &mut tally[..]);
}

// Peels the erasures from c on: each row that is left has two of them or none.
fn strip(
    n: usize,
    t: usize,
    shifts: &[u16],
    marks: &[u8],
    c: Place,
    sum: &mut [u8],
    tally: &mut [u16],
    queue: &mut [u16],
    place: &mut [u16],
    value: &mut [u8],
)
    requires closing { Closing n t shifts.now marks.now c.0 }
    requires room { Room t sum.old tally.old place.old value.old × (length queue.old ≡ 2 * t) }
    ensures { Stripped n t shifts.now marks.now c.0 tally.new }
{
    picture_from(n, t, shifts, marks, c, &mut sum[..], &mut tally[..]);
    peel(
        n,
        t,
        shifts,
        &mut sum[..],
        &mut tally[..],
        &mut queue[..],
        &mut place[..],
        &mut value[..],
    );
}

// Writes the cycle whose lowest place is the spot's, the highest that closes one, and zeros after it; gives its length. Before that the witness list is the queue.
pub fn show(
    n: usize,
    t: usize,
    shifts: &[u16],
    marks: &[u8],
    spot: Spot,
    sum: &mut [u8],
    tally: &mut [u16],
    place: &mut [u16],
    value: &mut [u8],
    witness: &mut [u16],
) -> usize
    requires closing { Closing n t shifts.now marks.now spot.place.0 × Stands t spot.place.0 spot.section spot.offset }
    requires room { Room t sum.old tally.old place.old value.old }
    requires witness_len { length witness.old ≡ 2 * t }
    ensures { Showing n t shifts.now marks.now spot.place.0 witness.new result }
{
    let c = spot.place;
    strip(
        n,
        t,
        shifts,
        marks,
        c,
        &mut sum[..],
        &mut tally[..],
        &mut witness[..],
        &mut place[..],
        &mut value[..],
    );
    walk(n, t, shifts, &tally[..], spot, &mut witness[..])
}
