// Settling the one erasure that a row has left.
ghost use Rattle.std.specs.Prelude.{◌≡◌};
ghost use Rattle.plan.specs.Layout.{layout};
ghost use Rattle.tables.specs.Picture.{counts};
ghost use Rattle.settling.specs.Takes.{Rows, Removes, One, Takes};

use plan::{Place, Row};
use tables::rows::{TALLY_UNIT, beside};

// A settled place, what is added to its symbol, the row that it met beside the one it was settled by, and the number of erasures left there.
#[derive(Clone, Copy)]
pub struct Settled {
    pub place: Place,
    pub value: u8,
    pub other: Row,
    pub rest: u16,
}

// Takes a place of weight w out of its two rows, the first of which has no other. Gives the number left on the second: its tally over the unit.
// The rows are numbers of machine width, as in `beside`.
pub(crate) fn remove(
    sum: &mut [u8],
    tally: &mut [u16],
    row: usize,
    other: usize,
    w: u16,
    x: u8,
) -> u16
    requires { Rows sum.old tally.old row other w }
    ensures { Removes sum.old tally.old sum.new tally.new row other w x result }
{
    tally[row] = 0;
    sum[row] = 0;
    let rest = tally[other] - w;
    tally[other] = rest;
    sum[other] ^= x;
    rest / TALLY_UNIT
}

// The tally of a row with one left is the unit and the section; the place is that section's on the row.
pub fn settle(
    n: usize,
    t: usize,
    shifts: &[u16],
    sum: &mut [u8],
    tally: &mut [u16],
    row: Row,
) -> Settled
    requires { One n t shifts.now sum.old tally.old row.0 }
    ensures takes { Takes (layout n t shifts.now) sum.old tally.old sum.new tally.new row.0 result.place.0 result.value result.other.0 }
    ensures rest_value { result.rest ≡ counts tally.new result.other.0 }
{
    let r = row.0 as usize;
    let w = tally[r];
    let x = sum[r];
    let j = w as usize - TALLY_UNIT as usize;
    let p = shifts[j] as usize;
    let met = beside(t, p, r);
    let place = Place((j * t + met.offset) as u16);
    let rest = remove(sum, tally, r, met.other, w, x);
    Settled {
        place,
        value: x,
        other: Row(met.other as u16),
        rest,
    }
}
