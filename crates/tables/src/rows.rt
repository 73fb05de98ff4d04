// The two rows of a spot, and the change of the tallies at one row.
ghost use Rattle.std.specs.Prelude.{◌≡◌, ◌+◌, ◌-◌, ◌*◌, ◌≤◌, ◌<◌, length, get_or, set};
ghost use Rattle.bounds.specs.Bounds.{max_n, max_t};
ghost use Rattle.plan.specs.Layout.{bottom_row};
ghost use Rattle.tables.specs.Picture.{tally_unit};
ghost use Rattle.tables.specs.Beside.{Beside};
ghost use Rattle.tables.specs.Spots.{Stands};

use crate::walk::Spot;
use plan::Row;

// What each erasure adds to the tally of a row, beside its section.
pub const TALLY_UNIT: u16 = 1024;

pub fn top(spot: Spot) -> Row
    requires { spot.offset < max_t }
    ensures { result.0 ≡ spot.offset }
{
    Row(spot.offset as u16)
}

// p is the shift of the spot's section. Section and offset have to be those of the place: every walk that wants a bottom row asks for it here.
pub fn bottom(spot: Spot, t: usize, p: usize) -> Row
    requires { Stands t spot.place.0 spot.section spot.offset × (p < t) × (t ≤ max_t) }
    ensures { result.0 ≡ bottom_row t p spot.offset }
{
    if p <= spot.offset {
        return Row((t + (spot.offset - p)) as u16);
    }
    Row((t + (spot.offset + t - p)) as u16)
}

// What a place of this section adds to the tally of each of its rows.
pub(crate) fn weight(section: usize) -> u16
    requires { section < max_n }
    ensures { result ≡ tally_unit + section }
{
    TALLY_UNIT + section as u16
}

// One erasure more on the row: a place of weight w.
pub(crate) fn put_in(tally: &mut [u16], r: Row, w: u16)
    requires { (r.0 < length tally.old) × (get_or tally.old r.0 0 + w < 65536) }
    ensures { tally.new ≡ set tally.old r.0 (get_or tally.old r.0 0 + w) }
{
    tally[usize::from(r.0)] += w;
}

// The place of a section on a row: its offset, and the row that it meets beside that one. Rows are numbers of machine width here: a turn of peeling waits for
// the row before it, and narrowing that row makes it wait longer.
#[derive(Clone, Copy)]
pub struct Met {
    pub offset: usize,
    pub other: usize,
}

// p is the section's shift. The inner tests only decide whether t is added or taken off: the outcome is hard to foresee, and of this form no branch is made.
pub fn beside(t: usize, p: usize, row: usize) -> Met
    requires { (p < t) × (row < 2 * t) × (t ≤ max_t) }
    ensures { Beside t p row result.offset result.other }
{
    if t <= row {
        let turned = row - t + p;
        if turned < t {
            return Met {
                offset: turned,
                other: turned,
            };
        }
        return Met {
            offset: turned - t,
            other: turned - t,
        };
    }
    let turned = row + t - p;
    if turned < t {
        return Met {
            offset: row,
            other: turned + t,
        };
    }
    Met {
        offset: row,
        other: turned,
    }
}
