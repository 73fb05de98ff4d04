// Places in a row noted at once: one sweep over the tallies of their top rows, and one over those of their bottom rows.
ghost use Rattle.std.specs.Prelude.{◌≡◌, ◌+◌, ◌≤◌, ◌<◌, length};
ghost use Rattle.tables.specs.Counting.{Ready};
ghost use Rattle.tables.specs.Sweeps.{Apart, Mapped, Room, Swept};
ghost use Rattle.tables.specs.Stretches.{Run, Stretch, added};

use crate::rows::{bottom, top, weight};
use crate::walk::Spot;
use plan::Row;

// Adds w to each entry.
fn raise(s: &mut [u16], w: u16)
    requires { Room w s.old }
    ensures { Mapped (added w) s.old s.new }
{
    for entry in s.iter_mut() {
        *entry += w;
    }
}

// Adds w to the m rows from `high` on, and to those from `low` on.
fn sweep(tally: &mut [u16], high: Row, low: Row, m: usize, w: u16)
    requires { Apart high.0 low.0 m (length tally.old) × Room w tally.old }
    ensures { Swept (added w) high.0 low.0 m tally.old tally.new }
{
    let a = usize::from(high.0);
    let b = usize::from(low.0);
    raise(&mut tally[a..a + m], w);
    raise(&mut tally[b..b + m], w);
}

// Notes the m places from the spot on; p is the shift of their section.
pub(crate) fn note_run(t: usize, p: usize, m: usize, spot: Spot, tally: &mut [u16])
    requires ready { Ready t p spot.place.0 spot.section spot.offset tally.old }
    requires stretch { Stretch t p spot.offset m × (0 < m) }
    ensures { Run t p spot.section spot.offset m tally.old tally.new }
{
    let w = weight(spot.section);
    let high = top(spot);
    let low = bottom(spot, t, p);
    sweep(tally, high, low, m, w);
}
