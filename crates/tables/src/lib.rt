// The row tables of a block with erasures: for each row its sum, and the tally of the erasures left on it.
// Public for the crates above only.
#![tactic(auto)]

ghost use Rattle.std.specs.Prelude.{◌≡◌, ◌*◌, length};
ghost use Rattle.plan.specs.Layout.{layout};
ghost use Rattle.code.specs.Marks.{erasures};
ghost use Rattle.tables.specs.Picture.{Counted};
ghost use Rattle.tables.specs.Counting.{from_place};
ghost use Rattle.tables.specs.Scan.{Lent};

use plan::Place;

pub mod lists;
pub mod marks;
pub mod rows;
pub mod sweep;
pub mod walk;

// Counts the marked places from `first` on. What the table held before does not matter.
pub fn count(n: usize, t: usize, shifts: &[u16], marks: &[u8], first: Place, tally: &mut [u16])
    requires lent { Lent n t shifts.now marks.now }
    requires tally_len { length tally.old ≡ 2 * t }
    ensures { Counted (layout n t shifts.now) (from_place first.0 (erasures (layout n t shifts.now) marks.now)) tally.new }
{
    tally.fill(0);
    marks::note_marks(n, t, shifts, marks, first, tally);
}
