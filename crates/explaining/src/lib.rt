// Why a block cannot be recovered: a component that does not add up, or a cycle of erasures.
// Public for the crate deciding only: explain.
// The block is known by the sums of its rows, whatever stands at the marked places: a marked place enters its component twice.
#![tactic(auto)]

ghost use Rattle.std.specs.Prelude.{◌≡◌, ◌*◌, length};
ghost use Rattle.plan.specs.Layout.{layout};
ghost use Rattle.code.specs.Marks.{erasures};
ghost use Rattle.components.specs.Walks.{Closed};
ghost use Rattle.cycle.specs.Shows.{Room};
ghost use Rattle.tables.specs.Scan.{Lent};
ghost use Rattle.explaining.specs.Explains.{Explains, Loosens};

use answers::Recovery;
use components::sums::crossed;
use components::walk::labels;
use cycle::show;
use tables::walk::Spot;

// The first component that does not add up; where all do, a cycle. The labels and the totals take the room of the places and the values.
pub fn explain(
    n: usize,
    t: usize,
    shifts: &[u16],
    marks: &[u8],
    sum: &mut [u8],
    tally: &mut [u16],
    place: &mut [u16],
    value: &mut [u8],
    witness: &mut [u16],
) -> Recovery
    requires lent { Lent n t shifts.now marks.now }
    requires room { Room t sum.old tally.old place.old value.old × (length witness.old ≡ 2 * t) }
    ensures { Explains (layout n t shifts.now) (erasures (layout n t shifts.now) marks.now) sum.old result witness.new }
{
    let closing = labels(n, t, shifts, marks, &mut place[..]);
    match crossed(t, &place[..], &sum[..], &mut value[..], &mut witness[..]) {
        Some(z) => Recovery::Crossed(z),
        None => loose(
            n, t, shifts, marks, closing, sum, tally, place, value, witness,
        ),
    }
}

// The cycle of the closing place. Without one the erasures are a forest; no block is refused then, so any answer will do.
fn loose(
    n: usize,
    t: usize,
    shifts: &[u16],
    marks: &[u8],
    closing: Option<Spot>,
    sum: &mut [u8],
    tally: &mut [u16],
    place: &mut [u16],
    value: &mut [u8],
    witness: &mut [u16],
) -> Recovery
    requires lent { Lent n t shifts.now marks.now }
    requires closed { Closed (layout n t shifts.now) (erasures (layout n t shifts.now) marks.now) closing }
    requires room { Room t sum.old tally.old place.old value.old × (length witness.old ≡ 2 * t) }
    ensures { Loosens (layout n t shifts.now) (erasures (layout n t shifts.now) marks.now) result witness.new }
{
    let Some(spot) = closing else {
        return Recovery::Loose(0);
    };
    Recovery::Loose(show(n, t, shifts, marks, spot, sum, tally, place, value, witness))
}
