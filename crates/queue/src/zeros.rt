// The test that no tally of a list counts exactly one.
ghost use Rattle.std.specs.Prelude.{◌≡◌, map};
ghost use Rattle.slices.specs.Zeros.{all_zero};
ghost use Rattle.queue.specs.Ones.{one};

use tables::rows::TALLY_UNIT;

// No tally counts exactly one.
pub(crate) fn no_ones(l: &[u16]) -> bool
    ensures { result ≡ all_zero (map one l.now) }
{
    let mut any = 0;
    for x in l {
        any |= u16::from(*x / TALLY_UNIT == 1);
    }
    any == 0
}
