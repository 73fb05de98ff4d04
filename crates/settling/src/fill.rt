// Adding settled values to a block, and the test that nothing is left.
ghost use Rattle.std.specs.Prelude.{◌≡◌};
ghost use Rattle.settling.specs.Fill.{filled, Fillable, clean_of};

use slices::{zero_bytes, zero_words};
use tables::lists::place_at;

// The first k values are added at the first k places.
pub fn fill(block: &mut [u8], place: &[u16], value: &[u8], k: usize)
    requires { Fillable block.old place.now value.now k }
    ensures { block.new ≡ filled block.old place.now value.now k }
{
    for i in 0..k {
        let c = place_at(place, i).0 as usize;
        block[c] ^= value[i];
    }
}

// No row has a sum, and none an erasure left.
#[tactic(auto, unfolding(crate::specs::Fill::clean_of))]
pub fn clean(sum: &[u8], tally: &[u16]) -> bool
    ensures { result ≡ clean_of sum.now tally.now }
{
    zero_bytes(sum) && zero_words(tally)
}
