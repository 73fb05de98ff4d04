// A block that is whole: as it stands, or once the settled values are added.
// Public for the crates deciding and recovery only: intact, put_in, recovered.
#![tactic(auto)]

ghost use Rattle.std.specs.Prelude.{◌≡◌, ◌*◌, length, replicate};
ghost use Rattle.tables.specs.Scan.{Lent};
ghost use Rattle.settling.specs.Fill.{Fillable, filled};
ghost use Rattle.tables.specs.Zeros.{Zeros};
ghost use Rattle.whole.specs.Whole.{Summed, Intact};

use answers::Recovery;
use settling::fill::fill;
use slices::zero_bytes;
use sums::syndromes;

// The row sums of the block. The answer: no place is marked and every row sums to 0, so the block is the codeword.
pub fn intact(
    n: usize,
    t: usize,
    shifts: &[u16],
    block: &[u8],
    marks: &[u8],
    sum: &mut [u8],
) -> bool
    requires lent { Lent n t shifts.now marks.now × (length block.now ≡ n * t) }
    requires zeros { Zeros (2 * t) sum.old }
    ensures { Summed n t shifts.now block.now sum.new × Intact n t shifts.now block.now marks.now result }
{
    let rows = 2 * t;
    syndromes(n, t, shifts, block, &mut sum[..rows]);
    if !zero_bytes(marks) {
        return false;
    }
    zero_bytes(&sum[..rows])
}

// The settled values are added to the block.
pub fn put_in(
    block: &mut [u8],
    place: &[u16],
    value: &[u8],
    k: usize,
    witness: &mut [u16],
) -> Recovery
    requires { Fillable block.old place.now value.now k }
    ensures block_after { block.new ≡ filled block.old place.now value.now k }
    ensures value { (result ≡ Recovery.Recovered) × (witness.new ≡ replicate (length witness.old) 0) }
{
    fill(&mut block[..], place, value, k);
    recovered(witness)
}

// The answer where the block is the codeword: the witness list is all zeros.
pub fn recovered(witness: &mut [u16]) -> Recovery
    ensures { (result ≡ Recovery.Recovered) × (witness.new ≡ replicate (length witness.old) 0) }
{
    witness.fill(0);
    Recovery::Recovered
}
