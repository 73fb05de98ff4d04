// The sums of the components, and the rows of the first one whose sum is not 0.
ghost use Rattle.std.specs.Prelude.{◌≡◌, ℕ, ◌+◌, ◌*◌, ◌≤◌, ◌<◌, length, get_or, replicate, MatchOption};
ghost use Rattle.bounds.specs.Bounds.{max_t};
ghost use Rattle.components.specs.Lists.{Adds, First, Gathers};
ghost use Rattle.components.specs.Shows.{Lent, Shows};

use plan::Row;
use tables::lists::{put_row, row_at};

// The sum of every row is added to its parent's. The number of rows, which is that of the entries of each table, goes along since the laws are told by it.
fn add_up(rows: usize, parent: &[u16], sum: &[u8], total: &mut [u8])
    requires { Adds rows parent.now sum.now total.old 0 × (length parent.now ≡ rows) × (length sum.now ≡ rows) × ((r : ℕ) → r < rows → get_or parent.now r 0 < rows) }
    ensures { Adds rows parent.now sum.now total.new rows }
{
    for r in 0..rows {
        let q = row_at(parent, r).0 as usize;
        total[q] ^= sum[r];
    }
}

// The first row whose sum is not 0.
fn first(total: &[u8]) -> Option<Row>
    requires { length total.now ≤ 2 * max_t }
    ensures { MatchOption result (First (length total.now) total.now (length total.now)) (λ r. First (length total.now) total.now r.0 × (r.0 < length total.now)) }
{
    let r = total.iter().position(|sum| *sum != 0)?;
    Some(Row(r as u16))
}

// The rows whose parent is q, rising. The answer: their number.
fn gather(rows: usize, parent: &[u16], q: Row, witness: &mut [u16]) -> usize
    requires { (witness.old ≡ replicate rows 0) × (length parent.now ≡ rows) × (rows ≤ 2 * max_t) }
    ensures { Gathers rows parent.now q.0 witness.new result rows }
{
    let mut z = 0;
    for s in 0..rows {
        if row_at(parent, s).0 == q.0 {
            put_row(&mut witness[..], z, Row(s as u16));
            z += 1;
        }
    }
    z
}

// Where some component does not sum to 0, by the labels and sums of the rows: the rows of the first that does not are written, and the answer is their number.
pub fn crossed(
    t: usize,
    parent: &[u16],
    sum: &[u8],
    total: &mut [u8],
    witness: &mut [u16],
) -> Option<usize>
    requires { Lent t parent.now sum.now total.old witness.old }
    ensures { Shows t parent.now sum.now witness.old witness.new result }
{
    let rows = 2 * t;
    total.fill(0);
    add_up(rows, parent, sum, &mut total[..]);
    let q = first(&total[..])?;
    witness.fill(0);
    Some(gather(rows, parent, q, witness))
}
