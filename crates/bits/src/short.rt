// A short run of marks set by one word of four bytes, with no branch on where it begins or how long it is.
ghost use Rattle.std.specs.Prelude.{◌≡◌, ◌+◌, ◌-◌, ◌*◌, ◌/◌, ◌^◌, ◌≤◌, min, length};
ghost use Rattle.bits.specs.Bits.{Marked};
ghost use Rattle.bits.specs.Short.{Stored};

use crate::words::four_bytes;

// m places from place `start` on are marked: at most 25, so that they lie in four bytes wherever they begin.
pub fn mark_short(marks: &mut [u8], start: usize, m: usize)
    requires { (4 ≤ length marks.old) × (m ≤ 25) × (start + m ≤ 8 * length marks.old) }
    ensures { Marked marks.old start m 1 marks.new }
{
    // The first of four bytes that hold the run: the byte of its place, or as far on as four bytes are there.
    let i = (start / 8).min(marks.len() - 4);
    let word = four_bytes(marks, i) | run_mask(m, start - 8 * i);
    put_four(marks, i, word);
}

// m ones from bit k on.
fn run_mask(m: usize, k: usize) -> u64
    requires { m + k ≤ 32 }
    ensures { result ≡ (2 ^ m - 1) * 2 ^ k }
{
    ((1u64 << m) - 1) << k
}

// The lowest four bytes of the word, from byte i on: one store.
fn put_four(marks: &mut [u8], i: usize, word: u64)
    requires { i + 4 ≤ length marks.old }
    ensures { Stored marks.old i 4 word marks.new }
{
    marks[i..i + 4].copy_from_slice(&word.to_le_bytes()[..4]);
}
