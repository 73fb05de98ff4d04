// Marks read as words of 64, lowest place first.
ghost use Rattle.std.specs.Prelude.{◌≡◌, ◌+◌, ◌*◌, ◌/◌, ◌^◌, ◌≤◌, ◌<◌, length, get_or};
ghost use Rattle.bounds.specs.Bounds.{max_places};
ghost use Rattle.bits.specs.Words.{Clear, Lanes, Word};

use plan::Place;

// Four bytes from byte i on: one load.
pub fn four_bytes(marks: &[u8], i: usize) -> u64
    requires { i + 4 ≤ length marks.now }
    ensures { Lanes marks.now i 4 result }
{
    let bytes: [u8; 4] = marks[i..i + 4].try_into().unwrap();
    u64::from(u32::from_le_bytes(bytes))
}

// Eight bytes from byte i on: one load.
fn full_word(marks: &[u8], i: usize) -> u64
    requires { i + 8 ≤ length marks.now }
    ensures { Word marks.now 0 (8 * i) result }
{
    let bytes: [u8; 8] = marks[i..i + 8].try_into().unwrap();
    u64::from_le_bytes(bytes)
}

// The bytes from byte i to the end, fewer than eight, and zeros.
fn last_word(marks: &[u8], i: usize) -> u64
    requires { (i < length marks.now) × (length marks.now < i + 8) }
    ensures { Word marks.now 0 (8 * i) result }
{
    let mut word = 0;
    for (k, byte) in marks[i..].iter().enumerate() {
        word |= u64::from(*byte) << (8 * k);
    }
    word
}

fn word_at(marks: &[u8], i: usize) -> u64
    requires { (i < length marks.now) × (length marks.now ≤ max_places / 8) }
    ensures { Word marks.now 0 (8 * i) result }
{
    if i + 8 <= marks.len() {
        return full_word(marks, i);
    }
    last_word(marks, i)
}

// The word of marks from byte i on, the places below `first` left out.
pub fn word_from(marks: &[u8], i: usize, first: Place) -> u64
    requires { (i < length marks.now) × (length marks.now ≤ max_places / 8) × (first.0 < 8 * i + 64) }
    ensures { Word marks.now first.0 (8 * i) result }
{
    let word = word_at(marks, i);
    let a = usize::from(first.0);
    if a <= 8 * i {
        return word;
    }
    let k = a - 8 * i;
    (word >> k) << k
}

// The first byte from byte i on, in steps of a word, whose word is not all zeros or not full.
pub fn pass_zeros(marks: &[u8], i: usize) -> usize
    requires { (i ≤ max_places / 4) × (length marks.now ≤ max_places / 8) }
    ensures { Clear marks.now i result × (result ≤ max_places / 4) }
{
    // The answer is where the search stops: a `for` over steps of eight would have to work that out anew.
    let mut a = i;
    while a + 8 <= marks.len() && full_word(marks, a) == 0 {
        a += 8;
    }
    a
}
