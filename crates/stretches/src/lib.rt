// The mark bits of a buffer, over any stretch of places: counted, and tested that none is set. Public for the crates above only.
#![tactic(auto)]

ghost use Rattle.std.specs.Prelude.{◌≡◌, ◌+◌, ◌*◌, ◌/◌, ◌%◌, ◌^◌, ◌≤◌, ◌<◌, length, get_or};
ghost use Rattle.std.specs.Int.Count.{ones};
ghost use Rattle.bounds.specs.Bounds.{max_places};
ghost use Rattle.code.specs.Marks.{mark_count};
ghost use Rattle.stretches.specs.Stretches.{none_from, none_in, ones_of};
ghost use Rattle.stretches.specs.StretchLaws.{Cuts};

use slices::zero_bytes;

// The number of marked places among the k from a on. That k is below 2^63 is only for the sum.
pub fn count_marks(marks: &[u8], a: usize, k: usize) -> usize
    requires { (a + k ≤ 8 * length marks.now) × (k < 2 ^ 63) }
    ensures { result ≡ mark_count marks.now a k }
{
    let cut = cut_of(a, k);
    let first = ones_of(part(marks, a / 8, a % 8, cut.first));
    let whole = ones_in(marks, cut.next, cut.bytes);
    let last = ones_of(part(marks, cut.next + cut.bytes, 0, cut.last));
    first + whole + last
}

// Whether none of the k places from a on is marked.
pub fn none_in(marks: &[u8], a: usize, k: usize) -> bool
    requires { a + k ≤ 8 * length marks.now }
    ensures { result ≡ none_in marks.now a k }
{
    let cut = cut_of(a, k);
    let next = cut.next;
    let end = next + cut.bytes;
    if part(marks, a / 8, a % 8, cut.first) != 0 {
        return false;
    }
    if !zero_bytes(&marks[next..end]) {
        return false;
    }
    part(marks, end, 0, cut.last) == 0
}

// Whether no bit is 1 from place a on.
pub fn none_from(marks: &[u8], a: usize) -> bool
    ensures { result ≡ none_from marks.now a }
{
    let i = a / 8;
    if marks.len() <= i {
        return true;
    }
    if marks[i] >> (a % 8) != 0 {
        return false;
    }
    let next = i + 1;
    zero_bytes(&marks[next..])
}

// The ones of all bytes. A plan's marks are few enough that eight times their number fits.
pub fn count_ones(marks: &[u8]) -> usize
    requires { 8 * length marks.now ≤ max_places }
    ensures { result ≡ ones_of marks.now (length marks.now) }
{
    ones_in(marks, 0, marks.len())
}

// The ones of n bytes from byte i on.
fn ones_in(marks: &[u8], i: usize, n: usize) -> usize
    requires { (i + n ≤ length marks.now) × (8 * n < 2 ^ 64) }
    ensures { (result ≡ mark_count marks.now (8 * i) (8 * n)) × (result ≤ 8 * n) }
{
    let mut sum = 0;
    for byte in &marks[i..i + n] {
        sum += ones_of(*byte);
    }
    sum
}

fn ones_of(x: u8) -> usize
    ensures { (result ≡ ones x) × (result ≤ 8) }
{
    x.count_ones() as usize
}

// How a stretch lies in the bytes: so many places in the byte where it begins, then whole bytes from byte `next` on, then so many places of the byte after these.
#[derive(Clone, Copy)]
struct Cut {
    first: usize,
    next: usize,
    bytes: usize,
    last: usize,
}

fn cut_of(a: usize, k: usize) -> Cut
    ensures { Cuts a k result.first result.next result.bytes result.last }
{
    let first = k.min((8 - a % 8) % 8);
    let rest = k - first;
    Cut {
        first,
        next: a.div_ceil(8),
        bytes: rest / 8,
        last: rest % 8,
    }
}

// k bits of byte i from bit b on; 0 past the last byte.
fn part(marks: &[u8], i: usize, b: usize, k: usize) -> u8
    requires { (b < 8) × (k ≤ 8) }
    ensures { result ≡ get_or marks.now i 0 / 2 ^ b % 2 ^ k }
{
    if marks.len() <= i {
        return 0;
    }
    low_bits(marks[i] >> b, k)
}

fn low_bits(x: u8, k: usize) -> u8
    requires { k ≤ 8 }
    ensures { result ≡ x % 2 ^ k }
{
    if k == 0 {
        return 0;
    }
    let spare = 8 - k;
    (x << spare) >> spare
}
