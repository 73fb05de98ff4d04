// Marks as bits, place c in byte c / 8, bit c mod 8: one place read, set or cleared, a run of places set or cleared.
ghost use Rattle.std.specs.Prelude.{◌≡◌, ◌+◌, ◌-◌, ◌*◌, ◌/◌, ◌^◌, ◌≤◌, ◌<◌, length};
ghost use Rattle.std.specs.Int.{from_bool};
ghost use Rattle.code.specs.Marks.{mark};
ghost use Rattle.bits.specs.Bits.{Marked};

use crate::short::mark_short;
use plan::Place;

// The bit of place c.
pub fn bit(marks: &[u8], c: Place) -> u8
    requires { c.0 / 8 < length marks.now }
    ensures { result ≡ mark marks.now c.0 }
{
    let place = usize::from(c.0);
    (marks[place / 8] >> (place % 8)) % 2
}

// Marking and clearing stay two functions, here and for a run below: a reader sees at the call which of them it is, and both call one that takes the bit.
pub fn set_mark(marks: &mut [u8], c: Place)
    requires { c.0 < 8 * length marks.old }
    ensures { Marked marks.old c.0 1 1 marks.new }
{
    put_bit(marks, usize::from(c.0), true);
}

pub fn clear_mark(marks: &mut [u8], c: Place)
    requires { c.0 < 8 * length marks.old }
    ensures { Marked marks.old c.0 1 0 marks.new }
{
    put_bit(marks, usize::from(c.0), false);
}

// m places from c on are marked. Short runs come in any length at any place: by one word they cost no wrong guess of a branch.
pub fn mark_run(marks: &mut [u8], c: Place, m: u16)
    requires { c.0 + m ≤ 8 * length marks.old }
    ensures { Marked marks.old c.0 m 1 marks.new }
{
    let start = usize::from(c.0);
    let count = usize::from(m);
    if marks.len() < 4 {
        put_run(marks, start, count, true);
        return;
    }
    if 25 < count {
        mark_long(marks, start, count);
        return;
    }
    mark_short(marks, start, count);
}

// The marks of m places from c on are cleared.
pub fn clear_run(marks: &mut [u8], c: Place, m: u16)
    requires { c.0 + m ≤ 8 * length marks.old }
    ensures { Marked marks.old c.0 m 0 marks.new }
{
    put_run(marks, usize::from(c.0), usize::from(m), false);
}

// m places from place `start` on are marked: those up to a whole byte and those behind the last one by a word each.
fn mark_long(marks: &mut [u8], start: usize, m: usize)
    requires { (25 < m) × (start + m ≤ 8 * length marks.old) × (start + m < 2 ^ 64) }
    ensures { Marked marks.old start m 1 marks.new }
{
    let first = (8 - start % 8) % 8;
    let last = (start + m) % 8;
    let whole = m - first - last;
    mark_short(marks, start, first);
    put_run(marks, start + first, whole, true);
    mark_short(marks, start + first + whole, last);
}

// m places from place `start` on are marked, or cleared.
fn put_run(marks: &mut [u8], start: usize, m: usize, on: bool)
    requires { (start + m ≤ 8 * length marks.old) × (start + m < 2 ^ 64) }
    ensures { Marked marks.old start m (from_bool on) marks.new }
{
    let end = start + m;
    let mut at = start;
    while at < end {
        at = put_some(marks, at, end, on);
    }
}

// A whole byte where one begins and fits, else one place; gives the next place.
fn put_some(marks: &mut [u8], at: usize, end: usize, on: bool) -> usize
    requires { (at < end) × (end ≤ 8 * length marks.old) }
    ensures lower_bound { (at < result) × (result ≤ end) }
    ensures marked { Marked marks.old at (result - at) (from_bool on) marks.new }
{
    if at % 8 != 0 || end - at < 8 {
        put_bit(marks, at, on);
        return at + 1;
    }
    marks[at / 8] = if on { u8::MAX } else { 0 };
    at + 8
}

// Place `at` is marked, or cleared.
fn put_bit(marks: &mut [u8], at: usize, on: bool)
    requires { at < 8 * length marks.old }
    ensures { Marked marks.old at 1 (from_bool on) marks.new }
{
    let place = 1u8 << (at % 8);
    if on {
        marks[at / 8] |= place;
        return;
    }
    marks[at / 8] &= !place;
}
