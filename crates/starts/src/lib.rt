// The rows to start from, by the marks: where few places are marked, their rows are far fewer than all rows. Public for the crate peel only.
#![tactic(auto)]

ghost use Rattle.std.specs.Prelude.{◌≡◌, ◌+◌, ◌*◌, ◌≤◌, ◌<◌, length};
ghost use Rattle.code.specs.Marks.{mark};
ghost use Rattle.bits.specs.Words.{Word};
ghost use Rattle.tables.specs.Spots.{Reached};
ghost use Rattle.queue.specs.Queue.{Below, Queued};
ghost use Rattle.starts.specs.Starts.{Appended, Startable, Starting, Seeded};

use bits::words::{pass_zeros, word_from};
use plan::Place;
use queue::{Branching, Enter, seed};
use tables::rows::{TALLY_UNIT, bottom, top};
use tables::walk::{Section, Spot};

// What the walk over the marks has come to: the section, the tail of the queue of top rows, and the number of bottom rows in the list.
#[derive(Clone, Copy)]
struct Walked {
    section: Section,
    tail: usize,
    count: usize,
}

// The two rows of the marked place c enter, the top row the queue and the bottom row the list, if they have exactly one left, by their tallies over the unit.
// The marks stand for the contract alone.
fn enter_rows(
    n: usize,
    t: usize,
    shifts: &[u16],
    marks: &[u8],
    c: Place,
    at: Section,
    tally: &[u16],
    queue: &mut [u16],
    list: &mut [u16],
    tail: usize,
    count: usize,
) -> Walked
    requires starting { Starting n t shifts.now marks.now tally.now queue.old list.old c.0 tail count × (mark marks.now c.0 ≡ 1) }
    requires reached { Reached n t shifts.now c.0 at.index at.begin at.end at.shift }
    ensures starting_2 { Starting n t shifts.now marks.now tally.now queue.new list.new (c.0 + 1) result.tail result.count }
    ensures reached_2 { Reached n t shifts.now c.0 result.section.index result.section.begin result.section.end result.section.shift }
{
    let here = at.reach(n, t, shifts, c);
    let spot = Spot {
        place: c,
        section: here.index,
        offset: c.0 as usize - here.begin,
    };
    let high = top(spot);
    let low = bottom(spot, t, here.shift);
    let a = high.0 as usize;
    let b = low.0 as usize;
    let tops = Branching::enter(queue, tail, high, tally[a] / TALLY_UNIT);
    let bottoms = Branching::enter(list, count, low, tally[b] / TALLY_UNIT);
    Walked {
        section: here,
        tail: tops,
        count: bottoms,
    }
}

// The same of the marked places of the word of marks from byte i on.
fn enter_word(
    n: usize,
    t: usize,
    shifts: &[u16],
    marks: &[u8],
    i: usize,
    word: u64,
    at: Section,
    tally: &[u16],
    queue: &mut [u16],
    list: &mut [u16],
    tail: usize,
    count: usize,
) -> Walked
    requires starting { Starting n t shifts.now marks.now tally.now queue.old list.old (8 * i) tail count × (i < length marks.now) × Word marks.now 0 (8 * i) word }
    requires reached { Reached n t shifts.now (8 * i) at.index at.begin at.end at.shift }
    ensures starting_2 { Starting n t shifts.now marks.now tally.now queue.new list.new (8 * i + 64) result.tail result.count }
    ensures reached_2 { Reached n t shifts.now (8 * i + 64) result.section.index result.section.begin result.section.end result.section.shift }
{
    let mut here = at;
    let mut tops = tail;
    let mut bottoms = count;
    let mut rest = word;
    while rest != 0 {
        let c = 8 * i + rest.trailing_zeros() as usize;
        let next = enter_rows(
            n,
            t,
            shifts,
            marks,
            Place(c as u16),
            here,
            tally,
            queue,
            list,
            tops,
            bottoms,
        );
        here = next.section;
        tops = next.tail;
        bottoms = next.count;
        rest = rest & (rest - 1);
    }
    Walked {
        section: here,
        tail: tops,
        count: bottoms,
    }
}

// Whether more than two marks lie in the word. It only decides by which way the rows are found.
// Not `word.count_ones() > 2`: on plain x86-64 that is 22 instructions for each word, and this 5 where one place is marked.
fn crowded(word: u64) -> bool {
    if word == 0 {
        return false;
    }
    let rest = word & (word - 1);
    if rest == 0 {
        return false;
    }
    rest & (rest - 1) != 0
}

// The first `count` rows of the list follow in the queue from the tail on.
fn append(queue: &mut [u16], tail: usize, list: &[u16], count: usize)
    requires { (tail + count ≤ length queue.old) × (count ≤ length list.now) }
    ensures { Appended queue.old list.now tail count queue.new }
{
    // A loop: `copy_from_slice` would have a C caller's archive ask for `memmove`.
    for k in 0..count {
        queue[tail + k] = list[k];
    }
}

// The rows by the marks; gives the tail of the queue, or None where many marks lie together, or in many words.
fn seed_scattered(
    n: usize,
    t: usize,
    shifts: &[u16],
    marks: &[u8],
    tally: &[u16],
    queue: &mut [u16],
    list: &mut [u16],
) -> Option<usize>
    requires { Startable n t shifts.now marks.now tally.now queue.old list.old }
    ensures { Seeded t tally.now queue.new result }
{
    let mut at = Section::start(n, t, shifts);
    let mut tail = 0;
    let mut count = 0;
    let mut left = t / 16;
    let mut i = pass_zeros(marks, 0);
    while i < marks.len() {
        let word = word_from(marks, i, Place(0));
        if left == 0 {
            return None;
        }
        if crowded(word) {
            return None;
        }
        let next = enter_word(
            n, t, shifts, marks, i, word, at, tally, queue, list, tail, count,
        );
        at = next.section;
        tail = next.tail;
        count = next.count;
        left -= 1;
        i = pass_zeros(marks, i + 8);
    }
    append(queue, tail, list, count);
    Some(tail + count)
}

// Every row with exactly one left enters; gives the tail. The table tallies the marked places; the list is for use meanwhile.
pub fn seed_marked(
    n: usize,
    t: usize,
    shifts: &[u16],
    marks: &[u8],
    tally: &[u16],
    queue: &mut [u16],
    list: &mut [u16],
) -> usize
    requires { Startable n t shifts.now marks.now tally.now queue.old list.old }
    ensures { Queued tally.now queue.new (Below (2 * t)) 0 result }
{
    match seed_scattered(n, t, shifts, marks, tally, queue, list) {
        Some(tail) => tail,
        None => seed(t, tally, queue),
    }
}
