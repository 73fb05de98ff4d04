// The scan of the marks: each marked place from `first` on is counted on its two rows.
ghost use Rattle.std.specs.Prelude.{◌≡◌, ◌+◌, ◌-◌, ◌*◌, ◌≤◌, ◌<◌, length, replicate};
ghost use Rattle.plan.specs.Layout.{layout};
ghost use Rattle.code.specs.Marks.{erasures};
ghost use Rattle.tables.specs.Picture.{Counted};
ghost use Rattle.tables.specs.Spots.{Reached};
ghost use Rattle.tables.specs.Stretches.{Stretch};
ghost use Rattle.tables.specs.Counting.{Due, Notes, Noted, Ready, from_place};
ghost use Rattle.tables.specs.Scan.{Lent, Scanned};
ghost use Rattle.bits.specs.Words.{Word};

use crate::rows::{bottom, put_in, top, weight};
use crate::sweep::note_run;
use crate::walk::{Section, Spot};
use bits::words::{pass_zeros, word_from};
use plan::Place;

// Notes the place of the spot; p is the shift of its section.
fn note(t: usize, p: usize, spot: Spot, tally: &mut [u16])
    requires { Ready t p spot.place.0 spot.section spot.offset tally.old }
    ensures { Noted t p spot.section spot.offset tally.old tally.new }
{
    let w = weight(spot.section);
    let high = top(spot);
    let low = bottom(spot, t, p);
    put_in(tally, high, w);
    put_in(tally, low, w);
}

// Notes place c, and gives its section.
fn note_next(
    n: usize,
    t: usize,
    shifts: &[u16],
    c: Place,
    at: Section,
    tally: &mut [u16],
) -> Section
    requires due { Due n t shifts.now c.0 (c.0 + 1) tally.old }
    requires reached { Reached n t shifts.now c.0 at.index at.begin at.end at.shift }
    ensures notes { Notes n t shifts.now c.0 (c.0 + 1) tally.old tally.new }
    ensures reached_2 { Reached n t shifts.now c.0 result.index result.begin result.end result.shift }
{
    let here = at.reach(n, t, shifts, c);
    let spot = Spot {
        place: c,
        section: here.index,
        offset: usize::from(c.0) - here.begin,
    };
    note(t, here.shift, spot, tally);
    here
}

// Notes the m places from c on, in one stretch of a section.
fn note_stretch(
    n: usize,
    t: usize,
    shifts: &[u16],
    c: Place,
    m: usize,
    at: Section,
    tally: &mut [u16],
)
    requires due { Due n t shifts.now c.0 (c.0 + m) tally.old × (0 < m) }
    requires reached { Reached n t shifts.now c.0 at.index at.begin at.end at.shift × Stretch t at.shift (c.0 - at.begin) m }
    ensures { Notes n t shifts.now c.0 (c.0 + m) tally.old tally.new }
{
    let spot = Spot {
        place: c,
        section: at.index,
        offset: usize::from(c.0) - at.begin,
    };
    note_run(t, at.shift, m, spot, tally);
}

// Notes all places from c to end, and gives the section that it comes to.
pub fn note_places(
    n: usize,
    t: usize,
    shifts: &[u16],
    c: usize,
    end: usize,
    at: Section,
    tally: &mut [u16],
) -> Section
    requires due { Due n t shifts.now c end tally.old × (c ≤ end) }
    requires reached { Reached n t shifts.now c at.index at.begin at.end at.shift }
    ensures notes { Notes n t shifts.now c end tally.old tally.new }
    ensures reached_2 { Reached n t shifts.now end result.index result.begin result.end result.shift }
{
    let mut here = at;
    let mut d = c;
    while d < end {
        let place = Place(d as u16);
        here = here.reach(n, t, shifts, place);
        let m = here.stretch(n, t, shifts, place, end);
        note_stretch(n, t, shifts, place, m, here, tally);
        d += m;
    }
    here
}

// Notes the places of the word of marks from byte i on, which lies in one section: no place is asked for its section. `first` is a number here, and stands
// for the contract alone: an invariant cannot name a struct that its loop does not read.
fn note_inside(
    n: usize,
    t: usize,
    shifts: &[u16],
    marks: &[u8],
    first: u16,
    i: usize,
    word: u64,
    at: Section,
    tally: &mut [u16],
)
    requires lent { Lent n t shifts.now marks.now × (i < length marks.now) × (first < 8 * i + 64) × Word marks.now first (8 * i) word }
    requires reached { Reached n t shifts.now (8 * i) at.index at.begin at.end at.shift × (8 * i + 64 ≤ at.end) }
    requires scanned { Scanned n t shifts.now marks.now first (8 * i) tally.old }
    ensures { Scanned n t shifts.now marks.now first (8 * i + 64) tally.new }
{
    let mut rest = word;
    while rest != 0 {
        let c = 8 * i + rest.trailing_zeros() as usize;
        let spot = Spot {
            place: Place(c as u16),
            section: at.index,
            offset: c - at.begin,
        };
        note(t, at.shift, spot, tally);
        rest &= rest - 1;
    }
}

// The same where a section may end in the word; gives the section that it comes to.
fn note_across(
    n: usize,
    t: usize,
    shifts: &[u16],
    marks: &[u8],
    first: u16,
    i: usize,
    word: u64,
    at: Section,
    tally: &mut [u16],
) -> Section
    requires lent { Lent n t shifts.now marks.now × (i < length marks.now) × (first < 8 * i + 64) × Word marks.now first (8 * i) word }
    requires reached { Reached n t shifts.now (8 * i) at.index at.begin at.end at.shift }
    requires scanned { Scanned n t shifts.now marks.now first (8 * i) tally.old }
    ensures scanned_2 { Scanned n t shifts.now marks.now first (8 * i + 64) tally.new }
    ensures reached_2 { Reached n t shifts.now (8 * i + 64) result.index result.begin result.end result.shift }
{
    let mut here = at;
    let mut rest = word;
    while rest != 0 {
        let c = 8 * i + rest.trailing_zeros() as usize;
        here = note_next(n, t, shifts, Place(c as u16), here, tally);
        rest &= rest - 1;
    }
    here
}

// Notes the marked places from `first` on of the word of marks from byte i on, lowest first, and gives the section that it comes to.
fn note_word(
    n: usize,
    t: usize,
    shifts: &[u16],
    marks: &[u8],
    first: Place,
    i: usize,
    at: Section,
    tally: &mut [u16],
) -> Section
    requires lent { Lent n t shifts.now marks.now × (i < length marks.now) × (first.0 < 8 * i + 64) }
    requires reached { Reached n t shifts.now (8 * i) at.index at.begin at.end at.shift }
    requires scanned { Scanned n t shifts.now marks.now first.0 (8 * i) tally.old }
    ensures scanned_2 { Scanned n t shifts.now marks.now first.0 (8 * i + 64) tally.new }
    ensures reached_2 { Reached n t shifts.now (8 * i + 64) result.index result.begin result.end result.shift }
{
    let c = 8 * i;
    let word = word_from(marks, i, first);
    if word == u64::MAX {
        return note_places(n, t, shifts, c, c + 64, at, tally);
    }
    if at.end < c + 64 {
        return note_across(n, t, shifts, marks, first.0, i, word, at, tally);
    }
    note_inside(n, t, shifts, marks, first.0, i, word, at, tally);
    at
}

// Notes all marked places from `first` on, in a table of zeros.
pub fn note_marks(n: usize, t: usize, shifts: &[u16], marks: &[u8], first: Place, tally: &mut [u16])
    requires lent { Lent n t shifts.now marks.now }
    requires tally_value { tally.old ≡ replicate (2 * t) 0 }
    ensures { Counted (layout n t shifts.now) (from_place first.0 (erasures (layout n t shifts.now) marks.now)) tally.new }
{
    let mut at = Section::start(n, t, shifts);
    let mut i = pass_zeros(marks, usize::from(first.0) / 64 * 8);
    while i < marks.len() {
        at = note_word(n, t, shifts, marks, first, i, at, tally);
        i = pass_zeros(marks, i + 8);
    }
}
