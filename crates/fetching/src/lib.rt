// The command 0D: the fetch list of the marked places, put from its bits.
// Public for the crates above only.
#![tactic(auto)]

ghost use Rattle.std.specs.Prelude.{◌≡◌, Some, List, ◌∷◌, ℕ, ◌+◌, ◌*◌, ◌/◌, ◌≤◌, ◌<◌, length, take};
ghost use Rattle.bounds.specs.Bounds.{max_places};
ghost use Rattle.code.specs.Laws.MarksLaws.{places_of};
ghost use Rattle.pieces.specs.Pieces.{fields, Appends};
ghost use Rattle.lines.specs.Lines.{line_length, fetch_word, Wrote};
ghost use Rattle.lines.specs.Lines.{line as line_of};
ghost use Rattle.commands.specs.declared.Command.TheVariants as commands;
ghost use Rattle.act.specs.Acts.{Kept, Acts};
ghost use Rattle.fetching.specs.FetchingLaws.{GoodMarks, Listed};

use act::MARKS;
use bits::marks::bit;
use fetch::fetch;
use pieces::{finish, put_number, put_word};
use plan::{Place, Plan};

// A place whose bit is set, with a space before it.
fn put_place(line: &mut [u8], at: usize, list: &[u8], c: Place) -> usize
    requires { (c.0 / 8 < length list.now) × (c.0 < max_places) × (at + 6 ≤ length line.old) }
    ensures { Appends line.old at (fields (places_of list.now c.0 1)) line.new result }
{
    if bit(list, c) == 0 {
        return at;
    }
    put_number(line, at, c.0 as u64)
}

// All places below `places` whose bits are set.
fn put_places(line: &mut [u8], at: usize, list: &[u8], places: usize) -> usize
    requires { (places ≤ 8 * length list.now) × (places ≤ max_places) × (at + 6 * places ≤ length line.old) }
    ensures { Appends line.old at (fields (places_of list.now 0 places)) line.new result × (result ≤ at + 6 * places) }
{
    let mut to = at;
    for c in 0..places {
        to = put_place(&mut line[..], to, list, Place(c as u16));
    }
    to
}

// The count, and the places of the bits.
fn fetch_line(line: &mut [u8], count: usize, list: &[u8], places: usize) -> usize
    requires { (length line.old ≡ line_length) × (places ≤ 8 * length list.now) × (places ≤ max_places) × (count ≤ max_places) }
    ensures { Appends line.old 0 (line_of fetch_word (count ∷ places_of list.now 0 places)) line.new result }
{
    let a = put_word(line, 0, b"fetch");
    let b = put_number(line, a, count as u64);
    let c = put_places(&mut line[..], b, list, places);
    finish(line, c)
}

// The list of marks that nothing refuses, by its bits in a lent buffer, and its line.
fn tell(plan: Plan, marks: &[u8], list: &mut [u8], line: &mut [u8]) -> usize
    requires { GoodMarks plan marks.now × (length list.old ≡ length marks.now) × (length line.old ≡ line_length) }
    ensures { Listed plan marks.now (take result line.new) × Wrote line.old (take result line.new) line.new result }
{
    let answer = fetch(plan, marks, &mut list[..]);
    let count = answer.unwrap_or(0);
    fetch_line(line, count, &list[..], plan.n * plan.t)
}

pub fn fetch_state(plan: Plan, marks: &[u8], line: &mut [u8]) -> usize
    requires { (length line.old ≡ line_length) × ((v : List ℕ) × Kept (Some plan) v marks.now) }
    ensures { ((v : List ℕ) → Kept (Some plan) v marks.now → Acts commands.Fetch (Some plan) v marks.now (take result line.new) (Some plan) v marks.now) × Wrote line.old (take result line.new) line.new result }
{
    let places = plan.n * plan.t;
    let bytes = (places + 7) / 8;
    let mut list = [0u8; MARKS];
    tell(plan, &marks[..bytes], &mut list[..bytes], line)
}
