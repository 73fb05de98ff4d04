// The lines of the sheet, written into a lent buffer: one function per kind of line (that of `fetch`, which is put from mark bits, is in the crate fetching).
// Each line is put at an index of the buffer and answers the next one, so that lines can follow each other. What stands before it and past it is kept.
// Public for the crates above only.
#![tactic(auto)]

ghost use Rattle.std.specs.Prelude.{◌≡◌, [], ◌∷◌, ◌+◌, ◌*◌, ◌≤◌, length};
ghost use Rattle.bounds.specs.Bounds.{max_t};
ghost use Rattle.pieces.specs.Pieces.{Appends};
ghost use Rattle.lines.specs.Lines.{line_length, short_length, recovered_word, rounds_word, loose_word, crossed_word, sealed_word, symbol_word, figures_word, refused_word, end_word};
ghost use Rattle.lines.specs.Lines.{line as line_of};

use pieces::{finish, put_list, put_number, put_word};

// No line is longer.
pub const LINE: usize = 196624;

pub fn line_length() -> usize
    ensures value { result ≡ line_length }
    ensures value_2 { result ≡ LINE }
{
    LINE
}

// Each of the functions below, one for a kind of line, keeps the line's word beside the definition that has it.
#[tactic(auto, unfolding(crate::specs::Lines::recovered_word))]
pub fn recovered_line(line: &mut [u8], at: usize, count: usize) -> usize
    requires { at + short_length ≤ length line.old }
    ensures appends { Appends line.old at (line_of recovered_word (count ∷ [])) line.new result }
    ensures upper_bound { result ≤ at + short_length }
{
    numbered(line, at, b"recovered", &[count as u64])
}

#[tactic(auto, unfolding(crate::specs::Lines::rounds_word))]
pub fn rounds_line(line: &mut [u8], at: usize, count: usize) -> usize
    requires { at + short_length ≤ length line.old }
    ensures { Appends line.old at (line_of rounds_word (count ∷ [])) line.new result }
{
    numbered(line, at, b"rounds", &[count as u64])
}

// The count of the list's entries, then the entries.
#[tactic(auto, unfolding(crate::specs::Lines::loose_word))]
pub fn loose_line(line: &mut [u8], at: usize, list: &[u16]) -> usize
    requires line_length_in_bounds { at + line_length ≤ length line.old }
    requires count_in_bounds { length list.now ≤ 2 * max_t }
    ensures { Appends line.old at (line_of loose_word (length list.now ∷ list.now)) line.new result }
{
    listed(line, at, b"loose", list)
}

#[tactic(auto, unfolding(crate::specs::Lines::crossed_word))]
pub fn crossed_line(line: &mut [u8], at: usize, list: &[u16]) -> usize
    requires line_length_in_bounds { at + line_length ≤ length line.old }
    requires count_in_bounds { length list.now ≤ 2 * max_t }
    ensures { Appends line.old at (line_of crossed_word (length list.now ∷ list.now)) line.new result }
{
    listed(line, at, b"crossed", list)
}

#[tactic(auto, unfolding(crate::specs::Lines::sealed_word))]
pub fn sealed_line(line: &mut [u8], at: usize, count: usize) -> usize
    requires { at + short_length ≤ length line.old }
    ensures { Appends line.old at (line_of sealed_word (count ∷ [])) line.new result }
{
    numbered(line, at, b"sealed", &[count as u64])
}

#[tactic(auto, unfolding(crate::specs::Lines::symbol_word))]
pub fn symbol_line(line: &mut [u8], at: usize, place: u16, value: u8) -> usize
    requires { at + short_length ≤ length line.old }
    ensures { Appends line.old at (line_of symbol_word (place ∷ value ∷ [])) line.new result }
{
    numbered(line, at, b"symbol", &[u64::from(place), u64::from(value)])
}

#[tactic(auto, unfolding(crate::specs::Lines::figures_word))]
pub fn figures_line(
    line: &mut [u8],
    at: usize,
    parity: usize,
    pair: usize,
    neighbour: usize,
    distance: usize,
) -> usize
    requires { at + short_length ≤ length line.old }
    ensures { Appends line.old at (line_of figures_word (parity ∷ pair ∷ neighbour ∷ distance ∷ [])) line.new result }
{
    numbered(
        line,
        at,
        b"figures",
        &[
            parity as u64,
            pair as u64,
            neighbour as u64,
            distance as u64,
        ],
    )
}

#[tactic(auto, unfolding(crate::specs::Lines::refused_word))]
pub fn refused_line(line: &mut [u8], at: usize, number: u8, offset: u64) -> usize
    requires { at + short_length ≤ length line.old }
    ensures { Appends line.old at (line_of refused_word (number ∷ offset ∷ [])) line.new result }
{
    numbered(line, at, b"refused", &[u64::from(number), offset])
}

#[tactic(auto, unfolding(crate::specs::Lines::end_word))]
pub fn end_line(line: &mut [u8], at: usize) -> usize
    requires { at + short_length ≤ length line.old }
    ensures { Appends line.old at (line_of end_word []) line.new result }
{
    numbered(line, at, b"end", &[])
}

// The word, then the numbers, of which each has at most 20 digits. Inlined, so that the word and the count of numbers are constants in each line: a call takes a fifth longer.
#[inline(always)]
fn numbered(line: &mut [u8], at: usize, word: &[u8], numbers: &[u64]) -> usize
    requires short_length_in_bounds { at + short_length ≤ length line.old }
    requires numbers_in_bounds { length word.now + 21 * length numbers.now + 1 ≤ short_length }
    ensures appends { Appends line.old at (line_of word.now numbers.now) line.new result }
    ensures upper_bound { result ≤ at + short_length }
{
    let mut to = put_word(line, at, word);
    for n in numbers {
        to = put_number(line, to, *n);
    }
    finish(line, to)
}

fn listed(line: &mut [u8], at: usize, word: &[u8], list: &[u16]) -> usize
    requires line_length_in_bounds { at + line_length ≤ length line.old }
    requires word_len_bound { length word.now ≤ 16 }
    requires count_in_bounds { length list.now ≤ 2 * max_t }
    ensures { Appends line.old at (line_of word.now (length list.now ∷ list.now)) line.new result }
{
    let a = put_word(line, at, word);
    let b = put_number(line, a, list.len() as u64);
    let c = put_list(line, b, list);
    finish(line, c)
}
