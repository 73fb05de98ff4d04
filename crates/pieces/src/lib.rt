// The pieces of a line: a word, a number, a list of numbers, the line feed. Each is put at an index and answers the next one.
// Public for the crates above only.
#![tactic(auto)]

ghost use Rattle.std.specs.Prelude.{[], ◌∷◌, suc, ◌+◌, ◌*◌, ◌≤◌, length};
ghost use Rattle.pieces.specs.Pieces.{decimal, fields, Appends};

use digits::{put_long, put_short};

mod digits;

pub fn put_word(line: &mut [u8], at: usize, word: &[u8]) -> usize
    requires { at + length word.now ≤ length line.old }
    ensures { Appends line.old at word.now line.new result }
{
    let end = at + word.len();
    line[at..end].copy_from_slice(word);
    end
}

// A space and the number in base ten.
pub fn put_number(line: &mut [u8], at: usize, n: u64) -> usize
    requires { at + suc (length (decimal n)) ≤ length line.old }
    ensures { Appends line.old at (32 ∷ decimal n) line.new result }
{
    line[at] = b' ';
    let from = at + 1;
    if n < 100000 {
        return put_short(line, from, n);
    }
    put_long(line, from, n)
}

// The entries of the list, each with a space before it.
pub fn put_list(line: &mut [u8], at: usize, list: &[u16]) -> usize
    requires { at + 6 * length list.now ≤ length line.old }
    ensures appends { Appends line.old at (fields list.now) line.new result }
    ensures upper_bound { result ≤ at + 6 * length list.now }
{
    let mut to = at;
    for n in list {
        to = put_number(line, to, u64::from(*n));
    }
    to
}

// The line feed.
pub fn finish(line: &mut [u8], at: usize) -> usize
    requires { at + 1 ≤ length line.old }
    ensures { Appends line.old at (10 ∷ []) line.new result }
{
    line[at] = b'\n';
    at + 1
}
