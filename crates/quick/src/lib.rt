// The commands that come by the thousand, 03, 04, 05 and 08, in one loop over numbers: the plan itself is not looked at.
// Public for the crate streaming only: quick.
#![tactic(auto)]

ghost use Rattle.std.specs.Prelude.{◌≡◌, List, ℕ, ◌+◌, ◌*◌, ◌≤◌, ◌<◌, length, get_or};
ghost use Rattle.act.specs.Acts.{block_length, marks_length};
ghost use Rattle.quick.specs.Quick.{Quiet, Shows, Quick};

use bits::marks::{clear_mark, mark_run, set_mark};
use lines::{LINE, symbol_line};
use plan::Place;
use state::buffers::put;

// The longest of the four commands has this many bytes.
const ENOUGH: usize = 5;

// How far the commands were performed, and how far the sheet is filled.
#[derive(Clone, Copy)]
pub struct Passed {
    pub at: usize,
    pub to: usize,
}

// Commands from this index of the bytes on, as long as they are among the four, whole, and inside the plan, and the sheet has room for a line. Not inlined: its loops then lie where they lie whatever its caller does, and so take as long.
#[inline(never)]
pub fn quick(
    places: usize,
    block: &mut [u8],
    bits: &mut [u8],
    bytes: &[u8],
    start: usize,
    sheet: &mut [u8],
    filled: usize,
) -> Passed
    requires { (places ≤ block_length) × (length block.old ≡ block_length) × (length bits.old ≡ marks_length) × (start ≤ length bytes.now) × (filled ≤ length sheet.old) }
    ensures { Quick places bytes.now block.old bits.old start sheet.old filled block.new bits.new result.at sheet.new result.to }
{
    let mut at = start;
    let mut to = filled;
    let mut more = true;
    while more {
        let next = quiet(places, &mut block[..], &mut bits[..], bytes, at);
        let went = shows(places, &block[..], bytes, next, &mut sheet[..], to);
        more = at < went.at;
        at = went.at;
        to = went.to;
    }
    Passed { at, to }
}

// Commands that write nothing: 03, 04, 05.
fn quiet(places: usize, block: &mut [u8], bits: &mut [u8], bytes: &[u8], start: usize) -> usize
    requires { (places ≤ block_length) × (length block.old ≡ block_length) × (length bits.old ≡ marks_length) × (start ≤ length bytes.now) }
    ensures { Quiet places bytes.now block.old bits.old start block.new bits.new result }
{
    let mut at = start;
    while ENOUGH <= bytes.len() - at {
        let next = quiet_one(places, &mut block[..], &mut bits[..], bytes, at);
        if next == at {
            return next;
        }
        at = next;
    }
    at
}

// One of them or several of one kind, or none: then the index stays.
fn quiet_one(places: usize, block: &mut [u8], bits: &mut [u8], bytes: &[u8], at: usize) -> usize
    requires { (places ≤ block_length) × (length block.old ≡ block_length) × (length bits.old ≡ marks_length) × (at + 5 ≤ length bytes.now) }
    ensures { Quiet places bytes.now block.old bits.old at block.new bits.new result }
{
    let first = byte(bytes, at);
    if first == 3 {
        return symbols(places, block, bits, bytes, at);
    }
    if first == 4 {
        return marked(places, bits, bytes, at);
    }
    if first == 5 {
        return run(places, bits, bytes, at);
    }
    at
}

// 03, as often as it comes: most of a job.
fn symbols(places: usize, block: &mut [u8], bits: &mut [u8], bytes: &[u8], start: usize) -> usize
    requires { (places ≤ block_length) × (length block.old ≡ block_length) × (length bits.old ≡ marks_length) × (start ≤ length bytes.now) }
    ensures { Quiet places bytes.now block.old bits.old start block.new bits.new result }
{
    let mut at = start;
    while ENOUGH <= bytes.len() - at {
        let next = symbol(places, &mut block[..], &mut bits[..], bytes, at);
        if next == at {
            return next;
        }
        at = next;
    }
    at
}

fn symbol(places: usize, block: &mut [u8], bits: &mut [u8], bytes: &[u8], at: usize) -> usize
    requires { (places ≤ block_length) × (length block.old ≡ block_length) × (length bits.old ≡ marks_length) × (at + 5 ≤ length bytes.now) }
    ensures { Quiet places bytes.now block.old bits.old at block.new bits.new result }
{
    if byte(bytes, at) != 3 {
        return at;
    }
    let c = pair(bytes, at + 1);
    if places <= c as usize {
        return at;
    }
    put(block, Place(c), byte(bytes, at + 3));
    clear_mark(bits, Place(c));
    at + 4
}

// 04, as often as it comes.
fn marked(places: usize, bits: &mut [u8], bytes: &[u8], start: usize) -> usize
    requires { (places ≤ block_length) × (length bits.old ≡ marks_length) × (start ≤ length bytes.now) }
    ensures { (v : List ℕ) → Quiet places bytes.now v bits.old start v bits.new result }
{
    let mut at = start;
    while ENOUGH <= bytes.len() - at {
        let next = mark(places, &mut bits[..], bytes, at);
        if next == at {
            return next;
        }
        at = next;
    }
    at
}

fn mark(places: usize, bits: &mut [u8], bytes: &[u8], at: usize) -> usize
    requires { (places ≤ block_length) × (length bits.old ≡ marks_length) × (at + 5 ≤ length bytes.now) }
    ensures { (v : List ℕ) → Quiet places bytes.now v bits.old at v bits.new result }
{
    if byte(bytes, at) != 4 {
        return at;
    }
    let c = pair(bytes, at + 1);
    if places <= c as usize {
        return at;
    }
    set_mark(bits, Place(c));
    at + 3
}

// 05
fn run(places: usize, bits: &mut [u8], bytes: &[u8], at: usize) -> usize
    requires { (places ≤ block_length) × (length bits.old ≡ marks_length) × (at + 5 ≤ length bytes.now) × (get_or bytes.now at 0 ≡ 5) }
    ensures { (v : List ℕ) → Quiet places bytes.now v bits.old at v bits.new result }
{
    let c = pair(bytes, at + 1);
    let m = pair(bytes, at + 3);
    if places < c as usize + m as usize {
        return at;
    }
    mark_run(bits, Place(c), m);
    at + 5
}

// Commands 08.
fn shows(
    places: usize,
    block: &[u8],
    bytes: &[u8],
    start: usize,
    sheet: &mut [u8],
    filled: usize,
) -> Passed
    requires { (places ≤ block_length) × (length block.now ≡ block_length) × (start ≤ length bytes.now) × (filled ≤ length sheet.old) }
    ensures { Shows places bytes.now block.now start sheet.old filled result.at sheet.new result.to }
{
    let mut at = start;
    let mut to = filled;
    while ENOUGH <= bytes.len() - at {
        let next = show_one(places, block, bytes, at, &mut sheet[..], to);
        if next.at == at {
            return next;
        }
        at = next.at;
        to = next.to;
    }
    Passed { at, to }
}

fn show_one(
    places: usize,
    block: &[u8],
    bytes: &[u8],
    at: usize,
    sheet: &mut [u8],
    to: usize,
) -> Passed
    requires { (places ≤ block_length) × (length block.now ≡ block_length) × (at + 5 ≤ length bytes.now) × (to ≤ length sheet.old) }
    ensures { Shows places bytes.now block.now at sheet.old to result.at sheet.new result.to }
{
    if byte(bytes, at) != 8 {
        return Passed { at, to };
    }
    if sheet.len() - to < LINE {
        return Passed { at, to };
    }
    let c = pair(bytes, at + 1);
    if places <= c as usize {
        return Passed { at, to };
    }
    let next = symbol_line(sheet, to, c, byte(block, c as usize));
    Passed {
        at: at + 3,
        to: next,
    }
}

fn byte(bytes: &[u8], i: usize) -> u8
    requires { i < length bytes.now }
    ensures { result ≡ get_or bytes.now i 0 }
{
    bytes[i]
}

// Two bytes, low byte first.
fn pair(bytes: &[u8], i: usize) -> u16
    requires { i + 1 < length bytes.now }
    ensures { result ≡ get_or bytes.now i 0 + 256 * get_or bytes.now (i + 1) 0 }
{
    byte(bytes, i) as u16 + 256 * byte(bytes, i + 1) as u16
}
