// The desk: reads a job from standard input and writes its sheet to standard output.
// The crate streaming says what to read and write next and keeps every number; here are the buffers, the reads and the writes.
#![tactic(auto)]

ghost use Rattle.std.specs.Prelude.{◌≡◌, ◌^◌, ◌<◌, IfOk, OnErr, pos, negsuc};

use act::{BLOCK, MARKS};
use lines::LINE;
use std::io;
use std::io::Read;
use stream::{Ask, Stream, Worked};
use streaming::{brought, opened, room, waiting, work, written};

// Bytes read at once, and bytes of the sheet after which it is written.
const INPUT: usize = 65536;

const SHEET: usize = 65536;

// The number of bytes that a read put there; below 0 where it failed, which is what `brought` takes: its theorems speak of that number.
fn count(got: io::Result<usize>) -> isize
    ensures read { IfOk got (λ n. n < 2 ^ 63 → result ≡ pos n) }
    ensures failed { OnErr got (result ≡ negsuc 0) }
{
    match got {
        Ok(n) => isize::try_from(n).unwrap_or(-1),
        Err(_) => -1,
    }
}

// One read: what a pipe has by now is enough.
fn read(rt: &HostRuntime, stream: Stream, input: &mut [u8]) -> Stream {
    let from = room(stream, input);
    let got = count(rt.stdin().read(&mut input[from..]));
    brought(stream, input, got)
}

fn write(rt: &HostRuntime, stream: Stream, sheet: &[u8]) -> Stream {
    let done = rt.write_all(waiting(stream, sheet)).is_ok();
    written(stream, done)
}

// What is asked for; none where nothing more is. Not inlined: its size moves peeling's loops, and with them the time of 06 and 07 (docs/SPEED.md).
#[inline(never)]
fn answer(rt: &HostRuntime, worked: Worked, sheet: &[u8], input: &mut [u8]) -> Option<Stream> {
    let here = worked.stream;
    match worked.ask {
        Ask::Read => Some(read(rt, here, input)),
        Ask::Write => Some(write(rt, here, sheet)),
        _ => None,
    }
}

// The commands at hand, then what is asked for.
fn turn(
    rt: &HostRuntime,
    stream: Stream,
    block: &mut [u8],
    marks: &mut [u8],
    sheet: &mut [u8],
    input: &mut [u8],
) -> Option<Stream> {
    let worked = work(stream, block, marks, &mut sheet[..], &mut input[..]);
    answer(rt, worked, sheet, input)
}

// A proved loop has to end, and nothing says that a job does: the turns are counted up to a number that no run reaches.
fn run(rt: &HostRuntime, block: &mut [u8], marks: &mut [u8], sheet: &mut [u8], input: &mut [u8]) {
    let mut stream = opened();
    for _ in 0..u64::MAX {
        let Some(next) = turn(
            rt,
            stream,
            &mut block[..],
            &mut marks[..],
            &mut sheet[..],
            &mut input[..],
        ) else {
            return;
        };
        stream = next;
    }
}

fn main(rt: HostRuntime) {
    let mut block = [0u8; BLOCK];
    let mut marks = [0u8; MARKS];
    let mut sheet = [0u8; SHEET + LINE];
    let mut input = [0u8; INPUT];
    run(&rt, &mut block, &mut marks, &mut sheet, &mut input);
}
