// A job that is read in parts of any size: commands are performed as their bytes come, and the sheet is written out as it fills.
// A program reads and writes what it is asked to and hands the outcome back; it owns no number.
// Entries: opened, work, waiting, written, room, brought.
#![tactic(auto)]

ghost use Rattle.std.specs.Prelude.{◌≡◌, ◌&&◌, not, ◌+◌, ◌^◌, ◌<◌, min, length, take, Ok};
ghost use Rattle.stream.specs.Streams.{opened_at, stream_fits, stream_check, ask_of, with_cursor, tidy, tidy_input, phase_after, moved_of, written_of, lost_of, read_of, taken_of, brought_of};
ghost use Rattle.stream.specs.Works.{Advances, Went, Works};
ghost use Rattle.stream.specs.declared.Phase.TheVariants as phase;

use act::{BLOCK, MARKS};
use lines::LINE;
use progress::{Reached, perform_all};
use reading::{Cursor, begin, carry, reach};
use refusals::Refusal;
use standing::check_state;
use stream::{Ask, Halt, Phase, Stream, Worked};
use turns::start;

mod progress;

// The longest command: an input buffer has to hold it.
const LONGEST: usize = 6;

// A job begins with no plan, nothing read and nothing on the sheet.
pub fn opened() -> Stream
    ensures { result ≡ opened_at }
{
    let held = start();
    let cursor = begin();
    Stream {
        held,
        cursor,
        filled: 0,
        phase: Phase::Going,
        last: false,
    }
}

// Performs the commands at hand and says what is wanted then. What is lent is tested once.
pub fn work(
    stream: Stream,
    block: &mut [u8],
    marks: &mut [u8],
    sheet: &mut [u8],
    input: &mut [u8],
) -> Worked
    ensures { Works stream block.old marks.old sheet.old input.old result.ask result.stream block.new marks.new sheet.new input.new }
{
    match check_stream(stream, &block[..], &marks[..], &sheet[..], &input[..]) {
        Err(x) => Worked {
            ask: Ask::Bad(x),
            stream,
        },
        Ok(()) => {
            let next = advance(
                stream,
                &mut block[..],
                &mut marks[..],
                &mut sheet[..],
                &input[..],
            );
            asked(next, input)
        }
    }
}

// What refuses the lent state: 1 and 2 where a plan is held, then 3, then 4.
fn check_stream(
    stream: Stream,
    block: &[u8],
    marks: &[u8],
    sheet: &[u8],
    input: &[u8],
) -> Result<(), Refusal>
    ensures { result ≡ stream_check stream block.now marks.now sheet.now input.now }
{
    let cursor = stream.cursor;
    let fits = buffers_fit(
        cursor.at,
        cursor.end,
        stream.filled,
        block.len(),
        marks.len(),
        sheet.len(),
        input.len(),
    );
    let held = stream.held;
    check_state(held, fits, marks)
}

// Block and marks have their lengths, the sheet has room for the longest line and the input for the longest command, and what is at hand and what waits stand in them.
fn buffers_fit(
    at: usize,
    end: usize,
    filled: usize,
    block: usize,
    marks: usize,
    sheet: usize,
    input: usize,
) -> bool
    ensures { result ≡ stream_fits at end filled block marks sheet input }
{
    if block != BLOCK {
        return false;
    }
    if marks != MARKS {
        return false;
    }
    if sheet < LINE {
        return false;
    }
    if input < LONGEST {
        return false;
    }
    if end < at {
        return false;
    }
    if input < end {
        return false;
    }
    filled <= sheet
}

// The commands at hand, if the job goes on.
fn advance(
    stream: Stream,
    block: &mut [u8],
    marks: &mut [u8],
    sheet: &mut [u8],
    input: &[u8],
) -> Stream
    requires { stream_check stream block.old marks.old sheet.old input.now ≡ Ok tt }
    ensures { Advances stream block.old marks.old sheet.old input.now result block.new marks.new sheet.new }
{
    let phase = stream.phase;
    match phase {
        Phase::Going => go_on(stream, block, marks, sheet, input),
        Phase::Closed => stream,
        Phase::Past => stream,
        Phase::Lost => stream,
    }
}

// The commands at hand whose bytes stand below offset 2^64 - 1.
fn go_on(
    stream: Stream,
    block: &mut [u8],
    marks: &mut [u8],
    sheet: &mut [u8],
    input: &[u8],
) -> Stream
    requires { (stream_check stream block.old marks.old sheet.old input.now ≡ Ok tt) × (stream.phase ≡ phase.Going) }
    ensures { Went stream block.old marks.old sheet.old input.now result block.new marks.new sheet.new }
{
    let held = stream.held;
    let cursor = stream.cursor;
    let at = cursor.at;
    let to = reach(cursor);
    let cut = to < cursor.end;
    let here = perform_all(
        held,
        block,
        marks,
        sheet,
        stream.filled,
        &input[at..to],
        ends(stream.last, cut),
        cursor.offset,
    );
    moved(stream, here, cut)
}

// The bytes are the last ones where the input has ended, unless they are cut.
fn ends(last: bool, cut: bool) -> bool
    ensures { result ≡ (last && not cut) }
{
    if cut {
        return false;
    }
    last
}

// After the commands: their bytes are used. `cut`: some of the bytes at hand stand past the highest offset.
fn moved(stream: Stream, here: Reached, cut: bool) -> Stream
    requires { (stream.cursor.at + here.at < 2 ^ 64) × (stream.cursor.offset + here.at < 2 ^ 64) }
    ensures { result ≡ moved_of stream here.held here.at here.to here.halt cut }
{
    let from = stream.cursor;
    let held = here.held;
    let cursor = Cursor {
        at: from.at + here.at,
        end: from.end,
        offset: from.offset + here.at as u64,
    };
    Stream {
        held,
        cursor,
        filled: here.to,
        phase: phase_after(here.halt, cut),
        last: stream.last,
    }
}

#[tactic(auto, unfolding(stream::specs::Streams::phase_after))]
fn phase_after(halt: Halt, cut: bool) -> Phase
    ensures { result ≡ phase_after halt cut }
{
    match halt {
        Halt::Closed => Phase::Closed,
        Halt::Input if cut => Phase::Past,
        _ => Phase::Going,
    }
}

// What is wanted; before a read the bytes at hand are moved to the front.
fn asked(stream: Stream, input: &mut [u8]) -> Worked
    ensures { (result.ask ≡ ask_of stream) × (result.stream ≡ tidy stream input.old) × (input.new ≡ tidy_input stream input.old) }
{
    if 0 < stream.filled {
        return Worked {
            ask: Ask::Write,
            stream,
        };
    }
    let phase = stream.phase;
    match phase {
        Phase::Going => {
            let from = stream.cursor;
            let cursor = carry(from, input);
            Worked {
                ask: Ask::Read,
                stream: with_cursor(stream, cursor),
            }
        }
        Phase::Closed => Worked {
            ask: Ask::Closed,
            stream,
        },
        Phase::Past => Worked {
            ask: Ask::Past,
            stream,
        },
        Phase::Lost => Worked {
            ask: Ask::Lost,
            stream,
        },
    }
}

fn with_cursor(stream: Stream, cursor: Cursor) -> Stream
    ensures { result ≡ with_cursor stream cursor }
{
    let held = stream.held;
    let phase = stream.phase;
    Stream {
        held,
        cursor,
        filled: stream.filled,
        phase,
        last: stream.last,
    }
}

// The part of the sheet that waits to be written.
pub fn waiting(stream: Stream, sheet: &[u8]) -> &[u8]
    ensures { result.now ≡ take stream.filled sheet.now }
{
    let filled = stream.filled.min(sheet.len());
    &sheet[..filled]
}

// After a write of what waits: it is done, or it failed.
pub fn written(stream: Stream, done: bool) -> Stream
    ensures { result ≡ written_of stream done }
{
    if !done {
        return lost(stream);
    }
    let held = stream.held;
    let cursor = stream.cursor;
    let phase = stream.phase;
    Stream {
        held,
        cursor,
        filled: 0,
        phase,
        last: stream.last,
    }
}

// Where a read may fill the input: from this index on.
pub fn room(stream: Stream, input: &[u8]) -> usize
    ensures { result ≡ min stream.cursor.end (length input.now) }
{
    let cursor = stream.cursor;
    cursor.end.min(input.len())
}

// After a read from there on: the number of bytes that it put there, 0 at the end of the input, below 0 if it failed. Where there was no room, 0 is not the end.
pub fn brought(stream: Stream, input: &[u8], got: isize) -> Stream
    ensures { result ≡ brought_of stream input.now got }
{
    if got < 0 {
        return lost(stream);
    }
    let cursor = stream.cursor;
    let end = cursor.end;
    if input.len() <= end {
        return lost(stream);
    }
    let count = io::count(got, &input[end..]);
    taken(stream, count)
}

// So many bytes were read behind those at hand.
fn taken(stream: Stream, count: usize) -> Stream
    requires { stream.cursor.end + count < 2 ^ 64 }
    ensures { result ≡ taken_of stream count }
{
    if 0 < stream.filled {
        return lost(stream);
    }
    if stream.last {
        return lost(stream);
    }
    let phase = stream.phase;
    match phase {
        Phase::Going => read_on(stream, count),
        Phase::Closed => lost(stream),
        Phase::Past => lost(stream),
        Phase::Lost => lost(stream),
    }
}

fn read_on(stream: Stream, count: usize) -> Stream
    requires { stream.cursor.end + count < 2 ^ 64 }
    ensures { result ≡ read_of stream count }
{
    let held = stream.held;
    let from = stream.cursor;
    let phase = stream.phase;
    let cursor = Cursor {
        at: from.at,
        end: from.end + count,
        offset: from.offset,
    };
    Stream {
        held,
        cursor,
        filled: stream.filled,
        phase,
        last: count == 0,
    }
}

fn lost(stream: Stream) -> Stream
    ensures { result ≡ lost_of stream }
{
    let held = stream.held;
    let cursor = stream.cursor;
    Stream {
        held,
        cursor,
        filled: 0,
        phase: Phase::Lost,
        last: stream.last,
    }
}
