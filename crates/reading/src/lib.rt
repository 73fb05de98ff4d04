// A job read in parts: the bytes at hand stand in a buffer, and more are read behind them.
// Entries: begin, carry; reach is public for the crates above only. A cursor whose bounds pass the buffer or each other has only what stands within them at hand.
#![tactic(auto)]

ghost use Rattle.std.specs.Prelude.{◌≡◌, ◌++◌, ◌≤◌, min, length, drop};
ghost use Rattle.reading.specs.Cursors.{hand, at_start, carried_of, reach_of};

// The bytes at hand stand from `at` to `end`; `offset`: where the first of them stands in the job.
#[derive(Clone, Copy)]
pub struct Cursor {
    pub at: usize,
    pub end: usize,
    pub offset: u64,
}

// Nothing is read yet.
pub fn begin() -> Cursor
    ensures { result ≡ at_start }
{
    Cursor {
        at: 0,
        end: 0,
        offset: 0,
    }
}

// The bytes at hand are moved to the front of the buffer, where more can be read behind them.
pub fn carry(cursor: Cursor, buffer: &mut [u8]) -> Cursor
    ensures { (result ≡ carried_of cursor buffer.old) × (buffer.new ≡ hand cursor buffer.old ++ drop (length (hand cursor buffer.old)) buffer.old) }
{
    let at = cursor.at;
    let end = cursor.end.min(buffer.len());
    if end < at {
        return Cursor {
            at: 0,
            end: 0,
            offset: cursor.offset,
        };
    }
    buffer.copy_within(at..end, 0);
    Cursor {
        at: 0,
        end: end - at,
        offset: cursor.offset,
    }
}

// How far the bytes at hand stand below offset 2^64 - 1: the index of the first one that does not, or the end.
pub fn reach(cursor: Cursor) -> usize
    requires { cursor.at ≤ cursor.end }
    ensures { result ≡ reach_of cursor }
{
    let most = u64::MAX - cursor.offset;
    cursor.at + (cursor.end - cursor.at).min(most as usize)
}
