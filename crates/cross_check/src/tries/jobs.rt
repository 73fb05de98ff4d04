// A job with no bytes at hand: where no more can come it ends, with the line `end`, else it waits. 01's empty job is the first of these.
// No plan is held, so what the lent buffers hold is no matter, and it stays.
use crate::random::fill8;
use crate::tally::Outcome;
use crate::tries::library;
use act::{BLOCK, MARKS};
use job::perform;
use lines::LINE;
use std::alloc::{AllocError, Global};
use turns::start;

// So many bytes are random; the line, which is longer, holds them again and again.
const HELD: usize = 32784;

const END: &[u8] = b"end\n";

// The length of the line that is written.
fn turn_second(line: &mut [u8], is_last: bool) -> usize {
    if !is_last {
        return 0;
    }
    for (to, from) in line.iter_mut().zip(END) {
        *to = *from;
    }
    END.len()
}

fn same_turn(alloc: Global, is_last: bool, seed: u64) -> Result<bool, AllocError> {
    let mut held = vec![in alloc; 0u8; HELD]?;
    fill8(&mut held, seed);
    let mut block: Vec<u8> = held.iter().copied().take(BLOCK).collect(alloc)?;
    let mut marks: Vec<u8> = held.iter().copied().take(MARKS).collect(alloc)?;
    let mut my_line: Vec<u8> = held.iter().copied().cycle().take(LINE).collect(alloc)?;
    let mut their_line = my_line.clone()?;
    let length = turn_second(&mut my_line, is_last);
    let step = perform(
        start(),
        &mut block,
        &mut marks,
        &mut their_line,
        &[],
        is_last,
        seed,
    );
    Ok(
        library::written(step.turn) == Some(length)
            && my_line == their_line
            && held.starts_with(&block)
            && held.starts_with(&marks),
    )
}

pub(crate) fn out_of_bytes(alloc: Global, is_last: bool, seed: u64) -> Result<Outcome, AllocError> {
    let outcome = if is_last {
        Outcome::Ended
    } else {
        Outcome::Waiting
    };
    Ok(outcome.judged(same_turn(alloc, is_last, seed)?))
}
