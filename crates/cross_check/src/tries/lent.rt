// The calls with buffers: recover, erasure_count, encode, message_of.
use crate::random::fill16;
use crate::second::refusing::{Refused, marked, of_marks, of_plan};
use crate::second::rows::{places, rows};
use crate::second::{cycles, messages, outcomes};
use crate::tally::{Answer, Outcome};
use crate::tries::library;
use plan::Plan;
use std::alloc::{AllocError, Global};

// How long each lent buffer is.
#[derive(Clone, Copy)]
pub(crate) struct Lens {
    pub(crate) block: usize,
    pub(crate) marks: usize,
    pub(crate) list: usize,
    pub(crate) message: usize,
}

fn recover_check(plan: Plan, marks: &[u8], block: &[u8], list: &[u16]) -> Result<(), Refused> {
    of_plan(plan)?;
    if block.len() != places(plan) || list.len() != rows(plan) {
        return Err(Refused::Length);
    }
    of_marks(places(plan), marks)
}

fn recover_second(
    alloc: Global,
    plan: Plan,
    marks: &[u8],
    block: &mut [u8],
    list: &mut [u16],
) -> Result<Answer, AllocError> {
    if let Err(refused) = recover_check(plan, marks, block, list) {
        return Ok(Answer::from(refused));
    }
    Ok(Answer::from(outcomes::recover(alloc, plan, marks, block, list)?))
}

pub(crate) fn recover_library(
    plan: Plan,
    marks: &[u8],
    block: &mut [u8],
    list: &mut [u16],
) -> Answer {
    library::recovered(recovery::recover(plan, block, marks, list))
}

// What an undamaged block comes to: never crossed, and recovered to the codeword that was sent.
fn is_as_sent(outcome: Outcome, sent: &[u8], block: &[u8]) -> bool {
    outcome != Outcome::Crossed && (outcome != Outcome::Recovered || sent == block)
}

// Recovers a block, into a list of so many entries that holds other numbers. Where the block is not damaged, the codeword
// that was sent.
pub(crate) fn recover(
    alloc: Global,
    plan: Plan,
    block: &[u8],
    marks: &[u8],
    entries: usize,
    sent: Option<&[u8]>,
    seed: u64,
) -> Result<Outcome, AllocError> {
    let mut my_block = block.to_vec(alloc)?;
    let mut their_block = block.to_vec(alloc)?;
    let mut my_list = vec![in alloc; 0u16; entries]?;
    fill16(&mut my_list, seed);
    let mut their_list = my_list.clone()?;
    let mine = recover_second(alloc, plan, marks, &mut my_block, &mut my_list)?;
    let theirs = recover_library(plan, marks, &mut their_block, &mut their_list);
    // Of a loose block the list is any cycle of erased places; else both lists are the same.
    let same_list = if mine.outcome == Outcome::Loose && theirs.outcome == Outcome::Loose {
        cycles::is_cycle(alloc, plan, marks, &their_list, theirs.count)?
    } else {
        mine == theirs && my_list == their_list
    };
    let same_block = my_block == their_block;
    let as_sent = sent.is_none_or(|sent| is_as_sent(theirs.outcome, sent, &their_block));
    Ok(theirs.outcome.judged(same_list && same_block && as_sent))
}

fn count_second(plan: Plan, marks: &[u8]) -> Result<usize, Refused> {
    of_plan(plan)?;
    of_marks(places(plan), marks)?;
    Ok(marked(marks, 0, places(plan)))
}

pub(crate) fn count_library(plan: Plan, marks: &[u8]) -> Result<usize, Outcome> {
    library::counted(calls::erasure_count(plan, marks))
}

pub(crate) fn count(plan: Plan, marks: &[u8]) -> Outcome {
    match (count_library(plan, marks), count_second(plan, marks)) {
        (Ok(theirs), Ok(mine)) => Outcome::Counted.judged(theirs == mine),
        (Err(theirs), Err(mine)) => theirs.must_be(Outcome::from(mine)),
        _ => Outcome::Mismatch,
    }
}

// What refuses encode and message_of.
fn carry_refused(
    alloc: Global,
    plan: Plan,
    block: &[u8],
    message: &[u8],
) -> Result<Option<Refused>, AllocError> {
    if let Err(refused) = of_plan(plan) {
        return Ok(Some(refused));
    }
    let is_wrong = block.len() != places(plan) || message.len() != messages::count(alloc, plan)?;
    Ok(is_wrong.then_some(Refused::Length))
}

fn encode_second(
    alloc: Global,
    plan: Plan,
    message: &[u8],
    block: &mut [u8],
) -> Result<Outcome, AllocError> {
    if let Some(refused) = carry_refused(alloc, plan, block, message)? {
        return Ok(Outcome::from(refused));
    }
    messages::encode(alloc, plan, message, block)?;
    Ok(Outcome::Sealed)
}

fn read_second(
    alloc: Global,
    plan: Plan,
    block: &[u8],
    message: &mut [u8],
) -> Result<Outcome, AllocError> {
    if let Some(refused) = carry_refused(alloc, plan, block, message)? {
        return Ok(Outcome::from(refused));
    }
    let is_read = messages::read(alloc, plan, block, message)?;
    Ok(if is_read {
        Outcome::Read
    } else {
        Outcome::ReadCrossed
    })
}

// Encodes a message into a block that holds other symbols.
pub(crate) fn encode(
    alloc: Global,
    plan: Plan,
    message: &[u8],
    block: &[u8],
) -> Result<Outcome, AllocError> {
    let mut my_block = block.to_vec(alloc)?;
    let mut their_block = block.to_vec(alloc)?;
    let mine = encode_second(alloc, plan, message, &mut my_block)?;
    let theirs = library::sealed(sealing::encode(plan, message, &mut their_block));
    let same = mine == theirs && my_block == their_block;
    Ok(mine.judged(same))
}

// Reads the message of a block into a buffer that holds other symbols.
pub(crate) fn read(
    alloc: Global,
    plan: Plan,
    block: &[u8],
    message: &[u8],
) -> Result<Outcome, AllocError> {
    let mut my_message = message.to_vec(alloc)?;
    let mut their_message = message.to_vec(alloc)?;
    let mine = read_second(alloc, plan, block, &mut my_message)?;
    let theirs = library::read(sealing::message_of(plan, block, &mut their_message));
    let same = mine == theirs && my_message == their_message;
    Ok(mine.judged(same))
}
