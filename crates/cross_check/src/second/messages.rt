// 01: a place is a check place exactly when no ring has it as its lowest place: its two rows are not joined by places above it.
// The places are taken from the highest down, and every join renames the labels of all rows.
use crate::second::labels::alone;
use crate::second::peeling::{is_settled, put_known, settle};
use crate::second::rows::{bottom, places, top};
use plan::Plan;
use std::alloc::{AllocError, Global};

// Whether the two rows of place c are not joined yet: they are then.
pub(crate) fn visit(plan: Plan, c: usize, label: &mut [usize]) -> bool {
    let (Some(from), Some(to)) = (
        label.get(top(plan, c)).copied(),
        label.get(bottom(plan, c)).copied(),
    ) else {
        return false;
    };
    if from == to {
        return false;
    }
    for l in label.iter_mut() {
        if *l == from {
            *l = to;
        }
    }
    true
}

// For each place whether it is a parity place.
pub(crate) fn parities(alloc: Global, plan: Plan) -> Result<Vec<bool>, AllocError> {
    let mut label = alone(alloc, plan)?;
    let mut parity = vec![in alloc; false; places(plan)]?;
    for (c, is_parity) in parity.iter_mut().enumerate().rev() {
        *is_parity = visit(plan, c, &mut label);
    }
    Ok(parity)
}

// The number of message places.
pub(crate) fn count(alloc: Global, plan: Plan) -> Result<usize, AllocError> {
    let parity = parities(alloc, plan)?;
    Ok(parity.iter().filter(|is_parity| !**is_parity).count())
}

// Works out the parity places of a block that holds its message.
pub(crate) fn complete(alloc: Global, plan: Plan, block: &mut [u8]) -> Result<(), AllocError> {
    let parity = parities(alloc, plan)?;
    let mut symbols: Vec<Option<u8>> = block
        .iter()
        .zip(&parity)
        .map(|(symbol, is_parity)| (!*is_parity).then_some(*symbol))
        .collect(alloc)?;
    settle(plan, &mut symbols);
    put_known(&symbols, block);
    Ok(())
}

// The codeword that carries the message.
pub(crate) fn encode(
    alloc: Global,
    plan: Plan,
    message: &[u8],
    block: &mut [u8],
) -> Result<(), AllocError> {
    let parity = parities(alloc, plan)?;
    let mut symbols = vec![in alloc; None; parity.len()]?;
    let mut message = message.iter();
    for (symbol, is_parity) in symbols.iter_mut().zip(&parity) {
        if !*is_parity {
            *symbol = message.next().copied();
        }
    }
    settle(plan, &mut symbols);
    put_known(&symbols, block);
    Ok(())
}

// Whether the block is a codeword: its message is then read.
pub(crate) fn read(
    alloc: Global,
    plan: Plan,
    block: &[u8],
    message: &mut [u8],
) -> Result<bool, AllocError> {
    let symbols: Vec<Option<u8>> = block.iter().map(|symbol| Some(*symbol)).collect(alloc)?;
    if !is_settled(plan, &symbols) {
        return Ok(false);
    }
    let parity = parities(alloc, plan)?;
    let carried = block
        .iter()
        .zip(&parity)
        .filter(|(_, is_parity)| !**is_parity);
    for (to, (symbol, _)) in message.iter_mut().zip(carried) {
        *to = *symbol;
    }
    Ok(true)
}
