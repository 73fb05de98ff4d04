// Numbers that a seed gives. The same seed gives the same numbers on every machine.
use crate::numbers::{low8, low16, remainder};

// Marsaglia's xorshift with 13, 7 and 17.
fn next(x: u64) -> u64 {
    let a = x ^ (x << 13);
    let b = a ^ (a >> 7);
    b ^ (b << 17)
}

// A seed of a seed and a number.
pub(crate) fn seeded(seed: u64, k: u64) -> u64 {
    let x = next((seed << 1) | 1).wrapping_add(next((k << 1) | 1));
    next(next(next(x | 1)))
}

// The k-th number of a seed, below n; 0 where n is 0.
pub(crate) fn pick(seed: u64, k: u64, n: usize) -> usize {
    remainder((seeded(seed, k) >> 24) as usize, n)
}

// The numbers of a seed, one after the other and without an end.
#[derive(Drop)]
pub(crate) struct Numbers {
    state: u64,
}

impl Numbers {
    pub(crate) fn new(seed: u64) -> Numbers {
        Numbers { state: seed | 1 }
    }
}

impl Iterator for Numbers {
    type Item = usize;

    fn next(&mut self) -> Option<usize> {
        self.state = next(self.state);
        Some((self.state >> 24) as usize)
    }
}

// Every byte becomes a random one.
pub(crate) fn fill8(bytes: &mut [u8], seed: u64) {
    for (byte, x) in bytes.iter_mut().zip(Numbers::new(seed)) {
        *byte = low8(x);
    }
}

// Every entry becomes a random one.
pub(crate) fn fill16(entries: &mut [u16], seed: u64) {
    for (entry, x) in entries.iter_mut().zip(Numbers::new(seed)) {
        *entry = low16(x);
    }
}
