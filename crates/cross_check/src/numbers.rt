// Quotients that have a value for every divisor, since the t of a plan may be 0; and the low bits of a number, which `as`
// is proved not to cut off.

// a / b, and 0 where b is 0.
pub(crate) fn quotient(a: usize, b: usize) -> usize {
    a.checked_div(b).unwrap_or(0)
}

// a mod b, and 0 where b is 0.
pub(crate) fn remainder(a: usize, b: usize) -> usize {
    a.checked_rem(b).unwrap_or(0)
}

// The lowest 8 bits.
pub(crate) fn low8(x: usize) -> u8 {
    (x % 256) as u8
}

// The lowest 16 bits.
pub(crate) fn low16(x: usize) -> u16 {
    (x % 65536) as u16
}
