// The mark bits of a buffer. Single places and runs: marks; a run set by one word: short; words of 64: words. Public for the crates above only.
// Stretches of places counted and tested: the crate stretches.
#![tactic(auto)]

pub mod marks;
pub mod short;
pub mod words;
