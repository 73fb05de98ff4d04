// The state of a job over lent buffers: its symbols, and what refuses a command.
// Public for the crates above only.
#![tactic(auto)]

pub mod buffers;
pub mod refusing;
