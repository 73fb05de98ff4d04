// Single commands of a job on the lent state, a function for each. The command is not refused.
// Public for the crates above only.
#![tactic(auto)]

ghost use Rattle.std.specs.Prelude.{◌≡◌};
ghost use Rattle.act.specs.Acts.{block_length, marks_length};

use plan::Plan;

pub mod plans;
pub mod symbols;

// The lengths of the buffers: the largest block, and its marks.
pub const BLOCK: usize = Plan::MAX_PLACES;

pub const MARKS: usize = Plan::MAX_PLACES / 8;

pub fn block_length() -> usize
    ensures value { result ≡ block_length }
    ensures value_2 { result ≡ BLOCK }
{
    BLOCK
}

pub fn marks_length() -> usize
    ensures value { result ≡ marks_length }
    ensures value_2 { result ≡ MARKS }
{
    MARKS
}
