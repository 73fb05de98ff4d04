// The components of the rows under the marked places, the highest place that closes a cycle, and the first component that does not sum to 0.
// Public for the crates above only.
#![tactic(auto)]

pub mod parents;
pub mod sums;
pub mod walk;
