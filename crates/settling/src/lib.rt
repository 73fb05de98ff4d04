// The erasure of a row settled, the settled values added to a block. Public for the crates above only; the module settle for the crates peel and rounding only.
#![tactic(auto)]

pub mod fill;
pub mod settle;
