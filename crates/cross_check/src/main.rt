// The library beside a second, naive implementation, on the cases that document 01 names and on seeded ones.
// Writes the number of cases of each outcome and refusal, and the number of those in which the two differ.
#![tactic(auto)]

mod marks;
mod numbers;
mod random;
mod second;
mod tally;
mod tries;

use std::io;
use tally::Tally;
use tries::{fixed, seeded};

fn main(rt: HostRuntime) -> io::Result<()> {
    let mut tally = Tally::new();
    fixed::all(rt.alloc(), &mut tally)?;
    seeded::all(rt.alloc(), &mut tally)?;
    print!(rt; "{tally}")
}
