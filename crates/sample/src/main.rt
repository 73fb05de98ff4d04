// The four results of document 01's example, by the library: loose, recovered, a symbol, crossed.
#![tactic(auto)]

use answers::Recovery;
use plan::Plan;
use std::io;

// A word, a number, and the numbers of a list.
fn line(rt: &impl Print, word: &str, number: usize, list: &[u16]) -> io::Result<()> {
    print!(rt; "{word} {number}")?;
    for x in list {
        print!(rt; " {x}")?;
    }
    println!(rt)
}

// The number of marked places.
fn marked(plan: Plan, marks: &[u8]) -> usize {
    calls::erasure_count(plan, marks).unwrap_or(0)
}

// One recovery and its line.
fn recovers(rt: &impl Print, plan: Plan, block: &mut [u8], marks: &[u8]) -> io::Result<()> {
    let mut witness = [0u16; 14];
    match recovery::recover(plan, block, marks, &mut witness) {
        Recovery::Recovered => line(rt, "recovered", marked(plan, marks), &[]),
        Recovery::Loose(z) => line(rt, "loose", z, &witness[..z.min(14)]),
        Recovery::Crossed(z) => line(rt, "crossed", z, &witness[..z.min(14)]),
        Recovery::Refused(_) => println!(rt; "refused"),
    }
}

fn main(rt: HostRuntime) -> io::Result<()> {
    let Ok(plan) = Plan::of(3, 7, &[0, 1, 3]) else {
        return println!(rt; "refused");
    };
    let mut block = [0u8; 21];
    // Places 0, 7, 16, 2, 10 and 17 are marked.
    recovers(&rt, plan, &mut block, &[133, 4, 3])?;
    // Symbol 0 is 5 and no longer marked.
    block[0] = 5;
    recovers(&rt, plan, &mut block, &[132, 4, 3])?;
    let symbol = block[17];
    println!(rt; "symbol 17 {symbol}")?;
    // Symbol 0 is 6, and nothing is marked.
    block[0] = 6;
    recovers(&rt, plan, &mut block, &[0, 0, 0])
}
