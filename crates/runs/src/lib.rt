// The runs of message places: of each section the number of its first places that carry the message.
// Public for the crates above only.
#![tactic(auto)]

ghost use Rattle.std.specs.Prelude.{◌≡◌, ◌+◌, ◌*◌, ◌/◌, ◌≤◌, map, length, get_or, replicate};
ghost use Rattle.math.specs.Gcd.{gcd as gcdOf};
ghost use Rattle.code.specs.Laws.ParityCount.{messages};
ghost use Rattle.plan.specs.Layout.{Layout, layout};
ghost use Rattle.plan.specs.GoodPlan.{GoodPlan};
ghost use Rattle.runs.specs.Runs.{RunsOf, Runs, Lent, Full, Spread};

use shifts::gcd;

// From the last section down, with the divisor of the differences so far; into zeros.
pub fn runs(n: usize, t: usize, shifts: &[u16], r: &mut [u16])
    requires { GoodPlan n t shifts.now × (r.old ≡ replicate 32 0) }
    ensures { RunsOf n t (layout n t shifts.now) r.new }
{
    let last = usize::from(shifts[n - 1]);
    let mut g = t;
    for j in (0..n - 1).rev() {
        let h = share(usize::from(shifts[j]).abs_diff(last), g);
        r[j] = (t - g + h) as u16;
        g = h;
    }
}

// The greatest common divisor, with no division once g is 1: it then stays 1.
fn share(a: usize, g: usize) -> usize
    ensures { result ≡ gcdOf a g }
{
    if g == 1 {
        return 1;
    }
    gcd(a, g)
}

// The number of sections, from the first on, that carry the message in all their places.
fn full(n: usize, t: usize, runs: &[u16]) -> usize
    requires { n ≤ length runs.now }
    ensures { Full n t runs.now result }
{
    for j in 0..n {
        if usize::from(runs[j]) != t {
            return j;
        }
    }
    n
}

// A loop: `copy_from_slice` would have a C caller's archive ask for `memmove`.
fn copy_bytes(into: &mut [u8], from: &[u8])
    requires { length from.now ≡ length into.old }
    ensures { into.new ≡ from.now }
{
    for i in 0..into.len() {
        into[i] = from[i];
    }
}

// The message of a block. Full sections follow on each other in both, so they are copied at once.
pub fn gather(n: usize, t: usize, runs: &[u16], block: &[u8], message: &mut [u8])
    requires { Lent n t runs.now block.now message.old }
    ensures { (L : Layout) → RunsOf n t L runs.now → message.new ≡ map (λ c. get_or block.now c 0) (messages L) }
{
    let whole = full(n, t, runs);
    let mut done = whole * t;
    copy_bytes(&mut message[..done], &block[..done]);
    for j in whole..n {
        let run = usize::from(runs[j]);
        let from = j * t;
        let end = from + run;
        let next = done + run;
        copy_bytes(&mut message[done..next], &block[from..end]);
        done = next;
    }
}

// The message at its places of a block, and 0 at the parity places.
pub fn spread(n: usize, t: usize, runs: &[u16], message: &[u8], block: &mut [u8])
    requires { Lent n t runs.now block.old message.now }
    ensures { (L : Layout) → RunsOf n t L runs.now → Spread L message.now block.new }
{
    let whole = full(n, t, runs);
    let mut done = whole * t;
    copy_bytes(&mut block[..done], &message[..done]);
    for j in whole..n {
        let run = usize::from(runs[j]);
        let from = j * t;
        let end = from + run;
        let next = done + run;
        let stop = from + t;
        copy_bytes(&mut block[from..end], &message[done..next]);
        block[end..stop].fill(0);
        done = next;
    }
}
