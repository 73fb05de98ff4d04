// The sums of all rows of a block: of the top rows up to eight sections at a time, of the bottom rows up to two.
// Public for the crates above only.
#![tactic(auto)]

ghost use Rattle.std.specs.Prelude.{◌≡◌, ◌*◌, ◌≤◌, ◌<◌, length, replicate};
ghost use Rattle.plan.specs.GoodPlan.{GoodPlan};
ghost use Rattle.sums.specs.SumLaws.{Xored, with_two, added, straight, turned, turned_by, turned_two, Taken, Turns, Syndromes};
ghost use Rattle.tables.specs.Sweeps.{Mapped};

// Adds src to dst, symbol by symbol.
fn xor_into(dst: &mut [u8], src: &[u8])
    requires { length src.now ≡ length dst.old }
    ensures { Xored dst.old src.now dst.new }
{
    for i in 0..dst.len() {
        dst[i] ^= src[i];
    }
}

// Adds K sections that follow on each other to the sums of the top rows: one load and one store of a sum for K symbols.
fn add_some<const K: usize>(t: usize, sections: &[u8], top: &mut [u8])
    requires { (K * t ≤ length sections.now) × (length top.old ≡ t) }
    ensures { Mapped (added (straight t sections.now) K) top.old top.new }
{
    for i in 0..t {
        let mut sum = top[i];
        for k in 0..K {
            sum ^= sections[k * t + i];
        }
        top[i] = sum;
    }
}

// Adds the next of the sections that are left to the sums of the top rows: eight, three or one. Gives back how many.
fn add_next(left: usize, t: usize, rest: &[u8], top: &mut [u8]) -> usize
    requires { (0 < left) × (left * t ≤ length rest.now) × (length top.old ≡ t) }
    ensures { Taken left t rest.now top.old result top.new }
{
    if 8 <= left {
        add_some::<8>(t, rest, top);
        return 8;
    }
    if 3 <= left {
        add_some::<3>(t, rest, top);
        return 3;
    }
    add_some::<1>(t, rest, top);
    1
}

// Adds all sections to the sums of the top rows. No `for`: add_next says how far it came.
fn add_tops(n: usize, t: usize, block: &[u8], top: &mut [u8])
    requires { (length block.now ≡ n * t) × (length top.old ≡ t) }
    ensures { Mapped (added (straight t block.now) n) top.old top.new }
{
    let mut j = 0;
    let mut a = 0;
    while j < n {
        let k = add_next(n - j, t, &block[a..], &mut top[..]);
        a += k * t;
        j += k;
    }
}

// Adds a and b to dst, symbol by symbol.
fn xor_two(dst: &mut [u8], a: &[u8], b: &[u8])
    requires { (length a.now ≡ length dst.old) × (length b.now ≡ length dst.old) }
    ensures { Mapped (with_two a.now b.now) dst.old dst.new }
{
    for i in 0..dst.len() {
        dst[i] ^= a[i] ^ b[i];
    }
}

// Adds two sections, turned by their shifts p and q, to the sums of the bottom rows, where p is not above q:
// three parts, since first b begins anew, then a.
fn add_ordered(t: usize, p: usize, q: usize, a: &[u8], b: &[u8], bottom: &mut [u8])
    requires { (p ≤ q) × (q < t) × (length a.now ≡ t) × (length b.now ≡ t) × (length bottom.old ≡ t) }
    ensures { Mapped (turned_two t p q a.now b.now) bottom.old bottom.new }
{
    let first = t - q;
    let second = t - p;
    let d = q - p;
    let k = t - d;
    xor_two(&mut bottom[0..first], &a[p..k], &b[q..t]);
    xor_two(&mut bottom[first..second], &a[k..t], &b[0..d]);
    xor_two(&mut bottom[second..t], &a[0..p], &b[d..q]);
}

// The same in either order of the shifts.
fn add_two(t: usize, p: usize, q: usize, a: &[u8], b: &[u8], bottom: &mut [u8])
    requires { (p < t) × (q < t) × (length a.now ≡ t) × (length b.now ≡ t) × (length bottom.old ≡ t) }
    ensures { Mapped (turned_two t p q a.now b.now) bottom.old bottom.new }
{
    if p <= q {
        add_ordered(t, p, q, a, b, &mut bottom[..]);
        return;
    }
    add_ordered(t, q, p, b, a, &mut bottom[..]);
}

// Adds one section, turned by its shift p.
fn add_turned(t: usize, p: usize, section: &[u8], bottom: &mut [u8])
    requires { (p < t) × (length section.now ≡ t) × (length bottom.old ≡ t) }
    ensures { Mapped (turned_by t p section.now) bottom.old bottom.new }
{
    let cut = t - p;
    xor_into(&mut bottom[0..cut], &section[p..t]);
    xor_into(&mut bottom[cut..t], &section[0..p]);
}

// Sections from this length on are added to the bottom rows two at a time: the three parts of a shorter pair are too short to gain by it.
const LONG: usize = 256;

// Adds the next sections from section j on, which begins at place a, turned by their shifts: two or one. Gives back how many.
fn add_turns(
    n: usize,
    t: usize,
    shifts: &[u16],
    block: &[u8],
    j: usize,
    a: usize,
    bottom: &mut [u8],
) -> usize
    requires good_plan { GoodPlan n t shifts.now × (length block.now ≡ n * t) × (length bottom.old ≡ t) }
    requires j_lt_n { (j < n) × (a ≡ j * t) }
    ensures { Turns n t shifts.now block.now j bottom.old result bottom.new }
{
    let p = shifts[j] as usize;
    let b = a + t;
    if LONG <= t {
        if j + 1 < n {
            let q = shifts[j + 1] as usize;
            let end = b + t;
            add_two(t, p, q, &block[a..b], &block[b..end], &mut bottom[..]);
            return 2;
        }
    }
    add_turned(t, p, &block[a..b], &mut bottom[..]);
    1
}

// Adds all sections to the sums of the bottom rows. No `for`: add_turns says how far it came.
fn add_bottoms(n: usize, t: usize, shifts: &[u16], block: &[u8], bottom: &mut [u8])
    requires { GoodPlan n t shifts.now × (length block.now ≡ n * t) × (length bottom.old ≡ t) }
    ensures { Mapped (added (turned t shifts.now block.now) n) bottom.old bottom.new }
{
    let mut j = 0;
    let mut a = 0;
    while j < n {
        let k = add_turns(n, t, shifts, block, j, a, &mut bottom[..]);
        a += k * t;
        j += k;
    }
}

// The row sums of the block, into a table of zeros.
pub fn syndromes(n: usize, t: usize, shifts: &[u16], block: &[u8], sum: &mut [u8])
    requires { GoodPlan n t shifts.now × (length block.now ≡ n * t) × (sum.old ≡ replicate (2 * t) 0) }
    ensures { Syndromes n t shifts.now block.now sum.new }
{
    let end = 2 * t;
    add_tops(n, t, block, &mut sum[0..t]);
    add_bottoms(n, t, shifts, block, &mut sum[t..end]);
}
