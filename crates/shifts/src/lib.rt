// The shifts of a plan: the test that each is below t, the arrays of 32 that hold them, and the divisor g.
// Entry: gcd. The rest is public for the crates above only.
#![tactic(auto)]

ghost use Rattle.std.specs.Prelude.{◌≡◌, map, ◌+◌, ◌*◌, ◌^◌, ◌%◌, ◌<◌, ◌≤◌, length};
ghost use Rattle.math.specs.Members.{up_to};
ghost use Rattle.math.specs.Gcd.{gcd as gcdOf, gcd_all};
ghost use Rattle.bounds.specs.Bounds.{max_n, max_t, all_below};
ghost use Rattle.shifts.specs.Shifts.{padded, gaps};

// Refusal 2 is this test's false. A loop by index: of this form eight shifts are tested at a time, of `all` each alone.
pub fn all_below(s: &[u16], t: usize) -> bool
    ensures { result ≡ all_below t s.now }
{
    for i in 0..s.len() {
        if t <= usize::from(s[i]) {
            return false;
        }
    }
    true
}

pub fn copied(s: &[u16]) -> [u16; 32]
    requires { length s.now ≤ max_n }
    ensures { result ≡ padded s.now }
{
    let mut a = [0u16; 32];
    a[..s.len()].copy_from_slice(s);
    a
}

pub fn counting(n: usize) -> [u16; 32]
    requires { n ≤ max_n }
    ensures { result ≡ padded (up_to n) }
{
    let mut a = [0u16; 32];
    for i in 0..n {
        a[i] = i as u16;
    }
    a
}

// The powers of q, each made of the one before by a product of residues.
pub fn powers(n: usize, t: usize, q: usize) -> [u16; 32]
    requires { (n ≤ max_n) × (0 < t) × (t ≤ max_t) }
    ensures { result ≡ padded (map (λ j. q ^ j % t) (up_to n)) }
{
    let mut a = [0u16; 32];
    let base = q % t;
    let mut power = 1 % t;
    for i in 0..n {
        a[i] = power as u16;
        power = power * base % t;
    }
    a
}

// Euclid's remainders. The divisor of 0 and t is t.
pub fn gcd(a: usize, b: usize) -> usize
    ensures { result ≡ gcdOf a b }
{
    let mut x = a;
    let mut y = b;
    while y != 0 {
        let rest = x % y;
        x = y;
        y = rest;
    }
    x
}

// g of 01: the greatest common divisor of t and the differences to the first shift, taken from the last shift on. With no shift it is t.
pub fn divisor(t: usize, s: &[u16]) -> usize
    ensures { result ≡ gcd_all t (gaps s.now) }
{
    let first = s.first().copied().unwrap_or(0);
    s.iter()
        .rev()
        .fold(t, |g, p| gcd(usize::from(p.abs_diff(first)), g))
}
