// What two sections share is the greatest common divisor of t and the difference of their shifts. The most that is shared,
// over all pairs and over the neighbours, gives the two figures.
// Public for the crates above only.
#![tactic(auto)]

ghost use Rattle.std.specs.Prelude.{◌≡◌, ◌-◌, ◌*◌, ◌/◌, ◌≤◌, ◌<◌, length};
ghost use Rattle.bounds.specs.Bounds.{max_t};
ghost use Rattle.plan.specs.Layout.{layout};
ghost use Rattle.code.specs.Figures.{Neighbours};
ghost use Rattle.divisors.specs.Divisors.{sharing, Most, Row, Ordered, Near, NeighbourOf};

use shifts::gcd;

// gcd(p_i - p_j, t)
fn share(t: usize, s: &[u16], i: usize, j: usize) -> usize
    requires { (i < length s.now) × (j < length s.now) }
    ensures { result ≡ sharing t s.now i j }
{
    gcd(usize::from(s[i]).abs_diff(usize::from(s[j])), t)
}

// Over the pairs of section i with a section before it.
fn of_row(t: usize, s: &[u16], i: usize) -> usize
    requires { i < length s.now }
    ensures { Most t s.now (Row i i) result }
{
    let mut g: usize = 0;
    for j in 0..i {
        g = g.max(share(t, s, j, i));
    }
    g
}

// Over all pairs, each taken once.
pub fn of_pairs(n: usize, t: usize, s: &[u16]) -> usize
    requires { n ≤ length s.now }
    ensures { Most t s.now (Ordered n) result }
{
    let mut g: usize = 0;
    for i in 0..n {
        g = g.max(of_row(t, s, i));
    }
    g
}

// The choice of neighbours: the section that comes after j around the drum, if there is one.
fn neighbour_of(n: usize, j: usize) -> Option<usize>
    requires { j < n }
    ensures { NeighbourOf n j result }
{
    let next = j + 1;
    if next < n {
        return Some(next);
    }
    if n < 3 {
        return None;
    }
    Some(0)
}

// Over section j and its neighbour; 0 where it has none.
fn of_near(n: usize, t: usize, s: &[u16], j: usize) -> usize
    requires { (j < n) × (n ≤ length s.now) }
    ensures { Most t s.now (Near n t s.now j) result }
{
    match neighbour_of(n, j) {
        Some(k) => share(t, s, j, k),
        None => 0,
    }
}

// Over all neighbours.
pub fn of_neighbours(n: usize, t: usize, s: &[u16]) -> usize
    requires { n ≤ length s.now }
    ensures { Most t s.now (Neighbours (layout n t s.now)) result }
{
    let mut g: usize = 0;
    for j in 0..n {
        g = g.max(of_near(n, t, s, j));
    }
    g
}

// The figure of the greatest divisor g.
pub fn figure(t: usize, g: usize) -> usize
    requires { (0 < g) × (g ≤ t) × (t ≤ max_t) }
    ensures { result ≡ 2 * t / g - 1 }
{
    2 * t / g - 1
}
