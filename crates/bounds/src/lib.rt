// The bounds of a plan, and the test of n, t and n × t. `Plan` has them as constants of its own, made of these.
// Public for the crates above only.
#![tactic(auto)]

ghost use Rattle.std.specs.Prelude.{◌≡◌};
ghost use Rattle.bounds.specs.Bounds.{size_fits};

pub mod ties;

pub const MIN_N: usize = 2;

pub const MAX_N: usize = 32;

pub const MIN_T: usize = 1;

pub const MAX_T: usize = 2048;

pub const MAX_PLACES: usize = 32768;

// Refusal 1 is this test's false. The product is formed only where n and t are small.
#[tactic(auto, unfolding(crate::specs::Bounds::size_fits))]
pub fn size_fits(n: usize, t: usize) -> bool
    ensures { result ≡ size_fits n t }
{
    (MIN_N..=MAX_N).contains(&n) && (MIN_T..=MAX_T).contains(&t) && n * t <= MAX_PLACES
}
