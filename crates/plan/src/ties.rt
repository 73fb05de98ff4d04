// Each constant of `Plan` is the number that the crate bounds has for it.
// Public for the crates above only.
ghost use Rattle.std.specs.Prelude.{◌≡◌};
ghost use Rattle.bounds.specs.Bounds.{min_n, max_n, min_t, max_t, max_places};

use crate::Plan;

pub fn ties()
    ensures min_n { Plan.MIN_N ≡ min_n }
    ensures max_n { Plan.MAX_N ≡ max_n }
    ensures min_t { Plan.MIN_T ≡ min_t }
    ensures max_t { Plan.MAX_T ≡ max_t }
    ensures max_places { Plan.MAX_PLACES ≡ max_places }
{}
