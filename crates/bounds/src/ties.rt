// Each constant is the number of specs/Bounds.antt.
ghost use Rattle.std.specs.Prelude.{◌≡◌};
ghost use Rattle.bounds.specs.Bounds.{min_n, max_n, min_t, max_t, max_places};

use crate::{MAX_N, MAX_PLACES, MAX_T, MIN_N, MIN_T};

pub fn ties()
    ensures min_n { MIN_N ≡ min_n }
    ensures max_n { MAX_N ≡ max_n }
    ensures min_t { MIN_T ≡ min_t }
    ensures max_t { MAX_T ≡ max_t }
    ensures max_places { MAX_PLACES ≡ max_places }
{}
