// Whole slices of bytes and of 16-bit words, tested for zeros.
// Public for the crates above only.
#![tactic(auto)]

ghost use Rattle.std.specs.Prelude.{◌≡◌};
ghost use Rattle.slices.specs.Zeros.{all_zero};

// Whether every byte is 0. No early return: of this form the loop is made into one over many bytes at a time.
#[tactic(auto, using(crate::specs::Zeros::or_all_zero))]
pub fn zero_bytes(l: &[u8]) -> bool
    ensures { result ≡ all_zero l.now }
{
    l.iter().fold(0, |any, x| any | *x) == 0
}

// The same of words. One function for both would need a trait whose laws are longer than this line.
#[tactic(auto, using(crate::specs::Zeros::or_all_zero))]
pub fn zero_words(l: &[u16]) -> bool
    ensures { result ≡ all_zero l.now }
{
    l.iter().fold(0, |any, x| any | *x) == 0
}
