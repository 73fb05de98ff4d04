// A number's decimal digits.
ghost use Rattle.std.specs.Prelude.{◌≡◌, List, ◌++◌, ℕ, ◌+◌, ◌/◌, ◌≤◌, ◌<◌, length, take, drop};
ghost use Rattle.io.specs.Digits.{last_digits};
ghost use Rattle.pieces.specs.Pieces.{width_from, decimal, Appends};
ghost use Rattle.pieces.specs.ShortLaws.{Leading};

// A number below 100,000, with no branch on its width: a branch that cannot be guessed costs more than a digit.
pub fn put_short(line: &mut [u8], from: usize, n: u64) -> usize
    requires n_bound { n < 100000 }
    requires n_in_bounds { from + length (decimal n) ≤ length line.old }
    ensures { Appends line.old from (decimal n) line.new result }
{
    let tens = n / 10;
    let hundreds = n / 100;
    let thousands = n / 1000;
    let myriads = n / 10000;
    let a = put_digit(line, from, 0, myriads);
    let b = put_digit(line, a, myriads, thousands);
    let c = put_digit(line, b, thousands, hundreds);
    let d = put_digit(line, c, hundreds, tens);
    line[d] = b'0' + (n - 10 * tens) as u8;
    d + 1
}

// The last digit of q, where the digits of its tens stand before the index. A leading zero is put too, but not passed: the next digit is put over it.
fn put_digit(line: &mut [u8], at: usize, tens: u64, q: u64) -> usize
    requires tens_value { (tens ≡ q / 10) × (q < 100000) }
    requires at_in_bounds { at < length line.old }
    ensures { (l : List ℕ) (from : ℕ) → Leading l from tens line.old at → Leading l from q line.new result }
{
    line[at] = b'0' + (q - 10 * tens) as u8;
    if 0 < q {
        return at + 1;
    }
    at
}

// A number of any size: its width first.
pub fn put_long(line: &mut [u8], from: usize, n: u64) -> usize
    requires { from + length (decimal n) ≤ length line.old }
    ensures { Appends line.old from (decimal n) line.new result }
{
    let k = width(n);
    spell(line, from, k, n);
    from + k
}

// The number of decimal digits, by powers of ten: no division.
fn width(n: u64) -> usize
    ensures value { result ≡ width_from 20 1 n }
    ensures upper_bound { result ≤ 20 }
{
    let mut power: u64 = 10;
    for k in 1..19 {
        if n < power {
            return k;
        }
        power *= 10;
    }
    if n < power {
        return 19;
    }
    20
}

// The last k digits, from the last to the first; what stands past them is kept.
fn spell(line: &mut [u8], at: usize, k: usize, n: u64)
    requires { at + k ≤ length line.old }
    ensures line_after { take (at + k) line.new ≡ take at line.old ++ last_digits 10 k n }
    ensures line_unchanged { drop (at + k) line.new ≡ drop (at + k) line.old }
{
    let mut rest = n;
    for i in (0..k).rev() {
        line[at + i] = b'0' + (rest % 10) as u8;
        rest /= 10;
    }
}
