// The rulers of table I of 002, from 3 to 14 sections.
// Public for the crates above only.
#![tactic(auto)]

ghost use Rattle.std.specs.Prelude.{◌≡◌, ◌≤◌};
ghost use Rattle.shifts.specs.Shifts.{padded};
ghost use Rattle.ruler.specs.Ruler.{ruler_min, ruler_max, ruler_t, ruler_shifts};

use shifts::copied;

pub const MIN_N: usize = 3;

pub const MAX_N: usize = 14;

// A row for each n from 3 on: t, the n shifts, zeros.
const RULERS: [[u16; 16]; 12] = [
    [7, 0, 1, 3, 0, 0, 0, 0, 0, 0, 0, 0, 0, 0, 0, 0],
    [13, 0, 1, 3, 9, 0, 0, 0, 0, 0, 0, 0, 0, 0, 0, 0],
    [21, 4, 0, 1, 14, 16, 0, 0, 0, 0, 0, 0, 0, 0, 0, 0],
    [31, 0, 1, 3, 8, 12, 18, 0, 0, 0, 0, 0, 0, 0, 0, 0],
    [48, 0, 1, 3, 15, 20, 38, 42, 0, 0, 0, 0, 0, 0, 0, 0],
    [57, 13, 36, 32, 1, 3, 43, 0, 52, 0, 0, 0, 0, 0, 0, 0],
    [73, 0, 1, 3, 7, 15, 31, 36, 54, 63, 0, 0, 0, 0, 0, 0],
    [91, 61, 77, 81, 49, 3, 9, 27, 56, 1, 0, 0, 0, 0, 0, 0],
    [120, 45, 58, 35, 114, 1, 20, 3, 74, 31, 0, 53, 0, 0, 0, 0],
    [133, 0, 1, 3, 12, 20, 38, 34, 81, 94, 88, 104, 109, 0, 0, 0],
    [
        168, 1, 0, 121, 108, 103, 30, 11, 162, 83, 46, 3, 34, 147, 0, 0,
    ],
    [
        183, 0, 1, 3, 16, 23, 28, 42, 76, 82, 86, 119, 137, 154, 175, 0,
    ],
];

pub fn t_of(n: usize) -> usize
    requires { (ruler_min ≤ n) × (n ≤ ruler_max) }
    ensures { result ≡ ruler_t n }
{
    usize::from(RULERS[n - MIN_N][0])
}

pub fn shifts_of(n: usize) -> [u16; 32]
    requires { (ruler_min ≤ n) × (n ≤ ruler_max) }
    ensures { result ≡ padded (ruler_shifts n) }
{
    copied(&RULERS[n - MIN_N][1..n + 1])
}
