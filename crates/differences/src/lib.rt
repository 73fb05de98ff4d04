// The ruler rule: all differences p_i - p_j mod t of two sections are distinct. A mark for each difference that was met.
// Public for the crates above only.
#![tactic(auto)]

ghost use Rattle.std.specs.Prelude.{◌≡◌, ◌≤◌, ◌<◌, length};
ghost use Rattle.plan.specs.GoodPlan.{GoodPlan};
ghost use Rattle.differences.specs.Sections.{TwoOf};
ghost use Rattle.differences.specs.Differences.{difference_of, Marked, Fresh, RowDone, KeepsRule};

use plan::Plan;

// (p_i - p_j) mod t, without a division: p_i + t - p_j is below 2t.
fn difference(t: usize, s: &[u16], i: usize, j: usize) -> usize
    requires { TwoOf t s.now i j }
    ensures { (result ≡ difference_of t s.now i j) × (result < t) }
{
    let p = usize::from(s[i]);
    let q = usize::from(s[j]);
    if p < q {
        return p + t - q;
    }
    p - q
}

// Marks the difference of sections i and j; false where it was met before.
fn mark(t: usize, s: &[u16], i: usize, j: usize, marks: &mut [u8]) -> bool
    requires { TwoOf t s.now i j × (t ≤ length marks.old) }
    ensures { Fresh t s.now i j marks.old marks.new result }
{
    if i == j {
        return true;
    }
    let d = difference(t, s, i, j);
    if marks[d] != 0 {
        return false;
    }
    marks[d] = 1;
    true
}

// Marks the differences of section i to all others; false where one was met before.
fn mark_row(n: usize, t: usize, s: &[u16], i: usize, marks: &mut [u8]) -> bool
    requires { GoodPlan n t s.now × (i < n) × Marked n t s.now i 0 marks.old }
    ensures { RowDone n t s.now i marks.new result }
{
    for j in 0..n {
        if !mark(t, s, i, j, marks) {
            return false;
        }
    }
    true
}

// Whether the plan keeps the ruler rule.
pub fn all_distinct(n: usize, t: usize, s: &[u16]) -> bool
    requires { GoodPlan n t s.now }
    ensures { KeepsRule n t s.now result }
{
    let mut marks = [0u8; Plan::MAX_T];
    for i in 0..n {
        if !mark_row(n, t, s, i, &mut marks) {
            return false;
        }
    }
    true
}
