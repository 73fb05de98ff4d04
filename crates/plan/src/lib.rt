// A plan: n sections of t symbols, each section with its shift. What refuses a plan, and the families of plans.
// Entries: Plan::check, Plan::raw, Plan::none, Plan::with_shift, Plan::of, Plan::blank, Plan::straight, Plan::powers, Plan::ruler,
// Plan::message_count. The module ties and message_places are public for the crates above only.
#![tactic(auto)]

ghost use Rattle.std.specs.Prelude.{◌≡◌, List, ℕ};
ghost use Rattle.refusals.specs.Refusals.{check_number, count_value};
ghost use Rattle.shifts.specs.Shifts.{padded};
ghost use Rattle.plan.specs.Layout.{layout, message_count};
ghost use Rattle.plan.specs.GoodPlan.{GoodPlan};
ghost use Rattle.plan.specs.Plans as plans;
ghost use Rattle.plan.specs.Plans.{raw_plan, no_plan, with_shift, shifts_check, plan_check, plan_of, blank_of, straight_of, powers_of, ruler_of, message_count_of};

use refusals::Refusal;

pub mod ties;

// The shifts past the first n influence nothing. C's layout: the C entry points take it by value.
#[repr(C)]
#[derive(Clone, Copy)]
pub struct Plan {
    pub n: usize,
    pub t: usize,
    pub shifts: [u16; 32],
}

// 01: a place number and a row number are never used one for the other.
#[derive(Clone, Copy, PartialEq, Eq, PartialOrd, Ord)]
pub struct Place(pub u16);

#[derive(Clone, Copy, PartialEq, Eq, PartialOrd, Ord)]
pub struct Row(pub u16);

impl Plan {
    pub const MIN_N: usize = bounds::MIN_N;

    pub const MAX_N: usize = bounds::MAX_N;

    pub const MIN_T: usize = bounds::MIN_T;

    pub const MAX_T: usize = bounds::MAX_T;

    pub const MAX_PLACES: usize = bounds::MAX_PLACES;

    // The record of these fields: every record of a plan is built here. Nothing is tested.
    pub fn raw(n: usize, t: usize, shifts: [u16; 32]) -> Plan
        ensures { result ≡ raw_plan n t shifts }
    {
        Plan { n, t, shifts }
    }

    // No plan: what C is given beside a refusal.
    pub fn none() -> Plan
        ensures { result ≡ no_plan }
    {
        Plan::raw(0, 0, [0; 32])
    }

    // p for the shift of section j; a section that no plan has changes nothing.
    pub fn with_shift(self, j: usize, p: u16) -> Plan
        ensures { result ≡ with_shift self j p }
    {
        if 32 <= j {
            return self;
        }
        let mut s = self.shifts;
        s[j] = p;
        Plan::raw(self.n, self.t, s)
    }

    // What refuses a plan: 1, then 2.
    pub fn check(self) -> Result<(), Refusal>
        ensures { result ≡ plan_check self }
    {
        let n = self.n;
        let t = self.t;
        let s = self.shifts;
        if bounds::size_fits(n, t) {
            check_shifts(n, t, &s[..n])
        } else {
            Err(Refusal::Size)
        }
    }

    pub fn of(n: usize, t: usize, shifts: &[u16]) -> Result<Plan, Refusal>
        ensures { result ≡ plan_of n t shifts.now }
    {
        if !bounds::size_fits(n, t) {
            return Err(Refusal::Size);
        }
        check_shifts(n, t, shifts)?;
        Ok(good(n, t, shifts::copied(shifts)))
    }

    // All shifts 0.
    pub fn blank(n: usize, t: usize) -> Result<Plan, Refusal>
        ensures { result ≡ blank_of n t }
    {
        if !bounds::size_fits(n, t) {
            return Err(Refusal::Size);
        }
        Ok(good(n, t, [0; 32]))
    }

    pub fn straight(n: usize, t: usize) -> Result<Plan, Refusal>
        ensures { result ≡ straight_of n t }
    {
        if !bounds::size_fits(n, t) {
            return Err(Refusal::Size);
        }
        if t < n {
            return Err(Refusal::Family);
        }
        Ok(good(n, t, shifts::counting(n)))
    }

    pub fn powers(n: usize, t: usize, q: usize) -> Result<Plan, Refusal>
        ensures { result ≡ powers_of n t q }
    {
        if !bounds::size_fits(n, t) {
            return Err(Refusal::Size);
        }
        if !families::powers_need(n, t, q) {
            return Err(Refusal::Family);
        }
        Ok(good(n, t, shifts::powers(n, t, q)))
    }

    // The size is judged by n alone.
    pub fn ruler(n: usize) -> Result<Plan, Refusal>
        ensures { result ≡ ruler_of n }
    {
        if n < Plan::MIN_N {
            return Err(Refusal::Size);
        }
        if Plan::MAX_N < n {
            return Err(Refusal::Size);
        }
        if n < ruler::MIN_N {
            return Err(Refusal::Family);
        }
        if ruler::MAX_N < n {
            return Err(Refusal::Family);
        }
        Ok(good(n, ruler::t_of(n), ruler::shifts_of(n)))
    }

    pub fn message_count(self) -> Result<usize, Refusal>
        ensures value { result ≡ message_count_of self }
        ensures result_value { check_number result ≡ check_number (plan_check self) }
    {
        let s = self.shifts;
        self.check()?;
        Ok(message_places(self.n, self.t, &s[..]))
    }
}

// The number of message places of a good plan: n × t less the 2t - g check places. Public for the crates above only.
pub fn message_places(n: usize, t: usize, shifts: &[u16]) -> usize
    requires { GoodPlan n t shifts.now }
    ensures { result ≡ message_count (layout n t shifts.now) }
{
    let g = shifts::divisor(t, &shifts[..n]);
    n * t - (2 * t - g)
}

// 2: not n shifts, or one is t or more.
fn check_shifts(n: usize, t: usize, shifts: &[u16]) -> Result<(), Refusal>
    ensures { result ≡ shifts_check n t shifts.now }
{
    if shifts.len() != n {
        return Err(Refusal::Shift);
    }
    if !shifts::all_below(shifts, t) {
        return Err(Refusal::Shift);
    }
    Ok(())
}

// The plan of the shifts that the array holds before its zeros.
fn good(n: usize, t: usize, shifts: [u16; 32]) -> Plan
    ensures { (s : List ℕ) → shifts ≡ padded s → result ≡ plans.plan n t s }
{
    Plan::raw(n, t, shifts)
}
