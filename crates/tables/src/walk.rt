// A place with its section and offset, and the section that a scan over the places has come to: no division by t.
ghost use Rattle.std.specs.Prelude.{◌≡◌, ◌+◌, ◌-◌, ◌*◌, ◌≤◌, ◌<◌, min, get_or};
ghost use Rattle.plan.specs.GoodPlan.{GoodPlan};
ghost use Rattle.tables.specs.Spots.{Reached};
ghost use Rattle.tables.specs.Stretches.{Stretch};

use plan::Place;

#[derive(Clone, Copy)]
pub struct Spot {
    pub place: Place,
    pub section: usize,
    pub offset: usize,
}

// A section: its number, its first place, the place after its last, and its shift.
#[derive(Clone, Copy)]
pub struct Section {
    pub index: usize,
    pub begin: usize,
    pub end: usize,
    pub shift: usize,
}

impl Section {
    // Section 0.
    pub fn start(n: usize, t: usize, shifts: &[u16]) -> Section
        requires { GoodPlan n t shifts.now }
        ensures { Reached n t shifts.now 0 result.index result.begin result.end result.shift }
    {
        Section {
            index: 0,
            begin: 0,
            end: t,
            shift: usize::from(shifts[0]),
        }
    }

    // The section of place c, which is this one or a later one: nearly always this one.
    pub fn reach(self, n: usize, t: usize, shifts: &[u16], c: Place) -> Section
        requires { GoodPlan n t shifts.now × Reached n t shifts.now c.0 self.index self.begin self.end self.shift × (c.0 < n * t) }
        ensures { Reached n t shifts.now c.0 result.index result.begin result.end result.shift × (c.0 < result.end) }
    {
        let place = usize::from(c.0);
        if place < self.end {
            return self;
        }
        // Step by step, hardly ever more than one: a division by t costs more.
        let mut index = self.index;
        let mut end = self.end;
        while end <= place {
            index += 1;
            end += t;
        }
        Section {
            index,
            begin: end - t,
            end,
            shift: usize::from(shifts[index]),
        }
    }

    // The number of places from c on whose bottom rows follow on each other, before this section's end and before `end`.
    pub(crate) fn stretch(self, n: usize, t: usize, shifts: &[u16], c: Place, end: usize) -> usize
        requires { GoodPlan n t shifts.now × Reached n t shifts.now c.0 self.index self.begin self.end self.shift × (c.0 < self.end) × (c.0 < end) }
        ensures { Stretch t self.shift (c.0 - self.begin) result × (0 < result) × (c.0 + result ≤ end) }
    {
        let place = usize::from(c.0);
        let k = place - self.begin;
        let m = self.end.min(end) - place;
        if k < self.shift {
            return m.min(self.shift - k);
        }
        m
    }
}
