// What a case came to, and how many cases came to it.
use crate::second::outcomes::Recovered;
use crate::second::refusing::Refused;
use std::fmt;

#[derive(Clone, Copy, PartialEq, Eq)]
pub(crate) enum Outcome {
    Recovered,
    Loose,
    Crossed,
    Counted,
    Sealed,
    Read,
    ReadCrossed,
    Figures,
    Planned,
    Size,
    Shift,
    Length,
    Spare,
    Family,
    Ended,
    Waiting,
    Fetched,
    Mismatch,
}

impl Outcome {
    const ALL: [Outcome; 18] = [
        Outcome::Recovered,
        Outcome::Loose,
        Outcome::Crossed,
        Outcome::Counted,
        Outcome::Sealed,
        Outcome::Read,
        Outcome::ReadCrossed,
        Outcome::Figures,
        Outcome::Planned,
        Outcome::Size,
        Outcome::Shift,
        Outcome::Length,
        Outcome::Spare,
        Outcome::Family,
        Outcome::Ended,
        Outcome::Waiting,
        Outcome::Fetched,
        Outcome::Mismatch,
    ];

    // This outcome where the two implementations are the same, else a mismatch.
    pub(crate) fn judged(self, same: bool) -> Outcome {
        if same { self } else { Outcome::Mismatch }
    }

    // This outcome, where it is the one that it must be.
    pub(crate) fn must_be(self, known: Outcome) -> Outcome {
        self.judged(self == known)
    }
}

impl From<Refused> for Outcome {
    fn from(refused: Refused) -> Outcome {
        match refused {
            Refused::Size => Outcome::Size,
            Refused::Shift => Outcome::Shift,
            Refused::Length => Outcome::Length,
            Refused::Spare => Outcome::Spare,
            Refused::Family => Outcome::Family,
        }
    }
}

// What a call with a list came to, and the count that goes with the list.
#[derive(Clone, Copy, PartialEq, Eq)]
pub(crate) struct Answer {
    pub(crate) outcome: Outcome,
    pub(crate) count: usize,
}

impl From<Refused> for Answer {
    fn from(refused: Refused) -> Answer {
        Answer {
            outcome: Outcome::from(refused),
            count: 0,
        }
    }
}

impl From<Recovered> for Answer {
    fn from(recovered: Recovered) -> Answer {
        let (outcome, count) = match recovered {
            Recovered::Whole => (Outcome::Recovered, 0),
            Recovered::Crossed(count) => (Outcome::Crossed, count),
            Recovered::Loose => (Outcome::Loose, 0),
        };
        Answer { outcome, count }
    }
}

impl fmt::Display for Outcome {
    fn fmt<W: fmt::Write>(&self, f: &mut fmt::Formatter<W>) -> fmt::Result {
        let name = match self {
            Outcome::Recovered => "recovered",
            Outcome::Loose => "loose",
            Outcome::Crossed => "crossed",
            Outcome::Counted => "counted",
            Outcome::Sealed => "sealed",
            Outcome::Read => "read",
            Outcome::ReadCrossed => "read crossed",
            Outcome::Figures => "figures",
            Outcome::Planned => "plan",
            Outcome::Size => "size",
            Outcome::Shift => "shift",
            Outcome::Length => "length",
            Outcome::Spare => "spare",
            Outcome::Family => "family",
            Outcome::Ended => "ended",
            Outcome::Waiting => "waiting",
            Outcome::Fetched => "fetched",
            Outcome::Mismatch => "mismatches",
        };
        write!(f, "{name}")
    }
}

#[derive(Drop)]
pub(crate) struct Tally {
    counts: [u64; 18],
}

impl Tally {
    pub(crate) fn new() -> Tally {
        Tally { counts: [0; 18] }
    }

    pub(crate) fn note(&mut self, outcome: Outcome) {
        let count = &mut self.counts[outcome as usize];
        *count = count.wrapping_add(1);
    }

    fn count(&self, outcome: Outcome) -> u64 {
        self.counts[outcome as usize]
    }
}

// A line for each outcome.
impl fmt::Display for Tally {
    fn fmt<W: fmt::Write>(&self, f: &mut fmt::Formatter<W>) -> fmt::Result {
        for outcome in Outcome::ALL {
            let count = self.count(outcome);
            writeln!(f, "{outcome} {count}")?;
        }
        Ok(())
    }
}
