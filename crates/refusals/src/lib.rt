// What is turned away (01): the refusals in 01's words, each with its number and its place in the order of tests. A test answers with Ok, or the refusal that it stops at.
// Entries: Refusal::number, number, earlier.
#![tactic(auto)]

ghost use Rattle.std.specs.Prelude.{◌≡◌};
ghost use Rattle.refusals.specs.Refusals.{number_of, check_number, rank_of, first_of};
ghost use Rattle.refusals.specs.Refusals.{earlier as earlierOf};

#[derive(Clone, Copy, Debug, PartialEq, Eq)]
pub enum Refusal {
    Size,
    Shift,
    Length,
    Spare,
    Crossed,
    Loose,
    Command,
    Short,
    Early,
    Family,
}

impl Refusal {
    pub fn number(self) -> u8
        ensures { result ≡ number_of self }
    {
        match self {
            Refusal::Size => 1,
            Refusal::Shift => 2,
            Refusal::Length => 3,
            Refusal::Spare => 4,
            Refusal::Crossed => 5,
            Refusal::Loose => 6,
            Refusal::Command => 7,
            Refusal::Short => 8,
            Refusal::Early => 9,
            Refusal::Family => 10,
        }
    }

    // The place in the order of tests.
    fn rank(self) -> u8
        ensures { result ≡ rank_of self }
    {
        match self {
            Refusal::Command => 0,
            Refusal::Short => 1,
            Refusal::Early => 2,
            Refusal::Size => 3,
            Refusal::Family => 4,
            Refusal::Shift => 5,
            Refusal::Length => 6,
            Refusal::Spare => 7,
            Refusal::Crossed => 8,
            Refusal::Loose => 9,
        }
    }

    // Whichever of two is asked first.
    fn first(self, other: Refusal) -> Refusal
        ensures { result ≡ first_of self other }
    {
        if self.rank() <= other.rank() {
            self
        } else {
            other
        }
    }
}

// The number of an answer: success is 0.
pub fn number<T>(answer: &Result<T, Refusal>) -> u8
    ensures { result ≡ check_number answer.now }
{
    match answer {
        Ok(_) => 0,
        Err(x) => x.number(),
    }
}

// Whichever of two tests stops first; it passes where both do.
pub fn earlier(one: Result<(), Refusal>, other: Result<(), Refusal>) -> Result<(), Refusal>
    ensures { result ≡ earlierOf one other }
{
    match (one, other) {
        (Ok(()), _) => other,
        (Err(_), Ok(())) => one,
        (Err(x), Err(y)) => Err(x.first(y)),
    }
}
