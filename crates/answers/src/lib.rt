// The answers of recover and message_of, which say more than that a call is refused: crossed and loose are no refusals of the call. encode and fetch answer with a Result.
// What they promise is in the crate promises.
// Entries: Recovery::number, Recovery::count, Reading::number.
#![tactic(auto)]

ghost use Rattle.std.specs.Prelude.{◌≡◌};
ghost use Rattle.answers.specs.Answers.{recovery_number, recovery_count, reading_number};

use refusals::Refusal;

#[derive(Clone, Copy)]
pub enum Recovery {
    Recovered,
    Crossed(usize),
    Loose(usize),
    Refused(Refusal),
}

#[derive(Clone, Copy)]
pub enum Reading {
    Read,
    Crossed,
    Refused(Refusal),
}

impl Recovery {
    pub fn number(self) -> u8
        ensures { result ≡ recovery_number self }
    {
        match self {
            Recovery::Recovered => 0,
            Recovery::Crossed(_) => Refusal::Crossed.number(),
            Recovery::Loose(_) => Refusal::Loose.number(),
            Recovery::Refused(x) => x.number(),
        }
    }

    // The count that goes with the witness list.
    pub fn count(self) -> usize
        ensures { result ≡ recovery_count self }
    {
        match self {
            Recovery::Recovered => 0,
            Recovery::Crossed(z) => z,
            Recovery::Loose(z) => z,
            Recovery::Refused(_) => 0,
        }
    }
}

impl Reading {
    pub fn number(self) -> u8
        ensures { result ≡ reading_number self }
    {
        match self {
            Reading::Read => 0,
            Reading::Crossed => Refusal::Crossed.number(),
            Reading::Refused(x) => x.number(),
        }
    }
}
