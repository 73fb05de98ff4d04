// The commands of a job: which one stands at the front of some bytes.
// Entries: parse, size_of.
#![tactic(auto)]

ghost use Rattle.std.specs.Prelude.{◌≡◌, ◌<◌, MatchOption};
ghost use Rattle.commands.specs.Commands.{size_of, one, two, command_of, parsed};

// 01, "The job and its sheet": the commands 01 to 0C (hex) with their operands; document 02 adds 0D.
#[derive(Clone, Copy)]
pub enum Command {
    NewPlan { n: u8, t: u16 },
    SetShift { j: u8, p: u16 },
    SetSymbol { c: u16, v: u8 },
    MarkOne { c: u16 },
    MarkRun { c: u16, m: u16 },
    Recover,
    Seal,
    Show { c: u16 },
    Figures,
    Straight { n: u8, t: u16 },
    Powers { n: u8, t: u16, q: u16 },
    Ruler { n: u8 },
    Fetch,
}

// What stands at the front of some bytes.
#[derive(Clone, Copy)]
pub enum Parsed {
    Whole(Command),
    Unknown,
    Short,
    Nothing,
}

#[tactic(auto, unfolding(crate::specs::Commands::parsed))]
pub fn parse(bytes: &[u8]) -> Parsed
    ensures { result ≡ parsed bytes.now }
{
    match bytes {
        [] => Parsed::Nothing,
        [first, ..] => match size_of(*first) {
            None => Parsed::Unknown,
            Some(size) if bytes.len() < size => Parsed::Short,
            Some(_) => Parsed::Whole(command_of(bytes)),
        },
    }
}

// The bytes that a command takes, by its first byte.
#[tactic(auto, unfolding(crate::specs::Commands::size_of))]
pub fn size_of(b: u8) -> Option<usize>
    ensures { MatchOption result (size_of b ≡ 0) (λ k. (k ≡ size_of b) × (0 < k)) }
{
    match b {
        0x01 => Some(4),
        0x02 => Some(4),
        0x03 => Some(4),
        0x04 => Some(3),
        0x05 => Some(5),
        0x06 => Some(1),
        0x07 => Some(1),
        0x08 => Some(3),
        0x09 => Some(1),
        0x0A => Some(4),
        0x0B => Some(6),
        0x0C => Some(2),
        0x0D => Some(1),
        _ => None,
    }
}

#[tactic(auto, unfolding(crate::specs::Commands::command_of))]
fn command_of(s: &[u8]) -> Command
    ensures { result ≡ command_of s.now }
{
    let b = byte(s, 0);
    match b {
        0x01 => Command::NewPlan {
            n: byte(s, 1),
            t: pair(s, 2),
        },
        0x02 => Command::SetShift {
            j: byte(s, 1),
            p: pair(s, 2),
        },
        0x03 => Command::SetSymbol {
            c: pair(s, 1),
            v: byte(s, 3),
        },
        0x04 => Command::MarkOne { c: pair(s, 1) },
        0x05 => Command::MarkRun {
            c: pair(s, 1),
            m: pair(s, 3),
        },
        0x06 => Command::Recover,
        0x07 => Command::Seal,
        0x08 => Command::Show { c: pair(s, 1) },
        0x09 => Command::Figures,
        0x0A => Command::Straight {
            n: byte(s, 1),
            t: pair(s, 2),
        },
        0x0B => Command::Powers {
            n: byte(s, 1),
            t: pair(s, 2),
            q: pair(s, 4),
        },
        0x0C => Command::Ruler { n: byte(s, 1) },
        _ => Command::Fetch,
    }
}

// A byte; past the end 0.
fn byte(s: &[u8], i: usize) -> u8
    ensures { result ≡ one s.now i }
{
    s.get(i).copied().unwrap_or(0)
}

// Two bytes, low byte first.
fn pair(s: &[u8], i: usize) -> u16
    requires { i < 8 }
    ensures { result ≡ two s.now i }
{
    u16::from_le_bytes([byte(s, i), byte(s, i + 1)])
}
