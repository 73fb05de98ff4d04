// Commands on single symbols and marks: 03, 04, 05, 08.
ghost use Rattle.std.specs.Prelude.{◌≡◌, [], length, take, List, ℕ, Ok, Some};
ghost use Rattle.lines.specs.Lines.{line_length, Wrote};
ghost use Rattle.commands.specs.declared.Command.TheVariants as commands;
ghost use Rattle.state.specs.Refusing.{refusal_of};
ghost use Rattle.act.specs.Acts.{state_of, Kept, Acts};

use bits::marks;
use lines::symbol_line;
use plan::{Place, Plan};
use state::buffers::put;

// The symbol is stored and its mark cleared.
pub fn set_symbol(plan: Plan, block: &mut [u8], bits: &mut [u8], c: u16, v: u8)
    requires { Kept (Some plan) block.old bits.old × (refusal_of (state_of (Some plan) block.old bits.old) (commands.SetSymbol c v) ≡ Ok tt) }
    ensures { Acts (commands.SetSymbol c v) (Some plan) block.old bits.old [] (Some plan) block.new bits.new }
{
    put(block, Place(c), v);
    marks::clear_mark(bits, Place(c));
}

pub fn mark_one(plan: Plan, bits: &mut [u8], c: u16)
    requires { (v : List ℕ) × (Kept (Some plan) v bits.old × (refusal_of (state_of (Some plan) v bits.old) (commands.MarkOne c) ≡ Ok tt)) }
    ensures { (v : List ℕ) → Kept (Some plan) v bits.old → Acts (commands.MarkOne c) (Some plan) v bits.old [] (Some plan) v bits.new }
{
    marks::set_mark(bits, Place(c));
}

pub fn mark_run(plan: Plan, bits: &mut [u8], c: u16, m: u16)
    requires { (v : List ℕ) × (Kept (Some plan) v bits.old × (refusal_of (state_of (Some plan) v bits.old) (commands.MarkRun c m) ≡ Ok tt)) }
    ensures { (v : List ℕ) → Kept (Some plan) v bits.old → Acts (commands.MarkRun c m) (Some plan) v bits.old [] (Some plan) v bits.new }
{
    marks::mark_run(bits, Place(c), m);
}

// What stands at the place, marked or not.
pub fn show(plan: Plan, block: &[u8], line: &mut [u8], c: u16) -> usize
    requires { (length line.old ≡ line_length) × ((m : List ℕ) × (Kept (Some plan) block.now m × (refusal_of (state_of (Some plan) block.now m) (commands.Show c) ≡ Ok tt))) }
    ensures { ((m : List ℕ) → Kept (Some plan) block.now m → Acts (commands.Show c) (Some plan) block.now m (take result line.new) (Some plan) block.now m) × Wrote line.old (take result line.new) line.new result }
{
    let at = c as usize;
    symbol_line(line, 0, c, block[at])
}
