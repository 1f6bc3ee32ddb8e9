// Rules 6 and 7 of the stacks, each asked of the lines that are listed, on every value of the struct.
#![tactic(auto)]

ghost use Rattle.std.specs.Prelude.{◌≡◌, ◌+◌};
ghost use Rattle.lists.specs.Lists.{sum};
ghost use Rattle.meaning.specs.Rules.{stacks_fit, run_sound};
ghost use Rattle.meaning.specs.Reading.{run_of};
ghost use Rattle.stacks.specs.Stacks.{view, reading};
ghost use Rattle.stack_rules.specs.Pass.{stack_end, fits_from, in_order, stack_bytes};

use lines::Lines;
use names::{Area, Stack};
use stacks::Stacks;

// Where a stack ends: a sum by itself, as that of an area is. It widens by `as`, here and below, after which proofs name goals; `u64::from` says no more.
fn stack_end(stack: Stack) -> u64
    ensures { result ≡ stack_end (view stack) }
{
    (stack.id.0 as u64) + (stack.total as u64)
}

// What rule 6 asks of one stack, where the one before it ended at `last`.
fn fits_from(stack: Stack, last: u64, area: Area, run: Area) -> bool
    ensures { result ≡ fits_from (run_of area) (run_of run) last (view stack) }
{
    let taken = Area::new(stack.id.0, stack.total);
    last <= (stack.id.0 as u64)
        && Stack::OVERHEAD <= stack.total
        && areas::inside(taken, area)
        && areas::apart(taken, run)
}

// Each stack fits from where the one before it ended.
fn in_order(stacks: &Stacks, area: Area, run: Area) -> bool
    ensures { result ≡ in_order (run_of area) (run_of run) (reading stacks.now) }
{
    let lines = stacks.listed();
    let mut last: u64 = 0;
    for k in lines {
        if !fits_from(*k, last, area, run) {
            return false;
        }
        last = stack_end(*k);
    }
    true
}

// A first number and the totals of the stacks, as a whole number.
fn bytes_with(stacks: &Stacks, first: u32) -> u64
    ensures { result ≡ sum stack_bytes (reading stacks.now) + first }
{
    let lines = stacks.listed();
    // tried: the sum as `.iter().map(..).sum()`, the proof that adding `first` to it stays in 64 bits did not close
    let mut bytes = first as u64;
    for k in lines {
        bytes += k.total as u64;
    }
    bytes
}

// Rule 6, in one pass.
#[tactic(auto, using(crate::specs::Pass::in_order_rule))]
pub fn fit(stacks: &Stacks, area: Area, free: Area) -> bool
    ensures { result ≡ stacks_fit (run_of area) (run_of free) (reading stacks.now) }
{
    in_order(stacks, area, free)
}

// Rule 7.
#[tactic(auto, unfolding(meaning::specs::Rules::run_sound))]
pub fn run_sound(stacks: &Stacks, area: Area, free: Area) -> bool
    ensures { result ≡ run_sound (run_of area) (run_of free) (reading stacks.now) }
{
    areas::inside(free, area)
        && bytes_with(stacks, free.length) == (area.length as u64)
        && (free.length != 0 || (free.start as u64) == areas::end(area))
}
