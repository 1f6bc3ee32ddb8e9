// Calls 12 and 13, on the stacks, the stack area and the free run. The checks stand in document 01's order, one under the other. Soundness is the table's to
// ask, before.
#![tactic(auto)]

ghost use Rattle.std.specs.Prelude.{◌≡◌};
ghost use Rattle.meaning.specs.Calls.{make_stack, destroy_stack};
ghost use Rattle.stack_calls.specs.StackCalls.{seen, piled};

use lines::Lines;
use names::{Area, Report, Stack, StackId};
use stacks::Stacks;

// What an accepted call hands back: the stacks and the free run after it, and its value.
#[derive(Clone, Copy)]
pub struct Piled {
    pub stacks: Stacks,
    pub free: Area,
    pub value: u32,
}

// Call 12. The start of the shortened run passes 32 bits on an unsound table only.
#[tactic(auto, unfolding(crate::specs::StackCalls::piled, meaning::specs::Calls::row, meaning::specs::Calls::checks, meaning::specs::Calls::change, meaning::specs::Reports::first_report))]
pub fn make_stack(stacks: Stacks, area: Area, free: Area, n: u32) -> Result<Piled, Report>
    ensures { seen stacks free result ≡ piled area stacks free (make_stack n) }
{
    let taken = Stack::taken(n);
    if u64::from(free.length) < taken {
        return Err(Report::OutOfMemory);
    }
    if 32 <= stacks.len() {
        return Err(Report::TableFull);
    }
    let total = taken as u32;
    let left = areas::checked_shortened(area, free, total).ok_or(Report::UnsoundTable)?;
    Ok(Piled {
        stacks: stacks.with(Stack::new(StackId(free.start), total)),
        free: left,
        value: free.start,
    })
}

// Call 13. The joined run is longer than 32 bits on an unsound table only.
#[tactic(auto, unfolding(crate::specs::StackCalls::piled, meaning::specs::Calls::row, meaning::specs::Calls::checks, meaning::specs::Calls::change, meaning::specs::Reports::first_report))]
pub fn destroy_stack(
    stacks: Stacks,
    area: Area,
    free: Area,
    stack: StackId,
) -> Result<Piled, Report>
    ensures { seen stacks free result ≡ piled area stacks free (destroy_stack stack.0) }
{
    // tried: `stacks.find(stack).ok_or(Report::NoSuchStack)?` in place of `has` and `line`, the proofs of the two refusals behind it and of the last return did not close
    if !stacks.has(stack) {
        return Err(Report::NoSuchStack);
    }
    let line = stacks.line(stack);
    let bytes = Area::new(line.id.0, line.total);
    if areas::touches_no_end(free, bytes) {
        return Err(Report::Fragmentation);
    }
    let joined = areas::checked_joined(free, bytes).ok_or(Report::UnsoundTable)?;
    Ok(Piled {
        stacks: stacks.without(stack),
        free: joined,
        value: 0,
    })
}
