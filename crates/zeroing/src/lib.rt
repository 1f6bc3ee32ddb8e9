// The bytes of call 8: all of the block become 0, and no other changes.
#![tactic(auto)]

ghost use Rattle.std.specs.Prelude.{◌≡◌, ◌-◌};
ghost use Rattle.meaning.specs.Changes.{zeroed};
ghost use Rattle.zeroing.specs.Zeroing.{zeroed_as_told};

use names::{Block, Report};

// The bytes from one offset up to another become 0, as far as the area goes.
#[tactic(auto, using(crate::specs::Zeroing::zeroed_part, crate::specs::Zeroing::zeroed_off))]
fn zero(area: &mut [u8], from: usize, to: usize)
    ensures { area.new ≡ zeroed from (to - from) area.old }
{
    let end = to.min(area.len());
    if from < end {
        area[from..end].fill(0);
    }
}

// Where a call of n bytes was accepted, its block in the area that begins at start becomes 0, with the overhead; the value told is the address behind that.
#[tactic(auto, unfolding(crate::specs::Zeroing::zeroed_as_told))]
pub fn zero_block(area: &mut [u8], start: u32, told: Result<u32, Report>, n: u32)
    ensures { area.new ≡ zeroed_as_told told start n area.old }
{
    let Ok(address) = told else {
        return;
    };
    let before = address.saturating_sub(Block::OVERHEAD);
    let from = before.saturating_sub(start) as usize;
    let taken = Block::taken(n) as usize;
    zero(area, from, from + taken);
}
