// Runs of addresses: areas, the free run, and what the calls ask and change of them. Ends are whole numbers of 64 bits, so that nothing wraps on any area.
#![tactic(auto)]

ghost use Rattle.std.specs.Prelude.{◌≡◌, ◌+◌, ◌-◌, min, if◌then◌else◌, Some, None};
ghost use Rattle.meaning.specs.Model.{end, ◌holds◌, ◌inside◌, ◌apart_from◌};
ghost use Rattle.meaning.specs.Rules.{areas_sound};
ghost use Rattle.meaning.specs.Reports.{touches_no_end};
ghost use Rattle.meaning.specs.Changes.{shortened, joined};
ghost use Rattle.meaning.specs.Reading.{run_of, area_of, fits32};

use names::{Area, Store};

// Rule 1: the most bytes of an area, and the highest end.
const LONGEST: u32 = 16777216;

const LAST_END: u64 = 2147483648;

// The address after the last.
pub fn end(a: Area) -> u64
    ensures { result ≡ end (run_of a) }
{
    u64::from(a.start) + u64::from(a.length)
}

#[tactic(auto, using(crate::proofs::Tests::holds_is))]
pub fn holds(a: Area, address: u32) -> bool
    ensures { result ≡ (run_of a holds address) }
{
    a.start <= address && u64::from(address) < end(a)
}

#[tactic(auto, using(crate::proofs::Tests::inside_is))]
pub fn inside(a: Area, b: Area) -> bool
    ensures { result ≡ (run_of a inside run_of b) }
{
    b.start <= a.start && end(a) <= end(b)
}

// They share no address.
#[tactic(auto, using(crate::proofs::Tests::apart_is))]
pub fn apart(a: Area, b: Area) -> bool
    ensures { result ≡ (run_of a apart_from run_of b) }
{
    end(a) <= u64::from(b.start) || end(b) <= u64::from(a.start) || a.length == 0 || b.length == 0
}

// Rule 1.
#[tactic(auto, unfolding(meaning::specs::Rules::areas_sound))]
pub fn sound(stores: Area, stacks: Area) -> bool
    ensures { result ≡ areas_sound (run_of stores) (run_of stacks) }
{
    Store::OVERHEAD <= stores.length
        && stores.length <= LONGEST
        && stacks.length <= LONGEST
        && end(stores) <= LAST_END
        && end(stacks) <= LAST_END
        && apart(stores, stacks)
}

// Report 13 of call 13: the run is not empty and the stack touches neither end of it.
pub fn touches_no_end(run: Area, stack: Area) -> bool
    ensures { result ≡ touches_no_end (run_of run) (run_of stack) }
{
    run.length != 0 && end(stack) != u64::from(run.start) && end(run) != u64::from(stack.start)
}

// The run without n bytes at its low end, written at the area's end where nothing is left; the same run where its start would pass 32 bits.
pub fn shortened(area: Area, run: Area, n: u32) -> Area
    ensures { result ≡ (if fits32 (shortened (run_of area) (run_of run) n).start then area_of (shortened (run_of area) (run_of run) n) else run) }
{
    checked_shortened(area, run, n).unwrap_or(run)
}

// The run shortened so; none where its start would pass 32 bits.
pub fn checked_shortened(area: Area, run: Area, n: u32) -> Option<Area>
    ensures { result ≡ (if fits32 (shortened (run_of area) (run_of run) n).start then Some (area_of (shortened (run_of area) (run_of run) n)) else None) }
{
    let start = if n == run.length {
        end(area)
    } else {
        u64::from(run.start) + u64::from(n)
    };
    let start = u32::try_from(start).ok()?;
    Some(Area::new(start, run.length.saturating_sub(n)))
}

// The run with the bytes of a stack that touches it; the same run where their lengths together pass 32 bits.
pub fn joined(run: Area, stack: Area) -> Area
    ensures { result ≡ (if fits32 (run.length + stack.length) then area_of (joined (run_of run) (run_of stack)) else run) }
{
    checked_joined(run, stack).unwrap_or(run)
}

// The run joined so; none where their lengths together pass 32 bits.
pub fn checked_joined(run: Area, stack: Area) -> Option<Area>
    ensures { result ≡ (if fits32 (run.length + stack.length) then Some (area_of (joined (run_of run) (run_of stack))) else None) }
{
    let length = run.length.checked_add(stack.length)?;
    if run.length == 0 {
        return Some(stack);
    }
    Some(Area::new(run.start.min(stack.start), length))
}
