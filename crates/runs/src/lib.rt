// The run question on the two areas: a run of addresses as a part of the lent area that it is in. The first area is that of the stores, the second that
// of the stacks. Soundness is the table's to ask, before.
#![tactic(auto)]

ghost use Rattle.std.specs.Prelude.{◌≡◌, ◌+◌, ◌≤◌, length, take, drop};
ghost use Rattle.meaning.specs.Reading.{run_of};
ghost use Rattle.meaning.specs.Reports.{first_report};
ghost use Rattle.meaning.specs.RunQuestion.{wholly_in, area_checks, lent_of, part_bytes};
ghost use Rattle.names.specs.Numbers.{number_of};
ghost use Rattle.runs.specs.Runs.{part};

use names::{Area, Report};

// The run is wholly in the area, which holds its first address.
fn wholly_in(area: Area, address: u32, n: u32) -> bool
    ensures { result ≡ wholly_in (run_of area) address n }
{
    areas::holds(area, address) && u64::from(address) + u64::from(n) <= areas::end(area)
}

// The report, by the checks in their order.
#[tactic(auto, unfolding(meaning::specs::RunQuestion::area_checks, meaning::specs::Reports::first_report))]
pub fn report(
    first: Area,
    second: Area,
    stores: &[u8],
    stacks: &[u8],
    address: u32,
    n: u32,
) -> Report
    ensures { number_of result ≡ first_report (area_checks (run_of first) (run_of second) stores.now stacks.now address n) }
{
    if stores.len() != first.length as usize {
        return Report::BadArea;
    }
    if stacks.len() != second.length as usize {
        return Report::BadArea;
    }
    if wholly_in(first, address, n) || wholly_in(second, address, n) {
        return Report::Accepted;
    }
    Report::UnknownAddress
}

// n bytes of an area from an offset on, or those up to its end where that comes first.
fn clipped<'a>(area: &'a [u8], from: usize, n: u32) -> &'a [u8]
    requires { from ≤ length area.now }
    ensures bytes { result.now ≡ take n (drop from area.now) }
    ensures memory { result.ref_ptr.0 ≡ area.entry.ref_ptr.0 }
    ensures place { result.ref_ptr.1 ≡ area.entry.ref_ptr.1 + from }
{
    let rest = &area[from..];
    &rest[..rest.len().min(n as usize)]
}

// The run itself, as a part of the area that holds its first address; an empty part where the report refuses it.
pub fn run<'a>(
    first: Area,
    second: Area,
    stores: &'a [u8],
    stacks: &'a [u8],
    address: u32,
    n: u32,
) -> &'a [u8]
    ensures bytes { result.now ≡ part_bytes (part first second stores.now stacks.now address n) stores.now stacks.now }
    ensures memory { result.ref_ptr.0 ≡ lent_of (part first second stores.now stacks.now address n).area stores.entry.ref_ptr.0 stacks.entry.ref_ptr.0 }
    ensures place { result.ref_ptr.1 ≡ lent_of (part first second stores.now stacks.now address n).area stores.entry.ref_ptr.1 stacks.entry.ref_ptr.1 + (part first second stores.now stacks.now address n).offset }
{
    if report(first, second, stores, stacks, address, n).number() != 0 {
        return &stores[0..0];
    }
    if areas::holds(first, address) {
        return clipped(stores, (address - first.start) as usize, n);
    }
    clipped(stacks, (address - second.start) as usize, n)
}
