// The run question: which run of which lent area it is.
ghost use Rattle.std.specs.Prelude.{false, ◌≡◌, ◌≤◌};
ghost use Rattle.meaning.specs.Model.{◌holds◌};
ghost use Rattle.meaning.specs.Reading.{run_of};
ghost use Rattle.names.specs.Numbers.{number_of};
ghost use Rattle.board.specs.Run.{run_told_by, run_told};

use names::{Area, Report};
use table::Table;

// `area` is 0 for that of the stores and 1 for that of the stacks.
#[repr(C)]
#[derive(Clone, Copy)]
pub struct BoardRun {
    pub report: u32,
    pub area: u32,
    pub offset: u32,
    pub length: u32,
}

// The run by its report; an accepted one is in the area that holds its address.
#[tactic(auto, unfolding(meaning::specs::RunQuestion::part_of))]
fn run_of(stores: Area, stacks: Area, report: Report, address: u32, n: u32) -> BoardRun
    requires { number_of report ≡ 0 → (run_of stores holds address) ≡ false → stacks.start ≤ address }
    ensures { result ≡ run_told_by stores stacks (number_of report) address n }
{
    if report != Report::Accepted {
        return BoardRun {
            report: report.number(),
            area: 0,
            offset: 0,
            length: 0,
        };
    }
    if areas::holds(stores, address) {
        return BoardRun {
            report: 0,
            area: 0,
            offset: address - stores.start,
            length: n,
        };
    }
    BoardRun {
        report: 0,
        area: 1,
        offset: address - stacks.start,
        length: n,
    }
}

// The run question. Both areas are lent.
pub fn board_run(table: Table, stores: &[u8], stacks: &[u8], address: u32, n: u32) -> BoardRun
    ensures { result ≡ run_told table stores.now stacks.now address n }
{
    let report = table.run_report(stores, stacks, address, n);
    let areas = table.areas;
    run_of(areas.stores, areas.stacks, report, address, n)
}
