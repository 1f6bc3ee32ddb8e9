// The run question: which run of which lent area it is.
ghost use Rattle.std.specs.Prelude.{◌≡◌};
ghost use Rattle.board.specs.Run.{run_told};

use board::BoardRun;
use table::Table;

// The run question. Both areas are lent.
#[unsafe(no_mangle)]
pub extern "C" fn board_run(
    table: Table,
    stores: &[u8],
    stacks: &[u8],
    address: u32,
    n: u32,
) -> BoardRun
    ensures { result ≡ run_told table stores.now stacks.now address n }
{
    board::board_run(table, stores, stacks, address, n)
}
