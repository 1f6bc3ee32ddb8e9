// The table whose every word is another number.
ghost use Rattle.std.specs.Prelude.{◌≡◌};
ghost use Rattle.board.specs.Layout.{numbered_table};

use table::Table;

// The table whose words are 1, 2, 3 and so on, in the order in which its fields lie. It is not sound.
#[unsafe(no_mangle)]
pub extern "C" fn board_numbered() -> Table
    ensures { result ≡ numbered_table }
{
    board::board_numbered()
}
