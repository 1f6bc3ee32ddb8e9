// The lowest broken rule, and the calls that change nothing: 1, 2 and 4 to 7.
ghost use Rattle.std.specs.Prelude.{[], ◌≡◌};
ghost use Rattle.meaning.specs.Calls.{root, context_of, total_of, used_of, free_of, find};
ghost use Rattle.table.specs.Table.{broken_rule};
ghost use Rattle.table.specs.Calls.{called, answer, found_answer};
ghost use Rattle.board.specs.Board.{reply_seen, found_seen};

use board::{BoardFound, BoardReply};
use names::{StoreId, ThreadId};
use table::Table;

// The lowest of the eight rules that is broken, 0 if none.
#[unsafe(no_mangle)]
pub extern "C" fn board_broken_rule(table: Table) -> u32
    ensures { result ≡ broken_rule table }
{
    board::board_broken_rule(table)
}

// Call 1.
#[unsafe(no_mangle)]
pub extern "C" fn board_root(table: Table) -> BoardReply
    ensures { reply_seen table result ≡ answer (called table [] root) }
{
    board::board_root(table)
}

// Call 2.
#[unsafe(no_mangle)]
pub extern "C" fn board_context(table: Table, thread: ThreadId) -> BoardReply
    ensures { reply_seen table result ≡ answer (called table [] (context_of thread.0)) }
{
    board::board_context(table, thread)
}

// Call 4.
#[unsafe(no_mangle)]
pub extern "C" fn board_total(table: Table, store: StoreId) -> BoardReply
    ensures { reply_seen table result ≡ answer (called table [] (total_of store.0)) }
{
    board::board_total(table, store)
}

// Call 5.
#[unsafe(no_mangle)]
pub extern "C" fn board_used(table: Table, store: StoreId) -> BoardReply
    ensures { reply_seen table result ≡ answer (called table [] (used_of store.0)) }
{
    board::board_used(table, store)
}

// Call 6.
#[unsafe(no_mangle)]
pub extern "C" fn board_free(table: Table, store: StoreId) -> BoardReply
    ensures { reply_seen table result ≡ answer (called table [] (free_of store.0)) }
{
    board::board_free(table, store)
}

// Call 7.
#[unsafe(no_mangle)]
pub extern "C" fn board_find(table: Table, address: u32) -> BoardFound
    ensures { found_seen table result ≡ found_answer (called table [] (find address)) }
{
    board::board_find(table, address)
}
