// The lowest broken rule, and the calls that change nothing: 1, 2 and 4 to 7. They hand back no table, and promise that the table after the call is the one that
// the caller has.
ghost use Rattle.std.specs.Prelude.{[], ◌≡◌};
ghost use Rattle.meaning.specs.Calls.{root, context_of, total_of, used_of, free_of, find};
ghost use Rattle.table.specs.Table.{broken_rule};
ghost use Rattle.table.specs.Calls.{called, answer, found_answer};
ghost use Rattle.board.specs.Board.{reply_seen, found_seen};

use crate::answer::{BoardFound, BoardReply};
use names::{StoreId, ThreadId};
use table::Table;

// The lowest of the eight rules that is broken, 0 if none.
pub fn board_broken_rule(table: Table) -> u32
    ensures { result ≡ broken_rule table }
{
    table.broken_rule()
}

// Call 1.
pub fn board_root(table: Table) -> BoardReply
    ensures { reply_seen table result ≡ answer (called table [] root) }
{
    BoardReply::from(table.root())
}

// Call 2.
pub fn board_context(table: Table, thread: ThreadId) -> BoardReply
    ensures { reply_seen table result ≡ answer (called table [] (context_of thread.0)) }
{
    BoardReply::from(table.context(thread))
}

// Call 4.
pub fn board_total(table: Table, store: StoreId) -> BoardReply
    ensures { reply_seen table result ≡ answer (called table [] (total_of store.0)) }
{
    BoardReply::from(table.total(store))
}

// Call 5.
pub fn board_used(table: Table, store: StoreId) -> BoardReply
    ensures { reply_seen table result ≡ answer (called table [] (used_of store.0)) }
{
    BoardReply::from(table.used(store))
}

// Call 6.
pub fn board_free(table: Table, store: StoreId) -> BoardReply
    ensures { reply_seen table result ≡ answer (called table [] (free_of store.0)) }
{
    BoardReply::from(table.free(store))
}

// Call 7.
pub fn board_find(table: Table, address: u32) -> BoardFound
    ensures { found_seen table result ≡ found_answer (called table [] (find address)) }
{
    BoardFound::from(table.find(address))
}
