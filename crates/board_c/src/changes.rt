// The table of zeros, and the calls that change the table: 0, 3 and 8 to 15.
ghost use Rattle.std.specs.Prelude.{[], ◌≡◌};
ghost use Rattle.meaning.specs.Calls.{start, set_context, allocate, make_store, clear, resize, make_stack, destroy_stack, add_thread, remove_thread};
ghost use Rattle.meaning.specs.Reading.{run_of};
ghost use Rattle.table.specs.Table.{zero_table};
ghost use Rattle.table.specs.Calls.{called, answer};
ghost use Rattle.board.specs.Board.{answer_seen};

use board::BoardAnswer;
use names::{Area, StackId, StoreId, ThreadId};
use table::Table;

// What there is before a start.
#[unsafe(no_mangle)]
pub extern "C" fn board_zeros() -> Table
    ensures { result ≡ zero_table }
{
    board::board_zeros()
}

// Call 0.
#[unsafe(no_mangle)]
pub extern "C" fn board_start(table: Table, stores: Area, stacks: Area) -> BoardAnswer
    ensures { answer_seen result ≡ answer (called table [] (start (run_of stores) (run_of stacks))) }
{
    board::board_start(table, stores, stacks)
}

// Call 3.
#[unsafe(no_mangle)]
pub extern "C" fn board_set_context(table: Table, thread: ThreadId, store: StoreId) -> BoardAnswer
    ensures { answer_seen result ≡ answer (called table [] (set_context thread.0 store.0)) }
{
    board::board_set_context(table, thread, store)
}

// Call 8. The store area is lent, as long as the table says.
#[unsafe(no_mangle)]
pub extern "C" fn board_allocate(
    table: Table,
    area: &mut [u8],
    thread: ThreadId,
    n: u32,
) -> BoardAnswer
    ensures told { answer_seen result ≡ answer (called table area.old (allocate thread.0 n)) }
    ensures bytes { area.new ≡ (called table area.old (allocate thread.0 n)).bytes }
{
    board::board_allocate(table, area, thread, n)
}

// Call 9.
#[unsafe(no_mangle)]
pub extern "C" fn board_make_store(table: Table, thread: ThreadId, n: u32) -> BoardAnswer
    ensures { answer_seen result ≡ answer (called table [] (make_store thread.0 n)) }
{
    board::board_make_store(table, thread, n)
}

// Call 10.
#[unsafe(no_mangle)]
pub extern "C" fn board_clear(table: Table, thread: ThreadId) -> BoardAnswer
    ensures { answer_seen result ≡ answer (called table [] (clear thread.0)) }
{
    board::board_clear(table, thread)
}

// Call 11.
#[unsafe(no_mangle)]
pub extern "C" fn board_resize(table: Table, store: StoreId, n: u32) -> BoardAnswer
    ensures { answer_seen result ≡ answer (called table [] (resize store.0 n)) }
{
    board::board_resize(table, store, n)
}

// Call 12.
#[unsafe(no_mangle)]
pub extern "C" fn board_make_stack(table: Table, n: u32) -> BoardAnswer
    ensures { answer_seen result ≡ answer (called table [] (make_stack n)) }
{
    board::board_make_stack(table, n)
}

// Call 13.
#[unsafe(no_mangle)]
pub extern "C" fn board_destroy_stack(table: Table, stack: StackId) -> BoardAnswer
    ensures { answer_seen result ≡ answer (called table [] (destroy_stack stack.0)) }
{
    board::board_destroy_stack(table, stack)
}

// Call 14.
#[unsafe(no_mangle)]
pub extern "C" fn board_add_thread(table: Table, thread: ThreadId, store: StoreId) -> BoardAnswer
    ensures { answer_seen result ≡ answer (called table [] (add_thread thread.0 store.0)) }
{
    board::board_add_thread(table, thread, store)
}

// Call 15.
#[unsafe(no_mangle)]
pub extern "C" fn board_remove_thread(table: Table, thread: ThreadId) -> BoardAnswer
    ensures { answer_seen result ≡ answer (called table [] (remove_thread thread.0)) }
{
    board::board_remove_thread(table, thread)
}
