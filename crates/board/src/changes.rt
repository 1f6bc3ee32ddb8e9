// The table of zeros, and the calls that change the table: 0, 3 and 8 to 15.
ghost use Rattle.std.specs.Prelude.{[], ◌≡◌};
ghost use Rattle.meaning.specs.Calls.{start, set_context, allocate, make_store, clear, resize, make_stack, destroy_stack, add_thread, remove_thread};
ghost use Rattle.meaning.specs.Reading.{run_of};
ghost use Rattle.table.specs.Table.{zero_table};
ghost use Rattle.table.specs.Calls.{called, answer};
ghost use Rattle.board.specs.Board.{answer_seen};

use crate::answer::BoardAnswer;
use names::{Area, StackId, StoreId, ThreadId};
use table::Table;

// What there is before a start.
pub fn board_zeros() -> Table
    ensures { result ≡ zero_table }
{
    Table::zeros()
}

// Call 0.
pub fn board_start(table: Table, stores: Area, stacks: Area) -> BoardAnswer
    ensures { answer_seen result ≡ answer (called table [] (start (run_of stores) (run_of stacks))) }
{
    BoardAnswer::from(table.start(stores, stacks))
}

// Call 3.
pub fn board_set_context(table: Table, thread: ThreadId, store: StoreId) -> BoardAnswer
    ensures { answer_seen result ≡ answer (called table [] (set_context thread.0 store.0)) }
{
    BoardAnswer::from(table.set_context(thread, store))
}

// Call 8. The store area is lent, as long as the table says.
pub fn board_allocate(table: Table, area: &mut [u8], thread: ThreadId, n: u32) -> BoardAnswer
    ensures told { answer_seen result ≡ answer (called table area.old (allocate thread.0 n)) }
    ensures bytes { area.new ≡ (called table area.old (allocate thread.0 n)).bytes }
{
    BoardAnswer::from(table.allocate(area, thread, n))
}

// Call 9.
pub fn board_make_store(table: Table, thread: ThreadId, n: u32) -> BoardAnswer
    ensures { answer_seen result ≡ answer (called table [] (make_store thread.0 n)) }
{
    BoardAnswer::from(table.make_store(thread, n))
}

// Call 10.
pub fn board_clear(table: Table, thread: ThreadId) -> BoardAnswer
    ensures { answer_seen result ≡ answer (called table [] (clear thread.0)) }
{
    BoardAnswer::from(table.clear(thread))
}

// Call 11.
pub fn board_resize(table: Table, store: StoreId, n: u32) -> BoardAnswer
    ensures { answer_seen result ≡ answer (called table [] (resize store.0 n)) }
{
    BoardAnswer::from(table.resize(store, n))
}

// Call 12.
pub fn board_make_stack(table: Table, n: u32) -> BoardAnswer
    ensures { answer_seen result ≡ answer (called table [] (make_stack n)) }
{
    BoardAnswer::from(table.make_stack(n))
}

// Call 13.
pub fn board_destroy_stack(table: Table, stack: StackId) -> BoardAnswer
    ensures { answer_seen result ≡ answer (called table [] (destroy_stack stack.0)) }
{
    BoardAnswer::from(table.destroy_stack(stack))
}

// Call 14.
pub fn board_add_thread(table: Table, thread: ThreadId, store: StoreId) -> BoardAnswer
    ensures { answer_seen result ≡ answer (called table [] (add_thread thread.0 store.0)) }
{
    BoardAnswer::from(table.add_thread(thread, store))
}

// Call 15.
pub fn board_remove_thread(table: Table, thread: ThreadId) -> BoardAnswer
    ensures { answer_seen result ≡ answer (called table [] (remove_thread thread.0)) }
{
    BoardAnswer::from(table.remove_thread(thread))
}
