// Each method of the table, called once, with its promise said as `Handed`: so the three demands, which are about all that is `Handed`, are about the code. Nothing here
// is for other crates.
#![tactic(auto)]

ghost use Rattle.meaning.specs.Calls.{start, root, context_of, set_context, total_of, used_of, free_of, allocate, make_store, clear, resize, make_stack, destroy_stack, add_thread, remove_thread};
ghost use Rattle.meaning.specs.Reading.{run_of};
ghost use Rattle.promises.specs.Handed.{Handed};
ghost use Rattle.ties.specs.Ties.{given, Hands, HandsFound};

use names::{Area, StackId, StoreId, ThreadId};
use table::{Answer, Found, Table};

fn start(table: Table, stores: Area, stacks: Area) -> Answer
    ensures { Hands table (start (run_of stores) (run_of stacks)) result }
{
    table.start(stores, stacks)
}

fn root(table: Table) -> Answer
    ensures { Hands table root result }
{
    table.root()
}

fn context(table: Table, thread: ThreadId) -> Answer
    ensures { Hands table (context_of thread.0) result }
{
    table.context(thread)
}

fn set_context(table: Table, thread: ThreadId, store: StoreId) -> Answer
    ensures { Hands table (set_context thread.0 store.0) result }
{
    table.set_context(thread, store)
}

fn total(table: Table, store: StoreId) -> Answer
    ensures { Hands table (total_of store.0) result }
{
    table.total(store)
}

fn used(table: Table, store: StoreId) -> Answer
    ensures { Hands table (used_of store.0) result }
{
    table.used(store)
}

fn free(table: Table, store: StoreId) -> Answer
    ensures { Hands table (free_of store.0) result }
{
    table.free(store)
}

fn find(table: Table, address: u32) -> Found
    ensures { HandsFound table address result }
{
    table.find(address)
}

fn allocate(table: Table, area: &mut [u8], thread: ThreadId, n: u32) -> Answer
    ensures { Handed table area.old (allocate thread.0 n) (given result area.new) }
{
    table.allocate(area, thread, n)
}

fn make_store(table: Table, thread: ThreadId, n: u32) -> Answer
    ensures { Hands table (make_store thread.0 n) result }
{
    table.make_store(thread, n)
}

fn clear(table: Table, thread: ThreadId) -> Answer
    ensures { Hands table (clear thread.0) result }
{
    table.clear(thread)
}

fn resize(table: Table, store: StoreId, n: u32) -> Answer
    ensures { Hands table (resize store.0 n) result }
{
    table.resize(store, n)
}

fn make_stack(table: Table, n: u32) -> Answer
    ensures { Hands table (make_stack n) result }
{
    table.make_stack(n)
}

fn destroy_stack(table: Table, stack: StackId) -> Answer
    ensures { Hands table (destroy_stack stack.0) result }
{
    table.destroy_stack(stack)
}

fn add_thread(table: Table, thread: ThreadId, context: StoreId) -> Answer
    ensures { Hands table (add_thread thread.0 context.0) result }
{
    table.add_thread(thread, context)
}

fn remove_thread(table: Table, thread: ThreadId) -> Answer
    ensures { Hands table (remove_thread thread.0) result }
{
    table.remove_thread(thread)
}
