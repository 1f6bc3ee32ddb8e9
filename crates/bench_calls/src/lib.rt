// One record of the call list on the bench: identifiers are made from its raw numbers, and the call is made on the table.
#![tactic(auto)]

ghost use Rattle.std.specs.Prelude.{◌≡◌};
ghost use Rattle.call_list.specs.Decoded.{entry_of};
ghost use Rattle.meaning.specs.Calls.{allocate};
ghost use Rattle.meaning.specs.Reading.{run_of};
ghost use Rattle.table.specs.Calls.{seen, answer};
ghost use Rattle.bench_calls.specs.Bench.{bench_start, bench_called};
ghost use Rattle.bench_calls.specs.Steps.{stepped_to, seen_of, stepped, stores_after};

use call_list::Record;
use names::{Area, Report, StackId, Store, StoreId, ThreadId};
use table::{Answer, Table, refused};

// What is lent of stores, and of stacks, at most.
const MOST: u32 = 4096;

// What is printed of a call.
#[derive(Clone, Copy)]
pub struct Printout {
    pub code: u32,
    pub report: u32,
    pub value: u32,
}

// The table after what stands at a place, and what is printed of it: none where the program stops at it.
#[derive(Clone, Copy)]
pub struct Stepped {
    pub table: Table,
    pub printout: Option<Printout>,
}

// An answer of the manager, with the call's code.
fn told(code: u32, answer: Answer) -> Stepped
    ensures { result ≡ stepped_to code (seen answer) }
{
    Stepped {
        table: answer.table,
        printout: Some(Printout {
            code,
            report: answer.report.number(),
            value: answer.value,
        }),
    }
}

// Call 0: the check for 4, then what the bench can lend, then the manager.
#[tactic(auto, unfolding(crate::specs::Bench::bench_start, meaning::specs::Reports::first_report))]
fn start(table: Table, stores: Area, stacks: Area) -> Answer
    ensures { seen result ≡ answer (bench_start table (run_of stores) (run_of stacks)) }
{
    if stores.length < Store::OVERHEAD {
        return refused(table, Report::SizeTooSmall);
    }
    if MOST < stores.length || MOST < stacks.length {
        return refused(table, Report::BadArea);
    }
    table.start(stores, stacks)
}

// Call 8 is lent the table's store area, as much of it as the store buffer has.
#[tactic(auto, using(crate::specs::Steps::lent_back))]
fn allocated(table: Table, stores: &mut [u8], thread: ThreadId, n: u32) -> Answer
    ensures told { seen result ≡ seen_of (bench_called table stores.old (allocate thread.0 n)) }
    ensures bytes { stores.new ≡ (bench_called table stores.old (allocate thread.0 n)).stores }
{
    let end = (table.areas.stores.length as usize).min(stores.len());
    table.allocate(&mut stores[..end], thread, n)
}

// What stands at a place of the list: a call is made on the table, and at anything else nothing changes.
#[tactic(auto, unfolding(crate::specs::Bench::bench_called))]
pub fn step(table: Table, stores: &mut [u8], found: Option<Record>) -> Stepped
    ensures told { result ≡ stepped table stores.old (entry_of found) }
    ensures bytes { stores.new ≡ stores_after table stores.old (entry_of found) }
{
    let Some(call) = found else {
        return Stepped {
            table,
            printout: None,
        };
    };
    match call {
        Record::Start(a, n, b, k) => told(0, start(table, Area::new(a, n), Area::new(b, k))),
        Record::Root => told(1, table.root()),
        Record::Context(t) => told(2, table.context(ThreadId(t))),
        Record::SetContext(t, s) => told(3, table.set_context(ThreadId(t), StoreId(s))),
        Record::Total(s) => told(4, table.total(StoreId(s))),
        Record::Used(s) => told(5, table.used(StoreId(s))),
        Record::Free(s) => told(6, table.free(StoreId(s))),
        Record::Find(a) => told(7, Answer::from(table.find(a))),
        Record::Allocate(t, n) => told(8, allocated(table, stores, ThreadId(t), n)),
        Record::MakeStore(t, n) => told(9, table.make_store(ThreadId(t), n)),
        Record::Clear(t) => told(10, table.clear(ThreadId(t))),
        Record::Resize(s, n) => told(11, table.resize(StoreId(s), n)),
        Record::MakeStack(n) => told(12, table.make_stack(n)),
        Record::DestroyStack(k) => told(13, table.destroy_stack(StackId(k))),
        Record::AddThread(t, s) => told(14, table.add_thread(ThreadId(t), StoreId(s))),
        Record::RemoveThread(t) => told(15, table.remove_thread(ThreadId(t))),
    }
}
