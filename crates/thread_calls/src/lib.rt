// Calls 2, 3, 14 and 15, on the lists that they look at. The checks stand in document 01's order, one under the other. Soundness is the table's to ask, before.
#![tactic(auto)]

ghost use Rattle.std.specs.Prelude.{[], ◌≡◌, ◌≢◌, IfErr, if◌then◌else◌};
ghost use Rattle.lists.specs.Keyed.{has, at};
ghost use Rattle.meaning.specs.Model.{thread_name, no_such_thread};
ghost use Rattle.meaning.specs.Calls.{context_of, set_context, add_thread, remove_thread};
ghost use Rattle.meaning.specs.Parts.{replied};
ghost use Rattle.names.specs.Numbers.{told_of, number_of};
ghost use Rattle.stores.specs.Stores.{reading as stores_of};
ghost use Rattle.threads.specs.Threads.{back, reading as threads_of};
ghost use Rattle.thread_calls.specs.ThreadCalls.{seen, threads_after, crowded, placed_if_room};

use lines::Lines;
use names::{Report, StoreId, Thread, ThreadId};
use stores::Stores;
use threads::Threads;

// The line of a listed thread; report 12 for another.
#[tactic(auto, using(crate::proofs::Found::line_or))]
fn line(threads: Threads, thread: ThreadId) -> Result<Thread, Report>
    ensures { result ≡ (if has thread_name (threads_of threads) thread.0 then Ok (back (at thread_name no_such_thread (threads_of threads) thread.0)) else Err Report.NoThreadContext) }
{
    threads.find(thread).ok_or(Report::NoThreadContext)
}

// Call 2.
#[tactic(auto, unfolding(meaning::specs::Parts::replied, meaning::specs::Calls::row, meaning::specs::Calls::checks, meaning::specs::Calls::change, meaning::specs::Reports::first_report))]
pub fn context(threads: Threads, thread: ThreadId) -> Result<u32, Report>
    ensures told { told_of result ≡ replied [] (threads_of threads) (context_of thread.0) }
    ensures refused { IfErr result (λ r. number_of r ≢ 0) }
{
    Ok(line(threads, thread)?.context.0)
}

// Call 3.
#[tactic(auto, unfolding(crate::specs::ThreadCalls::threads_after, meaning::specs::Calls::row, meaning::specs::Calls::checks, meaning::specs::Calls::change, meaning::specs::Reports::first_report))]
pub fn set_context(
    threads: Threads,
    stores: Stores,
    thread: ThreadId,
    store: StoreId,
) -> Result<Threads, Report>
    ensures told { seen threads result ≡ threads_after (stores_of stores) threads (set_context thread.0 store.0) }
    ensures refused { IfErr result (λ r. number_of r ≢ 0) }
{
    if !threads.has(thread) {
        return Err(Report::NoThreadContext);
    }
    if !stores.has(store) {
        return Err(Report::NoSuchStore);
    }
    Ok(threads.with_context(thread, store))
}

// Report 14 of call 14: 32 threads and this one new.
fn no_place(threads: Threads, thread: ThreadId) -> bool
    ensures { result ≡ crowded (threads_of threads) thread.0 }
{
    32 <= threads.len() && !threads.has(thread)
}

// A listed thread gets the new context, another is put in; the same list where it has no place.
fn with_thread_in(threads: Threads, thread: ThreadId, context: StoreId) -> Threads
    ensures { result ≡ placed_if_room threads thread.0 context.0 }
{
    if threads.has(thread) {
        threads.with_context(thread, context)
    } else {
        threads.with(Thread::new(thread, context))
    }
}

// Call 14.
#[tactic(auto, unfolding(crate::specs::ThreadCalls::threads_after, meaning::specs::Calls::row, meaning::specs::Calls::checks, meaning::specs::Calls::change, meaning::specs::Reports::first_report))]
pub fn add_thread(
    threads: Threads,
    stores: Stores,
    thread: ThreadId,
    context: StoreId,
) -> Result<Threads, Report>
    ensures told { seen threads result ≡ threads_after (stores_of stores) threads (add_thread thread.0 context.0) }
    ensures refused { IfErr result (λ r. number_of r ≢ 0) }
{
    if !stores.has(context) {
        return Err(Report::NoSuchStore);
    }
    if no_place(threads, thread) {
        return Err(Report::TableFull);
    }
    Ok(with_thread_in(threads, thread, context))
}

// Call 15. It has no check.
#[tactic(auto, unfolding(crate::specs::ThreadCalls::threads_after, meaning::specs::Calls::row, meaning::specs::Calls::checks, meaning::specs::Calls::change, meaning::specs::Reports::first_report))]
pub fn remove_thread(threads: Threads, thread: ThreadId) -> Threads
    ensures { seen threads (Ok result) ≡ threads_after [] threads (remove_thread thread.0) }
{
    threads.without(thread)
}
