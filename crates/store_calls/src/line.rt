// What a line of the list of stores gives: where its free part begins, and the line of a thread's context. Sums are whole numbers of 64 bits.
ghost use Rattle.std.specs.Prelude.{◌≡◌, ◌+◌, ◌-◌, if◌then◌else◌};
ghost use Rattle.names.specs.Overhead.{allocation_overhead, store_taken};
ghost use Rattle.meaning.specs.Model.{free_part, thread_name, no_such_thread};
ghost use Rattle.meaning.specs.Reading.{fits32};
ghost use Rattle.meaning.specs.Reports.{context_store};
ghost use Rattle.meaning.specs.Parts.{stores_alone};
ghost use Rattle.lists.specs.Keyed.{has, at};
ghost use Rattle.threads.specs.Threads.{back as thread_back, reading as threads_of};
ghost use Rattle.stores.specs.Stores.{view, back, reading as stores_of};

use lines::Lines;
use names::{Block, Report, Store, Thread, ThreadId};
use stores::Stores;
use threads::Threads;

// Where the free part of a line begins.
pub fn free_start(s: Store) -> u64
    ensures { result ≡ (free_part (view s)).start }
{
    u64::from(s.id.0) + u64::from(Store::OVERHEAD) + u64::from(s.used)
}

// The value of call 8: the address behind the overhead of a block at the low end of the free part.
pub fn block_value(s: Store) -> u64
    ensures { result ≡ (free_part (view s)).start + allocation_overhead }
{
    free_start(s) + u64::from(Block::OVERHEAD)
}

// The line of a listed thread; report 12 for another.
#[tactic(auto, using(crate::proofs::Found::line_or))]
pub fn thread_line(threads: Threads, thread: ThreadId) -> Result<Thread, Report>
    ensures { result ≡ (if has thread_name (threads_of threads) thread.0 then Ok (thread_back (at thread_name no_such_thread (threads_of threads) thread.0)) else Err Report.NoThreadContext) }
{
    threads.find(thread).ok_or(Report::NoThreadContext)
}

// The line of a listed thread's context; report 12 for another thread.
pub fn context_line(stores: Stores, threads: Threads, thread: ThreadId) -> Result<Store, Report>
    ensures { result ≡ (if has thread_name (threads_of threads) thread.0 then Ok (back (context_store (stores_alone (stores_of stores) (threads_of threads)) thread.0)) else Err Report.NoThreadContext) }
{
    Ok(stores.line(thread_line(threads, thread)?.context))
}

// The used of the parent p where its child s gets a total of n bytes and the overhead.
pub fn resized_used(p: Store, s: Store, n: u32) -> u64
    ensures { result ≡ p.used + store_taken n - s.total }
{
    (u64::from(p.used) + Store::taken(n)).saturating_sub(u64::from(s.total))
}

// A number that does not fit 32 bits is met on an unsound table only.
pub fn fitting(x: u64) -> Result<u32, Report>
    ensures { result ≡ (if fits32 x then Ok x else Err Report.UnsoundTable) }
{
    u32::try_from(x).or(Err(Report::UnsoundTable))
}
