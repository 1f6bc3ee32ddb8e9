// Call 9.
ghost use Rattle.std.specs.Prelude.{◌≡◌, ◌≢◌, IfErr};
ghost use Rattle.names.specs.Numbers.{number_of};
ghost use Rattle.meaning.specs.Calls.{make_store};
ghost use Rattle.store_calls.specs.StoreCalls.{seen, roomed};

use crate::line::{context_line, fitting, free_start};
use crate::room::Roomed;
use lines::Lines;
use names::{Report, Store, StoreId, ThreadId};
use size_calls::free_of;
use stores::Stores;
use threads::Threads;

#[tactic(auto, using(stores::specs::Stores::reading_written, crate::specs::StoreCalls::grown_length), unfolding(crate::specs::StoreCalls::roomed, meaning::specs::Calls::row, meaning::specs::Calls::checks, meaning::specs::Calls::change, meaning::specs::Reports::first_report))]
pub fn make_store(
    stores: Stores,
    threads: Threads,
    thread: ThreadId,
    n: u32,
) -> Result<Roomed, Report>
    ensures told { seen stores result ≡ roomed stores threads (make_store thread.0 n) }
    ensures refused { IfErr result (λ r. number_of r ≢ 0) }
{
    let c = context_line(stores, threads, thread)?;
    let taken = Store::taken(n);
    if u64::from(free_of(c)) < taken {
        return Err(Report::OutOfMemory);
    }
    if 64 <= stores.len() {
        return Err(Report::TableFull);
    }
    let start = fitting(free_start(c))?;
    let total = taken as u32;
    let grown = stores.with_used(c.id, c.used + total);
    Ok(Roomed {
        stores: grown.with(Store::new(StoreId(start), total, c.id)),
        value: start,
    })
}
