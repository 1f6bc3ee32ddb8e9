// Call 10.
ghost use Rattle.std.specs.Prelude.{◌≡◌, ◌≢◌, IfErr};
ghost use Rattle.names.specs.Numbers.{number_of};
ghost use Rattle.meaning.specs.Calls.{clear};
ghost use Rattle.store_calls.specs.StoreCalls.{seen, roomed};

use crate::line::thread_line;
use crate::room::Roomed;
use contexts::some_nested_in;
use names::{Report, ThreadId};
use stores::Stores;
use threads::Threads;

#[tactic(auto, unfolding(crate::specs::StoreCalls::roomed, meaning::specs::Calls::row, meaning::specs::Calls::checks, meaning::specs::Calls::change, meaning::specs::Reports::first_report))]
pub fn clear(stores: Stores, threads: Threads, thread: ThreadId) -> Result<Roomed, Report>
    ensures told { seen stores result ≡ roomed stores threads (clear thread.0) }
    ensures refused { IfErr result (λ r. number_of r ≢ 0) }
{
    let context = thread_line(threads, thread)?.context;
    if some_nested_in(&threads, &stores, context) {
        return Err(Report::StoreInUse);
    }
    Ok(Roomed {
        stores: stores.cleared(context),
        value: 0,
    })
}
