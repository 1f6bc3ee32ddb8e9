// Call 8, without the bytes of the area.
ghost use Rattle.std.specs.Prelude.{◌≡◌, ◌≢◌, IfErr};
ghost use Rattle.names.specs.Numbers.{number_of};
ghost use Rattle.meaning.specs.Calls.{allocate};
ghost use Rattle.store_calls.specs.StoreCalls.{seen, roomed};

use crate::line::{block_value, context_line, fitting};
use crate::room::Roomed;
use names::{Block, Report, ThreadId};
use size_calls::free_of;
use stores::Stores;
use threads::Threads;

#[tactic(auto, unfolding(crate::specs::StoreCalls::roomed, meaning::specs::Calls::row, meaning::specs::Calls::checks, meaning::specs::Calls::change, meaning::specs::Reports::first_report))]
pub fn allocate(
    stores: Stores,
    threads: Threads,
    thread: ThreadId,
    n: u32,
) -> Result<Roomed, Report>
    ensures told { seen stores result ≡ roomed stores threads (allocate thread.0 n) }
    ensures refused { IfErr result (λ r. number_of r ≢ 0) }
{
    let c = context_line(stores, threads, thread)?;
    let taken = Block::taken(n);
    if u64::from(free_of(c)) < taken {
        return Err(Report::OutOfMemory);
    }
    let value = fitting(block_value(c))?;
    Ok(Roomed {
        stores: stores.with_used(c.id, c.used + taken as u32),
        value,
    })
}
