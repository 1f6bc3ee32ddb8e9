// Call 11: its checks, its change, and the call.
ghost use Rattle.std.specs.Prelude.{[], ◌≡◌, ◌≢◌, IfErr};
ghost use Rattle.names.specs.Numbers.{number_of};
ghost use Rattle.meaning.specs.Reports.{first_report};
ghost use Rattle.meaning.specs.Calls.{resize, checks};
ghost use Rattle.meaning.specs.Parts.{stores_alone};
ghost use Rattle.threads.specs.Threads.{written as threads_written};
ghost use Rattle.stores.specs.Stores.{reading as stores_of};
ghost use Rattle.store_calls.specs.StoreCalls.{seen, roomed, resized, Refuses};

use crate::line::{fitting, free_start, resized_used};
use crate::room::Roomed;
use names::{Report, Store, StoreId};
use size_calls::{free_of, line};
use stores::{Stores, end_of};

// The checks of call 11: the report of the first that refuses it.
#[tactic(auto, unfolding(meaning::specs::Calls::checks, meaning::specs::Reports::first_report))]
fn may_resize(stores: Stores, store: StoreId, n: u32) -> Result<(), Report>
    ensures { Refuses (first_report (checks (stores_alone (stores_of stores) []) [] (resize store.0 n))) result }
{
    let s = line(stores, store)?;
    if store == stores.root() {
        return Err(Report::RootResize);
    }
    if stores.has_other_child(s.parent, store) {
        return Err(Report::NotOnlyChild);
    }
    if s.used != 0 {
        return Err(Report::NotEmpty);
    }
    let total = Store::taken(n);
    // document 01's order has this check, though n + 16 is never below 16
    if total < u64::from(Store::OVERHEAD) {
        return Err(Report::CannotShrink);
    }
    let p = stores.line(s.parent);
    if end_of(s) != free_start(p) {
        return Err(Report::Fragmentation);
    }
    if u64::from(s.total) + u64::from(free_of(p)) < total {
        return Err(Report::OutOfMemory);
    }
    Ok(())
}

// The change of call 11.
#[tactic(auto, using(stores::specs::Stores::reading_written), unfolding(crate::specs::StoreCalls::resized, meaning::specs::Calls::change))]
fn resized(stores: Stores, store: StoreId, n: u32) -> Result<Roomed, Report>
    ensures told { seen stores result ≡ resized stores store.0 n }
    ensures refused { IfErr result (λ r. number_of r ≢ 0) }
{
    let s = stores.line(store);
    let p = stores.line(s.parent);
    let total = fitting(Store::taken(n))?;
    let used = fitting(resized_used(p, s, n))?;
    Ok(Roomed {
        stores: stores.with_total(store, total).with_used(p.id, used),
        value: store.0,
    })
}

// Call 11.
#[tactic(auto, using(crate::specs::StoreCalls::resize_refused, crate::specs::StoreCalls::resize_accepted))]
pub fn resize(stores: Stores, store: StoreId, n: u32) -> Result<Roomed, Report>
    ensures told { seen stores result ≡ roomed stores (threads_written []) (resize store.0 n) }
    ensures refused { IfErr result (λ r. number_of r ≢ 0) }
{
    may_resize(stores, store, n)?;
    resized(stores, store, n)
}
