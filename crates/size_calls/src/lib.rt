// Calls 1, 4, 5 and 6, on the list of stores. Soundness is the table's to ask, before.
#![tactic(auto)]

ghost use Rattle.std.specs.Prelude.{[], ◌≡◌, ◌≢◌, IfErr, if◌then◌else◌};
ghost use Rattle.names.specs.Numbers.{told_of, number_of};
ghost use Rattle.meaning.specs.Model.{free, listed, store_of};
ghost use Rattle.meaning.specs.Calls.{root, total_of, used_of, free_of};
ghost use Rattle.meaning.specs.Parts.{replied};
ghost use Rattle.stores.specs.Stores.{view, back, reading as stores_of};

use lines::Lines;
use names::{Report, Store, StoreId};
use stores::Stores;

// Call 1. It has no check.
#[tactic(auto, unfolding(meaning::specs::Parts::replied, meaning::specs::Calls::row, meaning::specs::Calls::checks, meaning::specs::Calls::change, meaning::specs::Reports::first_report))]
pub fn root(stores: Stores) -> u32
    ensures { told_of (Ok result) ≡ replied (stores_of stores) [] root }
{
    stores.root().0
}

// The line of a listed store; report 5 for another.
#[tactic(auto, using(crate::proofs::Found::line_or))]
pub fn line(stores: Stores, store: StoreId) -> Result<Store, Report>
    ensures { result ≡ (if listed (stores_of stores) store.0 then Ok (back (store_of (stores_of stores) store.0)) else Err Report.NoSuchStore) }
{
    stores.find(store).ok_or(Report::NoSuchStore)
}

// Call 4.
#[tactic(auto, unfolding(meaning::specs::Parts::replied, meaning::specs::Calls::row, meaning::specs::Calls::checks, meaning::specs::Calls::change, meaning::specs::Reports::first_report))]
pub fn total(stores: Stores, store: StoreId) -> Result<u32, Report>
    ensures told { told_of result ≡ replied (stores_of stores) [] (total_of store.0) }
    ensures refused { IfErr result (λ r. number_of r ≢ 0) }
{
    Ok(line(stores, store)?.total)
}

// Call 5.
#[tactic(auto, unfolding(meaning::specs::Parts::replied, meaning::specs::Calls::row, meaning::specs::Calls::checks, meaning::specs::Calls::change, meaning::specs::Reports::first_report))]
pub fn used(stores: Stores, store: StoreId) -> Result<u32, Report>
    ensures told { told_of result ≡ replied (stores_of stores) [] (used_of store.0) }
    ensures refused { IfErr result (λ r. number_of r ≢ 0) }
{
    Ok(line(stores, store)?.used)
}

// Call 6.
#[tactic(auto, unfolding(meaning::specs::Parts::replied, meaning::specs::Calls::row, meaning::specs::Calls::checks, meaning::specs::Calls::change, meaning::specs::Reports::first_report))]
pub fn free(stores: Stores, store: StoreId) -> Result<u32, Report>
    ensures told { told_of result ≡ replied (stores_of stores) [] (free_of store.0) }
    ensures refused { IfErr result (λ r. number_of r ≢ 0) }
{
    Ok(free_of(line(stores, store)?))
}

// The free bytes of a line.
pub fn free_of(s: Store) -> u32
    ensures { result ≡ free (view s) }
{
    let unused = s.total.saturating_sub(s.used);
    unused.saturating_sub(Store::OVERHEAD)
}
