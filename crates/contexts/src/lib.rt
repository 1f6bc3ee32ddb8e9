// What rule 5 and report 6 ask of the threads' contexts in the list of stores.
#![tactic(auto)]

ghost use Rattle.std.specs.Prelude.{◌≡◌};
ghost use Rattle.lists.specs.Lists.{all, any};
ghost use Rattle.meaning.specs.Rules.{threads_placed};
ghost use Rattle.threads.specs.Threads.{reading as threads_of};
ghost use Rattle.stores.specs.Stores.{reading as stores_of};
ghost use Rattle.contexts.specs.Contexts.{in_listed, in_nested};

use lines::Lines;
use names::StoreId;
use stores::Stores;
use threads::Threads;

// Each thread has a listed store as context.
fn all_listed(threads: &Threads, stores: &Stores) -> bool
    ensures { result ≡ all (in_listed (stores_of stores.now)) (threads_of threads.now) }
{
    threads.listed().iter().all(|t| stores.has(t.context))
}

// Rule 5.
#[tactic(auto, unfolding(meaning::specs::Rules::threads_placed))]
pub fn threads_placed(threads: &Threads, stores: &Stores) -> bool
    ensures { result ≡ threads_placed (stores_of stores.now) (threads_of threads.now) }
{
    threads.rises() && all_listed(threads, stores)
}

// Report 6: some thread's context is nested in the store.
pub fn some_nested_in(threads: &Threads, stores: &Stores, store: StoreId) -> bool
    ensures { result ≡ any (in_nested (stores_of stores.now) store.0) (threads_of threads.now) }
{
    threads
        .listed()
        .iter()
        .any(|t| stores.nested_in(t.context, store))
}
