// Call 0: a table of one store, from anything.
ghost use Rattle.std.specs.Prelude.{[], ◌≡◌};
ghost use Rattle.meaning.specs.Calls.{start};
ghost use Rattle.meaning.specs.Reading.{run_of};
ghost use Rattle.stores.specs.Stores.{written as stores_written};
ghost use Rattle.table.specs.Calls.{seen, called, answer};
ghost use Rattle.table.specs.Started.{root_alone, fresh_table};

use crate::answer::{Answer, accepted, refused};
use crate::{Areas, Table};
use lines::Lines;
use names::{Area, Report, Store, StoreId};
use stacks::Stacks;
use stores::Stores;
use threads::Threads;

// The root alone, with the whole area and nothing used.
#[tactic(auto, using(stores::specs::Stores::reading_written))]
fn root_alone(area: Area) -> Stores
    ensures { result ≡ stores_written (root_alone area) }
{
    let root = StoreId(area.start);
    Stores::new().with(Store::new(root, area.length, root))
}

// One store with used 0, no threads, no stacks, all stack area free.
fn fresh(stores: Area, stacks: Area) -> Table
    ensures { result ≡ fresh_table stores stacks }
{
    let areas = Areas { stores, stacks };
    Table {
        areas,
        free: stacks,
        stores: root_alone(stores),
        threads: Threads::new(),
        stacks: Stacks::new(),
    }
}

impl Table {
    // Call 0.
    #[tactic(auto, using(crate::specs::Started::start_small, crate::specs::Started::start_bad, crate::specs::Started::start_good))]
    pub fn start(self, stores: Area, stacks: Area) -> Answer
        ensures { seen result ≡ answer (called self [] (start (run_of stores) (run_of stacks))) }
    {
        if stores.length < Store::OVERHEAD {
            return refused(self, Report::SizeTooSmall);
        }
        if !areas::sound(stores, stacks) {
            return refused(self, Report::BadArea);
        }
        accepted(fresh(stores, stacks), stores.start)
    }
}
