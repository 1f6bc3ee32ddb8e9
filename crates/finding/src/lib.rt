// Call 7: the deepest store whose total holds an address, found by going down from the root: the next line that is a child of the store and holds the
// address is the store to go on from. In a sound table a child's line follows its parent's, so one pass over the lines comes to the answer.
#![tactic(auto)]

ghost use Rattle.std.specs.Prelude.{◌≡◌, ◌≢◌, ◌<◌, IfErr, length, map};
ghost use Rattle.names.specs.Numbers.{number_of};
ghost use Rattle.meaning.specs.Model.{◌holds◌, whole};
ghost use Rattle.stores.specs.Stores.{view, reading};
ghost use Rattle.finding.specs.Descent.{seen, leads, descend, descent};

use lines::Lines;
use names::{Area, Report, Store, StoreId};
use stores::Stores;

// What an accepted call 7 tells: the store, and the number of parent-to-child steps from the root to it.
#[derive(Clone, Copy)]
pub struct Found {
    pub store: StoreId,
    pub steps: u32,
}

// The line's total holds the address.
fn holds(s: Store, address: u32) -> bool
    ensures { result ≡ whole (view s) holds address }
{
    areas::holds(Area::new(s.id.0, s.total), address)
}

// The line is a child of the store, and holds the address.
#[tactic(auto, unfolding(crate::specs::Descent::leads))]
fn leads_down(s: Store, store: StoreId, address: u32) -> bool
    ensures { result ≡ leads store.0 address (view s) }
{
    s.parent == store && holds(s, address)
}

// From the root down to the answer, in the lines that follow the root's.
#[tactic(auto, using(crate::specs::Steps::way_starts, crate::specs::Steps::way_leads, crate::specs::Steps::way_passes, crate::specs::Steps::way_ends))]
fn descend(lines: &[Store], root: StoreId, address: u32) -> Found
    requires { length lines.now < 64 }
    ensures { seen (Ok result) ≡ descend (map view lines.now) root.0 0 address }
{
    let mut found = Found {
        store: root,
        steps: 0,
    };
    for line in lines {
        if leads_down(*line, found.store, address) {
            found = Found {
                store: line.id,
                steps: found.steps + 1,
            };
        }
    }
    found
}

// Call 7.
#[tactic(auto, using(crate::specs::Steps::find_inside, crate::specs::Steps::find_none))]
pub fn find(stores: Stores, address: u32) -> Result<Found, Report>
    ensures told { seen result ≡ descent (reading stores) address }
    ensures refused { IfErr result (λ r. number_of r ≢ 0) }
{
    match stores.listed().split_first() {
        Some((root, lines)) if holds(*root, address) => Ok(descend(lines, root.id, address)),
        _ => Err(Report::UnknownAddress),
    }
}
