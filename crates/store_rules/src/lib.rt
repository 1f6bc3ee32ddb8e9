// Rules 2, 3 and 4 of the stores, each asked of the lines that are listed, on every value of the struct.
#![tactic(auto)]

ghost use Rattle.std.specs.Prelude.{true, [], ◌≡◌, drop};
ghost use Rattle.lists.specs.Lists.{all, rest};
ghost use Rattle.meaning.specs.Rules.{root_sound, hangs, stores_hang, fits, stores_fit};
ghost use Rattle.meaning.specs.Reading.{run_of};
ghost use Rattle.stores.specs.Stores.{view, reading};
ghost use Rattle.store_rules.specs.Pass.{lies_in, walk};
ghost use Rattle.store_rules.specs.Broken.{is_root, broken_stores};

use lines::Lines;
use names::{Area, Store};
use stores::{Stores, end_of};

// The line has the whole area and is its own parent.
fn is_root(s: Store, area: Area) -> bool
    ensures { result ≡ is_root (run_of area) (view s) }
{
    s.id.0 == area.start && s.total == area.length && s.parent == s.id
}

// Rule 2: the first line is the root.
fn root_sound(stores: &Stores, area: Area) -> bool
    ensures { result ≡ root_sound (run_of area) (reading stores.now) }
{
    stores.listed().first().is_some_and(|s| is_root(*s, area))
}

// The line's parent is listed and has a lower start; its total is at least 16.
fn hangs(stores: &Stores, s: Store) -> bool
    ensures { result ≡ hangs (reading stores.now) (view s) }
{
    stores.has(s.parent) && s.parent < s.id && Store::OVERHEAD <= s.total
}

// Rule 3 of lines that rise: each but the first hangs.
fn all_hang(stores: &Stores) -> bool
    ensures { result ≡ all (hangs (reading stores.now)) (rest (reading stores.now)) }
{
    stores.listed().iter().skip(1).all(|s| hangs(stores, *s))
}

// The line's used is at most its total less 16. It widens by `as`, here and below, after which proofs name goals; `u64::from` says no more.
fn fits(s: Store) -> bool
    ensures { result ≡ fits (view s) }
{
    (s.used as u64) + (Store::OVERHEAD as u64) <= (s.total as u64)
}

fn all_fit(stores: &Stores) -> bool
    ensures { result ≡ all fits (reading stores.now) }
{
    stores.listed().iter().all(|s| fits(*s))
}

// The total of c lies in the used part of p.
fn lies_in(c: Store, p: Store) -> bool
    ensures { result ≡ lies_in (view c) (view p) }
{
    let from = (p.id.0 as u64) + (Store::OVERHEAD as u64);
    from <= (c.id.0 as u64) && end_of(c) <= from + (p.used as u64)
}

// The lines but the first.
fn others(lines: &[Store]) -> &[Store]
    ensures { result.now ≡ drop 1 lines.now }
{
    lines.get(1..).unwrap_or_default()
}

// Each line but the first, of lines that all hang, lies in its parent, behind the parent's last child before it: where that ended is remembered
// at the parent's place. It stands beside the lines, since a line has no room for it: how a line is laid out is C's, and there is no heap.
fn nest(stores: &Stores) -> bool
    requires { stores_hang (reading stores.now) ≡ true }
    ensures { result ≡ walk (reading stores.now) [] (rest (reading stores.now)) }
{
    let lines = stores.listed();
    let mut ends = [0u64; 64];
    for &c in others(lines) {
        let j = stores.half_place(c.parent);
        if !lies_in(c, lines[j]) || (c.id.0 as u64) < ends[j] {
            return false;
        }
        ends[j] = end_of(c);
    }
    true
}

// Rule 3.
#[tactic(auto, unfolding(meaning::specs::Rules::stores_hang))]
fn stores_hang(stores: &Stores) -> bool
    ensures { result ≡ stores_hang (reading stores.now) }
{
    stores.rises() && all_hang(stores)
}

// Rule 4, where rule 3 holds.
fn stores_fit(stores: &Stores) -> bool
    requires { stores_hang (reading stores.now) ≡ true }
    ensures { result ≡ stores_fit (reading stores.now) }
{
    all_fit(stores) && nest(stores)
}

// The lowest of rules 2, 3 and 4 that is broken, 0 where none is: a number, since rules have numbers in document 01 and the table tells them to C.
#[tactic(auto, unfolding(crate::specs::Broken::broken_stores, meaning::specs::Reports::first_report))]
pub fn broken_rule(stores: &Stores, area: Area) -> u32
    ensures { result ≡ broken_stores (run_of area) (reading stores.now) }
{
    if !root_sound(stores, area) {
        return 2;
    }
    if !stores_hang(stores) {
        return 3;
    }
    if !stores_fit(stores) {
        return 4;
    }
    0
}
