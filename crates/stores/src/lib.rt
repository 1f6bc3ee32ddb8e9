// The list of stores: at most 64 lines, by rising start. What every list of lines does is said in `lines`; here is what a line of this one is, and what only stores have.
#![tactic(auto)]

ghost use Rattle.std.specs.Prelude.{◌≡◌, refl};
ghost use Rattle.std.proofs.Common.{sym};
ghost use Rattle.lists.specs.Lists.{any, rest};
ghost use Rattle.meaning.specs.Model.{Store, end, whole, store_name, store_of, root_of};
ghost use Rattle.meaning.specs.Nesting.{parent_in, nested};
ghost use Rattle.meaning.specs.Changes.{with_used, with_total, cleared};
ghost use Rattle.stores.specs.Stores.{view, back, store_line, reading, written, clean, is_other_child, made, reading_is, clean_is};

use lines::Lines;
use names::{Store, StoreId};

#[repr(C)]
#[derive(Clone, Copy)]
pub struct Stores {
    pub count: u32,
    pub lines: [Store; 64],
}

// A line of zeros.
const NONE: Store = Store {
    id: StoreId(0),
    total: 0,
    used: 0,
    parent: StoreId(0),
};

// The address after the line's last, as a whole number of 64 bits. The sum stands by itself, as that of an area does, and widens by `as`, after which
// proofs name goals: a shared form would be no shorter.
pub fn end_of(s: Store) -> u64
    ensures { result ≡ end (whole (view s)) }
{
    let k = s.id;
    (k.0 as u64) + (s.total as u64)
}

// The other two lists have the same accessors: C takes no generic struct, so each list is a struct of its own and names its own fields.
impl Lines for Stores {
    type Line = Store;

    type Id = StoreId;

    ghost Meaning = { Store };

    ghost shape = { store_line };

    ghost name = { store_name };

    ghost number = { λ id. id.0 };

    ghost count_of = { λ s. s.count };

    ghost lines_of = { λ s. s.lines };

    ghost made = { λ n ls. record { count = n; lines = ls } };

    ghost reading = { reading };

    ghost written = { written };

    ghost clean = { clean };

    ghost reads = { reading_is };

    ghost writes = { λ ss. sym (made _ _ ss refl refl) };

    ghost cleans = { clean_is };

    ghost counts = { λ n ls. refl };

    ghost lines_made = { λ n ls. refl };

    fn number(id: StoreId) -> u32 {
        id.0
    }

    fn key(line: &Store) -> u32 {
        line.id.0
    }

    fn is_zeros(line: &Store) -> bool {
        *line == NONE
    }

    #[tactic(auto, unfolding(crate::specs::Stores::written, lines::specs::Shape::pad))]
    fn new() -> Self {
        Self {
            count: 0,
            lines: [NONE; 64],
        }
    }

    fn count(&self) -> u32 {
        self.count
    }

    fn lines(&self) -> &[Store] {
        &self.lines
    }

    fn push(&mut self, line: Store) {
        let n = self.count as usize;
        if n < self.lines.len() {
            self.lines[n] = line;
            self.count += 1;
        }
    }
}

impl Stores {
    // The line of a listed store; for another, an empty store that is its own parent.
    pub fn line(&self, id: StoreId) -> Store
        ensures { result ≡ back (store_of (reading self.now) id.0) }
    {
        self.find(id).unwrap_or(Store::new(id, 0, id))
    }

    // The parent of a listed store; another is its own.
    pub fn parent(&self, store: StoreId) -> StoreId
        ensures { result.0 ≡ parent_in (reading self.now) store.0 }
    {
        self.line(store).parent
    }

    // The first store, 0 where there is none.
    pub fn root(&self) -> StoreId
        ensures { result.0 ≡ root_of (reading self.now) }
    {
        self.listed().first().map_or(StoreId(0), |s| s.id)
    }

    // Another used for that store.
    pub fn with_used(&self, id: StoreId, used: u32) -> Self
        ensures { result ≡ written (with_used id.0 used (reading self.now)) }
    {
        self.each(|s| if s.id == id { Store { used, ..s } } else { s })
    }

    // Another total for that store.
    pub fn with_total(&self, id: StoreId, total: u32) -> Self
        ensures { result ≡ written (with_total id.0 total (reading self.now)) }
    {
        self.each(|s| if s.id == id { Store { total, ..s } } else { s })
    }

    // Nested in: asked upward along the parent links.
    pub fn nested_in(&self, store: StoreId, inside: StoreId) -> bool
        ensures { result ≡ nested (reading self.now) store.0 inside.0 }
    {
        let up = self.parent(store);
        up < store && (up == inside || self.nested_in(up, inside))
    }

    // All stores nested in that one go, and its used becomes 0.
    pub fn cleared(&self, store: StoreId) -> Self
        ensures { result ≡ written (cleared store.0 (reading self.now)) }
    {
        self.kept(|s| !self.nested_in(s.id, store))
            .with_used(store, 0)
    }

    // That parent has another child than that store.
    pub fn has_other_child(&self, parent: StoreId, store: StoreId) -> bool
        ensures { result ≡ any (is_other_child parent.0 store.0) (rest (reading self.now)) }
    {
        self.listed()
            .iter()
            .skip(1)
            .any(|c| c.parent == parent && c.id != store)
    }
}
