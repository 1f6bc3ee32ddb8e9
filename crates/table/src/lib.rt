// The table that the board holds, and whether it is sound.
#![tactic(auto)]

ghost use Rattle.std.specs.Prelude.{◌≡◌, if◌then◌else◌};
ghost use Rattle.table.specs.Table.{all_clean, zero_table, broken_rule, sound_table};

mod answer;
mod find;
mod lent;
mod stack;
mod start;
mod store;
mod thread;

pub use answer::{Answer, Found, refused};
use lines::Lines;
use names::{Area, Report};
use stacks::Stacks;
use stores::Stores;
use threads::Threads;

// The two areas.
#[repr(C)]
#[derive(Clone, Copy)]
pub struct Areas {
    pub stores: Area,
    pub stacks: Area,
}

// The areas, the free run of the stack area, and the three lists.
#[repr(C)]
#[derive(Clone, Copy)]
pub struct Table {
    pub areas: Areas,
    pub free: Area,
    pub stores: Stores,
    pub threads: Threads,
    pub stacks: Stacks,
}

impl Table {
    // The table of zeros: what there is before a start.
    #[tactic(auto, unfolding(crate::specs::Table::zero_table))]
    pub fn zeros() -> Self
        ensures { result ≡ zero_table }
    {
        let none = Area::new(0, 0);
        let areas = Areas {
            stores: none,
            stacks: none,
        };
        Self {
            areas,
            free: none,
            stores: Stores::new(),
            threads: Threads::new(),
            stacks: Stacks::new(),
        }
    }

    // Every call but a start asks this first.
    #[tactic(auto, using(crate::specs::Laws::sound_unbroken))]
    pub fn is_sound(self) -> bool
        ensures { result ≡ sound_table self }
    {
        self.broken_rule() == 0
    }

    // Report 16 of an unsound table.
    fn sound(self) -> Result<(), Report>
        ensures { result ≡ (if sound_table self then Ok tt else Err Report.UnsoundTable) }
    {
        if self.is_sound() {
            Ok(())
        } else {
            Err(Report::UnsoundTable)
        }
    }

    // The lowest of the eight rules that is broken, 0 if none: document 01's number of the rule, which C is told too.
    pub fn broken_rule(self) -> u32
        ensures { result ≡ broken_rule self }
    {
        let store_area = self.areas.stores;
        let stack_area = self.areas.stacks;
        if !areas::sound(store_area, stack_area) {
            return 1;
        }
        let k = store_rules::broken_rule(&self.stores, store_area);
        if k != 0 {
            return k;
        }
        if !contexts::threads_placed(&self.threads, &self.stores) {
            return 5;
        }
        if !stack_rules::fit(&self.stacks, stack_area, self.free) {
            return 6;
        }
        if !stack_rules::run_sound(&self.stacks, stack_area, self.free) {
            return 7;
        }
        if !all_clean(&self.stores, &self.threads, &self.stacks) {
            return 8;
        }
        0
    }
}

// Rule 8: the lists are clean.
fn all_clean(stores: &Stores, threads: &Threads, stacks: &Stacks) -> bool
    ensures { result ≡ all_clean stores.now threads.now stacks.now }
{
    stores.is_clean() && threads.is_clean() && stacks.is_clean()
}
