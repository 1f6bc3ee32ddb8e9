// The calls that are lent areas: call 8, which changes the bytes of its block, and the run question, which changes none. Each asks soundness by a test: none
// goes on with a `Result` alone, since call 8 has a check of the lent area and the bytes besides, and the run question gives a report and a part.
ghost use Rattle.std.specs.Prelude.{◌≡◌, ◌+◌};
ghost use Rattle.meaning.specs.Calls.{allocate};
ghost use Rattle.meaning.specs.RunQuestion.{lent_of, part_bytes};
ghost use Rattle.names.specs.Numbers.{number_of};
ghost use Rattle.table.specs.Calls.{seen, called, answer, run_number, table_run};

use crate::Table;
use crate::answer::{Answer, refused, with_stores};
use names::{Report, ThreadId};

impl Table {
    // Call 8. All n + 4 bytes of the block become 0; no other byte changes.
    #[tactic(auto, using(lines::specs::Shape::unmapped, crate::specs::Ways::sized, crate::specs::Ways::unsound_answer, crate::specs::Lent::unsound_bytes, crate::specs::Lent::length_answer, crate::specs::Lent::length_bytes, crate::specs::Lent::allocate_called))]
    pub fn allocate(self, area: &mut [u8], thread: ThreadId, n: u32) -> Answer
        ensures told { seen result ≡ answer (called self area.old (allocate thread.0 n)) }
        ensures bytes { area.new ≡ (called self area.old (allocate thread.0 n)).bytes }
    {
        if !self.is_sound() {
            return refused(self, Report::UnsoundTable);
        }
        let home = self.areas.stores;
        if area.len() != home.length as usize {
            return refused(self, Report::BadArea);
        }
        let roomed = store_calls::allocate(self.stores, self.threads, thread, n);
        zeroing::zero_block(area, home.start, roomed.map(|r| r.value), n);
        with_stores(self, roomed)
    }

    // The report of the run question.
    #[tactic(auto, using(lines::specs::Shape::unmapped, crate::specs::Ways::sized, crate::specs::Lent::report_unsound, crate::specs::Lent::report_sound))]
    pub fn run_report(self, stores: &[u8], stacks: &[u8], address: u32, n: u32) -> Report
        ensures { number_of result ≡ run_number self stores.now stacks.now address n }
    {
        if !self.is_sound() {
            return Report::UnsoundTable;
        }
        let areas = self.areas;
        runs::report(areas.stores, areas.stacks, stores, stacks, address, n)
    }

    // The run question: the run itself, as a part of the area that it is in; an empty part where its report refuses it.
    pub fn run<'a>(self, stores: &'a [u8], stacks: &'a [u8], address: u32, n: u32) -> &'a [u8]
        ensures bytes { result.now ≡ part_bytes (table_run self stores.now stacks.now address n) stores.now stacks.now }
        ensures memory { result.ref_ptr.0 ≡ lent_of (table_run self stores.now stacks.now address n).area stores.entry.ref_ptr.0 stacks.entry.ref_ptr.0 }
        ensures place { result.ref_ptr.1 ≡ lent_of (table_run self stores.now stacks.now address n).area stores.entry.ref_ptr.1 stacks.entry.ref_ptr.1 + (table_run self stores.now stacks.now address n).offset }
    {
        if !self.is_sound() {
            return &stores[0..0];
        }
        let areas = self.areas;
        runs::run(areas.stores, areas.stacks, stores, stacks, address, n)
    }
}
