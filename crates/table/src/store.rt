// Calls 1, 4, 5, 6 and 9 to 11 on the table: soundness first, then the call on the lists that it looks at.
ghost use Rattle.std.specs.Prelude.{[], ◌≡◌};
ghost use Rattle.meaning.specs.Calls.{root, total_of, used_of, free_of, make_store, clear, resize};
ghost use Rattle.table.specs.Calls.{seen, called, answer};

use crate::Table;
use crate::answer::{Answer, refused, told, with_stores};
use names::{StoreId, ThreadId};

impl Table {
    // Call 1.
    #[tactic(auto, using(lines::specs::Shape::unmapped, crate::specs::Ways::sized, crate::specs::Ways::unsound_answer, crate::specs::EachCall::root_called))]
    pub fn root(self) -> Answer
        ensures { seen result ≡ answer (called self [] root) }
    {
        let call = |()| size_calls::root(self.stores);
        told(self, self.sound().map(call))
    }

    // Call 4.
    #[tactic(auto, using(lines::specs::Shape::unmapped, crate::specs::Ways::sized, crate::specs::Ways::unsound_answer, crate::specs::EachCall::total_called))]
    pub fn total(self, store: StoreId) -> Answer
        ensures { seen result ≡ answer (called self [] (total_of store.0)) }
    {
        let call = |()| size_calls::total(self.stores, store);
        told(self, self.sound().and_then(call))
    }

    // Call 5.
    #[tactic(auto, using(lines::specs::Shape::unmapped, crate::specs::Ways::sized, crate::specs::Ways::unsound_answer, crate::specs::EachCall::used_called))]
    pub fn used(self, store: StoreId) -> Answer
        ensures { seen result ≡ answer (called self [] (used_of store.0)) }
    {
        let call = |()| size_calls::used(self.stores, store);
        told(self, self.sound().and_then(call))
    }

    // Call 6.
    #[tactic(auto, using(lines::specs::Shape::unmapped, crate::specs::Ways::sized, crate::specs::Ways::unsound_answer, crate::specs::EachCall::free_called))]
    pub fn free(self, store: StoreId) -> Answer
        ensures { seen result ≡ answer (called self [] (free_of store.0)) }
    {
        let call = |()| size_calls::free(self.stores, store);
        told(self, self.sound().and_then(call))
    }

    // Call 9.
    #[tactic(auto, using(lines::specs::Shape::unmapped, crate::specs::Ways::sized, crate::specs::Ways::unsound_answer, crate::specs::EachCall::make_store_called))]
    pub fn make_store(self, thread: ThreadId, n: u32) -> Answer
        ensures { seen result ≡ answer (called self [] (make_store thread.0 n)) }
    {
        match self.sound() {
            Ok(()) => with_stores(
                self,
                store_calls::make_store(self.stores, self.threads, thread, n),
            ),
            Err(report) => refused(self, report),
        }
    }

    // Call 10.
    #[tactic(auto, using(lines::specs::Shape::unmapped, crate::specs::Ways::sized, crate::specs::Ways::unsound_answer, crate::specs::EachCall::clear_called))]
    pub fn clear(self, thread: ThreadId) -> Answer
        ensures { seen result ≡ answer (called self [] (clear thread.0)) }
    {
        match self.sound() {
            Ok(()) => with_stores(self, store_calls::clear(self.stores, self.threads, thread)),
            Err(report) => refused(self, report),
        }
    }

    // Call 11.
    #[tactic(auto, using(lines::specs::Shape::unmapped, crate::specs::Ways::sized, crate::specs::Ways::unsound_answer, crate::specs::EachCall::resize_called))]
    pub fn resize(self, store: StoreId, n: u32) -> Answer
        ensures { seen result ≡ answer (called self [] (resize store.0 n)) }
    {
        match self.sound() {
            Ok(()) => with_stores(self, store_calls::resize(self.stores, store, n)),
            Err(report) => refused(self, report),
        }
    }
}
