// Calls 2, 3, 14 and 15 on the table: soundness first, then the call on the lists that it looks at.
ghost use Rattle.std.specs.Prelude.{[], ◌≡◌};
ghost use Rattle.meaning.specs.Calls.{context_of, set_context, add_thread, remove_thread};
ghost use Rattle.table.specs.Calls.{seen, called, answer};

use crate::Table;
use crate::answer::{Answer, refused, told, with_threads};
use names::{StoreId, ThreadId};

impl Table {
    // Call 2.
    #[tactic(auto, using(lines::specs::Shape::unmapped, crate::specs::Ways::sized, crate::specs::Ways::unsound_answer, crate::specs::EachCall::context_called))]
    pub fn context(self, thread: ThreadId) -> Answer
        ensures { seen result ≡ answer (called self [] (context_of thread.0)) }
    {
        let call = |()| thread_calls::context(self.threads, thread);
        told(self, self.sound().and_then(call))
    }

    // Call 3.
    #[tactic(auto, using(lines::specs::Shape::unmapped, crate::specs::Ways::sized, crate::specs::Ways::unsound_answer, crate::specs::EachCall::set_context_called))]
    pub fn set_context(self, thread: ThreadId, store: StoreId) -> Answer
        ensures { seen result ≡ answer (called self [] (set_context thread.0 store.0)) }
    {
        match self.sound() {
            Ok(()) => with_threads(
                self,
                thread_calls::set_context(self.threads, self.stores, thread, store),
            ),
            Err(report) => refused(self, report),
        }
    }

    // Call 14.
    #[tactic(auto, using(lines::specs::Shape::unmapped, crate::specs::Ways::sized, crate::specs::Ways::unsound_answer, crate::specs::EachCall::add_thread_called))]
    pub fn add_thread(self, thread: ThreadId, context: StoreId) -> Answer
        ensures { seen result ≡ answer (called self [] (add_thread thread.0 context.0)) }
    {
        match self.sound() {
            Ok(()) => with_threads(
                self,
                thread_calls::add_thread(self.threads, self.stores, thread, context),
            ),
            Err(report) => refused(self, report),
        }
    }

    // Call 15.
    #[tactic(auto, using(lines::specs::Shape::unmapped, crate::specs::Ways::sized, crate::specs::Ways::unsound_answer, crate::specs::EachCall::remove_thread_called))]
    pub fn remove_thread(self, thread: ThreadId) -> Answer
        ensures { seen result ≡ answer (called self [] (remove_thread thread.0)) }
    {
        let call = |()| thread_calls::remove_thread(self.threads, thread);
        with_threads(self, self.sound().map(call))
    }
}
