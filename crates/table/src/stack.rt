// Calls 12 and 13 on the table: soundness first, then the call on the stacks, their area and the free run.
ghost use Rattle.std.specs.Prelude.{[], ◌≡◌};
ghost use Rattle.meaning.specs.Calls.{make_stack, destroy_stack};
ghost use Rattle.table.specs.Calls.{seen, called, answer};

use crate::Table;
use crate::answer::{Answer, refused, with_stacks};
use names::StackId;

impl Table {
    // Call 12.
    #[tactic(auto, using(lines::specs::Shape::unmapped, crate::specs::Ways::sized, crate::specs::Ways::unsound_answer, crate::specs::EachCall::make_stack_called))]
    pub fn make_stack(self, n: u32) -> Answer
        ensures { seen result ≡ answer (called self [] (make_stack n)) }
    {
        let area = self.areas.stacks;
        match self.sound() {
            Ok(()) => with_stacks(
                self,
                stack_calls::make_stack(self.stacks, area, self.free, n),
            ),
            Err(report) => refused(self, report),
        }
    }

    // Call 13.
    #[tactic(auto, using(lines::specs::Shape::unmapped, crate::specs::Ways::sized, crate::specs::Ways::unsound_answer, crate::specs::EachCall::destroy_stack_called))]
    pub fn destroy_stack(self, stack: StackId) -> Answer
        ensures { seen result ≡ answer (called self [] (destroy_stack stack.0)) }
    {
        let area = self.areas.stacks;
        match self.sound() {
            Ok(()) => with_stacks(
                self,
                stack_calls::destroy_stack(self.stacks, area, self.free, stack),
            ),
            Err(report) => refused(self, report),
        }
    }
}
