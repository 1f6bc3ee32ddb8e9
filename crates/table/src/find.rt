// Call 7 on the table: soundness first, then the way down from the root.
ghost use Rattle.std.specs.Prelude.{[], ◌≡◌};
ghost use Rattle.meaning.specs.Calls.{find};
ghost use Rattle.names.specs.Numbers.{number_of};
ghost use Rattle.table.specs.Calls.{seen_found, called, found_answer};

use crate::Table;
use crate::answer::Found;
use names::Report;

impl Table {
    // Call 7.
    #[tactic(auto, using(lines::specs::Shape::unmapped, crate::specs::Ways::sized, crate::specs::Finding::unsound_found, crate::specs::Finding::find_called))]
    pub fn find(self, address: u32) -> Found
        ensures { seen_found result ≡ found_answer (called self [] (find address)) }
    {
        let call = |()| finding::find(self.stores, address);
        match self.sound().and_then(call) {
            Ok(found) => Found {
                table: self,
                report: Report::Accepted,
                value: found.store.0,
                steps: found.steps,
            },
            Err(report) => not_found(self, report),
        }
    }
}

// A refusal: the same table, no value and no steps.
fn not_found(same: Table, report: Report) -> Found
    ensures { seen_found result ≡ record { table = same; report = number_of report; value = 0; steps = 0 } }
{
    Found {
        table: same,
        report,
        value: 0,
        steps: 0,
    }
}
