// What a call hands back: the whole table, the report and the value. Document 01 names this form, so the calls on the lists give a `Result`, and the table's methods this.
ghost use Rattle.std.specs.Prelude.{◌≡◌};
ghost use Rattle.names.specs.Numbers.{number_of, told_of};
ghost use Rattle.thread_calls.specs.ThreadCalls.{seen as threads_seen};
ghost use Rattle.store_calls.specs.StoreCalls.{seen as stores_seen};
ghost use Rattle.stack_calls.specs.StackCalls.{seen as stacks_seen};
ghost use Rattle.table.specs.Calls.{seen, seen_found, told_of_found};
ghost use Rattle.table.specs.Ways.{reply_of, threads_put, stores_put, stacks_put};

use crate::Table;
use names::Report;
use stack_calls::Piled;
use store_calls::Roomed;
use threads::Threads;

#[derive(Clone, Copy)]
pub struct Answer {
    pub table: Table,
    pub report: Report,
    pub value: u32,
}

// What find hands back: the number of parent-to-child steps from the root to the answer too.
#[derive(Clone, Copy)]
pub struct Found {
    pub table: Table,
    pub report: Report,
    pub value: u32,
    pub steps: u32,
}

// What find hands back, without the steps.
impl From<Found> for Answer {
    ghost from_gives = { λ found a. seen a ≡ told_of_found (seen_found found) };

    fn from(found: Found) -> Answer {
        Answer {
            table: found.table,
            report: found.report,
            value: found.value,
        }
    }
}

// An accepted call: the table after it, and its value.
pub fn accepted(table: Table, value: u32) -> Answer
    ensures { seen result ≡ record { table = table; report = 0; value = value } }
{
    Answer {
        table,
        report: Report::Accepted,
        value,
    }
}

// A refusal: the same table, and no value.
pub fn refused(same: Table, report: Report) -> Answer
    ensures { seen result ≡ record { table = same; report = number_of report; value = 0 } }
{
    Answer {
        table: same,
        report,
        value: 0,
    }
}

// A question's answer: the same table.
pub fn told(same: Table, value: Result<u32, Report>) -> Answer
    ensures { seen result ≡ reply_of same (told_of value) }
{
    match value {
        Ok(value) => accepted(same, value),
        Err(report) => refused(same, report),
    }
}

// The table with the threads that a call left. Three such functions stay: one of any result would take a closure that puts it in its place, and the
// closure's promise would be this clause.
pub fn with_threads(mut table: Table, threads: Result<Threads, Report>) -> Answer
    ensures { seen result ≡ threads_put table (threads_seen table.threads threads) }
{
    match threads {
        Ok(threads) => {
            table.threads = threads;
            accepted(table, 0)
        }
        Err(report) => refused(table, report),
    }
}

// The table with the stores that a call left.
pub fn with_stores(mut table: Table, roomed: Result<Roomed, Report>) -> Answer
    ensures { seen result ≡ stores_put table (stores_seen table.stores roomed) }
{
    match roomed {
        Ok(roomed) => {
            table.stores = roomed.stores;
            accepted(table, roomed.value)
        }
        Err(report) => refused(table, report),
    }
}

// The table with the stacks and the free run that a call left.
pub fn with_stacks(mut table: Table, piled: Result<Piled, Report>) -> Answer
    ensures { seen result ≡ stacks_put table (stacks_seen table.stacks table.free piled) }
{
    match piled {
        Ok(piled) => {
            table.stacks = piled.stacks;
            table.free = piled.free;
            accepted(table, piled.value)
        }
        Err(report) => refused(table, report),
    }
}
