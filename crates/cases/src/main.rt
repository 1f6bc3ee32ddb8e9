// Plays document 01's fifteen cases on the table, each from T0, and prints a line for each call: the case, the call, the report and the value; after a find
// the steps too.
#![tactic(auto)]

use names::{Area, StackId, StoreId, ThreadId};
use table::{Answer, Found, Table};

// The table after the first two calls of the example.
fn t0() -> Table {
    let zeros = Table::zeros();
    let started = zeros.start(Area::new(4096, 256), Area::new(8192, 64));
    let table = started.table;
    let added = table.add_thread(ThreadId(1), StoreId(4096));
    added.table
}

// Prints a call's line and gives the table after it.
fn say(rt: &impl Print, case: u32, what: &str, answer: Answer) -> Table {
    let report = answer.report.number();
    let value = answer.value;
    let _ = println!(rt; "{case} {what} {report} {value}");
    answer.table
}

fn say_found(rt: &impl Print, case: u32, found: Found) {
    let report = found.report.number();
    let value = found.value;
    let steps = found.steps;
    let _ = println!(rt; "{case} find {report} {value} {steps}");
}

// The bytes of the store area play no part in what is printed.
fn allocate(rt: &impl Print, case: u32, table: Table, thread: u32, n: u32) -> Table {
    let mut bytes: [u8; 256] = [0; 256];
    let answer = table.allocate(&mut bytes, ThreadId(thread), n);
    say(rt, case, "allocate", answer)
}

fn make_store(rt: &impl Print, case: u32, table: Table, n: u32) -> Table {
    say(rt, case, "make store", table.make_store(ThreadId(1), n))
}

fn resize(rt: &impl Print, case: u32, table: Table, store: u32, n: u32) -> Table {
    say(rt, case, "resize", table.resize(StoreId(store), n))
}

fn clear(rt: &impl Print, case: u32, table: Table) -> Table {
    say(rt, case, "clear", table.clear(ThreadId(1)))
}

fn root_free(rt: &impl Print, case: u32, table: Table) {
    say(rt, case, "free", table.free(StoreId(4096)));
}

fn sizes(rt: &impl Print) {
    root_free(rt, 1, allocate(rt, 1, t0(), 1, 236));
    allocate(rt, 2, t0(), 1, 237);
    root_free(rt, 3, make_store(rt, 3, t0(), 224));
    make_store(rt, 4, t0(), 225);
    allocate(rt, 5, t0(), 1, 4294967295);
    allocate(rt, 6, t0(), 2, 1);
    resize(rt, 7, t0(), 4096, 0);
}

fn addresses(rt: &impl Print) {
    let inner = make_store(rt, 8, t0(), 0);
    say_found(rt, 8, inner.find(4112));
    let t = t0();
    say_found(rt, 9, t.find(4351));
    say_found(rt, 9, t.find(4352));
}

fn children(rt: &impl Print) {
    let one = make_store(rt, 10, t0(), 10);
    let two = make_store(rt, 10, one, 10);
    resize(rt, 10, two, 4138, 5);
    let store = make_store(rt, 11, t0(), 10);
    let block = allocate(rt, 11, store, 1, 0);
    resize(rt, 11, block, 4112, 10);
}

// The table still is T0: nothing is used, and the thread is where it was.
fn clears(rt: &impl Print) {
    let same = clear(rt, 12, t0());
    say(rt, 12, "used", same.used(StoreId(4096)));
    say(rt, 12, "context", same.context(ThreadId(1)));
    let store = make_store(rt, 13, t0(), 40);
    let added = say(
        rt,
        13,
        "add thread",
        store.add_thread(ThreadId(2), StoreId(4112)),
    );
    clear(rt, 13, added);
}

fn make_stack(rt: &impl Print, table: Table) -> Table {
    say(rt, 14, "make stack", table.make_stack(8))
}

fn destroy(rt: &impl Print, table: Table, stack: u32) -> Table {
    say(rt, 14, "destroy stack", table.destroy_stack(StackId(stack)))
}

fn stacks_in_a_row(rt: &impl Print) {
    let three = make_stack(rt, make_stack(rt, make_stack(rt, t0())));
    destroy(rt, destroy(rt, three, 8208), 8224);
}

fn start(rt: &impl Print, length: u32) {
    let t = t0();
    say(
        rt,
        15,
        "start",
        t.start(Area::new(4096, length), Area::new(8192, 64)),
    );
}

fn main(rt: HostRuntime) {
    sizes(&rt);
    addresses(&rt);
    children(&rt);
    clears(&rt);
    stacks_in_a_row(&rt);
    start(&rt, 15);
    start(&rt, 16);
}
