// Forges a sound table one rule at a time and prints the lowest rule that each forgery breaks. The earlier versions' failures are among them.
#![tactic(auto)]

ghost use Rattle.std.specs.Prelude.{◌<◌};

use lines::Lines;
use names::{Area, Stack, StackId, Store, StoreId, Thread, ThreadId};
use stacks::Stacks;
use stores::Stores;
use table::{Areas, Table};
use threads::Threads;

fn store(start: u32, total: u32, used: u32, parent: u32) -> Store {
    let mut s = Store::new(StoreId(start), total, StoreId(parent));
    s.used = used;
    s
}

fn thread(id: u32, context: u32) -> Thread {
    Thread::new(ThreadId(id), StoreId(context))
}

fn stack(start: u32, total: u32) -> Stack {
    Stack::new(StackId(start), total)
}

// The root with two children, the first of which has a child of its own; three threads; a stack at each end of the stack area.
fn sound() -> Table {
    let areas = Areas {
        stores: Area::new(4096, 1024),
        stacks: Area::new(8192, 256),
    };
    let stores = Stores::new()
        .with(store(4096, 1024, 300, 4096))
        .with(store(4112, 116, 40, 4096))
        .with(store(4128, 36, 0, 4112))
        .with(store(4228, 100, 0, 4096));
    let threads = Threads::new()
        .with(thread(1, 4096))
        .with(thread(7, 4112))
        .with(thread(9, 4128));
    let stacks = Stacks::new().with(stack(8192, 32)).with(stack(8400, 48));
    Table {
        areas,
        free: Area::new(8224, 176),
        stores,
        threads,
        stacks,
    }
}

// Every line of the threads in use, under the count that is given.
fn all_threads(count: u32) -> Threads {
    let mut threads = Threads::new();
    for id in 0..32 {
        threads = threads.with(thread(id, 4096));
    }
    threads.count = count;
    threads
}

// Forges the sound table and prints the lowest rule that it then breaks.
fn say<F: FnOnce(&mut Table)>(rt: &impl Print, what: &str, forge: F)
    requires { F.IsAlwaysCallable forge }
{
    let mut table = sound();
    forge(&mut table);
    let rule = table.broken_rule();
    let _ = println!(rt; "{rule} {what}");
}

fn areas(rt: &impl Print) {
    say(
        rt,
        "store area of 15",
        |t| t.areas = Areas {
            stores: Area::new(4096, 15),
            stacks: Area::new(8192, 256),
        },
    );
    say(
        rt,
        "store area of 16,777,217",
        |t| t.areas = Areas {
            stores: Area::new(4096, 16777217),
            stacks: Area::new(33554432, 256),
        },
    );
    say(
        rt,
        "stack area past the last end",
        |t| t.areas = Areas {
            stores: Area::new(4096, 1024),
            stacks: Area::new(2147483648, 1),
        },
    );
    say(
        rt,
        "sum of start and length past 32 bits",
        |t| t.areas = Areas {
            stores: Area::new(4294967295, 1024),
            stacks: Area::new(8192, 256),
        },
    );
    say(
        rt,
        "areas that share an address",
        |t| t.areas = Areas {
            stores: Area::new(4096, 1024),
            stacks: Area::new(5119, 256),
        },
    );
}

fn roots(rt: &impl Print) {
    say(
        rt,
        "root smaller than the area",
        |t| t.stores.lines[0] = store(4096, 1023, 300, 4096),
    );
    say(
        rt,
        "root with another parent",
        |t| t.stores.lines[0] = store(4096, 1024, 300, 4112),
    );
    say(rt, "no store at all", |t| t.stores.count = 0);
}

fn lines_of_stores(rt: &impl Print) {
    say(
        rt,
        "two stores of one start",
        |t| t.stores.lines[2] = store(4112, 36, 0, 4096),
    );
    say(
        rt,
        "parent that points forward",
        |t| t.stores.lines[1] = store(4112, 116, 40, 4228),
    );
    say(
        rt,
        "store that is its own parent",
        |t| t.stores.lines[1] = store(4112, 116, 40, 4112),
    );
    say(
        rt,
        "line left of a cleared nest",
        |t| t.stores.lines[1] = store(4113, 16, 0, 4096),
    );
    say(
        rt,
        "store of 15",
        |t| t.stores.lines[3] = store(4228, 15, 0, 4096),
    );
    say(rt, "count past the lines in use", |t| t.stores.count = 5);
}

fn rooms(rt: &impl Print) {
    say(
        rt,
        "store grown through its parent's end",
        |t| t.stores.lines[2] = store(4128, 200, 0, 4112),
    );
    say(
        rt,
        "used that counts room nobody has",
        |t| t.stores.lines[3] = store(4228, 100, 85, 4096),
    );
    say(
        rt,
        "child in its parent's free part",
        |t| t.stores.lines[3] = store(4400, 100, 0, 4096),
    );
    say(
        rt,
        "child in its parent's overhead",
        |t| t.stores.lines[2] = store(4127, 36, 0, 4112),
    );
    say(
        rt,
        "siblings that overlap, not neighbours in the list",
        |t| t.stores.lines[3] = store(4227, 100, 0, 4096),
    );
    say(
        rt,
        "total whose end passes 32 bits",
        |t| t.stores.lines[3] = store(4228, 4294967295, 0, 4096),
    );
}

fn contexts(rt: &impl Print) {
    say(
        rt,
        "threads that do not rise",
        |t| t.threads.lines[1] = thread(1, 4112),
    );
    say(
        rt,
        "context that is not listed",
        |t| t.threads.lines[2] = thread(9, 4129),
    );
}

fn stacks(rt: &impl Print) {
    say(rt, "stack of 7", |t| t.stacks.lines[0] = stack(8192, 7));
    say(
        rt,
        "stack outside the area",
        |t| t.stacks.lines[1] = stack(8401, 48),
    );
    say(
        rt,
        "stack in the free run",
        |t| t.stacks.lines[0] = stack(8192, 33),
    );
    say(
        rt,
        "two stacks that overlap",
        |t| t.stacks.lines[0] = stack(8390, 32),
    );
}

fn runs(rt: &impl Print) {
    say(
        rt,
        "free run a byte short",
        |t| t.free = Area::new(8224, 175),
    );
    say(
        rt,
        "free run outside the area",
        |t| t.free = Area::new(8448, 176),
    );
    say(
        rt,
        "empty run not at the area's end",
        |t| t.free = Area::new(8224, 0),
    );
}

fn counts(rt: &impl Print) {
    say(rt, "all 32 threads", |t| t.threads = all_threads(32));
    say(rt, "33 threads", |t| t.threads = all_threads(33));
    say(
        rt,
        "4,294,967,295 threads",
        |t| t.threads = all_threads(4294967295),
    );
    say(
        rt,
        "store past the count",
        |t| t.stores.lines[4] = store(0, 0, 1, 0),
    );
    say(
        rt,
        "thread past the count",
        |t| t.threads.lines[31] = thread(0, 1),
    );
    say(
        rt,
        "stack past the count",
        |t| t.stacks.lines[2] = stack(1, 0),
    );
}

fn main(rt: HostRuntime) {
    say(&rt, "nothing forged", |_| ());
    areas(&rt);
    roots(&rt);
    lines_of_stores(&rt);
    rooms(&rt);
    contexts(&rt);
    stacks(&rt);
    runs(&rt);
    counts(&rt);
}
