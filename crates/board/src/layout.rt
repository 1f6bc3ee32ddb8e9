// A table whose every word is another number, so that a program in C can see whether its structs are laid out as these are.
// Three loops stay: one over a slice of any lines would take a closure that makes a line, with a clause at each call of what it makes, and be no shorter.
// `word` is counted by hand: zipped with `(8..).step_by(4)`, a loop's facts would be on two iterators' items, and it is no plainer.
ghost use Rattle.std.specs.Prelude.{◌≡◌};
ghost use Rattle.board.specs.Layout.{store_at, thread_at, stack_at, lines_from, numbered_table};

use names::{Area, Stack, StackId, Store, StoreId, Thread, ThreadId};
use stacks::Stacks;
use stores::Stores;
use table::{Areas, Table};
use threads::Threads;

// The words 8 to 263.
#[tactic(auto, using(crate::specs::Layout::lines_all))]
fn store_words() -> [Store; 64]
    ensures { result ≡ lines_from store_at 4 8 64 }
{
    let mut lines = [Store::new(StoreId(0), 0, StoreId(0)); 64];
    let mut word = 8;
    for line in lines.iter_mut() {
        *line = Store {
            id: StoreId(word),
            total: word + 1,
            used: word + 2,
            parent: StoreId(word + 3),
        };
        word += 4;
    }
    lines
}

// The words 265 to 328.
#[tactic(auto, using(crate::specs::Layout::lines_all))]
fn thread_words() -> [Thread; 32]
    ensures { result ≡ lines_from thread_at 2 265 32 }
{
    let mut lines = [Thread::new(ThreadId(0), StoreId(0)); 32];
    let mut word = 265;
    for line in lines.iter_mut() {
        *line = Thread::new(ThreadId(word), StoreId(word + 1));
        word += 2;
    }
    lines
}

// The words 330 to 393.
#[tactic(auto, using(crate::specs::Layout::lines_all))]
fn stack_words() -> [Stack; 32]
    ensures { result ≡ lines_from stack_at 2 330 32 }
{
    let mut lines = [Stack::new(StackId(0), 0); 32];
    let mut word = 330;
    for line in lines.iter_mut() {
        *line = Stack::new(StackId(word), word + 1);
        word += 2;
    }
    lines
}

// The table whose words are 1, 2, 3 and so on, in the order in which its fields lie. It is not sound.
#[tactic(auto, unfolding(crate::specs::Layout::numbered_table))]
pub fn board_numbered() -> Table
    ensures { result ≡ numbered_table }
{
    let areas = Areas {
        stores: Area::new(1, 2),
        stacks: Area::new(3, 4),
    };
    let stores = Stores {
        count: 7,
        lines: store_words(),
    };
    let threads = Threads {
        count: 264,
        lines: thread_words(),
    };
    let stacks = Stacks {
        count: 329,
        lines: stack_words(),
    };
    Table {
        areas,
        free: Area::new(5, 6),
        stores,
        threads,
        stacks,
    }
}
