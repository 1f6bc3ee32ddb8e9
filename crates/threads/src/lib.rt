// The list of threads: at most 32 lines, by rising identifier. What every list of lines does is said in `lines`; here is what a line of this one is, and what only threads have.
#![tactic(auto)]

ghost use Rattle.std.specs.Prelude.{◌≡◌, refl, get_or};
ghost use Rattle.std.proofs.Common.{sym};
ghost use Rattle.meaning.specs.Model.{Thread, thread_name, context_in};
ghost use Rattle.meaning.specs.Changes.{with_context};
ghost use Rattle.threads.specs.Threads.{view, back, zeros, thread_line, reading, written, clean, made, reading_is, clean_is};

use lines::Lines;
use names::{StoreId, Thread, ThreadId};

#[repr(C)]
#[derive(Clone, Copy)]
pub struct Threads {
    pub count: u32,
    pub lines: [Thread; 32],
}

// A line of zeros.
const NONE: Thread = Thread {
    id: ThreadId(0),
    context: StoreId(0),
};

// The other two lists have the same accessors: C takes no generic struct, so each list is a struct of its own and names its own fields.
impl Lines for Threads {
    type Line = Thread;

    type Id = ThreadId;

    ghost Meaning = { Thread };

    ghost shape = { thread_line };

    ghost name = { thread_name };

    ghost number = { λ id. id.0 };

    ghost count_of = { λ s. s.count };

    ghost lines_of = { λ s. s.lines };

    ghost made = { λ n ls. record { count = n; lines = ls } };

    ghost reading = { reading };

    ghost written = { written };

    ghost clean = { clean };

    ghost reads = { reading_is };

    ghost writes = { λ ts. sym (made _ _ ts refl refl) };

    ghost cleans = { clean_is };

    ghost counts = { λ n ls. refl };

    ghost lines_made = { λ n ls. refl };

    fn number(id: ThreadId) -> u32 {
        id.0
    }

    fn key(line: &Thread) -> u32 {
        line.id.0
    }

    fn is_zeros(line: &Thread) -> bool {
        *line == NONE
    }

    #[tactic(auto, unfolding(crate::specs::Threads::written, lines::specs::Shape::pad))]
    fn new() -> Self {
        Self {
            count: 0,
            lines: [NONE; 32],
        }
    }

    fn count(&self) -> u32 {
        self.count
    }

    fn lines(&self) -> &[Thread] {
        &self.lines
    }

    fn push(&mut self, line: Thread) {
        let n = self.count as usize;
        if n < self.lines.len() {
            self.lines[n] = line;
            self.count += 1;
        }
    }
}

impl Threads {
    // The thread at a place of the list, zeros past its end.
    pub fn nth(&self, i: usize) -> Thread
        ensures { result ≡ back (get_or (reading self.now) i (view zeros)) }
    {
        self.listed().get(i).copied().unwrap_or(NONE)
    }

    // The context of a listed thread, 0 for another.
    pub fn context(&self, id: ThreadId) -> StoreId
        ensures { result.0 ≡ context_in (reading self.now) id.0 }
    {
        self.find(id).map_or(StoreId(0), |t| t.context)
    }

    // Another context for that thread.
    pub fn with_context(&self, id: ThreadId, context: StoreId) -> Self
        ensures { result ≡ written (with_context id.0 context.0 (reading self.now)) }
    {
        self.each(|t| if t.id == id {
            Thread { context, ..t }
        } else {
            t
        })
    }
}
