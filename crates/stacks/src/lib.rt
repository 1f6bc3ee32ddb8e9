// The list of stacks: at most 32 lines, by rising start. What every list of lines does is said in `lines`; here is what a line of this one is, and what only stacks have.
#![tactic(auto)]

ghost use Rattle.std.specs.Prelude.{◌≡◌, refl};
ghost use Rattle.std.proofs.Common.{sym};
ghost use Rattle.meaning.specs.Model.{Stack, stack_name, stack_of};
ghost use Rattle.stacks.specs.Stacks.{back, stack_line, reading, written, clean, made, reading_is, clean_is};

use lines::Lines;
use names::{Stack, StackId};

#[repr(C)]
#[derive(Clone, Copy)]
pub struct Stacks {
    pub count: u32,
    pub lines: [Stack; 32],
}

// A line of zeros.
const NONE: Stack = Stack {
    id: StackId(0),
    total: 0,
};

// The other two lists have the same accessors: C takes no generic struct, so each list is a struct of its own and names its own fields.
impl Lines for Stacks {
    type Line = Stack;

    type Id = StackId;

    ghost Meaning = { Stack };

    ghost shape = { stack_line };

    ghost name = { stack_name };

    ghost number = { λ id. id.0 };

    ghost count_of = { λ s. s.count };

    ghost lines_of = { λ s. s.lines };

    ghost made = { λ n ls. record { count = n; lines = ls } };

    ghost reading = { reading };

    ghost written = { written };

    ghost clean = { clean };

    ghost reads = { reading_is };

    ghost writes = { λ ks. sym (made _ _ ks refl refl) };

    ghost cleans = { clean_is };

    ghost counts = { λ n ls. refl };

    ghost lines_made = { λ n ls. refl };

    fn number(id: StackId) -> u32 {
        id.0
    }

    fn key(line: &Stack) -> u32 {
        line.id.0
    }

    fn is_zeros(line: &Stack) -> bool {
        *line == NONE
    }

    #[tactic(auto, unfolding(crate::specs::Stacks::written, lines::specs::Shape::pad))]
    fn new() -> Self {
        Self {
            count: 0,
            lines: [NONE; 32],
        }
    }

    fn count(&self) -> u32 {
        self.count
    }

    fn lines(&self) -> &[Stack] {
        &self.lines
    }

    fn push(&mut self, line: Stack) {
        let n = self.count as usize;
        if n < self.lines.len() {
            self.lines[n] = line;
            self.count += 1;
        }
    }
}

impl Stacks {
    // The listed stack of that identifier, one with a total of 0 where there is none.
    pub fn line(&self, id: StackId) -> Stack
        ensures { result ≡ back (stack_of (reading self.now) id.0) }
    {
        self.find(id).unwrap_or(Stack::new(id, 0))
    }
}
