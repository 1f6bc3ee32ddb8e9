// What the calls hand back to C.
ghost use Rattle.std.specs.Prelude.{◌≡◌};
ghost use Rattle.table.specs.Calls.{seen, seen_found};
ghost use Rattle.board.specs.Board.{answer_seen, reply_seen, found_seen};

use table::{Answer, Found, Table};

// Of a change: the whole new table, the report's number and the value.
#[repr(C)]
#[derive(Clone, Copy)]
pub struct BoardAnswer {
    pub table: Table,
    pub report: u32,
    pub value: u32,
}

// Of a question: the caller's table stays as it is.
#[repr(C)]
#[derive(Clone, Copy)]
pub struct BoardReply {
    pub report: u32,
    pub value: u32,
}

// Of find: the steps too.
#[repr(C)]
#[derive(Clone, Copy)]
pub struct BoardFound {
    pub report: u32,
    pub value: u32,
    pub steps: u32,
}

impl From<Answer> for BoardAnswer {
    ghost from_gives = { λ answer r. answer_seen r ≡ seen answer };

    fn from(answer: Answer) -> BoardAnswer {
        BoardAnswer {
            table: answer.table,
            report: answer.report.number(),
            value: answer.value,
        }
    }
}

impl From<Answer> for BoardReply {
    ghost from_gives = { λ answer r. reply_seen answer.table r ≡ seen answer };

    fn from(answer: Answer) -> BoardReply {
        BoardReply {
            report: answer.report.number(),
            value: answer.value,
        }
    }
}

impl From<Found> for BoardFound {
    ghost from_gives = { λ found r. found_seen found.table r ≡ seen_found found };

    fn from(found: Found) -> BoardFound {
        BoardFound {
            report: found.report.number(),
            value: found.value,
            steps: found.steps,
        }
    }
}
