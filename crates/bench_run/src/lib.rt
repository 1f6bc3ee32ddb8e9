// The bench: a call list played on the manager, line by line.
#![tactic(auto)]

ghost use Rattle.std.specs.Prelude.{◌≡◌, ◌≤◌, length};
ghost use Rattle.std.specs.declared.ops.ControlFlow.TheVariants.{Break};
ghost use Rattle.answer_text.specs.Text.{answer_text, stop_text};
ghost use Rattle.texts.specs.Buffer.{overwritten};
ghost use Rattle.bench_calls.specs.Bench.{zero_stores};
ghost use Rattle.bench_run.specs.Lines.{line_told, line_at};

use bench_calls::step;
use list_reader::read_record;
use std::ops::ControlFlow;
use table::Table;

// The bytes of 3,000 records.
const LIST: usize = 57000;

// How far a run is: the table, and the place of the next record.
#[derive(Clone, Copy)]
pub struct Progress {
    pub table: Table,
    pub place: usize,
}

// A line of the run: how long its text is, and how far the run then is: it goes on from there, or ends there.
// A slice would be lent from the line buffer, and then no clause could say what the whole of it holds: so the length is told.
#[derive(Clone, Copy)]
pub struct Line {
    pub length: usize,
    pub onward: ControlFlow<Progress, Progress>,
}

// The store buffer before the first call.
#[tactic(auto, unfolding(bench_calls::specs::Bench::zero_stores))]
pub fn blank() -> [u8; 4096]
    ensures { result ≡ zero_stores }
{
    [0; 4096]
}

// The next line of a run; its text is put at the start of `line`.
#[tactic(auto, using(crate::specs::Lines::line_none, crate::specs::Lines::line_many, crate::specs::Lines::line_record, crate::specs::Lines::call_next), unfolding(texts::specs::Buffer::overwritten))]
pub fn next(list: &[u8], from: Progress, stores: &mut [u8; 4096], line: &mut [u8; 40]) -> Line
    ensures told { result ≡ line_told (line_at list.now from.place from.table stores.old) }
    ensures text { line.new ≡ overwritten 0 (line_at list.now from.place from.table stores.old).text line.old }
    ensures bytes { stores.new ≡ (line_at list.now from.place from.table stores.old).stores }
    ensures fits { result.length ≤ 40 }
{
    if list.len() <= from.place {
        return ended(from, 0);
    }
    if LIST <= from.place {
        return ended(from, put_stop(line, LIST as u32));
    }
    let taken = read_record(list, from.place);
    let done = step(from.table, stores, taken.found);
    let Some(printed) = done.printout else {
        return ended(from, put_stop(line, from.place as u32));
    };
    Line {
        length: put_answer(line, printed.code, printed.report, printed.value),
        onward: ControlFlow::Continue(Progress {
            table: done.table,
            place: taken.next,
        }),
    }
}

// The last line: the table and the place stay.
fn ended(from: Progress, length: usize) -> Line
    ensures { result ≡ record { length = length; onward = Break from } }
{
    Line {
        length,
        onward: ControlFlow::Break(from),
    }
}

// An answer as a line, where there is always room for it.
fn put_answer(line: &mut [u8; 40], code: u32, report: u32, value: u32) -> usize
    ensures { (line.new ≡ overwritten 0 (answer_text code report value) line.old) × (result ≡ length (answer_text code report value)) × (result ≤ 40) }
{
    answer_text::write_answer(line, 0, code, report, value).unwrap()
}

// A stop as a line, where there is always room for it.
fn put_stop(line: &mut [u8; 40], offset: u32) -> usize
    ensures { (line.new ≡ overwritten 0 (stop_text offset) line.old) × (result ≡ length (stop_text offset)) × (result ≤ 40) }
{
    answer_text::write_stop(line, 0, offset).unwrap()
}
