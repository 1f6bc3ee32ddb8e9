// The bench program: it reads a call list from standard input, plays it on the manager, and prints a line for each record. Its buffers are the list and
// one byte more, the stores that it lends, and one line: 57,001 + 4,096 + 40 bytes, below 64 KiB.
#![tactic(auto)]

ghost use Rattle.io.specs.Counts.{IsPrefixLen};

use bench_run::Progress;
use std::io::{Error, ErrorKind, Print, Read};
use std::ops::ControlFlow;
use std::rt::HostRuntime;
use table::Table;

// Reads until the list is full or the input ends, and answers how many bytes there are. A proved loop has to end, and nothing says that
// the input does: so the loop has more turns than any run uses up.
fn load(rt: &HostRuntime, list: &mut [u8]) -> usize
    ensures { IsPrefixLen result list.new }
{
    let mut stdin = rt.stdin();
    let mut end = 0;
    for _ in 0..u64::MAX {
        if end == list.len() {
            break;
        }
        match stdin.read(&mut list[end..]) {
            Ok(0) => break,
            Ok(more) => end += more,
            Err(e) if is_last(rt, &e) => break,
            Err(_) => {}
        }
    }
    end
}

// Whether a read that failed is the last. One that a signal interrupted is made again; one that failed otherwise is told, and is the last.
fn is_last(rt: &HostRuntime, e: &Error) -> bool {
    if e.kind() == ErrorKind::Interrupted {
        return false;
    }
    let _ = eprintln!(rt; "standard input: {e}");
    true
}

// Plays the list, line by line, until it ends or a line cannot be written. `bench_lists` has a loop of its own: it prints at other places and never stops
// early, so one with a closure would be no plainer.
fn play(rt: &HostRuntime, list: &[u8]) {
    let mut stores = bench_run::blank();
    let mut line = [0u8; 40];
    let mut from = Progress {
        table: Table::zeros(),
        place: 0,
    };
    loop {
        let next = bench_run::next(list, from, &mut stores, &mut line);
        if !print(rt, &line[..next.length]) {
            return;
        }
        match next.onward {
            ControlFlow::Continue(onward) => from = onward,
            ControlFlow::Break(_) => return,
        }
    }
}

// Prints the text of a line; that it cannot be written is told.
fn print(rt: &HostRuntime, text: &[u8]) -> bool {
    match rt.stdout().write_all(text) {
        Ok(_) => true,
        Err(e) => {
            let _ = eprintln!(rt; "standard output: {e}");
            false
        }
    }
}

fn main(rt: HostRuntime) {
    let mut list = [0u8; 57001];
    let end = load(&rt, &mut list);
    play(&rt, &list[..end]);
}
