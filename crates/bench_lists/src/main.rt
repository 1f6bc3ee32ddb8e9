// The bench on many lists: every way to stop, the most records and one byte more, and a list that reaches every report that the bench can print. Lists of calls
// are written in document 01's notation. Each list's name is printed, and behind it what the bench prints of the list.
#![tactic(auto)]

use bench_run::Progress;
use std::io::Print;
use std::ops::ControlFlow;
use std::rt::HostRuntime;
use table::Table;
use texts::{COUNTS, RECORD_LENGTH};

// The bytes of the most records that the bench plays.
const MOST: usize = 57000;

// Which lines of a list are printed: all, or the last, behind the number of the others.
#[derive(Clone, Copy, PartialEq, Eq)]
enum Shown {
    All,
    Last,
}

fn title(rt: &HostRuntime, name: &str) {
    let _ = println!(rt; "# {name}");
}

fn print(rt: &HostRuntime, text: &[u8]) {
    let _ = rt.stdout().write_all(text);
}

// Plays a list.
fn play(rt: &HostRuntime, list: &[u8], shown: Shown) {
    let mut stores = bench_run::blank();
    let mut line = [0u8; 40];
    let mut from = Progress {
        table: Table::zeros(),
        place: 0,
    };
    loop {
        let next = bench_run::next(list, from, &mut stores, &mut line);
        let text = &line[..next.length];
        match next.onward {
            ControlFlow::Continue(onward) => {
                if shown == Shown::All {
                    print(rt, text);
                }
                from = onward;
            }
            ControlFlow::Break(last) => {
                if shown == Shown::Last {
                    let lines = last.place / RECORD_LENGTH;
                    let _ = println!(rt; "{lines} lines");
                }
                print(rt, text);
                return;
            }
        }
    }
}

// The records of a text of calls, at the front of the list.
fn load<'a>(calls: &[u8], list: &'a mut [u8]) -> &'a [u8] {
    match translation::translate(calls, list) {
        Ok(end) => &list[..end],
        Err(_) => &[],
    }
}

// The records of a start and two calls.
fn three() -> [u8; 57] {
    let mut list = [0; 57];
    load(b"0(4096,256,8192,64) 1() 2(1)", &mut list);
    list
}

// The list ends after so many bytes.
fn cut(rt: &HostRuntime, name: &str, length: usize) {
    title(rt, name);
    let list = three();
    play(rt, &list[..length.min(list.len())], Shown::All);
}

// A byte of the second record is another one.
fn changed(rt: &HostRuntime, name: &str, at: usize, byte: u8) {
    title(rt, name);
    let mut list = three();
    if let Some(b) = list.get_mut(at) {
        *b = byte;
    }
    play(rt, &list, Shown::All);
}

// For each call, records with another number than 0 in one of the places behind those that it takes.
fn unused_numbers(rt: &HostRuntime) {
    for (code, count) in COUNTS.iter().enumerate() {
        let _ = println!(rt; "# numbers that call {code} lacks");
        for place in *count as usize..4 {
            let mut numbers = [0; 4];
            numbers[place] = 1 << (8 * place);
            let mut record = [0; RECORD_LENGTH];
            record_bytes::write_record(&mut record, 0, code as u8, numbers);
            play(rt, &record, Shown::All);
        }
    }
}

// So many bytes of 3,000 records of call 1, and of a byte behind them.
fn most(rt: &HostRuntime, name: &str, length: usize) {
    title(rt, name);
    let mut list = [0u8; MOST + 1];
    for record in list.chunks_exact_mut(RECORD_LENGTH) {
        record_bytes::write_record(record, 0, 1, [0; 4]);
    }
    play(rt, &list[..length.min(list.len())], Shown::Last);
}

// Every report that the bench can print: all but 3, which is not used, and 11, since no size gives a total below 16.
fn reports(rt: &HostRuntime) {
    title(rt, "every report");
    let mut list = [0u8; 2000];
    let records = load(
        b"1() 0(4096,15,8192,64) 0(4096,4097,8192,64) 0(4096,1600,8192,400) 14(1,4096) 8(2,1) 4(5) 12(1000)
        9(1,100) 11(4096,0) 9(1,10) 11(4228,5) 14(2,4112) 10(1) 15(2) 10(1)
        9(1,100) 3(1,4112) 8(1,4) 11(4112,50) 3(1,4096) 7(99) 7(4120) 13(5)
        12(8) 12(8) 12(8) 13(8208) 13(8224) 3(1,4112) 10(1) 3(1,4096) 8(1,0) 11(4112,100)
        12(0) 12(0) 12(0) 12(0) 12(0) 12(0) 12(0) 12(0) 12(0) 12(0) 12(0) 12(0) 12(0) 12(0) 12(0)
        12(0) 12(0) 12(0) 12(0) 12(0) 12(0) 12(0) 12(0) 12(0) 12(0) 12(0) 12(0) 12(0) 12(0) 12(0) 12(0)",
        &mut list,
    );
    play(rt, records, Shown::All);
}

fn main(rt: HostRuntime) {
    title(&rt, "no bytes");
    play(&rt, &[], Shown::All);
    cut(&rt, "a record of 18 bytes", 37);
    changed(&rt, "another first byte of the mark", 19, 78);
    changed(&rt, "another second byte of the mark", 20, 84);
    changed(&rt, "code 16", 21, 16);
    changed(&rt, "code 255", 21, 255);
    unused_numbers(&rt);
    most(&rt, "3,000 records", MOST);
    most(&rt, "3,000 records and a byte", MOST + 1);
    reports(&rt);
}
