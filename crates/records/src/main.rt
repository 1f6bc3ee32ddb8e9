// Reads a call list in document 01's notation from standard input and writes its records, as the bench reads them, to standard output.
// Where anything is wrong with the text, one line on standard error says what, and no record is written. The exit status is 0 then too.
#![tactic(auto)]

ghost use Rattle.std.specs.Prelude.{◌≤◌, length, IfOk};

use std::fmt;
use std::io::{ErrorKind, Print, Read};
use std::rt::HostRuntime;
use translation::Refused;

// Why no record is written.
#[derive(Clone, Copy)]
enum Complaint {
    TooLong,
    NotRead,
    Refused(Refused),
    NotWritten,
}

impl From<Refused> for Complaint {
    fn from(refused: Refused) -> Complaint {
        Complaint::Refused(refused)
    }
}

impl fmt::Display for Complaint {
    fn fmt<W: fmt::Write>(&self, f: &mut fmt::Formatter<W>) -> fmt::Result {
        match self {
            Complaint::TooLong => write!(f, "text of more than {LONGEST} bytes"),
            Complaint::NotRead => write!(f, "text cannot be read"),
            Complaint::Refused(refused) => write!(f, "{refused}"),
            Complaint::NotWritten => write!(f, "records cannot be written"),
        }
    }
}

const LONGEST: usize = 65536;

// The bytes of 3,000 records.
const MOST: usize = 57000;

fn main(rt: HostRuntime) {
    if let Err(complaint) = run(&rt) {
        let _ = eprintln!(rt; "{complaint}");
    }
}

fn run(rt: &HostRuntime) -> Result<(), Complaint> {
    // a byte more than the longest text, so that a longer one shows
    let mut text = [0u8; LONGEST + 1];
    let length = read_text(rt, &mut text)?;
    let mut records = [0u8; MOST];
    let end = translation::translate(&text[..length], &mut records)?;
    rt.stdout()
        .write_all(&records[..end])
        .map_err(|_| Complaint::NotWritten)
}

// Reads until the text ends; it is too long where it fills the buffer, and refused where a read fails, so this is not the bench's loop. A proved loop has to end, so it counts its reads up to a number that no run comes to.
fn read_text(rt: &HostRuntime, text: &mut [u8]) -> Result<usize, Complaint>
    ensures { IfOk result (λ filled. filled ≤ length text.new) }
{
    let mut stdin = rt.stdin();
    let mut filled = 0;
    for _ in 0..u64::MAX {
        match stdin.read(&mut text[filled..]) {
            Ok(0) => return Ok(filled),
            Ok(got) => filled += got,
            // a signal came before any byte: the read is tried again
            Err(e) if e.kind() == ErrorKind::Interrupted => {}
            Err(_) => return Err(Complaint::NotRead),
        }
        if filled == text.len() {
            return Err(Complaint::TooLong);
        }
    }
    Err(Complaint::NotRead)
}
