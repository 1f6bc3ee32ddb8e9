// The bench's call list: what stands at a place of it. A record is 19 bytes: the mark, the code of a call, and four numbers, low byte first.
#![tactic(auto)]

ghost use Rattle.std.specs.Prelude.{◌≡◌, ◌+◌, ◌≤◌, length, get_or};
ghost use Rattle.call_list.specs.Records.{entry, number_at, whole_record, record_at};
ghost use Rattle.call_list.specs.Decoded.{entry_of};

use texts::{FIRST_MARK, RECORD_LENGTH, SECOND_MARK};

// A record of the list: a call with its numbers, in document 01's order.
#[derive(Clone, Copy)]
pub enum Record {
    Start(u32, u32, u32, u32),
    Root,
    Context(u32),
    SetContext(u32, u32),
    Total(u32),
    Used(u32),
    Free(u32),
    Find(u32),
    Allocate(u32, u32),
    MakeStore(u32, u32),
    Clear(u32),
    Resize(u32, u32),
    MakeStack(u32),
    DestroyStack(u32),
    AddThread(u32, u32),
    RemoveThread(u32),
}

// The record at a place of the list. There is none where the program stops, as where fewer than 19 bytes follow.
#[tactic(auto, using(crate::specs::Laws::record_whole, crate::specs::Laws::record_short))]
pub fn decode(list: &[u8], place: usize) -> Option<Record>
    ensures { entry_of result ≡ record_at list.now place }
{
    let end = place.checked_add(RECORD_LENGTH)?;
    read(list.get(place..end)?)
}

// The record that 19 bytes make.
#[tactic(auto, unfolding(crate::specs::Records::whole_record))]
fn read(bytes: &[u8]) -> Option<Record>
    requires { length bytes.now ≡ 19 }
    ensures { entry_of result ≡ whole_record bytes.now }
{
    if !bytes.starts_with(&[FIRST_MARK, SECOND_MARK]) {
        return None;
    }
    record_of(
        bytes[2],
        [
            number(bytes, 3),
            number(bytes, 7),
            number(bytes, 11),
            number(bytes, 15),
        ],
    )
}

// The number whose first byte stands at a place, low byte first.
#[tactic(auto, unfolding(crate::specs::Records::number_at))]
fn number(bytes: &[u8], at: usize) -> u32
    requires { at + 4 ≤ length bytes.now }
    ensures { result ≡ number_at bytes.now at }
{
    u32::from_le_bytes([bytes[at], bytes[at + 1], bytes[at + 2], bytes[at + 3]])
}

// The call of a code and four numbers, where the numbers that it lacks are 0.
#[tactic(auto, unfolding(crate::specs::Records::entry, crate::specs::Records::zero_after))]
fn record_of(code: u8, numbers: [u32; 4]) -> Option<Record>
    ensures { entry_of result ≡ entry code (get_or numbers 0 0) (get_or numbers 1 0) (get_or numbers 2 0) (get_or numbers 3 0) }
{
    match (code, numbers) {
        (0, [a, n, b, k]) => Some(Record::Start(a, n, b, k)),
        (1, [0, 0, 0, 0]) => Some(Record::Root),
        (2, [t, 0, 0, 0]) => Some(Record::Context(t)),
        (3, [t, s, 0, 0]) => Some(Record::SetContext(t, s)),
        (4, [s, 0, 0, 0]) => Some(Record::Total(s)),
        (5, [s, 0, 0, 0]) => Some(Record::Used(s)),
        (6, [s, 0, 0, 0]) => Some(Record::Free(s)),
        (7, [a, 0, 0, 0]) => Some(Record::Find(a)),
        (8, [t, n, 0, 0]) => Some(Record::Allocate(t, n)),
        (9, [t, n, 0, 0]) => Some(Record::MakeStore(t, n)),
        (10, [t, 0, 0, 0]) => Some(Record::Clear(t)),
        (11, [s, n, 0, 0]) => Some(Record::Resize(s, n)),
        (12, [n, 0, 0, 0]) => Some(Record::MakeStack(n)),
        (13, [k, 0, 0, 0]) => Some(Record::DestroyStack(k)),
        (14, [t, s, 0, 0]) => Some(Record::AddThread(t, s)),
        (15, [t, 0, 0, 0]) => Some(Record::RemoveThread(t)),
        _ => None,
    }
}
