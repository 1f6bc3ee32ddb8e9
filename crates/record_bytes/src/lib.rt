// Writes a record of the bench's call list into a lent buffer. A record is 19 bytes: the mark, the code of a call, and four numbers, low byte first.
#![tactic(auto)]

ghost use Rattle.std.specs.Prelude.{◌≡◌};
ghost use Rattle.texts.specs.Buffer.{placed, end_of};
ghost use Rattle.record_bytes.specs.Records.{record_bytes};

use texts::{FIRST_MARK, RECORD_LENGTH, SECOND_MARK};

// The record at a place of the buffer, and the place after it. Where it does not fit there is none, and the buffer stays as it was.
// It does not go through `texts::put`: where the length of what is copied stands here, a text of short calls takes a third less time.
#[tactic(auto, using(crate::specs::Laws::record_length_lem), unfolding(texts::specs::Buffer::placed, texts::specs::Buffer::end_of, texts::specs::Buffer::overwritten))]
pub fn write_record(buffer: &mut [u8], at: usize, code: u8, numbers: [u32; 4]) -> Option<usize>
    ensures { (buffer.new ≡ placed at (record_bytes code numbers) buffer.old) × (result ≡ end_of at (record_bytes code numbers) buffer.old) }
{
    let end = at.checked_add(RECORD_LENGTH)?;
    if buffer.len() < end {
        return None;
    }
    let made = bytes_of(code, numbers);
    buffer[at..end].copy_from_slice(&made);
    Some(end)
}

fn bytes_of(code: u8, numbers: [u32; 4]) -> [u8; RECORD_LENGTH]
    ensures { result ≡ record_bytes code numbers }
{
    let mut bytes = [0; RECORD_LENGTH];
    bytes[0] = FIRST_MARK;
    bytes[1] = SECOND_MARK;
    bytes[2] = code;
    // no plainer: over chunks zipped with the numbers the loop has a measure to prove, and says nothing of the place of a chunk
    for (i, n) in numbers.iter().enumerate() {
        let at = 3 + 4 * i;
        bytes[at..at + 4].copy_from_slice(&n.to_le_bytes());
    }
    bytes
}
