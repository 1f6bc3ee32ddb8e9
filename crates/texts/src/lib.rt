// Numbers in decimals, buffers with bytes in them, and the shape of a record of the bench's call list: the mark, the code of a call, and four numbers. The
// definitions and laws stand in specs/, the laws of decimals in proofs/.
#![tactic(auto)]

ghost use Rattle.std.specs.Prelude.{◌≡◌};
ghost use Rattle.texts.specs.Buffer.{placed, end_of};

// How many bytes a record has.
pub const RECORD_LENGTH: usize = 19;

// The mark of a record.
pub const FIRST_MARK: u8 = 0x4D;

pub const SECOND_MARK: u8 = 0x53;

// How many numbers each call takes, by its code.
pub const COUNTS: [u8; 16] = [4, 0, 1, 2, 1, 1, 1, 1, 2, 2, 1, 2, 1, 1, 2, 1];

// Puts bytes at a place of the buffer, and hands back the place after them. Where they do not fit there is none, and the buffer stays as it was.
#[tactic(auto, unfolding(crate::specs::Buffer::placed, crate::specs::Buffer::end_of, crate::specs::Buffer::overwritten))]
pub fn put(buffer: &mut [u8], at: usize, bytes: &[u8]) -> Option<usize>
    ensures { (buffer.new ≡ placed at bytes.now buffer.old) × (result ≡ end_of at bytes.now buffer.old) }
{
    let end = at.checked_add(bytes.len())?;
    if buffer.len() < end {
        return None;
    }
    buffer[at..end].copy_from_slice(bytes);
    Some(end)
}
