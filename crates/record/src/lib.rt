// The header of a record: read from a place of an image, and written to the front of what is lent. From `RecordHeader`,
// `RecordHeaderMut` and `read_header` of the Rust, with the header as a value and not as a view of bytes.
#![tactic(auto)]

ghost use Rattle.std.specs.Prelude.{◌≡◌};
ghost use Rattle.lists.specs.Splice.{splice};
ghost use Rattle.refusal.specs.Refusals.{outcome};
ghost use Rattle.record.specs.Record.{header_bytes, header_of};

use little_endian::{read_u32, read_u64};
use refusal::Refusal;

pub const HEADER_SIZE: usize = 12;

pub const MAX_RECORD_PAYLOAD_SIZE: u32 = 1073741824;

#[derive(Clone, Copy, Debug, PartialEq, Eq)]
pub struct RecordHeader {
    // of the payload, in bytes
    pub length: u32,
    pub id: u64,
}

// The header at `pos` of an image; 12 bytes must stand there, whatever the length says.
pub fn read_header(img: &[u8], pos: usize) -> Result<RecordHeader, Refusal>
    ensures { outcome result ≡ header_of img.now pos }
{
    if img.len().saturating_sub(pos) < HEADER_SIZE {
        return Err(Refusal::ShortHeader);
    }
    let length = read_u32(img, pos)?;
    if MAX_RECORD_PAYLOAD_SIZE < length {
        return Err(Refusal::HeaderTooLong);
    }
    let id = read_u64(img, pos + 4)?;
    Ok(RecordHeader { length, id })
}

// Fills the first twelve bytes of what is lent: a slot from the write offset onward.
pub fn write_header(slot: &mut [u8], header: RecordHeader)
    ensures { slot.new ≡ splice 0 (header_bytes header) slot.old }
{
    little_endian::write_u32(slot, 0, header.length);
    little_endian::write_u64(slot, 4, header.id);
}
