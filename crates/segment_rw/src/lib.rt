// A record written to a segment's slot, through a writer that is lent and changed in place (`SegmentFileWriter` of the Rust's
// segment_rw.rs: `write_header`, `write_payload`, `file_size`). No public function takes the writer. The room that the record takes,
// padding included, is the caller's: whoever decides where a record goes has worked it out.
#![tactic(auto)]

ghost use Rattle.std.specs.Prelude.{◌≡◌, length};
ghost use Rattle.lists.specs.Splice.{splice};
ghost use Rattle.segment_rw.specs.Writer.{fits_slot, record_in, area_after, written_by, PutPre, Wrote};

use record::{HEADER_SIZE, MAX_RECORD_PAYLOAD_SIZE, RecordHeader};

// Where the next record of a segment goes.
#[derive(Clone, Copy)]
struct SegmentWriter {
    slot: u32,
    size: u64,
}

// Header, payload and zeros, from `at` on, `room` bytes in all. The header writer is lent the slot, which ends at `end`, from `at` on.
fn put_record(area: &mut [u8], at: usize, end: usize, room: usize, id: u64, payload: &[u8])
    requires { PutPre at end room (length payload.now) (length area.old) }
    ensures { area.new ≡ splice at (record_in room id payload.now) area.old }
{
    let n = payload.len();
    record::write_header(
        &mut area[at..end],
        RecordHeader {
            length: n as u32,
            id,
        },
    );
    lists::copy_into(area, at + HEADER_SIZE, payload);
    lists::zero_fill(area, at + HEADER_SIZE + n, at + room);
}

impl SegmentWriter {
    // Whether a record of n payload bytes has its place in `room` bytes behind the size, in slots of c bytes of an area of `bytes` bytes.
    #[tactic(auto, unfolding(crate::specs::Writer::fits_slot))]
    fn fits(self, c: u64, room: u64, n: usize, bytes: usize) -> bool
        ensures { result ≡ fits_slot c self.slot self.size room n bytes }
    {
        n <= MAX_RECORD_PAYLOAD_SIZE as usize
            && HEADER_SIZE as u64 + n as u64 <= room
            && room <= c
            && self.size <= c - room
            && segment::slot_inside(c, self.slot, bytes)
    }

    // Writes the record where it fits: the new size is stored once header and payload are written.
    #[tactic(auto, unfolding(crate::specs::Writer::fits_slot, crate::specs::Writer::size_after, crate::specs::Writer::area_after))]
    fn write_record(&mut self, area: &mut [u8], c: u64, room: u64, id: u64, payload: &[u8])
        ensures size { self.new ≡ written_by self.old c room (length payload.now) (length area.old) }
        ensures bytes { area.new ≡ area_after c self.old.slot self.old.size room id payload.now area.old }
    {
        if !self.fits(c, room, payload.len(), area.len()) {
            return;
        }
        let from = u64::from(self.slot) * c;
        put_record(
            area,
            (from + self.size) as usize,
            (from + c) as usize,
            room as usize,
            id,
            payload,
        );
        self.size += room;
    }
}

// Writes a record behind the first `size` bytes of a segment's slot, where it fits; the segment's size afterwards.
pub fn append_record(
    area: &mut [u8],
    c: u64,
    slot: u32,
    size: u64,
    room: u64,
    id: u64,
    payload: &[u8],
) -> u64
    ensures { Wrote c slot size room id payload.now area.old result area.new }
{
    let mut w = SegmentWriter { slot, size };
    w.write_record(area, c, room, id, payload);
    w.size
}
