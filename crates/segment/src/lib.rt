// A listed segment and an image row (`Segment` of the Rust's mod.rs, and what its directory listing says of a segment file): the entry
// of no segment, a segment that ends with a given record, and the one function that cuts a segment's image (`truncate_head_segment`).
#![tactic(auto)]

ghost use Rattle.std.specs.Prelude.{◌≡◌, ◌+◌, ◌*◌};
ghost use Rattle.segment.specs.Segment.{no_segment, no_row, ended_at};
ghost use Rattle.segment.specs.Cut.{inside_of, truncated_area};

// One listed segment: its image is the first `size` bytes of its slot.
#[repr(C)]
#[derive(Clone, Copy, Debug, Default, PartialEq, Eq)]
pub struct Segment {
    pub id: u32,
    pub slot: u32,
    pub size: u64,
    // the lowest and the highest record id
    pub min: u64,
    pub max: u64,
    // where the header of the record max starts, in the slot
    pub newest_at: u64,
}

// An image row: which slot holds the image of a segment, and how many bytes it has.
#[repr(C)]
#[derive(Clone, Copy, Debug, Default, PartialEq, Eq)]
pub struct ImageRow {
    pub id: u32,
    pub slot: u32,
    pub size: u64,
}

// The entry of no segment.
pub fn no_segment() -> Segment
    ensures { result ≡ no_segment }
{
    Segment::default()
}

// The entry of no row.
pub fn no_row() -> ImageRow
    ensures { result ≡ no_row }
{
    ImageRow::default()
}

// The segment, ended with the record n, whose header starts at `at` and whose padded end is x.
pub fn ended_at(g: Segment, n: u64, at: u64, x: u64) -> Segment
    ensures { result ≡ ended_at g n at x }
{
    Segment {
        size: x,
        max: n,
        newest_at: at,
        ..g
    }
}

// Whether a slot of c bytes lies in an area of `bytes` bytes. The product of slot and c is not formed: it could pass 64 bits.
pub fn slot_inside(c: u64, slot: u32, bytes: usize) -> bool
    ensures { result ≡ inside_of c slot bytes }
{
    c == 0 || u64::from(slot) < bytes as u64 / c
}

// Cuts an image of `size` bytes at x: what is missing up to x is written as zeros.
pub fn truncate(area: &mut [u8], c: u64, slot: u32, size: u64, x: u64)
    ensures { area.new ≡ truncated_area area.old c slot size x }
{
    if size < x && x <= c && slot_inside(c, slot, area.len()) {
        let from = u64::from(slot) * c;
        lists::zero_fill(area, (from + size) as usize, (from + x) as usize);
    }
}
