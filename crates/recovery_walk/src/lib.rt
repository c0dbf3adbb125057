// Recovery's walk over the images of sorted rows, and the index rows (`Recovery::scan_segment`, `on_next_record` of the Rust's mod.rs).
// The records loop stands inside the images loop, and a labelled break carries the first fault out of both.
// `scan_images` is the first pass (first_pass.rt), 21 to 23, and the second pass (second_pass.rt); both run on the step of `walk`.
#![tactic(auto)]

ghost use Rattle.std.specs.Prelude.{◌≡◌};
ghost use Rattle.recovery_walk.specs.Images.{WalkPre};
ghost use Rattle.recovery_walk.specs.Scan.{RangePre, ScanDid};

use refusal::Refusal;
use segment::{ImageRow, Segment};
use walk::{Range, Scan};

mod first_pass;
mod second_pass;

// What a scan finds: the last state, and the segments as they were seen.
#[derive(Clone, Copy)]
pub struct Scanned {
    pub scan: Scan,
    pub segs: [Segment; 64],
}

// The images of the rows, sorted by segment id, in slots of c bytes: 16 to 20 from the walk, then 21, 22 and 23, and only then the index
// rows. It is public, with a `requires`, only because the crate `recovery` calls it, after 1 and 11 to 15.
pub fn scan_images(
    area: &[u8],
    c: u64,
    rows: &[ImageRow],
    range: Range,
    index: &mut [u64],
) -> Result<Scanned, Refusal>
    requires walk_pre { WalkPre area.now c rows.now }
    requires range_pre { RangePre range.s range.e }
    ensures { ScanDid area.now c range.s range.e rows.now index.old index.new result }
{
    let none = segment::no_segment();
    let mut segs = [none; 64];
    let found = first_pass::walk_images(area, c, rows, range, &mut segs)?;
    if !found.found_s {
        return Err(Refusal::StartNotFound);
    }
    if !found.found_e {
        return Err(Refusal::EndNotFound);
    }
    let words = index.len() as u64;
    let live = range.e - range.s + 1;
    if words / 4 < live {
        return Err(Refusal::IndexShort);
    }
    second_pass::write_rows(area, c, rows, range, index);
    Ok(Scanned { scan: found, segs })
}
