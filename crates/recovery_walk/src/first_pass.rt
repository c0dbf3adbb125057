// The first pass, which reads and decides: the records loop inside the images loop, and a labelled break carries the first fault out
// of both. Nothing of the area but headers is read, and none behind e's record: from there on `next_image` tells no gap and `more` is
// false, so a later row only gives its segment, without records.
ghost use Rattle.std.specs.Prelude.{◌≡◌, replicate};
ghost use Rattle.segment.specs.Segment.{no_segment};
ghost use Rattle.walk.specs.Judging.{start_of};
ghost use Rattle.recovery_walk.specs.Images.{filled_of, images, WalkPre};
ghost use Rattle.recovery_walk.specs.Scan.{scanned_of, seen_in};

use refusal::Refusal;
use segment::{ImageRow, Segment};
use walk::{Range, Scan};

// A row's segment, with what its image holds.
fn filled(row: ImageRow, state: Scan) -> Segment
    ensures { result ≡ filled_of row state }
{
    Segment {
        id: row.id,
        slot: row.slot,
        size: row.size,
        min: state.min,
        max: state.max,
        newest_at: state.newest_at,
    }
}

// The images of the rows, in slots of c bytes, up to the first fault: the last state, and the segments in the lent entries. They are lent,
// and the function is never inlined, for the stack that the C interface's recovery takes (tests/abi/stack.c).
#[inline(never)]
pub(crate) fn walk_images(
    area: &[u8],
    c: u64,
    rows: &[ImageRow],
    range: Range,
    segs: &mut [Segment],
) -> Result<Scan, Refusal>
    requires walk_pre { WalkPre area.now c rows.now }
    requires blank { segs.old ≡ replicate 64 no_segment }
    ensures { seen_in segs.new result ≡ scanned_of (images area.now c range.s range.e rows.now start_of) }
{
    let mut scan = walk::start();
    let mut fault = None;
    'images: for (i, row) in rows.iter().enumerate() {
        let entry = walk::next_image(scan, row.size);
        let Ok(front) = entry else {
            fault = entry.err();
            break 'images;
        };
        scan = front;
        let from = (row.slot as u64 * c) as usize;
        let img = &area[from..from + row.size as usize];
        'records: while walk::more(scan, row.size) {
            let step = walk::record_step(img, range, scan);
            let Ok(next) = step else {
                fault = step.err();
                break 'images;
            };
            scan = next;
        }
        segs[i] = filled(*row, scan);
    }
    match fault {
        Some(refusal) => Err(refusal),
        // field by field: a copy of the whole state would carry its padding from record to record
        None => Ok(Scan {
            gap: scan.gap,
            ..scan
        }),
    }
}
