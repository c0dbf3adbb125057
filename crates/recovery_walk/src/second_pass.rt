// The second pass, which only writes: the index rows of an accepted walk, by the same steps as the first pass.
// Words of the index behind the rows stay.
ghost use Rattle.std.specs.Prelude.{◌≡◌, ◌++◌, ◌+◌, ◌≤◌, length, drop};
ghost use Rattle.recovery_walk.specs.Images.{WalkPre};
ghost use Rattle.recovery_walk.specs.Rows.{row_of, rows_all, pen_of, RowPut};

use segment::ImageRow;
use walk::{Range, Scan};

// Four words at `at` where the record is live, and the next place.
fn put_live(index: &mut [u64], at: usize, live: bool, slot: u32, state: Scan) -> usize
    requires { at + length (row_of live state.last slot state.body state.len) ≤ length index.old }
    ensures { RowPut index.old at (row_of live state.last slot state.body state.len) index.new result }
{
    if !live {
        return at;
    }
    let next = at + 4;
    index[at..next].copy_from_slice(&[state.last, slot as u64, state.body, state.len]);
    next
}

// The rows of the live records of the images.
pub(crate) fn write_rows(area: &[u8], c: u64, rows: &[ImageRow], range: Range, index: &mut [u64])
    requires walk_pre { WalkPre area.now c rows.now }
    requires pen_of_in_bounds { length (rows_all area.now c range.s range.e rows.now pen_of) ≤ length index.old }
    ensures { index.new ≡ rows_all area.now c range.s range.e rows.now pen_of
        ++ drop (length (rows_all area.now c range.s range.e rows.now pen_of)) index.old }
{
    let mut at: usize = 0;
    let mut scan = walk::start();
    'images: for row in rows {
        let from = (row.slot as u64 * c) as usize;
        let img = &area[from..from + row.size as usize];
        scan = walk::opened(scan, row.size);
        'records: while walk::more(scan, row.size) {
            let Ok(next) = walk::record_step(img, range, scan) else {
                break 'records;
            };
            let live = range.holds(next.last);
            at = put_live(index, at, live, row.slot, next);
            scan = next;
        }
    }
}
