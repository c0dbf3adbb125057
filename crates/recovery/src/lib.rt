// Recovery of a log from the images of its segments (`open`, `Recovery::scan_root_dir`, `remove_nonlive_segments` of the Rust's mod.rs).
// The image rows are read once, into an array by value (`read_rows`); `recover` and everything below it work on that.
#![tactic(auto)]

ghost use Rattle.std.specs.Prelude.{◌≡◌, length};
ghost use Rattle.image_rows.specs.Rows.{rows_of, listed_of};
ghost use Rattle.recovery.specs.Recovery.{scanned, one_zero, recovery_of, RecoveryDid, ScanPre};

use image_rows::Rows;
use refusal::Refusal;
use seglog::{Log, Shape};
use segment::ImageRow;
use walk::Range;

// What was recovered: the number of index rows written, and the log.
#[derive(Clone, Copy)]
pub struct Recovered {
    pub rows: u64,
    pub log: Log,
}

mod kept;

// The lent rows, copied into an array: 64 of them at most, else a count that says that there are more.
pub fn read_rows(rows: &[ImageRow]) -> Rows
    ensures { result ≡ rows_of rows.now }
{
    let mut entries = [segment::no_row(); 64];
    if 64 < rows.len() {
        return Rows {
            count: 65,
            rows: entries,
        };
    }
    entries[..rows.len()].copy_from_slice(rows);
    Rows {
        count: rows.len(),
        rows: entries,
    }
}

// The scan of sorted rows, and what it leaves: 16 to 23, else the log of the kept segments.
fn scan(
    shape: Shape,
    area: &mut [u8],
    rows: &[ImageRow],
    range: Range,
    index: &mut [u64],
) -> Result<Recovered, Refusal>
    requires { ScanPre shape.k shape.c shape.m area.old rows.now range.s range.e }
    ensures { RecoveryDid
        (scanned shape.k shape.c shape.m area.old rows.now range.s range.e (length index.old))
        area.old index.old result area.new index.new }
{
    let found = recovery_walk::scan_images(&area[..], shape.c, rows, range, index)?;
    Ok(kept::close(shape, area, range, rows.len(), found))
}

// Whether exactly one end of the range is 0.
fn one_zero(range: Range) -> bool
    ensures { result ≡ one_zero range.s range.e }
{
    (range.s == 0) != (range.e == 0)
}

// Recovers the records of the range from the images of the rows, in any order: 1, 11 to 15, then the scan. The one entrance: rows that
// arrive in a lent slice are read by `read_rows` first.
pub fn recover(
    shape: Shape,
    area: &mut [u8],
    rows: Rows,
    range: Range,
    index: &mut [u64],
) -> Result<Recovered, Refusal>
    ensures { RecoveryDid
        (recovery_of shape.k shape.c shape.m area.old (listed_of rows) range.s range.e (length index.old))
        area.old index.old result area.new index.new }
{
    if !seglog::sizes_fit(shape, area.len()) {
        return Err(Refusal::OutsideRules);
    }
    if one_zero(range) {
        return Err(Refusal::OneEndZero);
    }
    if range.e < range.s {
        return Err(Refusal::RangeReversed);
    }
    let sorted = image_rows::arrange(shape.k, shape.c, rows)?;
    if range.s == 0 {
        return Ok(Recovered {
            rows: 0,
            log: seglog::empty_log(shape),
        });
    }
    scan(shape, area, &sorted.rows[..sorted.count], range, index)
}
