// The slots that images need, and the walk over the images before recovery, by recovery's own steps: how many records each has and which,
// the first fault, and what was not looked at because it stands behind E's record.
ghost use Rattle.std.specs.Prelude.{◌<◌};

use crate::lines::Folder;
use image_rows::Rows;
use refusal::Refusal;
use segment::ImageRow;
use std::io;
use walk::{Fault, Range, Scan};

// The records that are live where no range is given: all.
const EVERY_RECORD: Range = Range { s: 1, e: u64::MAX };

// The largest slot; no image needs more.
const LARGEST_SLOT: u64 = 2147483648;

// The records that a walk met: how many, the first id and the last, and where the last one starts in its image.
#[derive(Clone, Copy)]
pub(crate) struct Records {
    pub(crate) count: u64,
    pub(crate) first: u64,
    pub(crate) last: u64,
    pub(crate) newest: u64,
}

// What the walk over an image, or over all, found: the first fault, and the records before it. `at` is where the walk ended;
// `stopped` says that it ended at E's record, with bytes behind it.
#[derive(Clone, Copy)]
pub(crate) struct Walked {
    pub(crate) refusal: Option<Refusal>,
    pub(crate) records: Option<Records>,
    pub(crate) at: u64,
    pub(crate) stopped: bool,
}

impl Walked {
    // The range from the first record to the last; 0 to 0 where there is none.
    pub(crate) fn range(self) -> Range {
        match self.records {
            Some(records) => Range {
                s: records.first,
                e: records.last,
            },
            None => Range { s: 0, e: 0 },
        }
    }
}

// The walk so far: what it found, and the state that the next image begins with.
#[derive(Clone, Copy)]
struct Progress {
    all: Walked,
    scan: Scan,
}

// The slot that an image of this size needs: whole pages, one at least.
pub(crate) fn slot_size(size: u64) -> u64 {
    match size {
        0 => page::PAGE_SIZE,
        1..=LARGEST_SLOT => page::padded_end(size as u32),
        _ => LARGEST_SLOT,
    }
}

// The slot that the largest image needs.
pub(crate) fn largest_slot(rows: Rows) -> u64
    ensures { 0 < result }
{
    let listed = rows.rows.iter().take(rows.count);
    listed
        .map(|row| slot_size(row.size))
        .max()
        .unwrap_or(0)
        .max(page::PAGE_SIZE)
}

// What the state says at which the walk of an image of `size` bytes ended: ids rise by one inside an image.
fn found(refusal: Option<Refusal>, scan: Scan, size: u64) -> Walked {
    let records = Records {
        count: scan.max.wrapping_sub(scan.min).wrapping_add(1),
        first: scan.min,
        last: scan.max,
        newest: scan.newest_at,
    };
    Walked {
        refusal,
        records: (scan.min != 0).then_some(records),
        at: scan.pos,
        stopped: scan.found_e && scan.pos < size,
    }
}

// The walk over one image from the state that the image before it left.
fn walk_image(image: &[u8], range: Option<Range>, before: Scan) -> Result<Scan, Fault> {
    let size = image.len() as u64;
    let front = walk::next_image(before, size).map_err(|refusal| Fault {
        refusal,
        scan: walk::opened(before, size),
    })?;
    walk::walk_image(image, range.unwrap_or(EVERY_RECORD), front)
}

// What the walk over an image of `size` bytes found.
fn seen(answer: Result<Scan, Fault>, size: u64) -> Walked {
    match answer {
        Ok(scan) => found(None, scan, size),
        Err(fault) => found(Some(fault.refusal), fault.scan, size),
    }
}

// The image of a row, as a part of the area.
fn image(area: &[u8], row: ImageRow, c: u64) -> &[u8] {
    let from = slices::room(u64::from(row.slot), c);
    let slot = slices::between(area, from, area.len());
    slices::front(slot, row.size as usize)
}

// What the walk saw of an image that it looked at.
fn say_seen(rt: &impl Print, walked: Walked) -> io::Result<()> {
    match walked.records {
        None => print!(rt; ", 0 records")?,
        Some(records) => {
            let Records {
                count,
                first,
                last,
                newest,
            } = records;
            print!(rt; ", {count} records, {first} to {last}, the newest at byte {newest}")?;
        }
    }
    let at = walked.at;
    if let Some(refusal) = walked.refusal {
        print!(rt; "; refused {} at byte {at}", refusal.number())?;
    }
    if walked.stopped {
        print!(rt; "; not looked at from byte {at} on")?;
    }
    Ok(())
}

// What an image holds by itself, where it does not follow what was walked before it.
fn say_alone(
    rt: &impl Print,
    walked: Walked,
    image: &[u8],
    range: Option<Range>,
) -> io::Result<()> {
    if walked.refusal.is_none() || walked.records.is_some() {
        return Ok(());
    }
    let answer = walk_image(image, range, walk::start());
    let alone = seen(answer, image.len() as u64);
    if let Some(records) = alone.records {
        print!(rt; "; by itself it has {} to {}", records.first, records.last)?;
    }
    Ok(())
}

// The line of an image.
fn say_image(
    rt: &impl Print,
    name: &[u8],
    row: ImageRow,
    walked: Walked,
    image: &[u8],
    range: Option<Range>,
) -> io::Result<()> {
    print!(rt; "slot {}: ", row.slot)?;
    rt.write_all(name)?;
    print!(rt; ", {} bytes", row.size)?;
    if walked.stopped && walked.records.is_none() {
        print!(rt; ", not looked at")?;
    } else {
        say_seen(rt, walked)?;
    }
    say_alone(rt, walked, image, range)?;
    println!(rt)
}

// The records of both walks, one image behind the other.
fn both(all: Option<Records>, one: Option<Records>) -> Option<Records> {
    match (all, one) {
        (Some(before), Some(behind)) => Some(Records {
            count: before.count.wrapping_add(behind.count),
            first: before.first,
            ..behind
        }),
        (records, None) | (None, records) => records,
    }
}

// Both walks; behind the first fault nothing counts.
fn joined(all: Walked, one: Walked) -> Walked {
    if all.refusal.is_some() {
        return all;
    }
    Walked {
        records: both(all.records, one.records),
        stopped: all.stopped || one.stopped,
        ..one
    }
}

// The walk over one image more, and its line.
fn with_image(
    rt: &impl Print,
    before: Progress,
    folder: Folder<'_>,
    row: ImageRow,
    range: Option<Range>,
    area: &[u8],
    c: u64,
) -> io::Result<Progress> {
    let bytes = image(area, row, c);
    let answer = walk_image(bytes, range, before.scan);
    let one = seen(answer, row.size);
    say_image(rt, folder.name(row.slot), row, one, bytes, range)?;
    Ok(Progress {
        all: joined(before.all, one),
        // behind a fault the walk begins anew, so that each image is said
        scan: answer.unwrap_or(walk::start()),
    })
}

// Walks the images, in the order of their segment ids, and says what each holds.
pub(crate) fn walk(
    rt: &impl Print,
    folder: Folder<'_>,
    images: Rows,
    range: Option<Range>,
    area: &[u8],
    c: u64,
) -> io::Result<Walked> {
    let mut progress = Progress {
        all: Walked {
            refusal: None,
            records: None,
            at: 0,
            stopped: false,
        },
        scan: walk::start(),
    };
    let rows = match image_rows::arrange(images.count as u64, c, images) {
        Ok(rows) => rows,
        Err(refusal) => {
            progress.all.refusal = Some(refusal);
            return Ok(progress.all);
        }
    };
    for row in rows.rows.iter().take(rows.count) {
        progress = with_image(rt, progress, folder, *row, range, area, c)?;
    }
    Ok(progress.all)
}
