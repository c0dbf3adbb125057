// What belongs to the log of this prefix, and what does not: each name that does not is said, with the reason.
// Assumes nothing.
use crate::lines::Folder;
use crate::{files, images, lines};
use image_rows::Rows;
use refusal::Refusal;
use segment::ImageRow;
use std::fs::Files;
use std::{fmt, io};

// Why a name does not belong.
#[derive(Clone, Copy, Debug)]
enum Stranger {
    NoSegment(Refusal),
    NoFile,
    OneTooMany,
    Unreadable,
    SegmentZero,
    NamedTwice,
    OneMissing,
    TooLarge { images: usize, limit: usize },
}

impl fmt::Display for Stranger {
    fn fmt<W: fmt::Write>(&self, f: &mut fmt::Formatter<W>) -> fmt::Result {
        match self {
            Stranger::NoSegment(refusal) => {
                write!(f, "not a segment's name, refused with {}", refusal.number())
            }
            Stranger::NoFile => write!(f, "not a file"),
            Stranger::OneTooMany => write!(f, "one too many: a log has at most 64 segments"),
            Stranger::Unreadable => write!(f, "cannot be read"),
            Stranger::SegmentZero => write!(f, "segment 0, which no log has"),
            Stranger::NamedTwice => write!(f, "named more than once"),
            Stranger::OneMissing => write!(f, "the segment before it is missing"),
            Stranger::TooLarge { images, limit } => write!(
                f,
                "too large for this program, which has {limit} bytes for {images} images"
            ),
        }
    }
}

// Judges line i by itself: its kind, its name, and whether its file can be read; the image row of what belongs.
fn by_itself(
    rt: &impl Files,
    folder: Folder<'_>,
    line: &[u8],
    i: usize,
    limit: usize,
) -> Result<ImageRow, Stranger> {
    let name = lines::name(line);
    let id = segment_filename::parse(folder.prefix, name).map_err(Stranger::NoSegment)?;
    if !lines::is_file(line) {
        return Err(Stranger::NoFile);
    }
    if 64 <= i {
        return Err(Stranger::OneTooMany);
    }
    let size = files::measure(rt, folder.path, name, limit).ok_or(Stranger::Unreadable)?;
    Ok(ImageRow {
        id,
        slot: i as u32,
        size: size as u64,
    })
}

// How many rows have this segment id.
fn times(rows: Rows, id: u32) -> usize {
    let listed = rows.rows.iter().take(rows.count);
    listed.filter(|row| row.id == id).count()
}

// The lowest segment id.
fn lowest(rows: Rows) -> Option<u32> {
    let listed = rows.rows.iter().take(rows.count);
    listed.map(|row| row.id).min()
}

// Judges a row among the others: its segment id, and its size. Two rows have one id only where a line stands twice: no two names do.
fn among_others(rows: Rows, row: ImageRow, limit: usize) -> Result<(), Stranger> {
    if row.id == 0 {
        return Err(Stranger::SegmentZero);
    }
    if times(rows, row.id) != 1 {
        return Err(Stranger::NamedTwice);
    }
    if lowest(rows) != Some(row.id) && times(rows, row.id - 1) == 0 {
        return Err(Stranger::OneMissing);
    }
    let images = rows.count;
    if limit < slices::room(images as u64, images::slot_size(row.size)) {
        return Err(Stranger::TooLarge { images, limit });
    }
    Ok(())
}

// Says why a name does not belong.
fn say_stranger(rt: &impl Print, name: &[u8], why: Stranger) -> io::Result<()> {
    rt.write_all(name)?;
    println!(rt; ": {why}")
}

// Judges each line by itself; the rows of those that belong, and whether all do.
fn by_themselves(
    rt: &(impl Files + Print),
    folder: Folder<'_>,
    limit: usize,
) -> io::Result<(Rows, bool)> {
    let mut rows = Rows {
        count: 0,
        rows: [segment::no_row(); 64],
    };
    let mut all_belong = true;
    let lines = folder.lines.split_inclusive(|byte| *byte == b'\n');
    for (i, line) in lines.enumerate() {
        let line = line.strip_suffix(b"\n").unwrap_or(line);
        match by_itself(rt, folder, line, i, limit) {
            Ok(row) => {
                let count = rows.count;
                if let Some(entry) = rows.rows.get_mut(count) {
                    *entry = row;
                    rows.count = count + 1;
                }
            }
            Err(why) => {
                say_stranger(rt, lines::name(line), why)?;
                all_belong = false;
            }
        }
    }
    Ok((rows, all_belong))
}

// Judges each row among the others; whether all belong.
fn together(rt: &impl Print, folder: Folder<'_>, rows: Rows, limit: usize) -> io::Result<bool> {
    let mut all_belong = true;
    for row in rows.rows.iter().take(rows.count) {
        if let Err(why) = among_others(rows, *row, limit) {
            say_stranger(rt, folder.name(row.slot), why)?;
            all_belong = false;
        }
    }
    Ok(all_belong)
}

// Judges all names: the image rows, a slot a line, or nothing where a name does not belong. The images' slots take at most `limit` bytes.
pub(crate) fn all(
    rt: &(impl Files + Print),
    folder: Folder<'_>,
    limit: usize,
) -> io::Result<Option<Rows>> {
    let (rows, by_themselves) = by_themselves(rt, folder, limit)?;
    let together = together(rt, folder, rows, limit)?;
    Ok((by_themselves && together).then_some(rows))
}
