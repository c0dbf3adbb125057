// What a folder of segment images holds: list_images FOLDER PREFIX [S E] <NAMES
// NAMES are the folder's names that begin with the prefix, a line each: `file NAME`, or `other NAME` where it is no file. `./iflughan list`
// makes them. Recovers S..E, or all records where no range is given, and writes the images, specimen 13's lines and, last, `ok` or
// `refused`. `ok` is said only where each name was a segment's, its file was read whole and the library accepted it. As the library does, it
// looks at nothing behind record E; where something stands there, the lines say so. Nothing is changed. A write that fails ends it with
// that error.
#![tactic(auto)]

mod arguments;
mod files;
mod images;
mod judge;
mod lines;

use image_rows::Rows;
use images::Walked;
use lines::Folder;
use refusal::Refusal;
use seglog::Shape;
use std::env::Env;
use std::fs::Files;
use std::io;
use text::Text;
use walk::Range;

// The images' bytes in memory; the index has four words for each page of them.
const AREA: usize = 524288;

// Recovers the range from the images in the area, and lists what they hold; `stopped` where something stands behind its end.
fn list(
    rt: &impl Print,
    area: &mut [u8],
    c: u64,
    rows: Rows,
    range: Range,
    stopped: bool,
) -> io::Result<()> {
    let mut index = [0u64; 512];
    let Range { s, e } = range;
    let k = rows.count as u64;
    let shape = Shape { k, c, m: c };
    let recovered = match recovery::recover(shape, area, rows, range, &mut index) {
        Ok(recovered) => recovered,
        Err(refusal) => return println!(rt; "refused {} recovering {s} to {e}", refusal.number()),
    };
    let mut lines = [0u8; 65536];
    let mut text = Text {
        out: &mut lines,
        end: 0,
    };
    listing::kept(recovered.log, &mut text);
    text.put(b"record slot offset length\n");
    listing::rows(&index, recovered.rows, &mut text);
    let end = text.end;
    rt.write_all(slices::front(&lines, end))?;
    print!(rt; "ok {} records in {k} images", recovered.rows)?;
    if stopped {
        print!(rt; "; nothing behind record {e} was looked at")?;
    }
    println!(rt)
}

// The last line where an image has a fault. Who gave no range is told the one that ends before it.
fn say_refused(
    rt: &impl Print,
    refusal: Refusal,
    whole: Walked,
    range: Option<Range>,
) -> io::Result<()> {
    print!(rt; "refused {} in the image said above", refusal.number())?;
    if let (None, Some(records)) = (range, whole.records) {
        let first = records.first;
        let last = records.last;
        print!(rt; "; what stands before it is listed with the range {first} {last}")?;
    }
    println!(rt)
}

// Reads the images into the slots of the area's part that they need, walks each, and lists what they hold.
fn list_judged(
    rt: &(impl Files + Print),
    folder: Folder<'_>,
    rows: Rows,
    range: Option<Range>,
    area: &mut [u8],
) -> io::Result<()> {
    let c = images::largest_slot(rows);
    let Some(used) = area.get_mut(..slices::room(rows.count as u64, c)) else {
        return println!(rt; "refused: the images need more memory than this program has");
    };
    if !files::load(rt, folder, rows, &mut *used, c as usize)? {
        return println!(rt; "refused: a file was changed while it was read, as said above");
    }
    let whole = images::walk(rt, folder, rows, range, used, c)?;
    if let Some(refusal) = whole.refusal {
        return say_refused(rt, refusal, whole, range);
    }
    list(
        rt,
        used,
        c,
        rows,
        range.unwrap_or(whole.range()),
        whole.stopped,
    )
}

// Says what does not belong, or lists the images.
fn judge_and_list(
    rt: &(impl Files + Print),
    folder: Folder<'_>,
    range: Option<Range>,
    area: &mut [u8],
) -> io::Result<()> {
    match judge::all(rt, folder, area.len())? {
        None => println!(rt; "refused: not all that is there belongs to the log, as said above"),
        Some(rows) if rows.count == 0 => {
            println!(rt; "refused: the folder has no file of this prefix")
        }
        Some(rows) => list_judged(rt, folder, rows, range, area),
    }
}

fn work(rt: &(impl Env + Files + Input + Print), area: &mut [u8]) -> io::Result<()> {
    let mut path = [0u8; 4096];
    let mut prefix = [0u8; 4096];
    let Ok(asked) = arguments::all(rt, &mut path, &mut prefix) else {
        return println!(rt; "usage: list_images FOLDER PREFIX [S E] <NAMES");
    };
    let mut names = [0u8; 65536];
    let length = files::read_full(&mut rt.reader(), &mut names);
    if length == 65536 {
        return println!(rt; "refused: more than 65535 bytes of names");
    }
    let folder = Folder {
        path: asked.path,
        prefix: asked.prefix,
        lines: &names[..length],
    };
    judge_and_list(rt, folder, asked.range, area)
}

fn main(rt: HostRuntime) -> io::Result<()> {
    let mut area = [0u8; AREA];
    work(&rt, &mut area)
}
