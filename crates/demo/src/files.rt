// The images as files: FOLDER/scans.0000000001.log holds the first `size` bytes of a segment's slot, as the original's files do.
// Files are made anew and never overwritten; what is removed was made here. A read that fails ends what is read of a file.
ghost use Rattle.std.specs.Prelude.{◌<◌, ◌≤◌, length};

use image_rows::Rows;
use payload::IndexRow;
use seglog::Log;
use segment::{ImageRow, Segment};
use std::fs::{File, Files, OpenOptions};
use std::io::{Read, Write};
use std::{fs, io};

// The name of a segment's file over the front of the room.
fn name_of(id: u32, room: &mut [u8; 64]) -> &[u8] {
    let n = segment_filename::format(b"scans", id, &mut *room).unwrap_or(0);
    slices::front(room, n)
}

// FOLDER/NAME over the front of out; its length. A path that does not fit is no path, nor is one that is no UTF-8 text.
fn file_path(folder: &[u8], id: u32, out: &mut [u8]) -> usize {
    let mut name = [0u8; 64];
    folders::path_into(folder, name_of(id, &mut name), out)
}

// Makes a file that is not there yet, with these bytes; whether they were written, and nothing where the file was not made.
fn created(rt: &impl Files, path: &[u8], image: &[u8]) -> Option<bool> {
    let name = str::from_utf8(path).ok()?;
    let mut options = OpenOptions::new();
    let mut file = options.write(true).create_new(true).open(rt, name).ok()?;
    Some(file.write_all(image).is_ok())
}

// Makes a segment's file and says so; false where it is there already, or cannot be written.
fn make(
    rt: &(impl Files + Print),
    folder: &[u8],
    segment: Segment,
    image: &[u8],
) -> io::Result<bool> {
    let mut path = [0u8; 4096];
    let n = file_path(folder, segment.id, &mut path);
    let Some(written) = created(rt, slices::front(&path, n), image) else {
        return Ok(false);
    };
    let mut name = [0u8; 64];
    print!(rt; "wrote ")?;
    rt.write_all(name_of(segment.id, &mut name))?;
    println!(rt; ", {} bytes", segment.size)?;
    Ok(written)
}

// Removes a segment's file; one that is not there, or cannot be removed, is let be.
fn unlink(rt: &impl Files, folder: &[u8], id: u32) {
    let mut path = [0u8; 4096];
    let n = file_path(folder, id, &mut path);
    if let Ok(name) = str::from_utf8(slices::front(&path, n)) {
        let _ = fs::remove_file(rt, name);
    }
}

// Removes the files of the log's first n segments.
pub(crate) fn remove(rt: &impl Files, folder: &[u8], log: Log, n: usize) {
    for segment in log.segs.iter().take(n) {
        unlink(rt, folder, segment.id);
    }
}

// Makes the files of the log's segments: how many, up to the first that could not be made.
pub(crate) fn save(
    rt: &(impl Files + Print),
    folder: &[u8],
    log: Log,
    area: &[u8],
) -> io::Result<usize> {
    for (made, segment) in log.segs.iter().take(log.count).enumerate() {
        let image = IndexRow {
            id: 0,
            slot: u64::from(segment.slot),
            offset: 0,
            length: segment.size,
        };
        if !make(rt, folder, *segment, payload::payload(log, area, image))? {
            return Ok(made);
        }
    }
    Ok(log.count)
}

// Reads until the buffer is full, the file ends or a read fails; how many bytes came.
fn read_full(file: &mut impl Read, buffer: &mut [u8]) -> usize
    ensures { result ≤ length buffer.new }
{
    let mut done: usize = 0;
    while done < buffer.len() {
        let n = file.read(&mut buffer[done..]).unwrap_or(0);
        if n == 0 {
            break;
        }
        done += n;
    }
    done
}

// Reads a segment's file into its slot; how many bytes came, nothing where it cannot be opened.
fn read_into(rt: &impl Files, folder: &[u8], id: u32, slot: &mut [u8]) -> Option<usize> {
    let mut path = [0u8; 4096];
    let n = file_path(folder, id, &mut path);
    let name = str::from_utf8(slices::front(&path, n)).ok()?;
    let mut file = File::open(rt, name).ok()?;
    Some(read_full(&mut file, slot))
}

// Reads the files of the log's segments, each into a slot of c bytes: their image rows.
pub(crate) fn load(rt: &impl Files, folder: &[u8], log: Log, area: &mut [u8], c: usize) -> Rows
    requires { 0 < c }
{
    let mut rows = [segment::no_row(); 64];
    let mut count: usize = 0;
    let slots = (0..64u32).zip(area.chunks_exact_mut(c));
    let listed = log.segs.iter().take(log.count);
    for (((slot, bytes), segment), row) in slots.zip(listed).zip(rows.iter_mut()) {
        let size = read_into(rt, folder, segment.id, bytes).unwrap_or(0);
        *row = ImageRow {
            id: segment.id,
            slot,
            size: size as u64,
        };
        count = slot as usize + 1;
    }
    Rows { count, rows }
}
