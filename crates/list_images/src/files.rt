// The images' files: how large each is, and its bytes.
// A path that does not fit its buffer is no path, nor is one that is no UTF-8 text.
ghost use Rattle.std.specs.Prelude.{◌<◌, ◌≤◌, length};

use crate::lines::Folder;
use image_rows::Rows;
use std::fs::{File, Files};
use std::io;
use std::io::Read;

// The file, opened for reading, or nothing.
fn open<R: Files>(rt: &R, folder: &[u8], name: &[u8]) -> Option<R::File> {
    let mut path = [0u8; 4096];
    let n = folders::path_into(folder, name, &mut path);
    let whole = str::from_utf8(slices::front(&path, n)).ok()?;
    File::open(rt, whole).ok()
}

// How many bytes a file has, read to its end or until more than the limit came.
fn read_to_end(file: &mut impl Read, limit: usize) -> io::Result<usize> {
    let mut piece = [0u8; 65536];
    let mut size: usize = 0;
    for _ in 0..=limit {
        let n = file.read(&mut piece)?;
        size = size.saturating_add(n);
        if n == 0 || limit < size {
            break;
        }
    }
    Ok(size)
}

// How large a file is, at most a piece more than the limit; nothing where it cannot be read.
pub(crate) fn measure(rt: &impl Files, folder: &[u8], name: &[u8], limit: usize) -> Option<usize> {
    let mut file = open(rt, folder, name)?;
    read_to_end(&mut file, limit).ok()
}

// Reads until the buffer is full, the file ends or a read fails; how many bytes came.
pub(crate) fn read_full(file: &mut impl Read, buffer: &mut [u8]) -> usize
    ensures { result ≤ length buffer.new }
{
    let mut done: usize = 0;
    while done < buffer.len() {
        let n = file.read(&mut buffer[done..]).unwrap_or(0);
        if n == 0 {
            break;
        }
        done += n;
    }
    done
}

// Reads a file into a slot; whether it has so many bytes, and no more.
fn read_into(rt: &impl Files, folder: &[u8], name: &[u8], slot: &mut [u8], size: u64) -> bool {
    let Some(mut file) = open(rt, folder, name) else {
        return false;
    };
    let n = read_full(&mut file, slot);
    let mut more = [0u8; 1];
    n as u64 == size && matches!(file.read(&mut more), Ok(0))
}

// Reads each image into its slot of c bytes; whether all had the sizes that the rows say. Those that had not are named.
pub(crate) fn load(
    rt: &(impl Files + Print),
    folder: Folder<'_>,
    rows: Rows,
    area: &mut [u8],
    c: usize,
) -> io::Result<bool>
    requires { 0 < c }
{
    let mut unchanged = true;
    for (slot, row) in area
        .chunks_exact_mut(c)
        .zip(rows.rows.iter().take(rows.count))
    {
        let name = folder.name(row.slot);
        if !read_into(rt, folder.path, name, slot, row.size) {
            rt.write_all(name)?;
            println!(rt; ": changed while it was read")?;
            unchanged = false;
        }
    }
    Ok(unchanged)
}
