// Specimens 9 to 12: deltas.
// Assumes nothing.
use crate::{holds, refused};
use delta::{Row, Table};
use refusal::Refusal;
use std::io;

// A row whose key has 32 bytes of one value; its value is the first 3 bytes of what is lent.
fn row_of(byte: u8, present: bool) -> Row {
    Row {
        key: [byte; 32],
        present,
        offset: 0,
        length: if present { 3 } else { 0 },
    }
}

// A table of up to two rows.
fn table_of(first: Row, second: Row, count: usize) -> Table {
    let mut rows = [row_of(0, false); 256];
    rows[0] = first;
    rows[1] = second;
    Table { rows, count }
}

// The bytes written, 0 where the table is refused.
fn written(table: Table, out: &mut [u8]) -> u64 {
    delta_encode::encode(table, b"abc", out).map_or(0, |n| n as u64)
}

pub(crate) fn deltas(rt: &impl Print) -> io::Result<bool> {
    let mut out = [255u8; 64];
    let erase = row_of(7, false);
    let reinstate = row_of(7, true);
    let size = written(table_of(erase, erase, 0), &mut out);
    let empty = holds(rt, 9, "empty delta: bytes", size, 8)?;
    let eight = little_endian::read_u64(&out, 0).unwrap_or(1);
    let zeros = holds(rt, 9, "as a number", eight, 0)?;
    let size = written(table_of(erase, erase, 1), &mut out);
    let erased = holds(rt, 10, "one erase key: bytes", size, 40)?;
    let size = written(table_of(reinstate, erase, 1), &mut out);
    let reinstated = holds(rt, 11, "one reinstated key with 3 bytes: bytes", size, 47)?;
    let twice = delta_encode::encode(table_of(erase, reinstate, 2), b"abc", &mut out).err();
    let both = refused(
        rt,
        12,
        "the same key in both groups: refusal",
        twice,
        Refusal::DuplicateKey,
    )?;
    Ok(empty && zeros && erased && reinstated && both)
}
