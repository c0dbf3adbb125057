// Lines D and E: deltas decoded, and encoded again.
// Assumes nothing.
use crate::fields::Line;
use delta::{Row, Table};

// What stands behind a row's bytes: its key, its mark, its value's length and the value. Nothing where the bytes begin otherwise.
fn behind<'a>(bytes: &'a [u8], row: Row, input: &[u8]) -> Option<&'a [u8]> {
    let key = row.key;
    let mark = [u8::from(row.present)];
    let length = row.length.to_le_bytes();
    let value = input
        .get(row.offset as usize..)?
        .get(..row.length as usize)?;
    bytes
        .strip_prefix(&key)?
        .strip_prefix(&mark)?
        .strip_prefix(&length)?
        .strip_prefix(value)
}

// Whether the table's rows are those that the bytes give, and no others.
fn rows_same(table: Table, input: &[u8], bytes: &[u8]) -> bool {
    let mut rest = bytes;
    for row in table.rows.iter().take(table.count) {
        let Some(behind) = behind(rest, *row, input) else {
            return false;
        };
        rest = behind;
    }
    rest.is_empty()
}

// D DD input NN consumed rows
pub(crate) fn decoded(line: Line<'_>, input: &mut [u8], rows: &mut [u8]) -> bool {
    let input = line.bytes(2, input);
    let rows = line.bytes(5, rows);
    let wanted = line.wanted(3);
    match delta::decode(input) {
        Ok(decoded) => {
            wanted.is_none()
                && decoded.consumed as u64 == line.hex(4)
                && rows_same(decoded.table, input, rows)
        }
        Err(refusal) => wanted == Some(refusal.number()),
    }
}

// The rows that a delta gives; none where it is refused.
fn rows_of(input: &[u8]) -> Table {
    let none = Row {
        key: [0; 32],
        present: false,
        offset: 0,
        length: 0,
    };
    match delta::decode(input) {
        Ok(decoded) => decoded.table,
        Err(_) => Table {
            rows: [none; 256],
            count: 0,
        },
    }
}

// E DD input encoded
pub(crate) fn encoded(line: Line<'_>, input: &mut [u8], bytes: &mut [u8]) -> bool {
    let input = line.bytes(2, input);
    let bytes = line.bytes(3, bytes);
    let mut out = [0u8; 65536];
    let departure = line.departure();
    match delta_encode::encode(rows_of(input), input, &mut out) {
        Ok(size) => departure.is_none() && slices::front(&out, size) == bytes,
        Err(refusal) => departure == Some(refusal.number()),
    }
}
