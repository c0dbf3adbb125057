// Lines B, I and J: pieces of images laid into the area, and recoveries from image rows that the line gives.
// Assumes nothing.
use crate::fields::Line;
use crate::logs::Differs;
use crate::{fields, logs};
use image_rows::Rows;
use seglog::Log;
use segment::ImageRow;

// B at room bytes: these bytes from `at` on, and zeros behind them, `room` bytes in all.
pub(crate) fn laid(
    line: Line<'_>,
    log: Log,
    area: &mut [u8],
    bytes: &mut [u8],
) -> Result<Log, Differs> {
    let at = line.short_hex(1) as usize;
    let end = at + line.short_hex(2) as usize;
    lists::zero_fill(&mut *area, at, end);
    lists::copy_into(&mut *area, at, line.bytes(3, bytes));
    if end <= area.len() {
        Ok(log)
    } else {
        Err(Differs)
    }
}

// The row that 24 digits give: segment id, slot and size.
fn row_of(digits: &[u8; 24]) -> ImageRow {
    ImageRow {
        id: fields::short_hex(&digits[..8]),
        slot: fields::short_hex(&digits[8..16]),
        size: fields::hex(&digits[16..]),
    }
}

// The rows that the digits give, 64 at most.
fn rows_of(digits: &[u8]) -> Rows {
    let (given, _) = digits.as_chunks::<24>();
    let mut rows = [segment::no_row(); 64];
    for (row, digits) in rows.iter_mut().zip(given) {
        *row = row_of(digits);
    }
    Rows {
        count: given.len().min(64),
        rows,
    }
}

// I DD s e rows NN digest STATE
pub(crate) fn recovered(line: Line<'_>, log: Log, area: &mut [u8]) -> Result<Log, Differs> {
    logs::recovery(line, log, area, rows_of(line.word(4)), line.wanted(5), 5)
}

// J DD s e rows NN digest STATE: NN is the original's refusal for what stands behind e; ours accepts.
pub(crate) fn recovered_up_to_e(line: Line<'_>, log: Log, area: &mut [u8]) -> Result<Log, Differs> {
    logs::recovery(line, log, area, rows_of(line.word(4)), None, 5)
}
