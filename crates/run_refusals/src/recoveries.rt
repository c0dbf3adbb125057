// 11 to 24: recovery and the row question, on the images of two segments with the records 1-2 and 3-4, a page each.
// Assumes nothing.
use crate::met;
use image_rows::Rows;
use payload::IndexRow;
use refusal::Refusal;
use seglog::Shape;
use segment::ImageRow;
use std::io;
use walk::Range;

const SHAPE: Shape = Shape {
    k: 2,
    c: 8192,
    m: 8192,
};

// The records of both images.
const ALL: Range = Range { s: 1, e: 4 };

// An image row.
fn row(id: u32, slot: u32, size: u64) -> ImageRow {
    ImageRow { id, slot, size }
}

// The rows of the images as they were written.
fn whole() -> [ImageRow; 2] {
    [row(1, 0, 8192), row(2, 1, 8192)]
}

// Two image rows, as recovery takes them.
fn listed(pair: [ImageRow; 2]) -> Rows {
    let mut rows = [segment::no_row(); 64];
    rows[..2].copy_from_slice(&pair);
    Rows { count: 2, rows }
}

// The refusal of recovering a range from these rows into an index of so many words, with one byte of the area changed.
fn refused(
    pair: [ImageRow; 2],
    range: Range,
    index: &mut [u64],
    at: usize,
    byte: u8,
) -> Option<Refusal> {
    let mut area = [0u8; 16384];
    samples::filled(&mut area, 8192, 4);
    lists::copy_into(&mut area, at, &[byte]);
    recovery::recover(SHAPE, &mut area, listed(pair), range, index).err()
}

// The same, with index words for all records.
fn damaged(pair: [ImageRow; 2], range: Range, at: usize, byte: u8) -> Option<Refusal> {
    let mut index = [0u64; 16];
    refused(pair, range, &mut index, at, byte)
}

// The same, with no byte changed: past the area's end nothing is written.
fn recover(pair: [ImageRow; 2], range: Range) -> Option<Refusal> {
    damaged(pair, range, 16384, 0)
}

pub(crate) fn ranges_and_rows(rt: &impl Print) -> io::Result<bool> {
    let zero = met(
        rt,
        recover(whole(), Range { s: 0, e: 3 }),
        Refusal::OneEndZero,
    )?;
    let order = met(
        rt,
        recover(whole(), Range { s: 3, e: 2 }),
        Refusal::RangeReversed,
    )?;
    let slot = [row(1, 0, 8192), row(2, 2, 8192)];
    let rows = met(rt, recover(slot, ALL), Refusal::RowsUnfit)?;
    let lowest = [row(0, 0, 8192), row(1, 1, 8192)];
    let id = met(rt, recover(lowest, ALL), Refusal::SegmentZero)?;
    let gap = [row(1, 0, 8192), row(3, 1, 8192)];
    let apart = met(rt, recover(gap, ALL), Refusal::SegmentsApart)?;
    Ok(zero && order && rows && id && apart)
}

pub(crate) fn walks(rt: &impl Print) -> io::Result<bool> {
    let hole = [row(1, 0, 0), row(2, 1, 8192)];
    let empty = met(rt, recover(hole, Range { s: 3, e: 4 }), Refusal::ImageGap)?;
    let torn = [row(1, 0, 8192), row(2, 1, 4100)];
    let header = met(rt, recover(torn, ALL), Refusal::ShortHeader)?;
    let long = damaged(whole(), ALL, 3, 255);
    let length = met(rt, long, Refusal::HeaderTooLong)?;
    let other_id = damaged(whole(), ALL, 4100, 9);
    let sequence = met(rt, other_id, Refusal::OutOfSequence)?;
    let cut = [row(1, 0, 8192), row(2, 1, 4110)];
    let payload = met(rt, recover(cut, ALL), Refusal::ShortPayload)?;
    Ok(empty && header && length && sequence && payload)
}

// The refusal of recovering 1..2 into an index of four words.
fn one_row() -> Option<Refusal> {
    let mut index = [0u64; 4];
    refused(whole(), Range { s: 1, e: 2 }, &mut index, 16384, 0)
}

// The refusal of a row in the slot given.
fn asked(slot: u64) -> Option<Refusal> {
    let mut area = [0u8; 16384];
    let log = samples::filled(&mut area, 8192, 4);
    let row = IndexRow {
        id: 1,
        slot,
        offset: 12,
        length: 3,
    };
    payload::row_question(log, &area, row).err()
}

pub(crate) fn ends(rt: &impl Print) -> io::Result<bool> {
    let start = met(
        rt,
        recover(whole(), Range { s: 9, e: 9 }),
        Refusal::StartNotFound,
    )?;
    let end = met(
        rt,
        recover(whole(), Range { s: 3, e: 5 }),
        Refusal::EndNotFound,
    )?;
    let room = met(rt, one_row(), Refusal::IndexShort)?;
    let row = met(rt, asked(2), Refusal::RowOutside)?;
    Ok(start && end && room && row)
}
