// Specimens 1, 2, 3, 13's last sentence and 14: the log.
// Assumes nothing.
use crate::{holds, refused};
use recovery::Recovered;
use refusal::Refusal;
use seglog::{Log, Shape};
use std::io;
use walk::Range;

const SHAPE: Shape = Shape {
    k: 2,
    c: 8192,
    m: 8192,
};

// The log after a first append of this payload.
fn appended(payload: &[u8]) -> Result<Log, Refusal> {
    let mut area = [0u8; 16384];
    let fresh = seglog::new_log(SHAPE, &mut area)?;
    let appended = seglog_append::append(fresh, &mut area, payload)?;
    Ok(appended.log)
}

// The head's size after a first append of this payload; 0 where it is refused.
fn size_after(payload: &[u8]) -> u64 {
    match appended(payload) {
        Ok(log) => log.segs[0].size,
        Err(_) => 0,
    }
}

pub(crate) fn sizes(rt: &impl Print) -> io::Result<bool> {
    let longer = [0u8; 4085];
    let page = holds(
        rt,
        1,
        "payload 4084: size",
        size_after(&longer[..4084]),
        4096,
    )?;
    let pages = holds(rt, 2, "payload 4085: size", size_after(&longer), 8192)?;
    let nothing = holds(rt, 3, "payload 0: size", size_after(b""), 4096)?;
    Ok(page && pages && nothing)
}

pub(crate) fn specimen_13(rt: &impl Print) -> io::Result<bool> {
    let mut area = [0u8; 16384];
    let log = samples::filled(&mut area, 8192, 3);
    let slot = u64::from(log.segs[1].slot);
    let opened = holds(rt, 13, "a third append opens slot", slot, 1)?;
    let full = samples::filled(&mut area, 8192, 4);
    let fifth = seglog_append::append(full, &mut area, b"abc").err();
    let refused = refused(
        rt,
        13,
        "a fifth one-page append meets",
        fifth,
        Refusal::NoFreeSlot,
    )?;
    Ok(opened && refused)
}

// How many segments prune oldest to n leaves.
fn left_by(log: Log, area: &mut [u8], n: u64) -> u64 {
    let pruned = seglog_prune::prune_oldest(log, area, n).unwrap_or(log);
    pruned.count as u64
}

fn recover(log: Log, area: &mut [u8], range: Range) -> Result<Recovered, Refusal> {
    let mut index = [0u64; 16];
    let images = listing::images_of(log);
    recovery::recover(SHAPE, area, images, range, &mut index)
}

pub(crate) fn specimen_14(rt: &impl Print) -> io::Result<bool> {
    let mut area = [0u8; 16384];
    let log = samples::filled(&mut area, 8192, 4);
    let left = left_by(log, &mut area, 2);
    let none = holds(rt, 14, "prune oldest to 2 drops nothing: segments", left, 2)?;
    let left = left_by(log, &mut area, 3);
    let first = holds(
        rt,
        14,
        "prune oldest to 3 drops the first: segments",
        left,
        1,
    )?;
    let behind = recover(log, &mut area, Range { s: 3, e: 5 }).err();
    let late = refused(rt, 14, "range 3..5: refusal", behind, Refusal::EndNotFound)?;
    let no_start = recover(log, &mut area, Range { s: 0, e: 3 }).err();
    let zero = refused(rt, 14, "range 0..3: refusal", no_start, Refusal::OneEndZero)?;
    let inner = recover(log, &mut area, Range { s: 2, e: 3 });
    let (count, size) = match inner {
        Ok(recovered) => (recovered.log.count as u64, recovered.log.segs[1].size),
        Err(_) => (0, 0),
    };
    let kept = holds(rt, 14, "recovering 2..3 keeps", count, 2)?;
    let size = holds(rt, 14, "recovering 2..3: head size", size, 4096)?;
    Ok(none && first && late && zero && kept && size)
}
