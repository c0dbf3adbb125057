// 1 to 10: a new log, append and the prunes.
// Assumes nothing.
use crate::{met, met_by};
use refusal::Refusal;
use seglog::{Log, Shape};
use seglog_append::Appended;
use segment::Segment;
use std::io;

// A well-shaped log of one segment, of one page, with one record.
fn made_up(segment: u32, record: u64) -> Log {
    let mut segs = [segment::no_segment(); 64];
    segs[0] = Segment {
        id: segment,
        slot: 0,
        size: 4096,
        min: record,
        max: record,
        newest_at: 0,
    };
    Log {
        k: 2,
        c: 8192,
        m: 4096,
        start: record,
        end: record,
        count: 1,
        segs,
    }
}

// The refusal of a further append.
fn append(log: Log, area: &mut [u8]) -> Option<Refusal> {
    seglog_append::append(log, area, b"abc").err()
}

// A first append.
fn first_append(area: &mut [u8], payload: &[u8]) -> Result<Appended, Refusal> {
    let shape = Shape {
        k: 2,
        c: 8192,
        m: 8192,
    };
    let log = seglog::new_log(shape, &mut *area)?;
    seglog_append::append(log, area, payload)
}

pub(crate) fn appends(rt: &impl Print) -> io::Result<bool> {
    let mut area = [0u8; 16384];
    let no_slots = Shape {
        k: 0,
        c: 8192,
        m: 8192,
    };
    let refused = seglog::new_log(no_slots, &mut area).err();
    let rules = met(rt, refused, Refusal::OutsideRules)?;
    let unshaped = seglog::empty_log(no_slots);
    let shape = met(rt, append(unshaped, &mut area), Refusal::NotShaped)?;
    println!(rt;
        "3 {}: lent by the comparison, oracle/run logs",
        Refusal::PayloadTooLong
    )?;
    let last_record = made_up(1, u64::MAX);
    let last = met(rt, append(last_record, &mut area), Refusal::LastRecordId)?;
    let last_segment = made_up(u32::MAX, 1);
    let ids = met(rt, append(last_segment, &mut area), Refusal::LastSegmentId)?;
    let full = samples::filled(&mut area, 4096, 2);
    let slots = met(rt, append(full, &mut area), Refusal::NoFreeSlot)?;
    let large = [0u8; 8192];
    let room = met(rt, first_append(&mut area, &large).err(), Refusal::NoRoom)?;
    Ok(rules && shape && last && ids && slots && room)
}

// Prunes the oldest to 3, and then the recent to 2.
fn prune_twice(log: Log, area: &mut [u8]) -> Result<Log, Refusal> {
    let later = seglog_prune::prune_oldest(log, &mut *area, 3)?;
    seglog_prune::prune_recent(later, area, 2)
}

// The refusal of prune recent to n.
fn prune_recent(log: Log, area: &mut [u8], n: u64) -> Option<Refusal> {
    seglog_prune::prune_recent(log, area, n).err()
}

pub(crate) fn prunes(rt: &impl Print) -> io::Result<bool> {
    let mut area = [0u8; 16384];
    let log = samples::filled(&mut area, 8192, 4);
    let above = met(rt, prune_recent(log, &mut area, 5), Refusal::AboveLiveEnd)?;
    let below = met(
        rt,
        prune_twice(log, &mut area).err(),
        Refusal::BelowLiveStart,
    )?;
    // the id of record 2, which is its segment's newest
    area[4100] = 9;
    let newest = met_by(
        rt,
        prune_recent(log, &mut area, 2),
        Refusal::CutNotFound,
        ": another id at newest_at",
    )?;
    // the length of record 1, which is not
    area[3] = 255;
    let cut = met_by(
        rt,
        prune_recent(log, &mut area, 1),
        Refusal::CutNotFound,
        ": short header, length above 2^30, a payload that ends past the size, or end of image first",
    )?;
    Ok(above && below && newest && cut)
}
