// Lines L, A, O, R, N and V: histories of a log, with the log and its segments' bytes compared after each call.
// Assumes nothing.
ghost use Rattle.std.specs.Prelude.{◌≤◌};

use crate::fields::Line;
use crate::{digest, fields};
use image_rows::Rows;
use payload::IndexRow;
use refusal::Refusal;
use seglog::{Log, Shape};
use seglog_append::Appended;
use segment::Segment;
use walk::Range;

// A line that does not replay: its answer is not the recorded one, or it is no line of the sample.
#[derive(Clone, Copy, Debug)]
pub(crate) struct Differs;

// The log after a call, where its answer was the recorded one.
pub(crate) fn agreed(good: bool, log: Log) -> Result<Log, Differs> {
    if good { Ok(log) } else { Err(Differs) }
}

// L K C M
pub(crate) fn started(line: Line<'_>, area: &mut [u8]) -> Result<Log, Differs> {
    let shape = Shape {
        k: u64::from(line.short_hex(1)),
        c: u64::from(line.short_hex(2)),
        m: u64::from(line.short_hex(3)),
    };
    let used = area
        .get_mut(..slices::room(shape.k, shape.c))
        .ok_or(Differs)?;
    seglog::new_log(shape, used).map_err(|_| Differs)
}

// Whether a segment is the one that the digits give: id, size, min, max, where its newest record starts, and the digest of its bytes.
fn segment_same(segment: Segment, image: &[u8], digits: &[u8; 72]) -> bool {
    fields::hex(&digits[..8]) == u64::from(segment.id)
        && fields::hex(&digits[8..16]) == segment.size
        && fields::hex(&digits[16..32]) == segment.min
        && fields::hex(&digits[32..48]) == segment.max
        && fields::hex(&digits[48..56]) == segment.newest_at
        && fields::hex(&digits[56..]) == digest::of(digest::START, image)
}

// Whether the log has as many segments as the word, and these.
fn segments_same(log: Log, area: &[u8], digits: &[u8]) -> bool {
    if log.count == 0 {
        return digits == b"-".as_slice();
    }
    let (given, rest) = digits.as_chunks::<72>();
    let listed = log.segs.iter().take(log.count);
    given.len() == log.count
        && rest.is_empty()
        && listed.zip(given).all(|(segment, digits)| {
            let image = IndexRow {
                id: 0,
                slot: u64::from(segment.slot),
                offset: 0,
                length: segment.size,
            };
            segment_same(*segment, payload::payload(log, area, image), digits)
        })
}

// STATE: start end segments, from word i on.
fn state_same(log: Log, area: &[u8], line: Line<'_>, i: usize) -> bool
    requires { i ≤ 64 }
{
    line.hex(i) == log.start
        && line.hex(i + 1) == log.end
        && segments_same(log, area, line.word(i + 2))
}

// Byte i is `first` + i modulo 256.
fn fill(payload: &mut [u8], first: u32) {
    let mut value = (first % 256) as u8;
    for byte in payload.iter_mut() {
        *byte = value;
        value = value.wrapping_add(1);
    }
}

// The answer of an append of so many bytes. Where they are more than can be lent here, from their number alone, which gives the same
// (`seglog_append:append-advances`); the bytes would have to be written only where it is accepted.
fn append(log: Log, area: &mut [u8], payload: &[u8], length: usize) -> Result<Appended, Refusal> {
    match payload.get(..length) {
        Some(payload) => seglog_append::append(log, area, payload),
        None => seglog_append::advance(log, area.len(), length),
    }
}

// The log after a call that was refused, which leaves it as it was.
fn refused(
    line: Line<'_>,
    refusal: Refusal,
    log: Log,
    area: &[u8],
    wanted: Option<u32>,
    i: usize,
) -> Result<Log, Differs>
    requires { i ≤ 64 }
{
    agreed(
        wanted == Some(refusal.number()) && state_same(log, area, line, i),
        log,
    )
}

// A DD length fill NN id STATE
pub(crate) fn appended(
    line: Line<'_>,
    log: Log,
    area: &mut [u8],
    payload: &mut [u8],
) -> Result<Log, Differs> {
    fill(&mut *payload, line.short_hex(3));
    let length = line.short_hex(2) as usize;
    let wanted = line.wanted(4);
    match append(log, &mut *area, payload, length) {
        Ok(appended) => {
            let next = appended.log;
            let same = appended.id == line.hex(5) && state_same(next, area, line, 6);
            agreed(wanted.is_none() && same, next)
        }
        Err(refusal) => refused(line, refusal, log, area, wanted, 6),
    }
}

// The rest of a line of a prune, with the answer wanted.
fn pruned(
    line: Line<'_>,
    answer: Result<Log, Refusal>,
    log: Log,
    area: &[u8],
    wanted: Option<u32>,
) -> Result<Log, Differs> {
    match answer {
        Ok(next) => agreed(wanted.is_none() && state_same(next, area, line, 4), next),
        Err(refusal) => refused(line, refusal, log, area, wanted, 4),
    }
}

// O DD id NN STATE
pub(crate) fn oldest(line: Line<'_>, log: Log, area: &mut [u8]) -> Result<Log, Differs> {
    let answer = seglog_prune::prune_oldest(log, &mut *area, line.hex(2));
    pruned(line, answer, log, area, line.wanted(3))
}

// R DD id NN STATE
pub(crate) fn recent(line: Line<'_>, log: Log, area: &mut [u8]) -> Result<Log, Differs> {
    let answer = seglog_prune::prune_recent(log, &mut *area, line.hex(2));
    pruned(line, answer, log, area, line.wanted(3))
}

// N DD id NN STATE: NN is what the original's search comes to, which does not reach the newest record; ours accepts.
pub(crate) fn recent_at_newest(line: Line<'_>, log: Log, area: &mut [u8]) -> Result<Log, Differs> {
    let answer = seglog_prune::prune_recent(log, &mut *area, line.hex(2));
    pruned(line, answer, log, area, None)
}

// The digest of what the first `count` index rows deliver: each record's id and payload.
fn all_delivered(log: Log, area: &[u8], index: &[u64], count: u64) -> u64 {
    let (rows, _) = index.as_chunks::<4>();
    let mut sum = digest::START;
    for &[id, slot, offset, length] in rows.iter().take(count as usize) {
        let row = IndexRow {
            id,
            slot,
            offset,
            length,
        };
        let delivered = payload::payload(log, area, row);
        sum = digest::of(digest::of_number(sum, id), delivered);
    }
    sum
}

// A recovery of words 2 and 3, s and e, from these rows, with the answer wanted: behind word i the digest, then STATE.
pub(crate) fn recovery(
    line: Line<'_>,
    log: Log,
    area: &mut [u8],
    images: Rows,
    wanted: Option<u32>,
    i: usize,
) -> Result<Log, Differs>
    requires { i ≤ 60 }
{
    let shape = Shape {
        k: log.k,
        c: log.c,
        m: log.m,
    };
    let range = Range {
        s: line.hex(2),
        e: line.hex(3),
    };
    let mut index = [0u64; 256];
    match recovery::recover(shape, &mut *area, images, range, &mut index) {
        Ok(recovered) => {
            let next = recovered.log;
            let same = all_delivered(next, area, &index, recovered.rows) == line.hex(i + 1)
                && state_same(next, area, line, i + 2);
            agreed(wanted.is_none() && same, next)
        }
        Err(refusal) => refused(line, refusal, log, area, wanted, i + 2),
    }
}

// V DD s e NN digest STATE
pub(crate) fn recovered(line: Line<'_>, log: Log, area: &mut [u8]) -> Result<Log, Differs> {
    let images = listing::images_of(log);
    recovery(line, log, area, images, line.wanted(4), 4)
}
