// Append (`SegmentedLog::append`, `create_segment`, `gen_segment_id` of the Rust's mod.rs), in two halves: where the record goes, which
// is decided with no byte of the area or the payload, and putting it there, through the segment's writer.
#![tactic(auto)]

ghost use Rattle.std.specs.Prelude.{◌≡◌, ◌+◌, ◌*◌, ◌%◌, ◌^◌, ◌≢◌, true, length, ◌==◌, nat_le, Some, None};
ghost use Rattle.lists.specs.Choice.{pick};
ghost use Rattle.lists.specs.Outcome.{done};
ghost use Rattle.refusal.specs.Refusals.{outcome};
ghost use Rattle.seglog.specs.View.{view_of};
ghost use Rattle.seglog.specs.Fit.{fitting_of};
ghost use Rattle.seglog_append.specs.Deciding.{free_slot, opened_of, decide_log};
ghost use Rattle.seglog_append.specs.Appending.{GrownPre, grown_answer, taken, appended, advanced_of, append_log, append_answer, append_area};

use record::{HEADER_SIZE, MAX_RECORD_PAYLOAD_SIZE};
use refusal::Refusal;
use seglog::Log;
use segment::Segment;

// The id that a record got, and the log that lists it.
#[derive(Clone, Copy)]
pub struct Appended {
    pub id: u64,
    pub log: Log,
}

// Where a record goes: behind the target segment's bytes. The target is the entry `at`, and the record takes `room` bytes, padding
// included.
#[derive(Clone, Copy)]
pub struct Place {
    pub target: Segment,
    pub at: usize,
    pub room: u64,
}

// The last segment id plus one, wrapping at 32 bits; none where that is 0. The last id is 0 where there is no segment.
fn gen_segment_id(last: u32) -> Option<u32>
    ensures { result ≡ pick ((last + 1) % 2 ^ 32 == 0) None (Some ((last + 1) % 2 ^ 32)) }
{
    let next = last.wrapping_add(1);
    if next == 0 {
        return None;
    }
    Some(next)
}

// Whether a new segment is wanted: there is none, or the head's size is the soft size or more.
fn opens(count: usize, soft: u64, size: u64) -> bool
    ensures { result ≡ pick (count == 0) true (nat_le soft size) }
{
    count == 0 || soft <= size
}

// The lowest slot that no listed segment has, where one of the K is left: a mark for each slot listed, then the first without one.
fn lowest_free(log: Log) -> Option<u32>
    requires { fitting_of log (log.k * log.c) ≡ true }
    ensures { result ≡ free_slot (view_of log) }
{
    let mut used = [false; 64];
    let listed = &log.segs[..log.count];
    for g in listed {
        used[g.slot as usize] = true;
    }
    (0..log.k as u32).find(|slot| !used[*slot as usize])
}

// A new segment, before its first record, or refusal 5 or 6; 0 is the last id where there is no segment.
fn open_segment(log: Log, last: u32) -> Result<Segment, Refusal>
    requires fits { fitting_of log (log.k * log.c) ≡ true }
    requires more { log.end ≢ 18446744073709551615 }
    ensures { outcome result ≡ opened_of (view_of log) last }
{
    let id = gen_segment_id(last).ok_or(Refusal::LastSegmentId)?;
    let slot = lowest_free(log).ok_or(Refusal::NoFreeSlot)?;
    let first = log.end + 1;
    Ok(Segment {
        id,
        slot,
        min: first,
        max: first,
        ..segment::no_segment()
    })
}

// Refusals 2 to 7, or where the next record of the log goes: of n payload bytes, in an area of `bytes` bytes.
pub fn decide(log: Log, bytes: usize, n: usize) -> Result<Place, Refusal>
    ensures { outcome result ≡ decide_log log bytes n }
{
    if !seglog::fits(log, bytes) {
        return Err(Refusal::NotShaped);
    }
    if (MAX_RECORD_PAYLOAD_SIZE as usize) < n {
        return Err(Refusal::PayloadTooLong);
    }
    if log.end == u64::MAX {
        return Err(Refusal::LastRecordId);
    }
    let last = log.count.saturating_sub(1);
    let head = log.segs[last];
    let (target, at) = if opens(log.count, log.m, head.size) {
        (open_segment(log, head.id)?, log.count)
    } else {
        (head, last)
    };
    let room = page::padded_end((HEADER_SIZE + n) as u32);
    if log.c - target.size < room {
        return Err(Refusal::NoRoom);
    }
    Ok(Place { target, at, room })
}

// The live start with one record more: a first record sets it.
fn start_after(count: usize, start: u64, id: u64) -> u64
    ensures { result ≡ pick (count == 0) id start }
{
    if count == 0 { id } else { start }
}

// The log with a record at its place, behind the target's bytes, where the target is `size` bytes long then. Never inlined, for the
// stack that the C interface's append takes (tests/abi/stack.c).
#[inline(never)]
fn grown(mut log: Log, place: Place, size: u64) -> Appended
    requires { GrownPre log place }
    ensures { result ≡ grown_answer log place size }
{
    let id = log.end + 1;
    let at = place.at;
    let target = place.target;
    log.start = start_after(log.count, log.start, id);
    log.end = id;
    log.count = at + 1;
    log.segs[at] = segment::ended_at(target, id, target.size, size);
    Appended { id, log }
}

// The answer that an append of n payload bytes gives to the log over an area of `bytes` bytes, with no byte written: what a copy of many
// records goes by, from log to log, before it writes.
pub fn advance(log: Log, bytes: usize, n: usize) -> Result<Appended, Refusal>
    ensures { appended log result ≡ advanced_of log bytes n }
{
    let place = decide(log, bytes, n)?;
    Ok(grown(log, place, place.target.size + place.room))
}

// The record with the next id, written at its place.
fn put(log: Log, area: &mut [u8], place: Place, payload: &[u8]) -> Appended
    requires { decide_log log (length area.old) (length payload.now) ≡ done place }
    ensures answer { taken result ≡ append_answer log (append_log log area.old payload.now) }
    ensures bytes { area.new ≡ append_area area.old (append_log log area.old payload.now) }
{
    let target = place.target;
    let size = segment_rw::append_record(
        area,
        log.c,
        target.slot,
        target.size,
        place.room,
        log.end + 1,
        payload,
    );
    grown(log, place, size)
}

// The record with the next id: refused by 2 to 7, or written behind the head or into a new segment.
pub fn append(log: Log, area: &mut [u8], payload: &[u8]) -> Result<Appended, Refusal>
    ensures answer { appended log result ≡ append_answer log (append_log log area.old payload.now) }
    ensures bytes { area.new ≡ append_area area.old (append_log log area.old payload.now) }
{
    let place = decide(log, area.len(), payload.len())?;
    Ok(put(log, area, place, payload))
}
