// The log value of the segmented log (`SegmentedLog`, `Segment` of the Rust's mod.rs): fixed arrays and a count in place of a Vec.
// Here: whether it is well shaped, a new log, the live range. append stands in seglog_append, the prunes in seglog_prune.
#![tactic(auto)]

ghost use Rattle.std.specs.Prelude.{◌≡◌, ◌<◌, ◌&&◌, length, leb};
ghost use Rattle.lists.specs.Each.{Every};
ghost use Rattle.seglog.specs.View.{zero_of, zeros_of, empty_of, log_of, zero_log};
ghost use Rattle.seglog.specs.Chain.{newest_of, seg_of, goes_on, chain_of, slots_apart, ends_of};
ghost use Rattle.seglog.specs.Fit.{sizes_of, fitting_of};
ghost use Rattle.seglog.specs.New.{roomy_of, new_of, logged, range_of};

use page::PAGE_SIZE;
use record::HEADER_SIZE;
use refusal::Refusal;
use segment::{Segment, no_segment};

// The listed segments stand first, `count` of them, the oldest at the front; the other entries are all zero.
#[repr(C)]
#[derive(Clone, Copy)]
pub struct Log {
    // K slots of C bytes; a segment of M bytes or more takes no further record
    pub k: u64,
    pub c: u64,
    pub m: u64,
    // the live range, (0, 0) where there are no segments
    pub start: u64,
    pub end: u64,
    pub count: usize,
    pub segs: [Segment; 64],
}

// The numbers that a log is over: K slots of C bytes, and the soft size M.
#[derive(Clone, Copy)]
pub struct Shape {
    pub k: u64,
    pub c: u64,
    pub m: u64,
}

#[derive(Clone, Copy)]
pub struct LiveRange {
    pub start: u64,
    pub end: u64,
}

// Whether K, C and M obey the rules.
#[tactic(auto, unfolding(crate::specs::Fit::sizes_of))]
fn sizes_good(shape: Shape) -> bool
    ensures { result ≡ sizes_of shape.k shape.c shape.m }
{
    1 <= shape.k
        && shape.k <= 64
        && shape.c % PAGE_SIZE == 0
        && PAGE_SIZE <= shape.c
        && shape.c <= 2147483648
        && shape.m <= shape.c
}

// Whether every field of an entry is 0.
fn is_zero(g: Segment) -> bool
    ensures { result ≡ zero_of g }
{
    g == no_segment()
}

// Whether a segment of `size` bytes may have its newest record at `at`; `at + 12`, which may not fit, is not formed.
#[tactic(auto, unfolding(crate::specs::Chain::newest_of))]
fn newest_good(at: u64, size: u64) -> bool
    ensures { result ≡ newest_of at size }
{
    let header = HEADER_SIZE as u64;
    at % PAGE_SIZE == 0 && header <= size && at <= size - header
}

// What is asked of a listed segment by itself.
#[tactic(auto, unfolding(crate::specs::Chain::seg_of))]
fn segment_good(shape: Shape, g: Segment) -> bool
    ensures { result ≡ seg_of shape.k shape.c g }
{
    1 <= g.id
        && u64::from(g.slot) < shape.k
        && 1 <= g.size
        && g.size <= shape.c
        && 1 <= g.min
        && g.min <= g.max
        && newest_good(g.newest_at, g.size)
}

// Whether the segment h goes on from g.
#[tactic(auto, unfolding(crate::specs::Chain::goes_on))]
fn follows(g: Segment, h: Segment) -> bool
    ensures { result ≡ goes_on g h }
{
    g.id.checked_add(1) == Some(h.id) && g.max.checked_add(1) == Some(h.min)
}

// Whether K, C and M obey the rules and the area has K x C bytes: not refusal 1.
#[tactic(auto, using(crate::proofs::Fit::product_fits), unfolding(crate::specs::New::roomy_of))]
pub fn sizes_fit(shape: Shape, bytes: usize) -> bool
    ensures { result ≡ roomy_of shape.k shape.c shape.m bytes }
{
    sizes_good(shape) && bytes as u64 == shape.k * shape.c
}

// And whether there are at most K segments.
fn numbers_good(shape: Shape, count: usize, bytes: usize) -> bool
    ensures { result ≡ (roomy_of shape.k shape.c shape.m bytes && leb count shape.k) }
{
    sizes_fit(shape, bytes) && count as u64 <= shape.k
}

// Whether every field of each entry is 0.
fn all_zero(entries: &[Segment]) -> bool
    ensures { result ≡ zeros_of entries.now }
{
    entries.iter().all(|g| is_zero(*g))
}

// What is asked of the listed segments: each good by itself, and going on from the one before it.
fn chain_good(shape: Shape, listed: &[Segment]) -> bool
    ensures { result ≡ chain_of shape.k shape.c listed.now }
{
    listed.iter().all(|g| segment_good(shape, *g)) && listed.is_sorted_by(|g, h| follows(*g, *h))
}

// Whether no slot is listed twice, with a mark for each one seen.
fn slots_good(listed: &[Segment]) -> bool
    requires { Every (λ g. g.slot < 64) listed.now }
    ensures { result ≡ slots_apart listed.now }
{
    let mut used = [false; 64];
    for g in listed {
        let slot = g.slot as usize;
        if used[slot] {
            return false;
        }
        used[slot] = true;
    }
    true
}

// The live range begins in the first segment and ends with the last, which ends with a page; (0, 0) where there is no segment.
#[tactic(auto, unfolding(crate::specs::Chain::ends_of))]
fn ends_good(start: u64, end: u64, listed: &[Segment]) -> bool
    ensures { result ≡ ends_of start end listed.now }
{
    match (listed.first(), listed.last()) {
        (Some(first), Some(last)) => {
            first.min <= start
                && start <= first.max
                && last.size % PAGE_SIZE == 0
                && last.max == end
        }
        _ => start == 0 && end == 0,
    }
}

// Whether the log is well shaped and the area has K x C bytes: not refusal 2.
pub fn fits(log: Log, bytes: usize) -> bool
    ensures { result ≡ fitting_of log bytes }
{
    let shape = Shape {
        k: log.k,
        c: log.c,
        m: log.m,
    };
    if !numbers_good(shape, log.count, bytes) {
        return false;
    }
    let (listed, unused) = log.segs.split_at(log.count);
    all_zero(unused)
        && chain_good(shape, listed)
        && slots_good(listed)
        && ends_good(log.start, log.end, listed)
}

// A log with no segments, whatever the numbers.
pub fn empty_log(shape: Shape) -> Log
    ensures { result ≡ log_of (empty_of shape.k shape.c shape.m) }
{
    Log {
        k: shape.k,
        c: shape.c,
        m: shape.m,
        start: 0,
        end: 0,
        count: 0,
        segs: [no_segment(); 64],
    }
}

// The empty log over K slots of C bytes, or refusal 1; the area is not touched.
#[tactic(auto, unfolding(crate::specs::New::new_of))]
pub fn new_log(shape: Shape, area: &mut [u8]) -> Result<Log, Refusal>
    ensures { (logged zero_log result ≡ new_of shape.k shape.c shape.m (length area.old)) × (area.new ≡ area.old) }
{
    if !sizes_fit(shape, area.len()) {
        return Err(Refusal::OutsideRules);
    }
    Ok(empty_log(shape))
}

// The first and the last live record id; (0, 0) where there is none.
pub fn live_range(log: Log) -> LiveRange
    ensures { result ≡ range_of log }
{
    LiveRange {
        start: log.start,
        end: log.end,
    }
}
