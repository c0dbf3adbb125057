// The two prunes (`prune_oldest`, `prune_recent`, `scan_record_end`, `truncate_head_segment` of the Rust's mod.rs). Unlike there,
// a refusal comes before anything is changed.
#![tactic(auto)]

ghost use Rattle.std.specs.Prelude.{◌≡◌, ◌++◌, ◌-◌, ◌≤◌, ◌<◌, length, take, drop, replicate, reverse, take_while, nat_lt, true};
ghost use Rattle.refusal.specs.Refusals.{outcome};
ghost use Rattle.seglog.specs.View.{log_of, view_of, plain_of};
ghost use Rattle.seglog.specs.Fit.{fitting_of};
ghost use Rattle.seglog.specs.New.{logged};
ghost use Rattle.segment.specs.Segment.{no_segment};
ghost use Rattle.seglog_prune.specs.Decide.{early_of};
ghost use Rattle.seglog_prune.specs.Drop.{drop_old, drop_new};
ghost use Rattle.seglog_prune.specs.Cut.{look_at, cut_at, find_cut, cut_in};
ghost use Rattle.seglog_prune.specs.Prune.{started_at, oldest_log, recent_log, prune_answer, prune_area};
ghost use Rattle.seglog_prune.specs.Steps.{settled_of, ended_log};

use refusal::Refusal;
use seglog::{Log, Shape};
use segment::Segment;

// How far the tests that both prunes share lead.
#[derive(Clone, Copy)]
enum Early {
    // argument 0
    Empty,
    // an empty log
    Same,
    Onward,
}

// The record that a log is cut behind, its newest then: where its header starts in the slot, and its padded end.
#[derive(Clone, Copy)]
pub struct Newest {
    pub at: u64,
    pub end: u64,
}

// What stands at a place of an image where a record is looked for: that record; another one, with its padded end; or none.
#[derive(Clone, Copy)]
enum Look {
    Here(Newest),
    Other(u64),
    Nothing,
}

// How many leading segments have a max below n.
fn below(segs: &[Segment], n: u64) -> usize
    ensures { result ≡ length (take_while (λ g. nat_lt g.max n) segs.now) }
{
    segs.iter().take_while(|g| g.max < n).count()
}

// How many of them go; never all segments.
fn leading(segs: &[Segment], n: u64) -> usize
    ensures { (result ≤ length segs.now) × (drop_old n segs.now ≡ drop result segs.now) }
{
    below(segs, n).min(segs.len().saturating_sub(1))
}

// The first `left` entries, with zeros behind them.
fn cleared(mut segs: [Segment; 64], left: usize) -> [Segment; 64]
    requires { left ≤ 64 }
    ensures { result ≡ (take left segs ++ replicate (64 - left) no_segment) }
{
    segs[left..].fill(segment::no_segment());
    segs
}

// The entries from `first` on, moved to the front, with zeros behind them.
fn shifted(mut segs: [Segment; 64], first: usize) -> [Segment; 64]
    requires { first ≤ 64 }
    ensures { result ≡ (drop first segs ++ replicate first no_segment) }
{
    segs.copy_within(first.., 0);
    cleared(segs, 64 - first)
}

// How many trailing segments have a min above n.
fn above(segs: &[Segment], n: u64) -> usize
    ensures { result ≡ length (take_while (λ g. nat_lt n g.min) (reverse segs.now)) }
{
    segs.iter().rev().take_while(|g| n < g.min).count()
}

// How many segments are left when these go.
fn remaining(segs: &[Segment], n: u64) -> usize
    ensures { (result ≤ length segs.now) × (drop_new n segs.now ≡ take result segs.now) }
{
    segs.len() - above(segs, n)
}

// What the header at a place of an image tells of the record n. A payload past the image is no record, whose ever it is.
#[tactic(auto, using(crate::proofs::Cut::answer_at), unfolding(crate::specs::Cut::look_at))]
fn look_at(img: &[u8], n: u64, at: u64) -> Look
    ensures { result ≡ look_at img.now n at }
{
    let size = img.len() as u64;
    let answer = record::read_header(img, at as usize);
    let Ok(found) = walk::record_at(size, at, answer) else {
        return Look::Nothing;
    };
    if size < found.end {
        return Look::Nothing;
    }
    if found.id == n {
        return Look::Here(Newest {
            at,
            end: found.next,
        });
    }
    Look::Other(found.next)
}

// The record n by the one header at a place.
fn cut_at(img: &[u8], n: u64, at: u64) -> Result<Newest, Refusal>
    ensures { outcome result ≡ cut_at img.now n at }
{
    match look_at(img, n, at) {
        Look::Here(newest) => Ok(newest),
        Look::Other(_) | Look::Nothing => Err(Refusal::CutNotFound),
    }
}

// The first record of an image that has the id n, by the headers from the front on.
fn find_cut(img: &[u8], n: u64) -> Result<Newest, Refusal>
    ensures { outcome result ≡ find_cut img.now n 0 }
{
    let size = img.len() as u64;
    let mut at: u64 = 0;
    while at < size {
        match look_at(img, n, at) {
            Look::Here(newest) => return Ok(newest),
            Look::Other(next) => at = next,
            Look::Nothing => return Err(Refusal::CutNotFound),
        }
    }
    Err(Refusal::CutNotFound)
}

// The record n of a segment with its image: the newest one by its header alone, any other by the search.
#[tactic(auto, unfolding(crate::specs::Cut::cut_in))]
fn cut_in(g: Segment, img: &[u8], n: u64) -> Result<Newest, Refusal>
    ensures { outcome result ≡ cut_in g img.now n }
{
    if g.max == n {
        return cut_at(img, n, g.newest_at);
    }
    find_cut(img, n)
}

// 2, the two easy outcomes, 8, 9.
#[tactic(auto, using(crate::proofs::Decide::listed_some), unfolding(crate::specs::Decide::early_of))]
fn decide_early(log: Log, bytes: usize, n: u64) -> Result<Early, Refusal>
    ensures { result ≡ early_of (view_of log) (fitting_of log bytes) n }
{
    if !seglog::fits(log, bytes) {
        return Err(Refusal::NotShaped);
    }
    if n == 0 {
        return Ok(Early::Empty);
    }
    if log.count == 0 {
        return Ok(Early::Same);
    }
    if log.end < n {
        return Err(Refusal::AboveLiveEnd);
    }
    if n < log.start {
        return Err(Refusal::BelowLiveStart);
    }
    Ok(Early::Onward)
}

// The log where the shared tests decide.
fn settled(log: Log, early: Early) -> Log
    ensures { result ≡ settled_of log early }
{
    match early {
        Early::Empty => seglog::empty_log(Shape {
            k: log.k,
            c: log.c,
            m: log.m,
        }),
        Early::Same | Early::Onward => log,
    }
}

// The log from its first segment that holds n on.
fn started(log: Log, n: u64) -> Log
    requires { plain_of log ≡ true }
    ensures { result ≡ log_of (started_at (view_of log) n (drop_old n (view_of log).segs)) }
{
    let first = leading(&log.segs[..log.count], n);
    Log {
        start: n,
        count: log.count - first,
        segs: shifted(log.segs, first),
        ..log
    }
}

// The log of the first `left` segments, of which the last ends with the record n. It is changed in place, for the stack that the C
// interface's prune takes (tests/abi/stack.c).
fn ended(mut log: Log, left: usize, n: u64, newest: Newest) -> Log
    requires { (0 < left) × (left ≤ 64) }
    ensures { result ≡ ended_log log left n newest }
{
    let head = left - 1;
    log.segs[left..].fill(segment::no_segment());
    log.segs[head] = segment::ended_at(log.segs[head], n, newest.at, newest.end);
    log.end = n;
    log.count = left;
    log
}

// Drops the leading segments that hold no record from `new_start_live` on. No byte of the area is touched.
pub fn prune_oldest(log: Log, area: &mut [u8], new_start_live: u64) -> Result<Log, Refusal>
    ensures answer { logged log result ≡ prune_answer log (oldest_log log area.old new_start_live) }
    ensures bytes { area.new ≡ prune_area area.old (oldest_log log area.old new_start_live) }
{
    let early = decide_early(log, area.len(), new_start_live)?;
    let Early::Onward = early else {
        return Ok(settled(log, early));
    };
    Ok(started(log, new_start_live))
}

// Drops the records behind `new_end_live`: whole segments, and the rest of the segment that holds it. Only its missing padding is written.
pub fn prune_recent(log: Log, area: &mut [u8], new_end_live: u64) -> Result<Log, Refusal>
    ensures answer { logged log result ≡ prune_answer log (recent_log log area.old new_end_live) }
    ensures bytes { area.new ≡ prune_area area.old (recent_log log area.old new_end_live) }
{
    let early = decide_early(log, area.len(), new_end_live)?;
    let Early::Onward = early else {
        return Ok(settled(log, early));
    };
    let left = remaining(&log.segs[..log.count], new_end_live);
    let head = log.segs[left - 1];
    let from = (head.slot as u64 * log.c) as usize;
    let to = from + head.size as usize;
    let newest = cut_in(head, &area[from..to], new_end_live)?;
    segment::truncate(area, log.c, head.slot, head.size, newest.end);
    Ok(ended(log, left, new_end_live, newest))
}
