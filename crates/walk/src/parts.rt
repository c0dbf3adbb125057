// The tests of one record, and the state after it: small functions, so that a contract says each in one definition.
ghost use Rattle.std.specs.Prelude.{◌≡◌, ◌+◌, ◌≤◌, Ok};
ghost use Rattle.record.specs.Record.{max_payload};
ghost use Rattle.walk.specs.Judging.{max_image, header_fits, placed_of, follows_of, cut_of, passed_of, judge_record, gap_of};

use crate::{Placed, Range, Scan, goes_on};
use record::RecordHeader;
use refusal::Refusal;

// The last place at which a header can stand: 12 bytes before 2^31.
const LAST_HEADER: u64 = 2147483636;

// ---- the record at a place

// Whether a header at `pos` lies in an image of `size` bytes; `pos + 12` is formed only where it fits.
#[tactic(auto, unfolding(crate::specs::Judging::header_fits))]
pub(crate) fn header_fits(size: u64, pos: u64) -> bool
    ensures { result ≡ header_fits size pos }
{
    pos <= LAST_HEADER && pos + 12 <= size
}

pub(crate) fn placed(pos: u64, header: RecordHeader) -> Placed
    requires { (pos + 12 ≤ max_image) × (header.length ≤ max_payload) }
    ensures { result ≡ placed_of pos header.length header.id }
{
    let len = u64::from(header.length);
    let body = pos + 12;
    let end = body + len;
    let next = page::padded_end(end as u32);
    Placed {
        id: header.id,
        body,
        len,
        end,
        next,
    }
}

// ---- the step

// Whether an id may stand after the last one; never forms `last + 1`, which may not fit.
#[tactic(auto, unfolding(crate::specs::Judging::follows_of))]
fn follows(last: u64, id: u64) -> bool
    ensures { result ≡ follows_of last id }
{
    id != 0 && (last == 0 || id - 1 == last)
}

// A live record whose payload ends past the image.
#[tactic(auto, unfolding(crate::specs::Judging::cut_of))]
fn cut_short(size: u64, range: Range, id: u64, end: u64) -> bool
    ensures { result ≡ cut_of size range.s range.e id end }
{
    range.holds(id) && size < end
}

// The state after a good record, which stands at the state's place.
fn pass(state: Scan, range: Range, found: Placed) -> Scan
    ensures { result ≡ passed_of state range.s range.e found }
{
    let mut next = Scan {
        pos: found.next,
        last: found.id,
        max: found.id,
        newest_at: state.pos,
        body: found.body,
        len: found.len,
        found_s: state.found_s || found.id == range.s,
        ..state
    };
    if state.min == 0 {
        next.min = found.id;
    }
    if found.id == range.e {
        next.found_e = true;
        next.start_of_e = state.pos;
        next.end_of_e = found.next;
    }
    next
}

// A record at the state's place: 19, 20, or the state after it.
#[tactic(auto, unfolding(crate::specs::Judging::judge_record))]
pub(crate) fn judge_record(
    size: u64,
    range: Range,
    state: Scan,
    found: Placed,
) -> Result<Scan, Refusal>
    ensures { result ≡ judge_record size range.s range.e state (Ok found) }
{
    if !follows(state.last, found.id) {
        return Err(Refusal::OutOfSequence);
    }
    if cut_short(size, range, found.id, found.end) {
        return Err(Refusal::ShortPayload);
    }
    Ok(pass(state, range, found))
}

// ---- one more image

// Whether an image of `size` bytes stands directly after one of size 0, and is not of size 0 itself; behind e's record nobody looks.
#[tactic(auto, unfolding(crate::specs::Judging::gap_of))]
pub(crate) fn gapped(state: Scan, size: u64) -> bool
    ensures { result ≡ gap_of state size }
{
    goes_on(state) && state.gap && 0 < size
}
