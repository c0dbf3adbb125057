// What an accepted scan leaves: the segments that hold a live record, the last of them closed at e, and zeros where its padding was
// missing (`remove_nonlive_segments` and the truncation of the head in the Rust's mod.rs).
ghost use Rattle.std.specs.Prelude.{◌≡◌, ◌≤◌, length, take};
ghost use Rattle.recovery.specs.Keeping.{holds_live, kept_of, kept_in, ClosePre, CloseDid};

use crate::Recovered;
use recovery_walk::Scanned;
use seglog::{Log, Shape};
use segment::Segment;
use walk::Range;

// Segments at the front of 64 entries, `count` of them.
#[derive(Clone, Copy)]
pub(crate) struct Kept {
    pub count: usize,
    pub segs: [Segment; 64],
}

// Whether the segment holds a record of the range.
#[tactic(auto, unfolding(crate::specs::Keeping::holds_live))]
fn holds_live(range: Range, g: Segment) -> bool
    ensures { result ≡ holds_live range.s range.e g }
{
    g.min <= range.e && range.s <= g.max
}

// The segments that hold a live record, moved to the front.
fn keep(range: Range, found: &[Segment]) -> Kept
    requires { length found.now ≤ 64 }
    ensures { result ≡ kept_in range.s range.e found.now }
{
    let mut kept = Kept {
        count: 0,
        segs: [segment::no_segment(); 64],
    };
    for g in found {
        if !holds_live(range, *g) {
            continue;
        }
        kept.segs[kept.count] = *g;
        kept.count += 1;
    }
    kept
}

// The log of the kept segments of the first `count` that were found, the last one closed at e.
pub(crate) fn close(
    shape: Shape,
    area: &mut [u8],
    range: Range,
    count: usize,
    found: Scanned,
) -> Recovered
    requires { ClosePre shape.c range.s range.e count found.scan.end_of_e area.old (kept_of range.s range.e (take count found.segs)) }
    ensures { CloseDid shape.k shape.c shape.m range.s range.e found.scan.start_of_e found.scan.end_of_e
        (kept_of range.s range.e (take count found.segs)) area.old area.new result }
{
    let start = found.scan.start_of_e;
    let end = found.scan.end_of_e;
    let mut kept = keep(range, &found.segs[..count]);
    let at = kept.count - 1;
    let head = kept.segs[at];
    segment::truncate(area, shape.c, head.slot, head.size, end);
    kept.segs[at] = segment::ended_at(head, range.e, start, end);
    Recovered {
        rows: range.e - range.s + 1,
        log: Log {
            k: shape.k,
            c: shape.c,
            m: shape.m,
            start: range.s,
            end: range.e,
            count: at + 1,
            segs: kept.segs,
        },
    }
}
