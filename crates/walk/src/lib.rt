// The walk over one image, record by record (`scan_segment` of the Rust's mod.rs): one step that judges a header's answer and needs no byte
// of the image (parts.rt), and the walk of one image, which keeps the state at which a fault stands. Recovery's two passes, prune recent's
// search and whatever else reads images run on these. No function asks anything of its arguments.
#![tactic(auto)]

ghost use Rattle.std.specs.Prelude.{◌≡◌};
ghost use Rattle.walk.specs.Judging.{record_at, live_of, judge_of, record_step, start_of, opened_of, next_image, goes_on, more_of};
ghost use Rattle.walk.specs.Walk.{walk_of};

use record::RecordHeader;
use refusal::Refusal;

mod parts;

// The records that are wanted: from s to e.
#[derive(Clone, Copy)]
pub struct Range {
    pub s: u64,
    pub e: u64,
}

impl Range {
    // Whether a record is live.
    #[tactic(auto, unfolding(crate::specs::Judging::live_of))]
    pub fn holds(self, id: u64) -> bool
        ensures { result ≡ live_of self.s self.e id }
    {
        self.s <= id && id <= self.e
    }
}

// What the walk carries from record to record, and from image to image.
#[derive(Clone, Copy, Default)]
pub struct Scan {
    // the next record's place in its image
    pub pos: u64,
    // the last record's id, 0 before the first
    pub last: u64,
    // the first and the last id of this image, and where the last one's record starts; 0 before the first
    pub min: u64,
    pub max: u64,
    pub newest_at: u64,
    // the last record's payload: its place in the image, and its length
    pub body: u64,
    pub len: u64,
    // whether s and e were found
    pub found_s: bool,
    pub found_e: bool,
    // where the record e starts, and its padded end
    pub start_of_e: u64,
    pub end_of_e: u64,
    // whether the image opened last has size 0
    pub gap: bool,
}

// A record and its place in an image.
#[derive(Clone, Copy)]
pub struct Placed {
    pub id: u64,
    // the payload: where it begins, its length, where it ends
    pub body: u64,
    pub len: u64,
    pub end: u64,
    // the padded end
    pub next: u64,
}

// Where the walk of an image is refused: why, and the state at which the fault stands.
#[derive(Clone, Copy)]
pub struct Fault {
    pub refusal: Refusal,
    pub scan: Scan,
}

// Before the first image.
pub fn start() -> Scan
    ensures { result ≡ start_of }
{
    Scan::default()
}

// The state at the front of an image of `size` bytes: the sequence goes on over image borders.
pub fn opened(state: Scan, size: u64) -> Scan
    ensures { result ≡ opened_of state size }
{
    Scan {
        pos: 0,
        min: 0,
        max: 0,
        newest_at: 0,
        gap: size == 0,
        ..state
    }
}

// One more image, of `size` bytes: 16, or the state at its front.
#[tactic(auto, unfolding(crate::specs::Judging::next_image))]
pub fn next_image(state: Scan, size: u64) -> Result<Scan, Refusal>
    ensures { result ≡ next_image state size }
{
    if parts::gapped(state, size) {
        return Err(Refusal::ImageGap);
    }
    Ok(opened(state, size))
}

// Whether the walk goes on: it stops once e's record is read.
#[tactic(auto, unfolding(crate::specs::Judging::goes_on))]
pub fn goes_on(state: Scan) -> bool
    ensures { result ≡ goes_on state }
{
    !state.found_e
}

// Whether the image, of `size` bytes, has one more record to read at the state's place.
#[tactic(auto, unfolding(crate::specs::Judging::more_of))]
pub fn more(state: Scan, size: u64) -> bool
    ensures { result ≡ more_of state size }
{
    goes_on(state) && state.pos < size
}

// The record whose header was read at `pos` of an image of `size` bytes: 17 where twelve bytes do not fit, 18 where it is too long.
#[tactic(auto, using(crate::proofs::Judging::fits_inside), unfolding(crate::specs::Judging::record_at))]
pub fn record_at(
    size: u64,
    pos: u64,
    answer: Result<RecordHeader, Refusal>,
) -> Result<Placed, Refusal>
    ensures { result ≡ record_at size pos answer }
{
    if !parts::header_fits(size, pos) {
        return Err(Refusal::ShortHeader);
    }
    let Ok(header) = answer else {
        return Err(answer.unwrap_err());
    };
    if record::MAX_RECORD_PAYLOAD_SIZE < header.length {
        return Err(Refusal::HeaderTooLong);
    }
    Ok(parts::placed(pos, header))
}

// The header's answer at the state's place of an image of `size` bytes: 17 to 20 where it is one that `read_header` gives, or the state after
// the record.
#[tactic(auto, unfolding(crate::specs::Judging::judge_of, crate::specs::Judging::judge_record))]
pub fn judge(
    size: u64,
    range: Range,
    state: Scan,
    answer: Result<RecordHeader, Refusal>,
) -> Result<Scan, Refusal>
    ensures { result ≡ judge_of size range.s range.e state answer }
{
    let found = record_at(size, state.pos, answer)?;
    parts::judge_record(size, range, state, found)
}

// The record at the state's place in an image. Inlined into the loops, so that the state from record to record is not copied.
#[inline(always)]
pub fn record_step(img: &[u8], range: Range, state: Scan) -> Result<Scan, Refusal>
    ensures { result ≡ record_step img.now range.s range.e state }
{
    let answer = record::read_header(img, state.pos as usize);
    judge(img.len() as u64, range, state, answer)
}

// The records of an image from a state on: up to its end, e's record or the first fault. From the front: `next_image` first.
pub fn walk_image(img: &[u8], range: Range, state: Scan) -> Result<Scan, Fault>
    ensures { result ≡ walk_of img.now range.s range.e state }
{
    let size = img.len() as u64;
    let mut scan = state;
    'records: while more(scan, size) {
        match record_step(img, range, scan) {
            Ok(next) => scan = next,
            Err(refusal) => return Err(Fault { refusal, scan }),
        }
    }
    Ok(scan)
}
