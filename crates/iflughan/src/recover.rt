// Recovery across the C interface, and the rows of its index: the library's answers as structs of numbers, a payload as a place.
ghost use Rattle.std.specs.Prelude.{◌≡◌, length};
ghost use Rattle.image_rows.specs.Rows.{listed_of};
ghost use Rattle.payload.specs.Row.{row_question};
ghost use Rattle.recovery.specs.Recovery.{answered, recovery_of};
ghost use Rattle.iflughan.specs.Recover.{recovered_out, Recovers, part_of};

use crate::{Part, Recovered};
use image_rows::Rows;
use payload::IndexRow;
use refusal::Refusal;
use seglog::{Log, Shape};
use segment::ImageRow;
use walk::Range;

// The answer of `recover` as a struct of numbers; no rows and the all-zero log beside a refusal.
impl From<Result<recovery::Recovered, Refusal>> for Recovered {
    ghost from_gives = { λ answer r. r ≡ recovered_out (answered answer) };

    fn from(answer: Result<recovery::Recovered, Refusal>) -> Recovered {
        match answer {
            Ok(recovered) => Recovered {
                refusal: 0,
                reserved: 0,
                rows: recovered.rows,
                log: recovered.log,
            },
            Err(refusal) => Recovered {
                refusal: refusal.number(),
                reserved: 0,
                rows: 0,
                log: seglog::empty_log(Shape { k: 0, c: 0, m: 0 }),
            },
        }
    }
}

// The log of the records s..e from the images that the rows list, and its index; 1, 11 to 23. The rows are read once.
#[unsafe(no_mangle)]
pub extern "C" fn iflughan_recover(
    k: u64,
    c: u64,
    m: u64,
    area: &mut [u8],
    images: &[ImageRow],
    s: u64,
    e: u64,
    index: &mut [u64],
) -> Recovered
    ensures { Recovers
        (recovery_of k c m area.old images.now s e (length index.old))
        area.old index.old result area.new index.new }
{
    let rows = recovery::read_rows(images);
    let shape = Shape { k, c, m };
    let range = Range { s, e };
    Recovered::from(recovery::recover(shape, area, rows, range, index))
}

// Whether an index row is good for this log and area; 2, 24. The id is not looked at.
#[unsafe(no_mangle)]
pub extern "C" fn iflughan_row_question(
    log: Log,
    area: &[u8],
    id: u64,
    slot: u64,
    offset: u64,
    length: u64,
) -> u32
    ensures { result ≡ row_question log area.now slot offset length }
{
    let row = IndexRow {
        id,
        slot,
        offset,
        length,
    };
    match payload::row_question(log, area, row) {
        Ok(()) => 0,
        Err(refusal) => refusal.number(),
    }
}

// The place of a row's payload in the area; 2, 24.
#[unsafe(no_mangle)]
pub extern "C" fn iflughan_payload(
    log: Log,
    area: &[u8],
    id: u64,
    slot: u64,
    offset: u64,
    length: u64,
) -> Part
    ensures { result ≡ part_of log slot offset length (row_question log area.now slot offset length) }
{
    let row = IndexRow {
        id,
        slot,
        offset,
        length,
    };
    match payload::row_question(log, area, row) {
        Ok(()) => Part {
            refusal: 0,
            reserved: 0,
            at: slot * log.c + offset,
            length,
        },
        Err(refusal) => Part {
            refusal: refusal.number(),
            reserved: 0,
            at: 0,
            length: 0,
        },
    }
}
