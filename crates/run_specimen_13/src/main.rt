// Specimen 13: K 2, C = M = 8192; append nothing, then abc; recover 1..2. Writes exactly its three lines.
// Assumes nothing; a write that fails ends it with that error.
#![tactic(auto)]

use recovery::Recovered;
use refusal::Refusal;
use seglog::Shape;
use std::io;
use text::Text;
use walk::Range;

// Two records written, and recovered.
fn two_records(area: &mut [u8], index: &mut [u64]) -> Result<Recovered, Refusal> {
    let shape = Shape {
        k: 2,
        c: 8192,
        m: 8192,
    };
    let fresh = seglog::new_log(shape, &mut *area)?;
    let first = seglog_append::append(fresh, &mut *area, b"")?;
    let second = seglog_append::append(first.log, &mut *area, b"abc")?;
    let images = listing::images_of(second.log);
    recovery::recover(shape, area, images, Range { s: 1, e: 2 }, index)
}

fn main(rt: HostRuntime) -> io::Result<()> {
    let mut area = [0u8; 16384];
    let mut index = [0u64; 8];
    match two_records(&mut area, &mut index) {
        Ok(recovered) => {
            let mut lines = [0u8; 256];
            let mut text = Text {
                out: &mut lines,
                end: 0,
            };
            listing::kept(recovered.log, &mut text);
            listing::rows(&index, recovered.rows, &mut text);
            let end = text.end;
            rt.write_all(slices::front(&lines, end))
        }
        Err(refusal) => println!(rt; "refused {}: {refusal}", refusal.number()),
    }
}
