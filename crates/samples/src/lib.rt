// A small log for the programs that run specimens and refusals: K 2, C 8192, records of a page each.
// Assumes nothing.
#![tactic(auto)]

ghost use Rattle.std.specs.Prelude.{◌≡◌};
ghost use Rattle.samples.specs.Sample.{filled_by};

use seglog::{Log, Shape};

// The log after n appends of abc to a new one, over an area of 16384 bytes; to the zero log where a new one is refused. A refused append
// leaves the log as it was.
pub fn filled(area: &mut [u8], m: u64, n: u64) -> Log
    ensures { (result ≡ (filled_by m n area.old).log) × (area.new ≡ (filled_by m n area.old).area) }
{
    let shape = Shape { k: 2, c: 8192, m };
    let zero = seglog::empty_log(Shape { k: 0, c: 0, m: 0 });
    let mut log = seglog::new_log(shape, area).unwrap_or(zero);
    for _ in 0..n {
        if let Ok(appended) = seglog_append::append(log, area, b"abc") {
            log = appended.log;
        }
    }
    log
}
