// The log across the C interface: a new log, append, the two prunes. The answers are the library's as structs of numbers, and beside a
// refusal stands the log that is given here.
ghost use Rattle.std.specs.Prelude.{◌≡◌, length};
ghost use Rattle.seglog.specs.New.{logged, new_of};
ghost use Rattle.seglog_append.specs.Appending.{appended, append_log, append_answer, append_area};
ghost use Rattle.seglog_prune.specs.Prune.{oldest_log, recent_log, prune_answer, prune_area};
ghost use Rattle.iflughan.specs.Log.{logged_out, appended_out};

use crate::{Appended, Logged};
use refusal::Refusal;
use seglog::{Log, Shape};

// The log of a new log or of a prune; `beside` stands beside a refusal.
fn logged_out(beside: Log, answer: Result<Log, Refusal>) -> Logged
    ensures { result ≡ logged_out (logged beside answer) }
{
    match answer {
        Ok(log) => Logged {
            refusal: 0,
            reserved: 0,
            log,
        },
        Err(refusal) => Logged {
            refusal: refusal.number(),
            reserved: 0,
            log: beside,
        },
    }
}

// The empty log over K slots of C bytes; 1. The area stays.
#[unsafe(no_mangle)]
pub extern "C" fn iflughan_new(k: u64, c: u64, m: u64, area: &mut [u8]) -> Logged
    ensures answer { result ≡ logged_out (new_of k c m (length area.old)) }
    ensures bytes { area.new ≡ area.old }
{
    let beside = seglog::empty_log(Shape { k: 0, c: 0, m: 0 });
    logged_out(beside, seglog::new_log(Shape { k, c, m }, area))
}

// The record with the next id; 2 to 7.
#[unsafe(no_mangle)]
pub extern "C" fn iflughan_append(log: Log, area: &mut [u8], payload: &[u8]) -> Appended
    ensures answer { result ≡ appended_out (append_answer log (append_log log area.old payload.now)) }
    ensures bytes { area.new ≡ append_area area.old (append_log log area.old payload.now) }
{
    match seglog_append::append(log, area, payload) {
        Ok(appended) => Appended {
            refusal: 0,
            reserved: 0,
            id: appended.id,
            log: appended.log,
        },
        Err(refusal) => Appended {
            refusal: refusal.number(),
            reserved: 0,
            id: 0,
            log,
        },
    }
}

// Drops what is older than the new live start; 2, 8, 9. The area stays.
#[unsafe(no_mangle)]
pub extern "C" fn iflughan_prune_oldest(log: Log, area: &mut [u8], new_start_live: u64) -> Logged
    ensures answer { result ≡ logged_out (prune_answer log (oldest_log log area.old new_start_live)) }
    ensures bytes { area.new ≡ prune_area area.old (oldest_log log area.old new_start_live) }
{
    logged_out(log, seglog_prune::prune_oldest(log, area, new_start_live))
}

// Drops what is newer than the new live end; 2, 8, 9, 10.
#[unsafe(no_mangle)]
pub extern "C" fn iflughan_prune_recent(log: Log, area: &mut [u8], new_end_live: u64) -> Logged
    ensures answer { result ≡ logged_out (prune_answer log (recent_log log area.old new_end_live)) }
    ensures bytes { area.new ≡ prune_area area.old (recent_log log area.old new_end_live) }
{
    logged_out(log, seglog_prune::prune_recent(log, area, new_end_live))
}
