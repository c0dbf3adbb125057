// Document 01's specimens but 4 and 13, and 13's last sentence: one line each, what was run and the value that document 01 says (of 8, what
// document 02's ask 3 says).
// 13's three lines are run_specimen_13. A payload of 2^30 bytes and more is no local: the comparison lends specimen 4's
// (oracle/src/logs.rs). A write that fails ends it with that error.
#![tactic(auto)]

mod deltas;
mod logs;
mod names;

use refusal::Refusal;
use std::io;

// One fact of a specimen; whether the value is the one wanted.
pub(crate) fn holds(
    rt: &impl Print,
    specimen: u64,
    what: &str,
    value: u64,
    wanted: u64,
) -> io::Result<bool> {
    print!(rt; "{specimen} {what} {value}")?;
    if value != wanted {
        print!(rt; ", and not {wanted}")?;
    }
    println!(rt)?;
    Ok(value == wanted)
}

// The same of a refusal, by its number, 0 where the call was accepted.
pub(crate) fn refused(
    rt: &impl Print,
    specimen: u64,
    what: &str,
    met: Option<Refusal>,
    wanted: Refusal,
) -> io::Result<bool> {
    let number = met.map_or(0, |refusal| refusal.number());
    holds(
        rt,
        specimen,
        what,
        u64::from(number),
        u64::from(wanted.number()),
    )
}

fn main(rt: HostRuntime) -> io::Result<()> {
    let sizes = logs::sizes(&rt)?;
    println!(rt;
        "4 payload 2^30: 1073745920, and 3 for one byte more: lent by the comparison, oracle/run logs"
    )?;
    let named = names::names(&rt)?;
    let coded = deltas::deltas(&rt)?;
    let opened = logs::specimen_13(&rt)?;
    let pruned = logs::specimen_14(&rt)?;
    if sizes && named && coded && opened && pruned {
        println!(rt; "ok 13 specimens")
    } else {
        println!(rt; "differs")
    }
}
