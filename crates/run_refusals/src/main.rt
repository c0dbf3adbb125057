// Every refusal number of document 01 but 3, each from a small input that meets it; a line each, with document 01's words. 10 has a line
// more, in document 02's words: a cut at a segment's newest record, which is not walked.
// 3 is met by payloads above 2^30 bytes, which are no locals: the comparison lends them (oracle/src/logs.rs). A write that fails ends it
// with that error.
#![tactic(auto)]

mod calls;
mod deltas;
mod names;
mod recoveries;

use refusal::Refusal;
use std::io;

// The line of a refusal, and of what meets it, where its own words do not say that; whether it is the one that was met.
pub(crate) fn met_by(
    rt: &impl Print,
    met: Option<Refusal>,
    wanted: Refusal,
    what: &str,
) -> io::Result<bool> {
    println!(rt; "{} {wanted}{what}", wanted.number())?;
    if met == Some(wanted) {
        return Ok(true);
    }
    println!(rt;
        "  but the answer is {}",
        met.map_or(0, |refusal| refusal.number())
    )?;
    Ok(false)
}

// The same in the refusal's own words.
pub(crate) fn met(rt: &impl Print, met: Option<Refusal>, wanted: Refusal) -> io::Result<bool> {
    met_by(rt, met, wanted, "")
}

fn main(rt: HostRuntime) -> io::Result<()> {
    let written = calls::appends(&rt)?;
    let pruned = calls::prunes(&rt)?;
    let asked = recoveries::ranges_and_rows(&rt)?;
    let walked = recoveries::walks(&rt)?;
    let ended = recoveries::ends(&rt)?;
    let named = names::names(&rt)?;
    let coded = deltas::deltas(&rt)?;
    if written && pruned && asked && walked && ended && named && coded {
        println!(rt; "ok 35 refusals, and 3 by the comparison")
    } else {
        println!(rt; "differs")
    }
}
