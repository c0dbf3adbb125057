// Specimens 5 to 8: names.
// Assumes nothing.
use crate::{holds, refused};
use refusal::Refusal;
use std::io;

// Writes the name of segment 1; its length.
fn written(rt: &impl Print) -> io::Result<u64> {
    let mut name = [0u8; 64];
    let Ok(n) = segment_filename::format(b"rollback", 1, &mut name) else {
        return Ok(0);
    };
    print!(rt; "5 ")?;
    rt.write_all(slices::front(&name, n))?;
    println!(rt)?;
    Ok(n as u64)
}

fn parse(name: &[u8]) -> Result<u32, Refusal> {
    segment_filename::parse(b"rollback", name)
}

pub(crate) fn names(rt: &impl Print) -> io::Result<bool> {
    let length = holds(rt, 5, "prefix rollback, id 1: bytes", written(rt)?, 23)?;
    let id = parse(b"rollback.4294967295.log").unwrap_or(0);
    let largest = holds(
        rt,
        6,
        "digits 4294967295 read as",
        u64::from(id),
        4294967295,
    )?;
    let above = parse(b"rollback.4294967296.log").err();
    let over = refused(rt, 7, "digits 4294967296: refusal", above, Refusal::NotU32)?;
    let signed = parse(b"rollback.+000000001.log").err();
    let plus = refused(rt, 8, "+000000001: refusal", signed, Refusal::NotU32)?;
    Ok(length && largest && over && plus)
}
