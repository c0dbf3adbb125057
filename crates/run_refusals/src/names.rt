// 30 to 36: names.
// Assumes nothing.
use crate::met;
use refusal::Refusal;
use std::io;

fn parse(name: &[u8]) -> Option<Refusal> {
    segment_filename::parse(b"rollback", name).err()
}

pub(crate) fn names(rt: &impl Print) -> io::Result<bool> {
    let no_prefix = segment_filename::parse(b"", b".0000000001.log").err();
    let empty = met(rt, no_prefix, Refusal::EmptyPrefix)?;
    let prefix = met(rt, parse(b"rollfwd.0000000001.log"), Refusal::PrefixMissing)?;
    let suffix = met(rt, parse(b"rollback.0000000001"), Refusal::SuffixMissing)?;
    let dot = met(rt, parse(b"rollback_0000000001.log"), Refusal::DotMissing)?;
    let ten = met(rt, parse(b"rollback.1.log"), Refusal::NotTenBytes)?;
    let number = met(rt, parse(b"rollback.4294967296.log"), Refusal::NotU32)?;
    let mut short = [0u8; 22];
    let written = segment_filename::format(b"rollback", 1, &mut short).err();
    let room = met(rt, written, Refusal::NameBufferShort)?;
    Ok(empty && prefix && suffix && dot && ten && number && room)
}
