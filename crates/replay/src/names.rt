// Lines W and P: names written and read.
// Assumes nothing.
use crate::fields::Line;

// W DD prefix id name
pub(crate) fn written(line: Line<'_>, prefix: &mut [u8], name: &mut [u8]) -> bool {
    let prefix = line.bytes(2, prefix);
    let name = line.bytes(4, name);
    let mut out = [0u8; 4096];
    let departure = line.departure();
    match segment_filename::format(prefix, line.short_hex(3), &mut out) {
        Ok(size) => departure.is_none() && slices::front(&out, size) == name,
        Err(refusal) => departure == Some(refusal.number()),
    }
}

// P DD prefix name NN id
pub(crate) fn parsed(line: Line<'_>, prefix: &mut [u8], name: &mut [u8]) -> bool {
    let prefix = line.bytes(2, prefix);
    let name = line.bytes(3, name);
    let wanted = line.wanted(4);
    match segment_filename::parse(prefix, name) {
        Ok(id) => wanted.is_none() && id == line.short_hex(5),
        Err(refusal) => wanted == Some(refusal.number()),
    }
}
