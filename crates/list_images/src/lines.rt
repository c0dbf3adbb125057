// The lines of the names that are handed in: a word and a name each.
// Assumes nothing.

// What is asked about: the folder's path, the prefix of the log's names, and the lines of the folder's names that begin with it.
#[derive(Clone, Copy)]
pub(crate) struct Folder<'a> {
    pub(crate) path: &'a [u8],
    pub(crate) prefix: &'a [u8],
    pub(crate) lines: &'a [u8],
}

// Whether a line is that of a file.
pub(crate) fn is_file(line: &[u8]) -> bool {
    line.starts_with(b"file ")
}

// The name that a line has behind its first word.
pub(crate) fn name(line: &[u8]) -> &[u8] {
    line.splitn(2, |byte| *byte == b' ').nth(1).unwrap_or(&[])
}

impl<'a> Folder<'a> {
    // The name in the line that an image's slot has.
    pub(crate) fn name(self, slot: u32) -> &'a [u8] {
        let line = self
            .lines
            .split(|byte| *byte == b'\n')
            .nth(slot as usize)
            .unwrap_or(&[]);
        name(line)
    }
}
