// A line's words, as oracle/README.md has them: separated by one space; bytes and numbers in hex, refusals in decimal.
// Assumes nothing.
ghost use Rattle.std.specs.Prelude.{◌<◌};

// A hex digit's value, 0 where the byte is none; the sample has small letters.
fn digit(byte: u8) -> u8
    ensures { result < 16 }
{
    match byte {
        b'0'..=b'9' => byte - b'0',
        b'a'..=b'f' => byte - b'a' + 10,
        _ => 0,
    }
}

// The number that up to 16 hex digits spell.
pub(crate) fn hex(digits: &[u8]) -> u64 {
    digits.iter().fold(0u64, |value, byte| {
        value.wrapping_mul(16) | u64::from(digit(*byte))
    })
}

// The same, of up to 8 digits.
pub(crate) fn short_hex(digits: &[u8]) -> u32 {
    (hex(digits) & 0xffffffff) as u32
}

// A refusal's number, two decimal digits; nothing for 00, where the call was accepted.
fn recorded(digits: &[u8]) -> Option<u32> {
    let both = short_hex(digits) % 256;
    match both / 16 * 10 + both % 16 {
        0 => None,
        number => Some(number),
    }
}

// A line of the sample, without its end.
#[derive(Clone, Copy)]
pub(crate) struct Line<'a>(pub(crate) &'a [u8]);

impl<'a> Line<'a> {
    // Word i, from 0 on; nothing where the line has fewer.
    pub(crate) fn word(self, i: usize) -> &'a [u8] {
        self.0.split(|byte| *byte == b' ').nth(i).unwrap_or(&[])
    }

    // Word i as a number.
    pub(crate) fn hex(self, i: usize) -> u64 {
        hex(self.word(i))
    }

    // Word i as a number of 32 bits.
    pub(crate) fn short_hex(self, i: usize) -> u32 {
        short_hex(self.word(i))
    }

    // The bytes that word i spells, as many as there is room for.
    pub(crate) fn bytes<'o>(self, i: usize, room: &'o mut [u8]) -> &'o [u8] {
        let (pairs, _) = self.word(i).as_chunks::<2>();
        let n = room.len().min(pairs.len());
        for (byte, [high, low]) in room.iter_mut().zip(pairs) {
            *byte = digit(*high) * 16 + digit(*low);
        }
        &room[..n]
    }

    // Document 01's number where the original answers otherwise.
    pub(crate) fn departure(self) -> Option<u32> {
        recorded(self.word(1))
    }

    // The refusal that the replay must get: the departure, or the original's, in word `original`, where there is none.
    pub(crate) fn wanted(self, original: usize) -> Option<u32> {
        self.departure().or(recorded(self.word(original)))
    }
}
