// The digest of the recorded sample: FNV-1a, of 64 bits.
// Assumes nothing.

pub(crate) const START: u64 = 14695981039346656037;

// 2^40 + 435.
const PRIME: u64 = 1099511628211;

// The digest of the bytes, from `start` on.
pub(crate) fn of(start: u64, bytes: &[u8]) -> u64 {
    bytes.iter().fold(start, |sum, byte| {
        (sum ^ u64::from(*byte)).wrapping_mul(PRIME)
    })
}

// The digest of a number's eight bytes, from `start` on.
pub(crate) fn of_number(start: u64, number: u64) -> u64 {
    of(start, &number.to_le_bytes())
}
