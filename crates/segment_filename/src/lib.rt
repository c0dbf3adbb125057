// Names of segment files, written and read on bytes: a name is read exactly where writing its id gives the same bytes.
// Both are total: each refusal is an answer, and a refusal leaves the buffer as it was.
#![tactic(auto)]

ghost use Rattle.std.specs.Prelude.{◌≡◌, length};
ghost use Rattle.refusal.specs.Refusals.{outcome};
ghost use Rattle.segment_filename.specs.Digits.{digits};
ghost use Rattle.segment_filename.specs.Formatting.{format_of, format_into};
ghost use Rattle.segment_filename.specs.Parsing.{u32_of, parse_of};

use refusal::Refusal;

// The ten decimal digits of id, with leading zeros.
fn ten_digits(id: u32) -> [u8; 10]
    ensures { result ≡ digits 10 id }
{
    let mut bytes = [0u8; 10];
    let mut rest = id;
    for i in (0..10).rev() {
        bytes[i] = b'0' + (rest % 10) as u8;
        rest /= 10;
    }
    bytes
}

// Writes the name of segment `id` at the front of out, and answers its length.
pub fn format(prefix: &[u8], id: u32, out: &mut [u8]) -> Result<usize, Refusal>
    ensures answer { outcome result ≡ format_of prefix.now (length out.old) }
    ensures buffer { out.new ≡ format_into prefix.now id out.old }
{
    let n = prefix.len();
    if n == 0 {
        return Err(Refusal::EmptyPrefix);
    }
    if out.len().saturating_sub(15) < n {
        return Err(Refusal::NameBufferShort);
    }
    let digits = ten_digits(id);
    lists::copy_into(out, 0, prefix);
    lists::copy_into(out, n, b".");
    lists::copy_into(out, n + 1, &digits);
    lists::copy_into(out, n + 11, b".log");
    Ok(n + 15)
}

// The number that ten digits spell. Rust's `parse::<u32>` would take a plus sign for the first of them too.
fn parse_u32(ten: &[u8]) -> Result<u32, Refusal>
    requires { length ten.now ≡ 10 }
    ensures { outcome result ≡ u32_of ten.now }
{
    let mut value: u64 = 0;
    for b in ten {
        if !b.is_ascii_digit() {
            return Err(Refusal::NotU32);
        }
        value = value * 10 + u64::from(b - b'0');
    }
    u32::try_from(value).or(Err(Refusal::NotU32))
}

// The id of the segment that `name` is the name of, under `prefix`.
pub fn parse(prefix: &[u8], name: &[u8]) -> Result<u32, Refusal>
    ensures { outcome result ≡ parse_of prefix.now name.now }
{
    if prefix.is_empty() {
        return Err(Refusal::EmptyPrefix);
    }
    let without_prefix = name.strip_prefix(prefix).ok_or(Refusal::PrefixMissing)?;
    let without_suffix = without_prefix
        .strip_suffix(b".log")
        .ok_or(Refusal::SuffixMissing)?;
    let ten = without_suffix
        .strip_prefix(b".")
        .ok_or(Refusal::DotMissing)?;
    if ten.len() != 10 {
        return Err(Refusal::NotTenBytes);
    }
    parse_u32(ten)
}
