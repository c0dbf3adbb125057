// Little-endian numbers in a slice of bytes: a u32 or a u64 read from a place, and its bytes written over a place.
// Reading refuses where the bytes don't all stand: 40, as in a delta. A header's reader tests its twelve bytes before, and gives 17.
#![tactic(auto)]

ghost use Rattle.std.specs.Prelude.{◌≡◌};
ghost use Rattle.lists.specs.Splice.{splice};
ghost use Rattle.refusal.specs.Refusals.{outcome};
ghost use Rattle.little_endian.specs.LittleEndian.{bytes_at, le_bytes, number_at};

use refusal::Refusal;

// The N bytes from `at` on.
pub fn array_at<const N: usize>(s: &[u8], at: usize) -> Result<[u8; N], Refusal>
    ensures { outcome result ≡ bytes_at N s.now at }
{
    let rest = s.get(at..).ok_or(Refusal::EndsEarly)?;
    rest.first_chunk().copied().ok_or(Refusal::EndsEarly)
}

pub fn read_u32(s: &[u8], at: usize) -> Result<u32, Refusal>
    ensures { outcome result ≡ number_at 4 s.now at }
{
    let bytes = array_at(s, at)?;
    Ok(u32::from_le_bytes(bytes))
}

pub fn read_u64(s: &[u8], at: usize) -> Result<u64, Refusal>
    ensures { outcome result ≡ number_at 8 s.now at }
{
    let bytes = array_at(s, at)?;
    Ok(u64::from_le_bytes(bytes))
}

// Writes v over out, from `at` on; what would pass the end is dropped.
pub fn write_u32(out: &mut [u8], at: usize, v: u32)
    ensures { out.new ≡ splice at (le_bytes 4 v) out.old }
{
    lists::copy_into(out, at, &v.to_le_bytes());
}

pub fn write_u64(out: &mut [u8], at: usize, v: u64)
    ensures { out.new ≡ splice at (le_bytes 8 v) out.old }
{
    lists::copy_into(out, at, &v.to_le_bytes());
}
