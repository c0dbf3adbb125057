// Segment names across the C interface: the answers of the crate `segment_filename` as numbers.
ghost use Rattle.std.specs.Prelude.{◌≡◌, length};
ghost use Rattle.refusal.specs.Refusals.{outcome};
ghost use Rattle.segment_filename.specs.Formatting.{format_of, format_into};
ghost use Rattle.segment_filename.specs.Parsing.{parse_of};
ghost use Rattle.iflughan.specs.Names.{written, parsed_name};

use crate::{ParsedName, Written};
use refusal::Refusal;

// The length of a name or a delta that is written. Never inlined, for the stack that encoding a delta takes (tests/abi/stack.c).
impl From<Result<usize, Refusal>> for Written {
    ghost from_gives = { λ answer w. w ≡ written (outcome answer) };

    #[inline(never)]
    #[tactic(auto, unfolding(crate::specs::Names::written))]
    fn from(answer: Result<usize, Refusal>) -> Written {
        match answer {
            Ok(length) => Written {
                refusal: 0,
                reserved: 0,
                length: length as u64,
            },
            Err(refusal) => Written {
                refusal: refusal.number(),
                reserved: 0,
                length: 0,
            },
        }
    }
}

// The id of a segment whose name is read.
impl From<Result<u32, Refusal>> for ParsedName {
    ghost from_gives = { λ answer n. n ≡ parsed_name (outcome answer) };

    #[tactic(auto, unfolding(crate::specs::Names::parsed_name))]
    fn from(answer: Result<u32, Refusal>) -> ParsedName {
        match answer {
            Ok(id) => ParsedName { refusal: 0, id },
            Err(refusal) => ParsedName {
                refusal: refusal.number(),
                id: 0,
            },
        }
    }
}

// Writes the name of segment `id` at the front of out, and answers its length; 30, 36.
#[unsafe(no_mangle)]
pub extern "C" fn iflughan_name_write(prefix: &[u8], id: u32, out: &mut [u8]) -> Written
    ensures answer { result ≡ written (format_of prefix.now (length out.old)) }
    ensures buffer { out.new ≡ format_into prefix.now id out.old }
{
    Written::from(segment_filename::format(prefix, id, out))
}

// The id of the segment that `name` is the name of, under `prefix`; 30 to 35.
#[unsafe(no_mangle)]
pub extern "C" fn iflughan_name_parse(prefix: &[u8], name: &[u8]) -> ParsedName
    ensures { result ≡ parsed_name (parse_of prefix.now name.now) }
{
    ParsedName::from(segment_filename::parse(prefix, name))
}
