// The refusals, in one list: why a call is refused, document 01's number of each, and its words.
// A call that can be refused answers `Result<_, Refusal>`; the C interface hands the number on. Assumes nothing.
#![tactic(auto)]

ghost use Rattle.std.specs.Prelude.{◌≡◌};
ghost use Rattle.refusal.specs.Refusals.{number};

use std::error::Error;
use std::fmt;

// Why a call is refused, in the order of the numbers: 1 to 24 of logs, 30 to 36 of names, 40 to 44 of deltas.
#[derive(Clone, Copy, Debug, PartialEq, Eq)]
pub enum Refusal {
    OutsideRules,
    NotShaped,
    PayloadTooLong,
    LastRecordId,
    LastSegmentId,
    NoFreeSlot,
    NoRoom,
    AboveLiveEnd,
    BelowLiveStart,
    CutNotFound,
    OneEndZero,
    RangeReversed,
    RowsUnfit,
    SegmentZero,
    SegmentsApart,
    ImageGap,
    ShortHeader,
    HeaderTooLong,
    OutOfSequence,
    ShortPayload,
    StartNotFound,
    EndNotFound,
    IndexShort,
    RowOutside,
    EmptyPrefix,
    PrefixMissing,
    SuffixMissing,
    DotMissing,
    NotTenBytes,
    NotU32,
    NameBufferShort,
    EndsEarly,
    OverLimit,
    DuplicateKey,
    TableOutside,
    OutputShort,
}

impl Refusal {
    // Document 01's number.
    pub fn number(self) -> u32
        ensures { result ≡ number self }
    {
        match self {
            Refusal::OutsideRules => 1,
            Refusal::NotShaped => 2,
            Refusal::PayloadTooLong => 3,
            Refusal::LastRecordId => 4,
            Refusal::LastSegmentId => 5,
            Refusal::NoFreeSlot => 6,
            Refusal::NoRoom => 7,
            Refusal::AboveLiveEnd => 8,
            Refusal::BelowLiveStart => 9,
            Refusal::CutNotFound => 10,
            Refusal::OneEndZero => 11,
            Refusal::RangeReversed => 12,
            Refusal::RowsUnfit => 13,
            Refusal::SegmentZero => 14,
            Refusal::SegmentsApart => 15,
            Refusal::ImageGap => 16,
            Refusal::ShortHeader => 17,
            Refusal::HeaderTooLong => 18,
            Refusal::OutOfSequence => 19,
            Refusal::ShortPayload => 20,
            Refusal::StartNotFound => 21,
            Refusal::EndNotFound => 22,
            Refusal::IndexShort => 23,
            Refusal::RowOutside => 24,
            Refusal::EmptyPrefix => 30,
            Refusal::PrefixMissing => 31,
            Refusal::SuffixMissing => 32,
            Refusal::DotMissing => 33,
            Refusal::NotTenBytes => 34,
            Refusal::NotU32 => 35,
            Refusal::NameBufferShort => 36,
            Refusal::EndsEarly => 40,
            Refusal::OverLimit => 41,
            Refusal::DuplicateKey => 42,
            Refusal::TableOutside => 43,
            Refusal::OutputShort => 44,
        }
    }
}

// Document 01's words.
impl fmt::Display for Refusal {
    ghost use Rattle.std.specs.Prelude.{Some};
    ghost use Rattle.refusal.specs.Words.{words};

    ghost output = { λ r. Some (words r) };

    fn fmt<W: fmt::Write>(&self, f: &mut fmt::Formatter<W>) -> fmt::Result {
        let words = match self {
            Refusal::OutsideRules => "K, C, M or area length outside the rules",
            Refusal::NotShaped => "log value not well shaped, or area length not K x C",
            Refusal::PayloadTooLong => "payload above 2^30",
            Refusal::LastRecordId => "live end is 2^64 - 1",
            Refusal::LastSegmentId => "new segment wanted, last id is 2^32 - 1",
            Refusal::NoFreeSlot => "new segment wanted, all K slots listed",
            Refusal::NoRoom => "padded record above C minus the size (C for a new segment)",
            Refusal::AboveLiveEnd => "prune above live end",
            Refusal::BelowLiveStart => "prune below live start",
            Refusal::CutNotFound => "cut not found",
            Refusal::OneEndZero => "exactly one of s, e is 0",
            Refusal::RangeReversed => "s > e",
            Refusal::RowsUnfit => "over 64 rows, slot >= K, slot twice, or size > C",
            Refusal::SegmentZero => "lowest segment id 0",
            Refusal::SegmentsApart => "neighbours not 1 apart (equal too)",
            Refusal::ImageGap => "image of size above 0 directly after one of size 0",
            Refusal::ShortHeader => "short header",
            Refusal::HeaderTooLong => "header length above 2^30",
            Refusal::OutOfSequence => "record id 0 or out of sequence",
            Refusal::ShortPayload => "short live payload",
            Refusal::StartNotFound => "s not found",
            Refusal::EndNotFound => "e not found",
            Refusal::IndexShort => "fewer than 4 index words for each live record",
            Refusal::RowOutside =>
                "row asked for (after 2): slot >= K, or offset + length above C as whole numbers",
            Refusal::EmptyPrefix => "empty prefix",
            Refusal::PrefixMissing => "prefix missing",
            Refusal::SuffixMissing => ".log missing",
            Refusal::DotMissing => "dot missing",
            Refusal::NotTenBytes => "not 10 bytes",
            Refusal::NotU32 => "not a u32",
            Refusal::NameBufferShort => "name buffer short",
            Refusal::EndsEarly => "delta input ends early",
            Refusal::OverLimit => "over 256 keys",
            Refusal::DuplicateKey => "duplicate key",
            Refusal::TableOutside => "table over 256 rows or a value outside its slice",
            Refusal::OutputShort => "output short",
        };
        f.write_str(words)
    }
}

impl Error for Refusal {}
