// The kinds of lines: their letters, and the words of their counts.
// Assumes nothing.
use crate::logs::Differs;
use std::fmt;

#[derive(Clone, Copy, Debug, PartialEq, Eq)]
pub(crate) enum Kind {
    NameWritten,
    NameParsed,
    DeltaDecoded,
    DeltaEncoded,
    Started,
    Appended,
    PrunedOldest,
    PrunedRecent,
    Recovered,
    Laid,
    RecoveredFromImages,
    RecoveredUpToE,
    PrunedAtNewest,
}

// In the order of their counts.
pub(crate) const KINDS: [Kind; 13] = [
    Kind::NameWritten,
    Kind::NameParsed,
    Kind::DeltaDecoded,
    Kind::DeltaEncoded,
    Kind::Started,
    Kind::Appended,
    Kind::PrunedOldest,
    Kind::PrunedRecent,
    Kind::Recovered,
    Kind::Laid,
    Kind::RecoveredFromImages,
    Kind::RecoveredUpToE,
    Kind::PrunedAtNewest,
];

impl Kind {
    // Whether its lines have an answer: that a history begins is none, and a piece that is laid.
    pub(crate) fn is_answer(self) -> bool {
        !matches!(self, Kind::Started | Kind::Laid)
    }
}

// The kind of the lines that begin with a letter.
impl TryFrom<u8> for Kind {
    type Error = Differs;

    fn try_from(letter: u8) -> Result<Kind, Differs> {
        match letter {
            b'W' => Ok(Kind::NameWritten),
            b'P' => Ok(Kind::NameParsed),
            b'D' => Ok(Kind::DeltaDecoded),
            b'E' => Ok(Kind::DeltaEncoded),
            b'L' => Ok(Kind::Started),
            b'A' => Ok(Kind::Appended),
            b'O' => Ok(Kind::PrunedOldest),
            b'R' => Ok(Kind::PrunedRecent),
            b'V' => Ok(Kind::Recovered),
            b'B' => Ok(Kind::Laid),
            b'I' => Ok(Kind::RecoveredFromImages),
            b'J' => Ok(Kind::RecoveredUpToE),
            b'N' => Ok(Kind::PrunedAtNewest),
            _ => Err(Differs),
        }
    }
}

impl fmt::Display for Kind {
    fn fmt<W: fmt::Write>(&self, f: &mut fmt::Formatter<W>) -> fmt::Result {
        let words = match self {
            Kind::NameWritten => "names written",
            Kind::NameParsed => "names parsed",
            Kind::DeltaDecoded => "deltas decoded",
            Kind::DeltaEncoded => "deltas encoded",
            Kind::Started => "histories of a log",
            Kind::Appended => "appends",
            Kind::PrunedOldest => "prunes of the oldest",
            Kind::PrunedRecent => "prunes of the recent",
            Kind::Recovered => "recoveries",
            Kind::Laid => "pieces of images laid",
            Kind::RecoveredFromImages => "recoveries from images",
            Kind::RecoveredUpToE => "recoveries the original refuses behind e",
            Kind::PrunedAtNewest => "newest records the original does not reach",
        };
        f.write_str(words)
    }
}
