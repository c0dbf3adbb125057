// Replays a recorded sample of the original's answers with the proved library: replay FILE. The lines are those of oracle/README.md,
// "The recorded sample". Writes a count for each kind, and `ok N answers replayed` or `refused`, with the first line that differs.
// A file that cannot be opened, and a read or write that fails, end it with that error.
#![tactic(auto)]

mod deltas;
mod digest;
mod fields;
mod images;
mod kinds;
mod logs;
mod names;

use fields::Line;
use kinds::{KINDS, Kind};
use logs::{Differs, agreed};
use seglog::{Log, Shape};
use std::env::Env;
use std::fs::File;
use std::io;
use std::io::{Read, Seek, SeekFrom};

// The lines that are read: the last of them is said to differ where the file has as many.
const LIMIT: u64 = 1000000;

// What stands at a place of the file: its end; a line that was replayed, where the next begins and the log after it; or one that differs.
#[derive(Clone, Copy)]
enum Found {
    End,
    Replayed { kind: Kind, next: u64, log: Log },
    Differs,
}

// The part of the area that the log has.
fn used(log: Log, area: &mut [u8]) -> Result<&mut [u8], Differs> {
    area.get_mut(..slices::room(log.k, log.c)).ok_or(Differs)
}

// Replays one line. One of names or deltas leaves the log as it is.
fn replay(
    kind: Kind,
    line: Line<'_>,
    log: Log,
    area: &mut [u8],
    one: &mut [u8],
    two: &mut [u8],
) -> Result<Log, Differs> {
    match kind {
        Kind::NameWritten => agreed(names::written(line, one, two), log),
        Kind::NameParsed => agreed(names::parsed(line, one, two), log),
        Kind::DeltaDecoded => agreed(deltas::decoded(line, one, two), log),
        Kind::DeltaEncoded => agreed(deltas::encoded(line, one, two), log),
        Kind::Started => logs::started(line, area),
        Kind::Appended => logs::appended(line, log, used(log, area)?, one),
        Kind::PrunedOldest => logs::oldest(line, log, used(log, area)?),
        Kind::PrunedRecent => logs::recent(line, log, used(log, area)?),
        Kind::Recovered => logs::recovered(line, log, used(log, area)?),
        Kind::Laid => images::laid(line, log, used(log, area)?, one),
        Kind::RecoveredFromImages => images::recovered(line, log, used(log, area)?),
        Kind::RecoveredUpToE => images::recovered_up_to_e(line, log, used(log, area)?),
        Kind::PrunedAtNewest => logs::recent_at_newest(line, log, used(log, area)?),
    }
}

// Reads and replays the line that begins at `at`.
fn step(
    file: &mut File,
    at: u64,
    log: Log,
    area: &mut [u8],
    one: &mut [u8],
    two: &mut [u8],
) -> io::Result<Found> {
    let mut piece = [0u8; 65536];
    file.seek(SeekFrom::Start(at % 4294967296))?;
    let n = file.read(&mut piece)?;
    let read = &piece[..n];
    let Some(&letter) = read.first() else {
        return Ok(Found::End);
    };
    let Some(end) = read.iter().position(|byte| *byte == b'\n') else {
        return Ok(Found::Differs);
    };
    let line = Line(&read[..end]);
    let Ok(kind) = Kind::try_from(letter) else {
        return Ok(Found::Differs);
    };
    match replay(kind, line, log, area, one, two) {
        Ok(log) => Ok(Found::Replayed {
            kind,
            next: at.wrapping_add(end as u64 + 1),
            log,
        }),
        Err(Differs) => Ok(Found::Differs),
    }
}

// Replays line after line; the number of the first that differs, nothing where none does.
fn replay_all(
    file: &mut File,
    counts: &mut [u64; 13],
    area: &mut [u8],
    one: &mut [u8],
    two: &mut [u8],
) -> io::Result<Option<u64>> {
    let mut log = seglog::empty_log(Shape { k: 0, c: 0, m: 0 });
    let mut at: u64 = 0;
    for line in 1..=LIMIT {
        match step(&mut *file, at, log, &mut *area, &mut *one, &mut *two)? {
            Found::End => return Ok(None),
            Found::Differs => return Ok(Some(line)),
            Found::Replayed {
                kind,
                next,
                log: after,
            } => {
                at = next;
                log = after;
                let i = kind as usize;
                counts[i] = counts[i].wrapping_add(1);
            }
        }
    }
    Ok(Some(LIMIT))
}

// A line for each kind, with its count.
fn report_counts(rt: &impl Print, counts: &[u64; 13]) -> io::Result<()> {
    for (kind, count) in KINDS.iter().zip(counts) {
        println!(rt; "{count} {kind}")?;
    }
    Ok(())
}

// How many answers there were, of all kinds.
fn total(counts: &[u64; 13]) -> u64 {
    let mut sum: u64 = 0;
    for (kind, count) in KINDS.iter().zip(counts) {
        if kind.is_answer() {
            sum = sum.wrapping_add(*count);
        }
    }
    sum
}

// Never inlined: where the file cannot be opened its arrays are not needed, and must not stand on the stack.
#[inline(never)]
fn run(rt: &impl Print, file: &mut File, payload: &mut [u8]) -> io::Result<()> {
    let mut counts = [0u64; 13];
    let mut area = [0u8; 65536];
    let mut two = [0u8; 65536];
    let differs = replay_all(file, &mut counts, &mut area, payload, &mut two)?;
    report_counts(rt, &counts)?;
    match differs {
        None => println!(rt; "ok {} answers replayed", total(&counts)),
        Some(line) => println!(rt; "refused, the first line that differs is {line}"),
    }
}

// Opens the file whose path the first argument is, and says why where it cannot. A path that is no UTF-8 text is no path.
fn open(rt: &HostRuntime) -> io::Result<File> {
    let mut path = [0u8; 4096];
    let length = rt.arg(1, &mut path).unwrap_or(0);
    let Ok(name) = str::from_utf8(&path[..length]) else {
        return Err(io::Error::from(io::ErrorKind::InvalidFilename));
    };
    match File::open(rt, name) {
        Ok(file) => Ok(file),
        Err(error) => {
            eprintln!(rt; "{name}: {error}")?;
            Err(error)
        }
    }
}

fn main(rt: HostRuntime) -> io::Result<()> {
    let mut file = open(&rt)?;
    // More than the longest payload of the sample; bytes of names and deltas too.
    let mut payload = [0u8; 131072];
    run(&rt, &mut file, &mut payload)
}
