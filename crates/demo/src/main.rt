// The main job in one run: demo [FOLDER]. Appends texts to a log, prunes it, writes the images of its segments into the folder under
// their names, reads them back into another area, recovers the live range and writes the rows with their texts.
// Ends with `ok ..`, or with `refused ..` where a call was refused or a file of such a name is there already. A write to standard output
// that fails ends it with that error.
#![tactic(auto)]

mod files;

use payload::IndexRow;
use refusal::Refusal;
use seglog::{Log, Shape};
use std::env::Env;
use std::fs::Files;
use std::io;
use text::Text;
use walk::Range;

// A segment of two pages or more takes no further record.
const SHAPE: Shape = Shape {
    k: 4,
    c: 16384,
    m: 8192,
};

// Seven texts, of which the first four fill two segments; the last is a mistake.
const SCANS: [&str; 7] = [
    "scan 1001, chest, series 1",
    "scan 1001, chest, series 2",
    "scan 1002, knee, series 1",
    "scan 1003, skull, series 1",
    "scan 1003, skull, series 2",
    "scan 1004, hand, series 1",
    "scan 1004, hand, series 1, taken for another patient's",
];

// Says what was done, with the line of the log after it.
fn say_done(rt: &impl Print, what: &str, log: Log) -> io::Result<()> {
    let mut line = [0u8; 128];
    let mut text = Text {
        out: &mut line,
        end: 0,
    };
    listing::kept(log, &mut text);
    let end = text.end;
    print!(rt; "{what}: ")?;
    rt.write_all(slices::front(&line, end))
}

// Says that it was refused.
fn say_refused(rt: &impl Print, what: &str, refusal: Refusal) -> io::Result<()> {
    println!(rt; "{what}: refused {}", refusal.number())
}

// Says what a prune came to; the log after it, nothing where it was refused.
fn pruned(rt: &impl Print, what: &str, answer: Result<Log, Refusal>) -> io::Result<Option<Log>> {
    match answer {
        Ok(log) => {
            say_done(rt, what, log)?;
            Ok(Some(log))
        }
        Err(refusal) => {
            say_refused(rt, what, refusal)?;
            Ok(None)
        }
    }
}

// Appends a text; the log after it, which is the log before where it was refused.
fn append(rt: &impl Print, log: Log, area: &mut [u8], text: &str) -> io::Result<Log> {
    match seglog_append::append(log, area, text.as_bytes()) {
        Ok(appended) => {
            println!(rt; "append {}: {text}", appended.id)?;
            Ok(appended.log)
        }
        Err(refusal) => {
            println!(rt; "append refused {}", refusal.number())?;
            Ok(log)
        }
    }
}

// A new log with the texts.
fn archive(rt: &impl Print, area: &mut [u8]) -> io::Result<Option<Log>> {
    let Ok(fresh) = seglog::new_log(SHAPE, &mut *area) else {
        return Ok(None);
    };
    let mut log = fresh;
    for text in SCANS {
        log = append(rt, log, &mut *area, text)?;
    }
    Ok(Some(log))
}

// The first `count` rows of an index, each with the record's payload, a text, behind it.
fn rows_and_texts(
    rt: &impl Print,
    log: Log,
    area: &[u8],
    index: &[u64],
    count: u64,
) -> io::Result<()> {
    println!(rt; "record slot offset length text")?;
    let (rows, _) = index.as_chunks::<4>();
    for &[id, slot, offset, length] in rows.iter().take(count as usize) {
        let row = IndexRow {
            id,
            slot,
            offset,
            length,
        };
        let mut line = [0u8; 128];
        let mut text = Text {
            out: &mut line,
            end: 0,
        };
        listing::row(row, &mut text);
        text.put(b" ");
        let end = text.end;
        rt.write_all(slices::front(&line, end))?;
        rt.write_all(payload::payload(log, area, row))?;
        println!(rt)?;
    }
    Ok(())
}

// Recovers the log's live range from the folder's files, over an area that held nothing.
fn recover(rt: &(impl Files + Print), path: &[u8], log: Log) -> io::Result<bool> {
    let mut area = [0u8; 65536];
    let mut index = [0u64; 64];
    let images = files::load(rt, path, log, &mut area, SHAPE.c as usize);
    let range = Range {
        s: log.start,
        e: log.end,
    };
    let what = "recover from the files";
    match recovery::recover(SHAPE, &mut area, images, range, &mut index) {
        Ok(recovered) => {
            say_done(rt, what, recovered.log)?;
            rows_and_texts(rt, recovered.log, &area, &index, recovered.rows)?;
            Ok(true)
        }
        Err(refusal) => {
            say_refused(rt, what, refusal)?;
            Ok(false)
        }
    }
}

// Writes the log's images and recovers its live range from them. Where not all could be written, those that were are removed.
fn written_and_recovered(
    rt: &(impl Files + Print),
    path: &[u8],
    log: Log,
    area: &[u8],
) -> io::Result<bool> {
    let made = files::save(rt, path, log, area)?;
    if made < log.count {
        files::remove(rt, path, log, made);
        println!(rt; "the folder has a file of the next name already, or cannot be written")?;
        return Ok(false);
    }
    recover(rt, path, log)
}

fn run(rt: &(impl Files + Print), path: &[u8]) -> io::Result<bool> {
    let mut area = [0u8; 65536];
    let Some(log) = archive(rt, &mut area)? else {
        return Ok(false);
    };
    if !written_and_recovered(rt, path, log, &area)? {
        return Ok(false);
    }
    files::remove(rt, path, log, log.count);
    let recent = seglog_prune::prune_recent(log, &mut area, 6);
    let Some(rolled_back) = pruned(rt, "prune recent to 6", recent)? else {
        return Ok(false);
    };
    let oldest = seglog_prune::prune_oldest(rolled_back, &mut area, 3);
    let Some(shortened) = pruned(rt, "prune oldest to 3", oldest)? else {
        return Ok(false);
    };
    let again = append(rt, shortened, &mut area, "scan 1005, foot, series 1")?;
    written_and_recovered(rt, path, again, &area)
}

fn main(rt: HostRuntime) -> io::Result<()> {
    let mut path = [0u8; 4096];
    let given = rt.arg(1, &mut path).unwrap_or(0);
    let good = if given == 0 {
        run(&rt, b".")?
    } else {
        run(&rt, &path[..given])?
    };
    if good {
        println!(rt; "ok 8 records appended, the 5 live ones recovered from the files")
    } else {
        println!(rt; "refused, as said above")
    }
}
