// What the programs print of a log, put behind a text in a lent buffer: the line of its live range and one line an index row, as specimen 13 has them.
// And the image rows of a log's segments.
#![tactic(auto)]

ghost use Rattle.std.specs.Prelude.{◌≡◌, ◌+◌, ◌≤◌, length, drop};
ghost use Rattle.text.specs.Texts.{Put};
ghost use Rattle.listing.specs.Lines.{kept_line, row_words, row_line, row_lines};
ghost use Rattle.listing.specs.Images.{images_of};

use image_rows::Rows;
use payload::IndexRow;
use seglog::Log;
use segment::ImageRow;
use text::Text;

// The image rows of the log's segments.
pub fn images_of(log: Log) -> Rows
    ensures { result ≡ images_of log }
{
    let rows = log.segs.map(|segment| ImageRow {
        id: segment.id,
        slot: segment.slot,
        size: segment.size,
    });
    Rows {
        count: log.count,
        rows,
    }
}

// How many segments the log lists, and its live range, as a line behind the text.
pub fn kept(log: Log, text: &mut Text<'_>)
    ensures put { Put text.old.end (kept_line log.count log.start log.end) text.old.out.now text.new.end text.new.out.now }
    ensures same_buffer { text.new.out.ghost_name ≡ text.old.out.ghost_name }
{
    text.put_named(b"kept ", log.count as u64);
    text.put_named(b" live ", log.start);
    text.put_named(b" ", log.end);
    text.put(b"\n");
}

// The four words of an index row, behind the text.
pub fn row(row: IndexRow, text: &mut Text<'_>)
    ensures put { Put text.old.end (row_words row.id row.slot row.offset row.length) text.old.out.now text.new.end text.new.out.now }
    ensures same_buffer { text.new.out.ghost_name ≡ text.old.out.ghost_name }
{
    text.put_number(row.id);
    text.put_named(b" ", row.slot);
    text.put_named(b" ", row.offset);
    text.put_named(b" ", row.length);
}

// The row that four words of an index are, as a line behind the text.
fn line(words: &[u64], text: &mut Text<'_>)
    requires { length words.now ≡ 4 }
    ensures put { Put text.old.end (row_line words.now) text.old.out.now text.new.end text.new.out.now }
    ensures same_buffer { text.new.out.ghost_name ≡ text.old.out.ghost_name }
{
    let index_row = IndexRow {
        id: words[0],
        slot: words[1],
        offset: words[2],
        length: words[3],
    };
    row(index_row, text);
    text.put(b"\n");
}

// The first `count` rows of an index, as far as it has them, a line each behind the text.
pub fn rows(index: &[u64], count: u64, text: &mut Text<'_>)
    ensures put { Put text.old.end (row_lines count index.now) text.old.out.now text.new.end text.new.out.now }
    ensures same_buffer { text.new.out.ghost_name ≡ text.old.out.ghost_name }
{
    // an end behind the buffer is the buffer's end from here on
    text.put(b"");
    for words in index.chunks_exact(4).take(count as usize) {
        line(words, text);
    }
}
