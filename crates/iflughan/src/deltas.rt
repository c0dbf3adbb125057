// Deltas across the C interface: the library's table as rows of numbers and back, and the answers as numbers.
ghost use Rattle.std.specs.Prelude.{◌≡◌, map};
ghost use Rattle.delta.specs.Reading.{decode_outcome, decoded_of};
ghost use Rattle.delta_encode.specs.Bytes.{encoded_of, after_of};
ghost use Rattle.iflughan.specs.Names.{written};
ghost use Rattle.iflughan.specs.Deltas.{row_in, row_out, table_in, decoded_delta};

use crate::{DecodedDelta, Delta, DeltaRow, Written};
use delta::{Decoded, Row, Table};
use refusal::Refusal;

// A row that is lent, as the library holds it; any mark but 0 is present.
impl From<DeltaRow> for Row {
    ghost from_gives = { λ from row. row ≡ row_in from };

    fn from(row: DeltaRow) -> Row {
        let key = row.key;
        Row {
            key,
            present: row.present != 0,
            offset: row.offset,
            length: row.length,
        }
    }
}

// The library's row, as it is answered.
impl From<Row> for DeltaRow {
    ghost from_gives = { λ from row. row ≡ row_out from };

    fn from(row: Row) -> DeltaRow {
        let key = row.key;
        DeltaRow {
            key,
            present: row.present as u8,
            reserved: [0; 7],
            offset: row.offset,
            length: row.length,
            reserved_too: 0,
        }
    }
}

// The table that is lent, as the library holds it.
impl From<Delta> for Table {
    ghost from_gives = { λ from table. table ≡ table_in from };

    #[inline(never)]
    fn from(t: Delta) -> Table {
        let mut rows = [Row::default(); 256];
        for (i, row) in t.rows.iter().enumerate() {
            rows[i] = Row::from(*row);
        }
        Table {
            rows,
            count: t.count as usize,
        }
    }
}

// The library's rows, as they are answered. Never inlined, and the rows lent, for the stack that the C interface's decoding takes
// (tests/abi/stack.c).
#[inline(never)]
fn rows_out(rows: &[Row; 256]) -> [DeltaRow; 256]
    ensures { result ≡ map row_out rows.now }
{
    let mut out = [DeltaRow::from(Row::default()); 256];
    for (i, row) in rows.iter().enumerate() {
        out[i] = DeltaRow::from(*row);
    }
    out
}

// The bytes consumed and the rows; no rows beside a refusal.
impl From<Result<Decoded, Refusal>> for DecodedDelta {
    ghost from_gives = { λ answer d. d ≡ decoded_delta (decode_outcome answer) };

    #[tactic(auto, unfolding(crate::specs::Deltas::decoded_delta))]
    fn from(answer: Result<Decoded, Refusal>) -> DecodedDelta {
        match answer {
            Ok(decoded) => DecodedDelta {
                refusal: 0,
                reserved: 0,
                consumed: decoded.consumed as u64,
                table: Delta {
                    count: decoded.table.count as u64,
                    rows: rows_out(&decoded.table.rows),
                },
            },
            Err(refusal) => DecodedDelta {
                refusal: refusal.number(),
                reserved: 0,
                consumed: 0,
                table: Delta {
                    count: 0,
                    rows: [DeltaRow::from(Row::default()); 256],
                },
            },
        }
    }
}

// The delta at the front of input: its rows and the bytes it takes; 40, 41, 42.
#[unsafe(no_mangle)]
pub extern "C" fn iflughan_delta_decode(input: &[u8]) -> DecodedDelta
    ensures { result ≡ decoded_delta (decoded_of 256 input.now) }
{
    DecodedDelta::from(delta::decode(input))
}

// Writes the delta of a table at the front of out, and answers its length; 43, 42, 44.
#[unsafe(no_mangle)]
pub extern "C" fn iflughan_delta_encode(table: Delta, values: &[u8], out: &mut [u8]) -> Written
    ensures answer { result ≡ written (encoded_of 256 (table_in table) values.now out.old) }
    ensures buffer { out.new ≡ after_of 256 (table_in table) values.now out.old }
{
    Written::from(delta_encode::encode(Table::from(table), values, out))
}
