// 40 to 44: deltas.
// Assumes nothing.
use crate::met;
use delta::{Row, Table};
use refusal::Refusal;
use std::io;

fn decode(input: &[u8]) -> Option<Refusal> {
    delta::decode(input).err()
}

// A delta that erases one key twice.
fn twice() -> [u8; 72] {
    let mut input = [0u8; 72];
    input[0] = 2;
    input
}

// A table of one row, of which `count` are listed.
fn table(count: usize) -> Table {
    let row = Row {
        key: [7; 32],
        present: false,
        offset: 0,
        length: 0,
    };
    Table {
        rows: [row; 256],
        count,
    }
}

fn encode(table: Table) -> Option<Refusal> {
    let mut out = [0u8; 39];
    delta_encode::encode(table, b"", &mut out).err()
}

pub(crate) fn deltas(rt: &impl Print) -> io::Result<bool> {
    let early = met(rt, decode(&[1, 0, 0]), Refusal::EndsEarly)?;
    let over = met(rt, decode(&[1, 1, 0, 0]), Refusal::OverLimit)?;
    let duplicate = met(rt, decode(&twice()), Refusal::DuplicateKey)?;
    let outside = met(rt, encode(table(257)), Refusal::TableOutside)?;
    let short = met(rt, encode(table(1)), Refusal::OutputShort)?;
    Ok(early && over && duplicate && outside && short)
}
