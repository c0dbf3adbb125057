// An index row asked for: whether it is good, its payload as a part of the area, and the payload decoded as a delta.
// The row's id is not looked at: any slot below K with a part inside C bytes is good, whether the log lists it or not.
#![tactic(auto)]

ghost use Rattle.std.specs.Prelude.{◌≡◌, ◌+◌, ◌*◌};
ghost use Rattle.lists.specs.Splice.{part};
ghost use Rattle.delta.specs.Reading.{decode_outcome};
ghost use Rattle.payload.specs.Row.{row_number, outside_of, row_question, GoodRow, payload_of};
ghost use Rattle.payload.specs.PayloadDelta.{delta_answer, payload_delta};

use delta::Decoded;
use refusal::Refusal;
use seglog::Log;

// The four words of an index row: a record's id, and the slot, offset and length of its payload.
#[derive(Clone, Copy, Debug, PartialEq, Eq)]
pub struct IndexRow {
    pub id: u64,
    pub slot: u64,
    pub offset: u64,
    pub length: u64,
}

// Whether the slot is K or more, or offset + length above C as whole numbers: the sum is never formed.
#[tactic(auto, unfolding(crate::specs::Row::outside_of))]
fn outside(log: Log, row: IndexRow) -> bool
    ensures { result ≡ outside_of log row.slot row.offset row.length }
{
    log.k <= row.slot || log.c < row.offset || log.c - row.offset < row.length
}

// Whether the row is good: 2 where the log is not well shaped or the area's length is not K x C, 24 where the row lies outside.
pub fn row_question(log: Log, area: &[u8], row: IndexRow) -> Result<(), Refusal>
    ensures { row_number result ≡ row_question log area.now row.slot row.offset row.length }
{
    if !seglog::fits(log, area.len()) {
        return Err(Refusal::NotShaped);
    }
    if outside(log, row) {
        return Err(Refusal::RowOutside);
    }
    Ok(())
}

// The part of the area where a good row's payload stands.
fn place<'a>(log: Log, area: &'a [u8], row: IndexRow) -> &'a [u8]
    requires { GoodRow log area.now row.slot row.offset row.length }
    ensures { result.now ≡ part (row.slot * log.c + row.offset) row.length area.now }
{
    let from = (row.slot * log.c + row.offset) as usize;
    &area[from..from + row.length as usize]
}

// The row's payload, as it stands in the area; nothing where the row isn't good.
pub fn payload<'a>(log: Log, area: &'a [u8], row: IndexRow) -> &'a [u8]
    ensures { result.now ≡ payload_of log area.now row.slot row.offset row.length }
{
    match row_question(log, area, row) {
        Ok(()) => place(log, area, row),
        Err(_) => &area[..0],
    }
}

// The row's payload decoded as a delta, whose offsets count from the payload's first byte; or 2, 24 or the decoder's refusal.
// The decoder is lent the part of the area where the payload stands, and nothing is copied.
pub fn payload_delta(log: Log, area: &[u8], row: IndexRow) -> Result<Decoded, Refusal>
    ensures { delta_answer (decode_outcome result) ≡ payload_delta log area.now row.slot row.offset row.length }
{
    row_question(log, area, row)?;
    delta::decode(place(log, area, row))
}
