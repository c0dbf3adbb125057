// The delta codec: encoding. The table is tested and measured first, so that a refusal changes no byte; then the two groups are written
// behind their counts, each in ascending key order.
// Assumes nothing.
#![tactic(auto)]

ghost use Rattle.std.specs.Prelude.{◌≡◌, ◌++◌, false, ◌+◌, ◌^◌, ◌<◌, ◌≤◌, length};
ghost use Rattle.lists.specs.Splice.{splice};
ghost use Rattle.little_endian.specs.LittleEndian.{le_bytes};
ghost use Rattle.lists.specs.Each.{any};
ghost use Rattle.refusal.specs.Refusals.{outcome};
ghost use Rattle.delta_encode.specs.Bytes.{outside, size_of, value_of, erase_bytes, reinstate_bytes, concat, encoded_of, after_of};
ghost use Rattle.delta_encode.specs.Bytes.{Keyed, Sized};

use delta::{Row, Table};
use refusal::Refusal;

// How many rows each group has, and the bytes in all.
#[derive(Clone, Copy)]
struct Sizes {
    erases: u32,
    reinstates: u32,
    size: usize,
}

// Whether a row's value lies outside the first `limit` bytes that are lent.
fn is_outside(row: &Row, limit: u64) -> bool
    ensures { result ≡ outside limit row.now }
{
    row.present && (limit < row.offset || limit - row.offset < row.length as u64)
}

// Whether a row's value lies outside the n bytes that are lent.
fn any_outside(rows: &[Row], n: usize) -> bool
    ensures { result ≡ any (outside n) rows.now }
{
    rows.iter().any(|row| is_outside(row, n as u64))
}

// How many bytes a row takes, its key of 32 bytes among them.
fn row_size(row: Row) -> usize
    ensures value { result ≡ size_of row }
    ensures bound { result < 2 ^ 33 }
    ensures keyed { length row.key ≡ 32 }
{
    if row.present {
        36 + row.length as usize
    } else {
        32
    }
}

// How many rows each group has, and the bytes in all.
fn measure(rows: &[Row]) -> Sizes
    requires { length rows.now ≤ 256 }
    ensures { Sized rows.now result }
{
    let mut sizes = Sizes {
        erases: 0,
        reinstates: 0,
        size: 8,
    };
    for row in rows {
        sizes.size += row_size(*row);
        if row.present {
            sizes.reinstates += 1;
        } else {
            sizes.erases += 1;
        }
    }
    sizes
}

// A row's value.
fn value_in<'a>(values: &'a [u8], row: &Row) -> &'a [u8]
    requires { row.now.offset + row.now.length ≤ length values.now }
    ensures value { result.now ≡ value_of values.now row.now }
    ensures long { length result.now ≡ row.now.length }
    ensures bound { length result.now < 2 ^ 32 }
{
    let from = row.offset as usize;
    &values[from..from + row.length as usize]
}

// A key, the value's length and the value at a place.
fn put_row(out: &mut [u8], at: usize, key: &[u8; 32], value: &[u8]) -> usize
    requires in_bounds { at + (36 + length value.now) ≤ length out.old }
    requires value_bound { length value.now < 2 ^ 32 }
    ensures value { result ≡ at + (36 + length value.now) }
    ensures out_after { out.new ≡ splice at (key.now ++ (le_bytes 4 (length value.now) ++ value.now)) out.old }
{
    lists::copy_into(out, at, key);
    little_endian::write_u32(out, at + 32, value.len() as u32);
    lists::copy_into(out, at + 36, value);
    at + 36 + value.len()
}

// The erase group's keys.
fn put_erases(rows: &[Row], out: &mut [u8], at: usize) -> usize
    requires keyed { Keyed rows.now }
    requires in_bounds { at + length (concat erase_bytes rows.now) ≤ length out.old }
    ensures value { result ≡ at + length (concat erase_bytes rows.now) }
    ensures out_after { out.new ≡ splice at (concat erase_bytes rows.now) out.old }
{
    let mut p = at;
    for row in rows {
        if !row.present {
            lists::copy_into(out, p, &row.key);
            p += row.key.len();
        }
    }
    p
}

// The reinstate group's keys, lengths and values.
fn put_reinstates(rows: &[Row], values: &[u8], out: &mut [u8], at: usize) -> usize
    requires keyed { Keyed rows.now }
    requires inside { any (outside (length values.now)) rows.now ≡ false }
    requires in_bounds { at + length (concat (reinstate_bytes values.now) rows.now) ≤ length out.old }
    ensures value { result ≡ at + length (concat (reinstate_bytes values.now) rows.now) }
    ensures out_after { out.new ≡ splice at (concat (reinstate_bytes values.now) rows.now) out.old }
{
    let mut p = at;
    for row in rows {
        if row.present {
            p = put_row(out, p, &row.key, value_in(values, row));
        }
    }
    p
}

// The delta of a table whose values lie in `values`, written at the front of `out`; or the refusal, and `out` stays.
pub fn encode(t: Table, values: &[u8], out: &mut [u8]) -> Result<usize, Refusal>
    ensures result_value { outcome result ≡ encoded_of 256 t values.now out.old }
    ensures out_after { out.new ≡ after_of 256 t values.now out.old }
{
    if 256 < t.count {
        return Err(Refusal::TableOutside);
    }
    if any_outside(&t.rows[..t.count], values.len()) {
        return Err(Refusal::TableOutside);
    }
    let mut table = t;
    delta::in_order(&mut table)?;
    let rows = &table.rows[..table.count];
    let sizes = measure(rows);
    if out.len() < sizes.size {
        return Err(Refusal::OutputShort);
    }
    little_endian::write_u32(out, 0, sizes.erases);
    let p = put_erases(rows, out, 4);
    little_endian::write_u32(out, p, sizes.reinstates);
    let q = put_reinstates(rows, values, out, p + 4);
    Ok(q)
}
