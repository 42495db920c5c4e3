//! Writing the text of a record. Room for all of it is reserved first, so nothing can fail after a part of it was written.
ghost use Rattle.std.specs.Prelude.{◌≡◌, ◌++◌, ◌≤◌, ◌<◌, ◌+◌, ◌*◌, OnOk, OnErr, length, map, take};
ghost use Rattle.csv.specs.Writing.{default_writer, field_text, next_sep};
ghost use Rattle.bt_row.specs.RecordTexts.{record_text};
ghost use Rattle.bt_row.specs.inside.Packing.{packed_value, packed_values};
ghost use Rattle.bt_value.specs.Room.{HasRoom, TakesRoom};
ghost use Rattle.bt_value.specs.Values.{text_of};
ghost use Rattle.bt_value.specs.Views.{value_of_ref};

use crate::rows::row::Row;
use crate::rows::values::Values;
use bt_value::{SHORT_TEXT, ValueRef, put_byte};
use std::alloc::AllocError;

// A value of n bytes in a row takes at most this many times n in a record, with a comma before it. A flag takes 1 byte, and `,false` is 6.
const MOST_TEXT_PER_BYTE: usize = 6;

// A row of at most this many bytes has a text that fits in an array.
const SHORT_ROW: usize = 42;

// Adds the comma before the value at a place, unless it is the first.
#[inline(always)]
fn write_separator(out: &mut Vec<u8>, place: usize)
    requires room { HasRoom out.old 1 }
    ensures text { out.new.items ≡ out.old.items ++ next_sep default_writer place }
    ensures room { TakesRoom out.old out.new 1 }
{
    if place > 0 {
        out.push_reserved(b',');
    }
}

// Adds the value at a place of a record, with the comma before it.
#[inline(always)]
fn write_field(out: &mut Vec<u8>, place: usize, value: ValueRef<'_>)
    requires room { HasRoom out.old (6 * length (packed_value (value_of_ref value))) }
    ensures text { out.new.items ≡ out.old.items ++ (next_sep default_writer place ++ field_text default_writer (text_of (value_of_ref value.entry))) }
    ensures room { TakesRoom out.old out.new (6 * length (packed_value (value_of_ref value.entry))) }
{
    write_separator(out, place);
    value.write(out)
}

/// Adds the text of a record.
pub(crate) fn write_fields(out: &mut Vec<u8>, values: Values<'_>)
    requires room { HasRoom out.old (6 * length (packed_values values) + 2) }
    ensures { out.new.items ≡ out.old.items ++ record_text (map text_of values.entry) }
{
    let start = out.len();
    let mut rest = values;
    let mut place = 0;
    while let Some(value) = rest.next() {
        write_field(out, place, value);
        place = 1;
    }
    if out.len() == start {
        out.push_reserved(b'"');
        out.push_reserved(b'"');
    }
}

// Puts the comma before the value at a place, unless it is the first, and returns the place after it.
#[inline(always)]
fn put_separator(room: &mut [u8; SHORT_TEXT], at: usize, place: usize) -> usize
    requires { at < SHORT_TEXT }
    ensures text { take result room.new ≡ take at room.old ++ next_sep default_writer place }
    ensures room { result ≤ at + 1 }
{
    if place > 0 {
        put_byte(room, at, b',')
    } else {
        at
    }
}

// Puts the value at a place of a record, with the comma before it, and returns the place after it.
#[inline(always)]
fn put_field(room: &mut [u8; SHORT_TEXT], at: usize, place: usize, value: ValueRef<'_>) -> usize
    requires { at + 6 * length (packed_value (value_of_ref value)) ≤ SHORT_TEXT }
    ensures text { take result room.new ≡ take at room.old ++ (next_sep default_writer place ++ field_text default_writer (text_of (value_of_ref value.entry))) }
    ensures room { result ≤ at + 6 * length (packed_value (value_of_ref value.entry)) }
{
    let start = put_separator(room, at, place);
    value.put(room, start)
}

// Puts the text of a short record at the start of an array, and returns where it ends.
fn put_fields(room: &mut [u8; SHORT_TEXT], values: Values<'_>) -> usize
    requires { 6 * length (packed_values values) + 2 ≤ SHORT_TEXT }
    ensures text { take result room.new ≡ record_text (map text_of values.entry) }
    ensures room { result ≤ SHORT_TEXT }
{
    let mut rest = values;
    let mut place = 0;
    let mut end = 0;
    while let Some(value) = rest.next() {
        end = put_field(room, end, place, value);
        place = 1;
    }
    if end == 0 {
        let second = put_byte(room, 0, b'"');
        return put_byte(room, second, b'"');
    }
    end
}

/// Reserves room for the text of a record whose values take this many bytes in a row. An `Err` changes nothing.
pub(crate) fn reserve_text(out: &mut Vec<u8>, bytes: usize) -> Result<(), AllocError>
    ensures text { out.new.items ≡ out.old.items }
    ensures room { OnOk result (HasRoom out.new (6 * bytes + 2)) }
{
    let most = bytes.saturating_mul(MOST_TEXT_PER_BYTE).saturating_add(2);
    out.reserve(most)
}

/// Adds the text of the record of a row: its fields joined by commas, with quotes if a field needs them. An `Err` means out of memory, and
/// leaves `out` unchanged.
pub fn write_row(out: &mut Vec<u8>, row: &Row) -> Result<(), AllocError>
    ensures ok { OnOk result (out.new.items ≡ out.old.items ++ record_text (map text_of row.now)) }
    ensures err { OnErr result (out.new.items ≡ out.old.items) }
{
    let bytes = row.as_bytes().len();
    if bytes <= SHORT_ROW {
        let mut room = [0; SHORT_TEXT];
        let end = put_fields(&mut room, row.values());
        return out.extend_from_slice(&room[..end]);
    }
    reserve_text(out, bytes)?;
    write_fields(out, row.values());
    Ok(())
}
