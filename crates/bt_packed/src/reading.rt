//! Reading values and headers from the front of packed bytes.
ghost use Rattle.std.specs.Prelude.{◌≡◌, ◌≢◌, ◌≤◌, Err, IfErr, IfOk, IfSome, Ok, length, option_map};
ghost use Rattle.bt_value.specs.Kinds.{Bit, Bytes};
ghost use Rattle.bt_value.specs.Values.{BytesFit};
ghost use Rattle.bt_value.specs.Views.{content_of_ref, value_of_ref};
ghost use Rattle.bt_packed.specs.Layout as spec;

use crate::fault::Fault;
use bt_row::{Column, Row};
use bt_value::{Content, Form, Kind, Refusal, ValueRef};
use std::alloc::Global;

/// What packed bytes begin with: the version is 1.
pub(crate) const MAGIC: [u8; 4] = *b"BTV\x01";

// The int that eight bytes encode.
#[tactic(auto, unfolding(crate::specs::Layout::int_from))]
fn int_from(bytes: &[u8]) -> i64
    requires { 8 ≤ length bytes.now }
    ensures { result ≡ spec.int_from bytes.now }
{
    u64::from_le_bytes([
        bytes[0], bytes[1], bytes[2], bytes[3], bytes[4], bytes[5], bytes[6], bytes[7],
    ])
    .cast_signed()
}

// The number that four bytes encode.
#[tactic(auto, unfolding(crate::specs::Layout::number_from))]
fn number_from(bytes: &[u8]) -> u32
    requires { 4 ≤ length bytes.now }
    ensures { result ≡ spec.number_from bytes.now }
{
    u32::from_le_bytes([bytes[0], bytes[1], bytes[2], bytes[3]])
}

/// The int at the front of bytes, and the bytes after it.
pub(crate) fn int_at(bytes: &[u8]) -> Option<(i64, &[u8])>
    ensures { option_map (λ read. (read.0, read.1.now)) result ≡ spec.int_at bytes.now }
{
    if bytes.len() < 8 {
        return None;
    }
    Some((int_from(bytes), &bytes[8..]))
}

// Bytes at the front of bytes, after their length.
fn bytes_at(bytes: &[u8]) -> Option<(&[u8], &[u8])>
    ensures { option_map (λ read. (Bytes read.0.now, read.1.now)) result ≡ spec.content_at Form.Bytes bytes.now }
{
    let [len, rest @ ..] = bytes else {
        return None;
    };
    let len = *len as usize;
    if rest.len() < len {
        return None;
    }
    Some((&rest[..len], &rest[len..]))
}

// A bit at the front of bytes.
fn bit_at(bytes: &[u8]) -> Option<(bool, &[u8])>
    ensures { option_map (λ read. (Bit read.0, read.1.now)) result ≡ spec.content_at Form.Bit bytes.now }
{
    let [bit, rest @ ..] = bytes else {
        return None;
    };
    match *bit {
        0 => Some((false, rest)),
        1 => Some((true, rest)),
        _ => None,
    }
}

/// The content of a form at the front of bytes, and the bytes after it.
pub(crate) fn content_at(form: Form, bytes: &[u8]) -> Option<(Content<'_>, &[u8])>
    ensures { option_map (λ read. (content_of_ref read.0, read.1.now)) result ≡ spec.content_at form bytes.now }
{
    match form {
        Form::Number => {
            let (number, rest) = int_at(bytes)?;
            Some((Content::Number(number), rest))
        }
        Form::Bytes => {
            let (content, rest) = bytes_at(bytes)?;
            Some((Content::Bytes(content), rest))
        }
        Form::Bit => {
            let (bit, rest) = bit_at(bytes)?;
            Some((Content::Bit(bit), rest))
        }
    }
}

/// The value of a kind at the front of bytes, and the bytes after it.
pub(crate) fn value_at(kind: Kind, bytes: &[u8]) -> Option<(ValueRef<'_>, &[u8])>
    ensures value { option_map (λ read. (value_of_ref read.0, read.1.now)) result ≡ spec.value_at kind bytes.now }
    ensures bytes { IfSome result (λ read. BytesFit (value_of_ref read.0)) }
{
    let (content, rest) = content_at(kind.form(), bytes)?;
    if kind.takes(content) {
        Some((ValueRef::with(kind, content), rest))
    } else {
        None
    }
}

/// The values of columns at the front of bytes, and the bytes after them.
pub(crate) fn values_at<'b>(
    alloc: Global,
    item: u64,
    columns: &[Column],
    bytes: &'b [u8],
) -> Result<(Row, &'b [u8]), Fault>
    ensures done { IfOk result (λ read. spec.values_at item columns.now bytes.now ≡ Ok (read.0, read.1.now)) }
    ensures fault { IfErr result (λ fault. fault.refusal ≢ Refusal.OutOfMemory → spec.values_at item columns.now bytes.now ≡ Err fault) }
{
    let mut row = Row::new();
    let mut rest = bytes;
    for (place, column) in columns.iter().enumerate() {
        let Some((value, others)) = value_at(column.kind, rest) else {
            return Err(Fault::bad_bytes(item, place as u64 + 1));
        };
        row.push(alloc, value)?;
        rest = others;
    }
    Ok((row, rest))
}

// The number at the front of bytes, and the bytes after it.
fn number_at(bytes: &[u8]) -> Option<(u32, &[u8])>
    ensures { option_map (λ read. (read.0, read.1.now)) result ≡ spec.number_at bytes.now }
{
    if bytes.len() < 4 {
        return None;
    }
    Some((number_from(bytes), &bytes[4..]))
}

/// The number in a header at the front of bytes, and the bytes after it.
pub(crate) fn header_at(bytes: &[u8]) -> Option<(u32, &[u8])>
    ensures { option_map (λ read. (read.0, read.1.now)) result ≡ spec.header_at bytes.now }
{
    let rest = bytes.strip_prefix(MAGIC.as_slice())?;
    number_at(rest)
}
