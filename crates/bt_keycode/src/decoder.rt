//! Decoding values from their key code.
ghost use Rattle.std.specs.Prelude.{◌≡◌, ◌<◌, ◌≤◌, ◌++◌, ◌∷◌, [], IfOk, IfSome, IfNone, IsErrOf, List, None, OnOk, Some, false, true, length, take, ℕ};
ghost use Rattle.bt_keycode.specs.Codes.{IsCode, IsCodeOf, IsNoCode, raised};
ghost use Rattle.bt_keycode.specs.inside.CodeBeginnings.{BeginsWith, BeginsWithContent, BeginsWithNo, BeginsWithNoContent, reading_at_end};
ghost use Rattle.bt_keycode.specs.inside.Readings.{after_bytes, unescaped};
ghost use Rattle.bt_value.specs.Views.{content_of_ref, value_of_ref};
ghost use Rattle.bt_value.specs.declared.value.Value.{Value as value};

use crate::key::prefix_of;
use crate::zeros::split_at_zero;
use bt_row::Row;
use bt_value::{Content, Form, Kind, MOST_VALUE_BYTES, ValueRef};
use std::alloc::Global;

/// Why bytes cannot be decoded.
#[derive(Clone, Copy, Debug, PartialEq, Eq)]
pub enum DecodeError {
    /// The bytes are not the code of any list of values of these kinds.
    NotACode,
    /// A failed allocation.
    OutOfMemory,
}

// The int for a number whose highest bit is the inverted sign bit.
fn lower(number: u64) -> i64
    ensures { raised result ≡ number }
{
    i64::MIN.wrapping_add_unsigned(number)
}

// The number whose code is at the start of the bytes, and the bytes after it.
fn first_number(bytes: &[u8]) -> Option<(Content<'_>, &[u8])>
    ensures found { IfSome result (λ read. BeginsWithContent Form.Number bytes.now (content_of_ref read.0) read.1.now) }
    ensures none { IfNone result (BeginsWithNoContent Form.Number bytes.now) }
{
    if bytes.len() < 8 {
        return None;
    }
    Some((Content::Number(lower(prefix_of(bytes))), &bytes[8..]))
}

// The bit whose code is at the start of the bytes, and the bytes after it.
fn first_bit(bytes: &[u8]) -> Option<(Content<'_>, &[u8])>
    ensures found { IfSome result (λ read. BeginsWithContent Form.Bit bytes.now (content_of_ref read.0) read.1.now) }
    ensures none { IfNone result (BeginsWithNoContent Form.Bit bytes.now) }
{
    match bytes {
        [0, rest @ ..] => Some((Content::Bit(false), rest)),
        [1, rest @ ..] => Some((Content::Bit(true), rest)),
        _ => None,
    }
}

// The first byte that the code encodes, and the rest of the code. Returns `None` if the code ends here or is incomplete.
#[tactic(auto, unfolding(crate::specs::inside::Readings::unescaped))]
fn next_byte(code: &[u8]) -> Option<(u8, &[u8])>
    ensures byte { IfSome result (λ read. unescaped code.now ≡ after_bytes (read.0 ∷ []) (unescaped read.1.now)) }
    ensures shorter { IfSome result (λ read. length read.1.now < length code.now) }
    ensures none { IfNone result (unescaped code.now ≡ reading_at_end code.now) }
{
    match code {
        [0, 255, rest @ ..] => Some((0, rest)),
        [] | [0, ..] => None,
        [byte, rest @ ..] => Some((*byte, rest)),
    }
}

// Decodes the bytes whose code is at the start of `bytes`. Writes them into `room`, so that it takes no memory, and returns their number
// and the bytes after the code. Returns `None` if the code is incomplete, or if there are more bytes than a value may have.
fn unescape<'a>(bytes: &'a [u8], room: &mut [u8; MOST_VALUE_BYTES]) -> Option<(usize, &'a [u8])>
    ensures bound { IfSome result (λ read. read.0 ≤ MOST_VALUE_BYTES) }
    ensures found { IfSome result (λ read. unescaped bytes.now ≡ Some (take read.0 room.new, read.1.now)) }
    ensures none { IfNone result ((other rest : List ℕ) → unescaped bytes.now ≡ Some (other, rest) → MOST_VALUE_BYTES < length other) }
{
    let mut len = 0;
    let mut code = bytes;
    while let Some((byte, rest)) = next_byte(code) {
        if len == MOST_VALUE_BYTES {
            return None;
        }
        room[len] = byte;
        len += 1;
        code = rest;
    }
    match code {
        [0, 1, rest @ ..] => Some((len, rest)),
        _ => None,
    }
}

// The bytes whose code is at the start of `bytes`, if none of them is zero, and the bytes after the code.
fn plain_bytes(bytes: &[u8]) -> Option<(&[u8], &[u8])>
    ensures { IfSome result (λ read. unescaped bytes.now ≡ Some (read.0.now, read.1.now)) }
{
    let (plain, following) = split_at_zero(bytes)?;
    match following {
        [1, rest @ ..] => Some((plain, rest)),
        _ => None,
    }
}

// The bytes whose code is at the start of `bytes`, and the bytes after the code. They are borrowed from the code, or from `room` if
// one of them is zero. Returns `None` if the code is incomplete, or if there are more bytes than a value may have.
fn unescaped_bytes<'a: 'b, 'b>(
    bytes: &'a [u8],
    room: &'b mut [u8; MOST_VALUE_BYTES],
) -> Option<(&'b [u8], &'a [u8])>
    ensures found { IfSome result (λ read. unescaped bytes.now ≡ Some (read.0.now, read.1.now)) }
    ensures none { IfNone result ((other rest : List ℕ) → unescaped bytes.now ≡ Some (other, rest) → MOST_VALUE_BYTES < length other) }
{
    if let Some(read) = plain_bytes(bytes) {
        return Some(read);
    }
    let (len, rest) = unescape(bytes, room)?;
    Some((&room[..len], rest))
}

// The same bytes as the content of a value, and the bytes after the code.
#[tactic(auto, using(crate::proofs::Decoding::bytes_found))]
fn first_bytes<'a: 'b, 'b>(
    bytes: &'a [u8],
    room: &'b mut [u8; MOST_VALUE_BYTES],
) -> Option<(Content<'b>, &'a [u8])>
    ensures found { IfSome result (λ read. BeginsWithContent Form.Bytes bytes.now (content_of_ref read.0) read.1.now) }
    ensures none { IfNone result (BeginsWithNoContent Form.Bytes bytes.now) }
{
    let (found, rest) = unescaped_bytes(bytes, room)?;
    Some((Content::Bytes(found), rest))
}

// The content of this form whose code is at the start of the bytes, and the bytes after it.
#[inline(always)]
fn first_content<'a: 'b, 'b>(
    form: Form,
    bytes: &'a [u8],
    room: &'b mut [u8; MOST_VALUE_BYTES],
) -> Option<(Content<'b>, &'a [u8])>
    ensures found { IfSome result (λ read. BeginsWithContent form bytes.now (content_of_ref read.0) read.1.now) }
    ensures none { IfNone result (BeginsWithNoContent form bytes.now) }
{
    match form {
        Form::Number => first_number(bytes),
        Form::Bytes => first_bytes(bytes, room),
        Form::Bit => first_bit(bytes),
    }
}

// The value of this kind whose code is at the start of the bytes, and the bytes after it. Its bytes are borrowed from the code, or from
// `room` if one of them is zero.
fn first_value<'a: 'b, 'b>(
    kind: Kind,
    bytes: &'a [u8],
    room: &'b mut [u8; MOST_VALUE_BYTES],
) -> Option<(ValueRef<'b>, &'a [u8])>
    ensures found { IfSome result (λ read. BeginsWith kind bytes.now (value_of_ref read.0) read.1.now) }
    ensures none { IfNone result (BeginsWithNo kind bytes.now) }
{
    let (content, rest) = first_content(kind.form(), bytes, room)?;
    if kind.takes(content) {
        Some((ValueRef::with(kind, content), rest))
    } else {
        None
    }
}

// The bytes after the code of a value of this kind, if they begin with one. The bytes of an int are not read.
fn after_first(kind: Kind, bytes: &[u8]) -> Option<&[u8]>
    ensures found { IfSome result (λ rest. (first : value) × BeginsWith kind bytes.now first rest.now) }
    ensures none { IfNone result (BeginsWithNo kind bytes.now) }
{
    if let Kind::Int = kind {
        let (_, rest) = first_number(bytes)?;
        return Some(rest);
    }
    let mut room = [0; MOST_VALUE_BYTES];
    let (_, rest) = first_value(kind, bytes, &mut room)?;
    Some(rest)
}

/// Whether the bytes are the code of values of these kinds. Takes no memory.
pub fn is_code(kinds: &[Kind], bytes: &[u8]) -> bool
    ensures yes { result ≡ true → IsCode kinds.now bytes.now }
    ensures no { result ≡ false → IsNoCode kinds.now bytes.now }
{
    let mut code = bytes;
    for kind in kinds {
        let Some(rest) = after_first(*kind, code) else {
            return false;
        };
        code = rest;
    }
    code.is_empty()
}

// The error after a failed allocation. It is `NotACode` if the bytes would not be decoded with more memory either.
fn memory_error(kinds: &[Kind], bytes: &[u8]) -> DecodeError
    ensures memory { result ≡ DecodeError.OutOfMemory → IsCode kinds.now bytes.now }
    ensures none { result ≡ DecodeError.NotACode → IsNoCode kinds.now bytes.now }
{
    if is_code(kinds, bytes) {
        DecodeError::OutOfMemory
    } else {
        DecodeError::NotACode
    }
}

/// Decodes bytes as values of these kinds, and adds the values to a row, in one pass over the bytes. After an `Err` some of the values may
/// have been added. `OutOfMemory` is returned only if the bytes are a code. To find out, all bytes are read again after a failed allocation.
pub fn decode_onto(
    alloc: Global,
    kinds: &[Kind],
    bytes: &[u8],
    row: &mut Row,
) -> Result<(), DecodeError>
    ensures code { OnOk result ((values : List value) × ((row.new ≡ row.old ++ values) × IsCodeOf kinds.now bytes.now values)) }
    ensures none { IsErrOf result DecodeError.NotACode → IsNoCode kinds.now bytes.now }
    ensures memory { IsErrOf result DecodeError.OutOfMemory → IsCode kinds.now bytes.now }
{
    let mut room = [0; MOST_VALUE_BYTES];
    let mut code = bytes;
    for kind in kinds {
        let Some((value, rest)) = first_value(*kind, code, &mut room) else {
            return Err(DecodeError::NotACode);
        };
        let Ok(()) = row.push(alloc, value) else {
            return Err(memory_error(kinds, bytes));
        };
        code = rest;
    }
    if code.is_empty() {
        Ok(())
    } else {
        Err(DecodeError::NotACode)
    }
}
