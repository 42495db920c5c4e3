//! Reading one field.
ghost use Rattle.std.specs.Prelude.{◌≡◌, Err, IfSome, None, option_map, true};
ghost use Rattle.bt_value.specs.Answers.{Answers};
ghost use Rattle.bt_value.specs.Kinds.{flag_of, text_read, value_of};
ghost use Rattle.bt_value.specs.Texts.{is_text as is_text_of};
ghost use Rattle.bt_value.specs.Values.{BytesFit};
ghost use Rattle.bt_value.specs.Results.{or_refused};
ghost use Rattle.bt_value.specs.Views.{value_of_ref};

use crate::refusal::Refusal;
use crate::text::{MOST_VALUE_BYTES, is_text};
use crate::value::{Kind, Value, ValueRef};
use std::alloc::Global;

/// The flag that a field encodes.
pub(crate) fn read_flag(field: &[u8]) -> Option<bool>
    ensures { result ≡ flag_of field.now }
{
    if field.eq_ignore_ascii_case(b"true") {
        return Some(true);
    }
    if field.eq_ignore_ascii_case(b"false") {
        return Some(false);
    }
    None
}

/// The field itself, if it is a text.
pub(crate) fn read_text(field: &[u8]) -> Option<&[u8]>
    ensures value { option_map (λ text. text.now) result ≡ text_read field.now }
    ensures text { IfSome result (λ text. is_text_of text.now ≡ true) }
{
    if is_text(field) { Some(field) } else { None }
}

// A copy of a value that was read. If there is none, the field is refused as this item.
fn copy_read(alloc: Global, item: u64, read: Option<ValueRef<'_>>) -> Result<Value, Refusal>
    requires { IfSome read (λ value. BytesFit (value_of_ref value)) }
    ensures answer { Answers (or_refused (Refusal.BadField item) (option_map value_of_ref read.entry)) result }
    ensures certain { option_map value_of_ref read.entry ≡ None → result ≡ Err (Refusal.BadField item) }
{
    match read {
        Some(value) => Ok(value.to_value(alloc)?),
        None => Err(Refusal::BadField(item)),
    }
}

// The value that a field encodes, or the refusal of the field as this item. Its bytes are written into an array first.
#[inline(never)]
fn read_spelled(alloc: Global, kind: Kind, item: u64, field: &[u8]) -> Result<Value, Refusal>
    ensures answer { Answers (or_refused (Refusal.BadField item) (value_of kind field.now)) result }
    ensures certain { value_of kind field.now ≡ None → result ≡ Err (Refusal.BadField item) }
{
    let mut room = [0; MOST_VALUE_BYTES];
    copy_read(alloc, item, kind.read(field, &mut room))
}

/// The value that a field encodes in a column of a kind, or the refusal of the field as this item.
pub fn read_value(alloc: Global, kind: Kind, item: u64, field: &[u8]) -> Result<Value, Refusal>
    ensures answer { Answers (or_refused (Refusal.BadField item) (value_of kind field.now)) result }
    ensures certain { value_of kind field.now ≡ None → result ≡ Err (Refusal.BadField item) }
{
    if kind.needs_room() {
        return read_spelled(alloc, kind, item, field);
    }
    copy_read(alloc, item, kind.read_lent(field))
}

/// The value that a field encodes in a column of a kind, or `BadField` of item 1.
///
/// An int is an optional `-` and one or more digits, and its number has 64 bits. Leading zeros are allowed. A text is UTF-8 of at
/// most 255 bytes. A flag is `true` or `false`, in upper or lower case. Bytes are two hexadecimal digits each, in upper or lower case,
/// and there are at most 255 of them.
pub fn read_field(alloc: Global, kind: Kind, field: &[u8]) -> Result<Value, Refusal>
    ensures answer { Answers (or_refused (Refusal.BadField 1) (value_of kind field.now)) result }
    ensures certain { value_of kind field.now ≡ None → result ≡ Err (Refusal.BadField 1) }
{
    read_value(alloc, kind, 1, field)
}
