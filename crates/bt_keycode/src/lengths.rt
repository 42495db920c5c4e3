//! The lengths of key codes, as weights. They are computed without writing a code, so they take no memory.
ghost use Rattle.std.specs.Prelude.{◌≡◌, ◌≤◌, ◌+◌, ◌++◌, ◌∷◌, [], length};
ghost use Rattle.bt_keycode.specs.Codes.{code_of_value, escaped};
ghost use Rattle.bt_keycode.specs.Lengths.{byte_weight, change_code_length, code_length};
ghost use Rattle.bt_value.specs.Values.{BytesFit};
ghost use Rattle.bt_value.specs.Views.{value_of_ref};

use crate::zeros::split_at_zero;
use bt_row::{Change, Row, Values};
use bt_value::{Content, MOST_VALUE_BYTES, ValueRef};

/// The largest weight, in bytes: the largest number of 24 bits.
pub const MOST_WEIGHT: u64 = 16_777_215;

// The bytes of an operation besides its argument: one for what it does, and one for its column.
const OP_BYTES: u64 = 2;

// A weight increased by this many bytes, up to the largest weight.
fn weight_sum(weight: u64, bytes: u64) -> u64
    ensures { result ≡ byte_weight (weight + bytes) }
{
    weight.saturating_add(bytes).min(MOST_WEIGHT)
}

// The length of the code of bytes. Each part up to a zero byte is counted as a whole.
fn bytes_len(bytes: &[u8]) -> u64
    requires { length bytes.now ≤ MOST_VALUE_BYTES }
    ensures { result ≡ length (escaped bytes.now ++ (0 ∷ 1 ∷ [])) }
{
    let mut len = 2;
    let mut rest = bytes;
    while let Some((part, following)) = split_at_zero(rest) {
        len += part.len() as u64 + 2;
        rest = following;
    }
    len + rest.len() as u64
}

// The length of the code of a value. The code of 255 zero bytes is the longest.
#[tactic(auto, using(crate::proofs::CodeLengths::length_int, crate::proofs::CodeLengths::short_code, crate::proofs::CodeLengths::bytes_length))]
fn value_len(value: ValueRef<'_>) -> u64
    requires { BytesFit (value_of_ref value) }
    ensures len { result ≡ length (code_of_value (value_of_ref value.entry)) }
    ensures bound { result ≤ 512 }
{
    match value.content() {
        Content::Number(_) => 8,
        Content::Bytes(bytes) => bytes_len(bytes),
        Content::Bit(_) => 1,
    }
}

/// The length of the code of values, or [`MOST_WEIGHT`] if that is smaller.
pub(crate) fn values_len(values: Values<'_>) -> u64
    ensures { result ≡ code_length values.entry }
{
    let mut rest = values;
    let mut weight = 0;
    while let Some(value) = rest.next() {
        weight = weight_sum(weight, value_len(value));
    }
    weight
}

/// The length of the key code of the values of a row, or [`MOST_WEIGHT`] if that is smaller.
pub fn row_code_len(row: &Row) -> u64
    ensures { result ≡ code_length row.now }
{
    values_len(row.values())
}

/// The bytes of the operations of a change, or [`MOST_WEIGHT`] if that is smaller. Each operation counts two bytes, and the key code of its
/// argument. The argument of an arithmetic operation is an int.
pub fn change_code_len(change: &Change) -> u64
    ensures { result ≡ change_code_length change.now }
{
    let mut rest = change.arguments();
    let mut weight = 0;
    while let Some(argument) = rest.next() {
        weight = weight_sum(weight, OP_BYTES + value_len(argument));
    }
    weight
}
