//! The key code of values.
ghost use Rattle.std.specs.List.{list_any};
ghost use Rattle.std.specs.Prelude.{◌≡◌, ◌+◌, ◌≤◌, ◌++◌, ◌∷◌, [], IfOk, false, length, nat_eq, take};
ghost use Rattle.bt_value.specs.Views.{value_of_ref};
ghost use Rattle.bt_keycode.specs.Codes.{code_of, code_of_value, eight_bytes, escaped, raised};

use crate::code_builder::{CodeBuilder, int_code};
use crate::key::{Key, SHORT_KEY};
use crate::zeros::split_at_zero;
use bt_row::{Row, Values};
use bt_value::{Content, ValueRef};
use std::alloc::{AllocError, Global};

// The key that encodes an int.
fn encode_int(alloc: Global, number: i64) -> Result<Key, AllocError>
    ensures { IfOk result (λ key. key ≡ eight_bytes (raised number)) }
{
    Key::from_bytes(alloc, &int_code(number))
}

// The most bytes that a key keeps inline with 0 and 1 after them.
const MOST_PLAIN: usize = SHORT_KEY - 2;

// Few bytes, followed by 0 and 1.
fn bytes_with_end(plain: &[u8]) -> [u8; SHORT_KEY]
    requires { length plain.now ≤ MOST_PLAIN }
    ensures { take (length plain.now + 2) result ≡ plain.now ++ (0 ∷ 1 ∷ []) }
{
    let mut bytes = [0; SHORT_KEY];
    bytes[..plain.len()].copy_from_slice(plain);
    bytes[plain.len() + 1] = 1;
    bytes
}

// The key that encodes few bytes, none of them zero: the bytes, followed by 0 and 1.
#[tactic(auto, using(crate::proofs::Escapes::escaped_no_zero))]
fn encode_plain(alloc: Global, plain: &[u8]) -> Result<Key, AllocError>
    requires few { length plain.now ≤ MOST_PLAIN }
    requires no_zero { list_any (λ b. nat_eq b 0) plain.now ≡ false }
    ensures { IfOk result (λ key. key ≡ escaped plain.now ++ (0 ∷ 1 ∷ [])) }
{
    let code = bytes_with_end(plain);
    Key::from_bytes(alloc, &code[..plain.len() + 2])
}

// The key that encodes bytes.
fn encode_bytes(alloc: Global, bytes: &[u8]) -> Result<Key, AllocError>
    ensures { IfOk result (λ key. key ≡ escaped bytes.now ++ (0 ∷ 1 ∷ [])) }
{
    if bytes.len() <= MOST_PLAIN && split_at_zero(bytes).is_none() {
        return encode_plain(alloc, bytes);
    }
    let mut code = CodeBuilder::new(alloc);
    code.add_bytes(bytes)?;
    code.finish()
}

// The key that encodes one value. A short one is written without a builder.
fn encode_one(alloc: Global, value: ValueRef<'_>) -> Result<Key, AllocError>
    ensures { IfOk result (λ key. key ≡ code_of_value (value_of_ref value.entry)) }
{
    match value.content() {
        Content::Number(number) => encode_int(alloc, number),
        Content::Bytes(bytes) => encode_bytes(alloc, bytes),
        Content::Bit(bit) => Key::from_bytes(alloc, &[u8::from(bit)]),
    }
}

// The key that encodes values, which are added one after the other.
fn encode_each(alloc: Global, values: Values<'_>) -> Result<Key, AllocError>
    ensures { IfOk result (λ key. key ≡ code_of values.entry) }
{
    let mut rest = values;
    let mut code = CodeBuilder::new(alloc);
    while let Some(value) = rest.next() {
        code.add(value)?;
    }
    code.finish()
}

/// The key that encodes values. One of at most 22 bytes takes no memory of its own. The common case of a single number is encoded directly.
#[tactic(auto, using(crate::proofs::CodesOfOne::code_of_one))]
pub(crate) fn encode_values(alloc: Global, values: Values<'_>) -> Result<Key, AllocError>
    ensures { IfOk result (λ key. key ≡ code_of values.entry) }
{
    let mut rest = values.copy();
    if let Some(value) = rest.next()
        && rest.is_empty()
    {
        return encode_one(alloc, value);
    }
    encode_each(alloc, values)
}

/// The key that encodes the first values of a row, or all if there are fewer. One of at most 22 bytes takes no memory of its own.
pub fn encode_row(alloc: Global, row: &Row, count: usize) -> Result<Key, AllocError>
    ensures { IfOk result (λ key. key ≡ code_of (take count row.now)) }
{
    encode_values(alloc, row.first_values(count))
}
