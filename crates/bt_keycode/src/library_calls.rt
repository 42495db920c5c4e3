//! Calls that the engine does not make, since its rows are bytes and not lists of values. They are for callers in Rattle.
ghost use Rattle.std.specs.Prelude.{◌≡◌, ◌≤◌, IfOk, IsErrOf, List, None, Some, length, take};
ghost use Rattle.bt_value.specs.Values.{value_cmp, values_cmp};
ghost use Rattle.bt_value.specs.declared.value.Value.{Value as value};
ghost use Rattle.bt_keycode.specs.Codes.{HaveSameKinds, IsCode, IsCodeOf, IsNoCode, IsNoProperPrefix, code_of, code_of_value, kind_of};
ghost use Rattle.bt_keycode.specs.Decodings.{decoded};
ghost use Rattle.bt_keycode.specs.Keys.{key_cmp};
ghost use Rattle.bt_keycode.specs.Lengths.{code_length};

use crate::code::encode_values;
use crate::decoder::{DecodeError, decode_onto};
use crate::key::Key;
use crate::lengths::values_len;
use bt_row::{Row, Values, compare_values};
use bt_value::{Kind, Value};
use std::alloc::{AllocError, Global};
use std::cmp::Ordering;

/// The key that encodes the values. One of at most 22 bytes takes no memory of its own.
pub fn encode(alloc: Global, values: &[Value]) -> Result<Key, AllocError>
    ensures { IfOk result (λ key. key ≡ code_of values.now) }
{
    encode_values(alloc, Values::of(values))
}

/// The key that encodes the first values. The code of all of them begins with it.
pub fn encode_prefix(alloc: Global, values: &[Value], count: usize) -> Result<Key, AllocError>
    requires { count ≤ length values.now }
    ensures { IfOk result (λ key. key ≡ code_of (take count values.now)) }
{
    encode(alloc, &values[..count])
}

// The order of two values of a kind. It is also that of their codes.
#[tactic(auto, using(crate::proofs::Codes::value_ordered))]
fn cmp_values(left: &Value, right: &Value) -> Ordering
    requires { kind_of left.now ≡ kind_of right.now }
    ensures values { result ≡ value_cmp left.now right.now }
    ensures codes { result ≡ key_cmp (code_of_value left.now) (code_of_value right.now) }
{
    compare_values(left.as_ref(), right.as_ref())
}

/// The order of two lists of values of the same kinds. It is also that of their codes, and no such code is a proper prefix of another.
#[tactic(auto, using(crate::proofs::Codes::codes_compare, crate::proofs::Codes::no_prefix))]
pub fn cmp_rows(left: &[Value], right: &[Value]) -> Ordering
    requires { HaveSameKinds left.now right.now }
    ensures values { result ≡ values_cmp left.now right.now }
    ensures codes { result ≡ key_cmp (code_of left.now) (code_of right.now) }
    ensures no_prefix { IsNoProperPrefix (code_of left.now) (code_of right.now) }
{
    let mut lefts = left;
    let mut rights = right;
    while let [a, more_left @ ..] = lefts {
        let [b, more_right @ ..] = rights else {
            return Ordering::Greater;
        };
        let order = cmp_values(a, b);
        if order != Ordering::Equal {
            return order;
        }
        lefts = more_left;
        rights = more_right;
    }
    if rights.is_empty() {
        Ordering::Equal
    } else {
        Ordering::Less
    }
}

/// The values of these kinds that the bytes encode. No other list of values of these kinds has the same code. `OutOfMemory` is returned
/// only if the bytes are a code.
pub fn decode(alloc: Global, kinds: &[Kind], bytes: &[u8]) -> Result<Row, DecodeError>
    ensures code { IfOk result (λ row. IsCodeOf kinds.now bytes.now row) }
    ensures only { IfOk result (λ row. (other : List value) → IsCodeOf kinds.now bytes.now other → other ≡ row) }
    ensures none { IsErrOf result DecodeError.NotACode → IsNoCode kinds.now bytes.now }
    ensures memory { IsErrOf result DecodeError.OutOfMemory → IsCode kinds.now bytes.now }
    ensures decoded { IfOk result (λ row. decoded kinds.now bytes.now ≡ Some row) }
    ensures undecoded { IsErrOf result DecodeError.NotACode → decoded kinds.now bytes.now ≡ None }
{
    let mut row = Row::new();
    decode_onto(alloc, kinds, bytes, &mut row)?;
    Ok(row)
}

/// The length of the key code of the values, or [`MOST_WEIGHT`] if that is smaller.
pub fn code_len(values: &[Value]) -> u64
    ensures { result ≡ code_length values.now }
{
    values_len(Values::of(values))
}
