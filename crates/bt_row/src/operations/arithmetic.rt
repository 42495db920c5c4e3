//! Replacing an int in a string of bytes.
ghost use Rattle.std.specs.Prelude.{◌≡◌, ◌≤◌, ◌+◌, ◌++◌, drop, length, take};
ghost use Rattle.bt_row.specs.Arithmetic.{Makes};
ghost use Rattle.bt_row.specs.Ops.{after_action};
ghost use Rattle.bt_row.specs.inside.Numbers.{int_number};
ghost use Rattle.bt_row.specs.inside.Packing.{IsPacked, first_of, int_bytes, unpacked, width_of};

use crate::operations::op::Arithmetic;
use crate::rows::packed_values::{int_at, offset};
use bt_value::{Kind, tail};

// The first value, if it is an int.
#[tactic(auto, using(crate::proofs::Replacements::int_width, crate::proofs::Replacements::is_number, crate::proofs::Replacements::no_number))]
fn first_int(bytes: &[u8]) -> Option<i64>
    requires { width_of bytes.now ≤ length bytes.now }
    ensures { result ≡ int_number (first_of bytes.now) }
{
    let [tag, ..] = bytes else {
        return None;
    };
    if Kind::from_tag(*tag) != Kind::Int {
        return None;
    }
    Some(int_at(bytes))
}

// The int that begins here, if the value here is one.
fn int_here(bytes: &[u8], at: usize) -> Option<i64>
    requires at { at ≤ length bytes.now }
    requires within { width_of (drop at bytes.now) ≤ length (drop at bytes.now) }
    ensures { result ≡ int_number (first_of (drop at bytes.now)) }
{
    first_int(tail(bytes, at))
}

// Writes another int over the one that begins here.
#[tactic(auto, unfolding(crate::specs::inside::Packing::int_bytes))]
fn overwrite_int(bytes: &mut [u8], at: usize, number: i64)
    requires { at + 9 ≤ length bytes.old }
    ensures { bytes.new ≡ take (at + 1) bytes.old ++ (int_bytes number ++ drop (at + 9) bytes.old) }
{
    bytes[at + 1..at + 9].copy_from_slice(&number.cast_unsigned().to_le_bytes());
}

/// Combines the int at a place with a number, and writes the result over it. Any other value is unchanged.
pub(crate) fn make_at(bytes: &mut [u8], arithmetic: Arithmetic, place: usize, number: i64)
    requires { IsPacked bytes.old }
    ensures packed { IsPacked bytes.new }
    ensures values { unpacked bytes.new ≡ after_action (unpacked bytes.old) (Makes arithmetic place number) }
{
    let at = offset(bytes, place);
    if let Some(old) = int_here(bytes, at) {
        overwrite_int(bytes, at, arithmetic.make(old, number));
    }
}
