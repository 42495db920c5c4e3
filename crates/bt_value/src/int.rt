//! Reading a field as an int.
ghost use Rattle.std.specs.Prelude.{◌≡◌, ◌≢◌, ◌≤◌, ◌==◌, ◌-◌, ◌^◌, ◌∷◌, true, None, Some, if◌then◌else◌, length, pos, slice_index};
ghost use Rattle.bt_value.specs.Ints.{int_of, is_numeral, number_written};

use std::str;

/// Any number of at most this many digits has 64 bits.
pub(crate) const SAFE_DIGITS: usize = 18;

/// Whether a field begins with this byte, which is not zero.
#[inline(always)]
pub(crate) fn begins_with(field: &[u8], byte: u8) -> bool
    requires { byte ≢ 0 }
    ensures { result ≡ (slice_index field.now 0 == byte) }
{
    match field {
        [first, ..] => *first == byte,
        [] => false,
    }
}

// The whole number that a field of any length encodes.
fn read_long_int(field: &[u8]) -> Option<i64>
    ensures { result ≡ int_of field.now }
{
    if begins_with(field, b'+') {
        return None;
    }
    match str::from_utf8(field) {
        Ok(text) => text.parse::<i64>().ok(),
        Err(_) => None,
    }
}

// The number that a few digits write, or `None` if there are no digits or there is another byte.
fn short_number(digits: &[u8]) -> Option<i64>
    requires { length digits.now ≤ SAFE_DIGITS }
    ensures number { result ≡ (if is_numeral digits.now then Some (pos (number_written digits.now)) else None) }
    ensures small { is_numeral digits.now ≡ true → number_written digits.now ≤ 2 ^ 63 - 1 }
{
    if digits.is_empty() {
        return None;
    }
    let mut number = 0u64;
    for digit in digits {
        if *digit < b'0' || *digit > b'9' {
            return None;
        }
        number = number * 10 + u64::from(*digit - b'0');
    }
    Some(number as i64)
}

// The whole number that digits encode after a minus sign.
fn read_negative(digits: &[u8]) -> Option<i64>
    requires { length digits.now ≤ SAFE_DIGITS }
    ensures { result ≡ int_of (45 ∷ digits.now) }
{
    match short_number(digits) {
        Some(number) => Some(-number),
        None => None,
    }
}

/// The whole number of 64 bits that a field encodes: an optional `-`, then one or more digits.
pub fn read_int(field: &[u8]) -> Option<i64>
    ensures { result ≡ int_of field.now }
{
    if field.len() > SAFE_DIGITS {
        return read_long_int(field);
    }
    if begins_with(field, b'-') {
        return read_negative(&field[1..]);
    }
    short_number(field)
}
