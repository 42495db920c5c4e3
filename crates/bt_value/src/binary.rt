//! Binary strings, which contracts see as their bytes, and the hexadecimal digits that encode them.
ghost use Rattle.std.specs.Prelude.{◌≡◌, ◌≤◌, ◌<◌, IfOk, IfSome, None, Some, option_map, take, true};
ghost use Rattle.bt_value.specs.Hex.{byte_of, digit_of};
ghost use Rattle.bt_value.specs.Kinds.{binary_of};
ghost use Rattle.bt_value.specs.Texts.{is_binary as is_short};

use crate::bytes::Bytes;
use crate::text::MOST_VALUE_BYTES;
use std::alloc::{AllocError, Global};
use std::marker::Model;

/// A binary string of at most 255 bytes, as a value. A contract sees its bytes.
#[derive(Debug, Drop)]
pub struct Binary {
    bytes: Bytes,
}

impl Model for Binary {
    ghost use Rattle.std.specs.Prelude.{List, ℕ, ◌≡◌, true};
    ghost use Rattle.bt_value.specs.Texts.{is_binary};

    ghost Value = { List ℕ };

    ghost view = { λ a. a.bytes };

    ghost invariant = { λ a. is_binary a.bytes ≡ true };
}

impl Binary {
    /// A copy of these bytes.
    pub fn from_bytes(alloc: Global, bytes: &[u8]) -> Result<Self, AllocError>
        requires { is_short bytes.now ≡ true }
        ensures { IfOk result (λ copy. copy ≡ bytes.now) }
    {
        Ok(Binary {
            bytes: Bytes::from_slice(alloc, bytes)?,
        })
    }

    /// A copy of the binary string.
    pub fn copy(&self, alloc: Global) -> Result<Self, AllocError>
        ensures { IfOk result (λ copy. copy ≡ self.now) }
    {
        Ok(Binary {
            bytes: self.bytes.copy(alloc)?,
        })
    }

    /// The bytes.
    pub fn as_bytes(&self) -> &[u8]
        ensures value { result.now ≡ self.now }
        ensures short { is_short self.now ≡ true }
    {
        self.bytes.as_slice()
    }
}

/// Whether bytes are a binary string of a column.
pub(crate) fn is_binary(bytes: &[u8]) -> bool
    ensures { result ≡ is_short bytes.now }
{
    bytes.len() <= MOST_VALUE_BYTES
}

// The number of a hexadecimal digit, in upper or lower case.
fn digit_number(byte: u8) -> Option<u8>
    ensures number { result ≡ digit_of byte }
    ensures low { IfSome result (λ number. number < 16) }
{
    match byte {
        b'0'..=b'9' => Some(byte - b'0'),
        b'a'..=b'f' => Some(byte - (b'a' - 10)),
        b'A'..=b'F' => Some(byte - (b'A' - 10)),
        _ => None,
    }
}

// The byte that two digits encode.
fn byte_from(high: u8, low: u8) -> Option<u8>
    ensures { result ≡ byte_of high low }
{
    let high = digit_number(high)?;
    let low = digit_number(low)?;
    Some(high * 16 + low)
}

// Writes the bytes that the digits encode into `room`, and returns their number. It returns `None` if a byte is not a digit, if the
// number of digits is odd, or if there are more bytes than a value may have.
fn spell(digits: &[u8], room: &mut [u8; MOST_VALUE_BYTES]) -> Option<usize>
    ensures bound { IfSome result (λ len. len ≤ MOST_VALUE_BYTES) }
    ensures bytes { option_map (λ len. take len room.new) result ≡ binary_of digits.now }
{
    let mut len = 0;
    let mut rest = digits;
    while let [high, low, others @ ..] = rest {
        let byte = byte_from(*high, *low)?;
        if len == MOST_VALUE_BYTES {
            return None;
        }
        room[len] = byte;
        len += 1;
        rest = others;
    }
    if rest.is_empty() { Some(len) } else { None }
}

/// The bytes that a field encodes, two digits for each, borrowed from `room`.
pub(crate) fn read_binary<'a>(
    field: &[u8],
    room: &'a mut [u8; MOST_VALUE_BYTES],
) -> Option<&'a [u8]>
    ensures bytes { option_map (λ bytes. bytes.now) result ≡ binary_of field.now }
    ensures short { IfSome result (λ bytes. is_short bytes.now ≡ true) }
{
    let len = spell(field, room)?;
    Some(&room[..len])
}
