//! Bytes as hexadecimal text.
ghost use Rattle.std.specs.Prelude.{◌≡◌, ◌++◌, ◌∷◌, ◌*◌, ◌<◌, [], OnOk, OnErr, length};
ghost use Rattle.bt_value.specs.Hex.{hex_digit, hex_text};
ghost use Rattle.bt_value.specs.Room.{HasRoom, TakesRoom};

use std::alloc::AllocError;

/// The lower-case hexadecimal digit of a number.
pub(crate) fn lower_digit(number: u8) -> u8
    requires { number < 16 }
    ensures { result ≡ hex_digit number }
{
    if number < 10 {
        b'0' + number
    } else {
        b'a' + (number - 10)
    }
}

// Adds the two digits of a byte. The caller has reserved room for them.
#[inline(always)]
fn add_two_digits(out: &mut Vec<u8>, byte: u8)
    requires room { HasRoom out.old 2 }
    ensures text { out.new.items ≡ out.old.items ++ hex_text (byte ∷ []) }
    ensures room { TakesRoom out.old out.new 2 }
{
    out.push_reserved(lower_digit(byte / 16));
    out.push_reserved(lower_digit(byte % 16));
}

/// Adds two digits for each byte. The caller has reserved room for them.
pub(crate) fn append_hex(out: &mut Vec<u8>, bytes: &[u8])
    requires room { HasRoom out.old (2 * length bytes.now) }
    ensures text { out.new.items ≡ out.old.items ++ hex_text bytes.now }
    ensures room { TakesRoom out.old out.new (2 * length bytes.now) }
{
    for byte in bytes {
        add_two_digits(out, *byte);
    }
}

/// Adds two lower-case hexadecimal digits for each byte. An `Err` changes nothing.
pub fn write_hex(out: &mut Vec<u8>, bytes: &[u8]) -> Result<(), AllocError>
    ensures ok { OnOk result (out.new.items ≡ out.old.items ++ hex_text bytes.now) }
    ensures err { OnErr result (out.new.items ≡ out.old.items) }
{
    out.reserve(bytes.len().saturating_mul(2))?;
    append_hex(out, bytes);
    Ok(())
}
