//! Writing one field of a record. The caller reserves room for its longest text first, so nothing here can fail.
ghost use Rattle.std.specs.Prelude.{◌≡◌, ◌++◌, ◌∷◌, ◌+◌, ◌*◌, [], codes, if◌then◌else◌, length};
ghost use Rattle.std.specs.Fmt.{signed_decimal};
ghost use Rattle.csv.specs.Writing.{default_writer, escaped, field_text, needs_quotes as text_needs_quotes, quoted};
ghost use Rattle.bt_value.specs.Hex.{hex_text};
ghost use Rattle.bt_value.specs.Room.{HasRoom, TakesRoom};

use crate::hex::append_hex;
use itoa::Buffer;

// Adds bytes.
#[inline(always)]
fn append(out: &mut Vec<u8>, bytes: &[u8])
    requires room { HasRoom out.old (length bytes.now) }
    ensures text { out.new.items ≡ out.old.items ++ bytes.now }
    ensures room { TakesRoom out.old out.new (length bytes.now) }
{
    out.extend_from_slice(bytes).unwrap()
}

/// Adds the digits of a number as a field.
#[inline(always)]
pub(crate) fn write_int(out: &mut Vec<u8>, number: i64)
    requires room { HasRoom out.old 20 }
    ensures text { out.new.items ≡ out.old.items ++ field_text default_writer (signed_decimal number) }
    ensures room { TakesRoom out.old out.new 20 }
{
    append(out, Buffer::new().format(number).as_bytes())
}

// Whether a field is written between quotes. It is if it has a comma, a quote or a line end.
fn needs_quotes(text: &[u8]) -> bool
    ensures { result ≡ text_needs_quotes default_writer text.now }
{
    text.iter()
        .any(|byte| matches!(*byte, b',' | b'"' | b'\r' | b'\n'))
}

// Adds a byte of a quoted text. A quote is written twice.
#[inline(always)]
#[tactic(auto, using(crate::proofs::Quotes::quote_escaped, crate::proofs::Quotes::other_escaped))]
fn add_escaped(out: &mut Vec<u8>, byte: u8)
    requires room { HasRoom out.old 2 }
    ensures text { out.new.items ≡ out.old.items ++ escaped default_writer (byte ∷ []) }
    ensures room { TakesRoom out.old out.new 2 }
{
    if byte == b'"' {
        append(out, b"\"\"")
    } else {
        out.push_reserved(byte)
    }
}

// Adds a text between quotes, with each quote in it doubled.
fn write_quoted(out: &mut Vec<u8>, text: &[u8])
    requires room { HasRoom out.old (2 * length text.now + 2) }
    ensures text { out.new.items ≡ out.old.items ++ quoted default_writer text.now }
    ensures room { TakesRoom out.old out.new (2 * length text.now + 2) }
{
    out.push_reserved(b'"');
    for byte in text {
        add_escaped(out, *byte);
    }
    out.push_reserved(b'"');
}

/// Adds a text as a field, between quotes if it needs them.
#[inline(always)]
pub(crate) fn write_text(out: &mut Vec<u8>, text: &[u8])
    requires room { HasRoom out.old (2 * length text.now + 2) }
    ensures text { out.new.items ≡ out.old.items ++ field_text default_writer text.now }
    ensures room { TakesRoom out.old out.new (2 * length text.now + 2) }
{
    if needs_quotes(text) {
        write_quoted(out, text)
    } else {
        append(out, text)
    }
}

/// Adds `true` or `false` as a field.
#[inline(always)]
pub(crate) fn write_flag(out: &mut Vec<u8>, flag: bool)
    requires room { HasRoom out.old 5 }
    ensures text { out.new.items ≡ out.old.items ++ field_text default_writer (if flag then codes "true" else codes "false") }
    ensures room { TakesRoom out.old out.new 5 }
{
    if flag {
        append(out, b"true")
    } else {
        append(out, b"false")
    }
}

/// Adds bytes as hexadecimal digits, which need no quotes.
#[tactic(auto, using(crate::proofs::FieldTexts::hex_field))]
pub(crate) fn write_binary(out: &mut Vec<u8>, bytes: &[u8])
    requires room { HasRoom out.old (2 * length bytes.now) }
    ensures text { out.new.items ≡ out.old.items ++ field_text default_writer (hex_text bytes.now) }
    ensures room { TakesRoom out.old out.new (2 * length bytes.now) }
{
    append_hex(out, bytes)
}
