//! Writing one field of a record into an array. The caller sees to it that its longest text fits.
ghost use Rattle.std.specs.Prelude.{◌≡◌, ◌≤◌, ◌<◌, ◌++◌, ◌∷◌, ◌+◌, ◌*◌, ◌^◌, [], IfNone, IfSome, codes, decimal, false, if◌then◌else◌, length, take, true};
ghost use Rattle.std.specs.Fmt.{signed_decimal};
ghost use Rattle.csv.specs.Writing.{default_writer, escaped, field_text, needs_byte, needs_quotes, quoted};
ghost use Rattle.bt_value.specs.Hex.{hex_text};

use crate::hex::lower_digit;
use itoa::write_digits;

/// The length of an array for the text of a short record.
pub const SHORT_TEXT: usize = 256;

/// Puts a byte at a place, and returns the place after it.
#[inline(always)]
pub fn put_byte(room: &mut [u8; SHORT_TEXT], at: usize, byte: u8) -> usize
    requires { at < SHORT_TEXT }
    ensures text { take result room.new ≡ take at room.old ++ byte ∷ [] }
    ensures end { result ≡ at + 1 }
{
    room[at] = byte;
    at + 1
}

// Puts bytes at a place, and returns the place after them.
#[inline(always)]
fn put_bytes(room: &mut [u8; SHORT_TEXT], at: usize, bytes: &[u8]) -> usize
    requires { at + length bytes.now ≤ SHORT_TEXT }
    ensures text { take result room.new ≡ take at room.old ++ bytes.now }
    ensures end { result ≡ at + length bytes.now }
{
    let end = at + bytes.len();
    room[at..end].copy_from_slice(bytes);
    end
}

// The number of digits of a number.
#[inline(always)]
#[tactic(auto, using(crate::proofs::DigitCounts::digits_of_zero, crate::proofs::DigitCounts::digits_between))]
fn digit_count(number: u64) -> usize
    ensures { result ≡ length (decimal number) }
{
    if number == 0 {
        1
    } else {
        number.ilog10() as usize + 1
    }
}

// Puts the digits of a number at a place, and returns the place after them.
#[inline(always)]
fn put_digits(room: &mut [u8; SHORT_TEXT], at: usize, number: u64) -> usize
    requires small { number ≤ 2 ^ 63 }
    requires room { at + 19 ≤ SHORT_TEXT }
    ensures text { take result room.new ≡ take at room.old ++ decimal number }
    ensures room { result ≤ at + 19 }
{
    let end = at + digit_count(number);
    let _start = write_digits(number, room, end);
    end
}

/// Puts the digits of a number at a place as a field, and returns the place after them.
#[inline(always)]
pub(crate) fn put_int(room: &mut [u8; SHORT_TEXT], at: usize, number: i64) -> usize
    requires { at + 20 ≤ SHORT_TEXT }
    ensures text { take result room.new ≡ take at room.old ++ field_text default_writer (signed_decimal number) }
    ensures room { result ≤ at + 20 }
{
    if number >= 0 {
        return put_digits(room, at, number.unsigned_abs());
    }
    let start = put_byte(room, at, b'-');
    put_digits(room, start, number.unsigned_abs())
}

// Whether a byte makes quotes necessary.
#[inline(always)]
fn is_quoted(byte: u8) -> bool
    ensures { result ≡ needs_byte default_writer byte }
{
    matches!(byte, b',' | b'"' | b'\r' | b'\n')
}

// Puts a text at a place, and returns the place after it, unless the text needs quotes.
#[inline(always)]
fn put_unquoted(room: &mut [u8; SHORT_TEXT], at: usize, text: &[u8]) -> Option<usize>
    requires { at + length text.now ≤ SHORT_TEXT }
    ensures text { IfSome result (λ end. take end room.new ≡ take at room.old ++ text.now) }
    ensures end { IfSome result (λ end. end ≡ at + length text.now) }
    ensures plain { IfSome result (λ _. needs_quotes default_writer text.now ≡ false) }
    ensures quotes { IfNone result (needs_quotes default_writer text.now ≡ true) }
    ensures before { take at room.new ≡ take at room.old }
{
    let mut len = 0;
    while len < text.len() {
        let byte = text[len];
        if is_quoted(byte) {
            return None;
        }
        room[at + len] = byte;
        len += 1;
    }
    Some(at + len)
}

// Puts a byte of a quoted text at a place, and returns the place after it. A quote is put twice.
#[inline(always)]
#[tactic(auto, using(crate::proofs::Quotes::quote_escaped, crate::proofs::Quotes::other_escaped))]
fn put_escaped(room: &mut [u8; SHORT_TEXT], at: usize, byte: u8) -> usize
    requires { at + 2 ≤ SHORT_TEXT }
    ensures text { take result room.new ≡ take at room.old ++ escaped default_writer (byte ∷ []) }
    ensures room { result ≤ at + 2 }
{
    if byte == b'"' {
        put_bytes(room, at, b"\"\"")
    } else {
        put_byte(room, at, byte)
    }
}

// Puts a text between quotes at a place, with each quote in it doubled, and returns the place after it.
fn put_quoted(room: &mut [u8; SHORT_TEXT], at: usize, text: &[u8]) -> usize
    requires { at + (2 * length text.now + 2) ≤ SHORT_TEXT }
    ensures text { take result room.new ≡ take at room.old ++ quoted default_writer text.now }
    ensures room { result ≤ at + (2 * length text.now + 2) }
{
    let mut end = put_byte(room, at, b'"');
    for byte in text {
        end = put_escaped(room, end, *byte);
    }
    put_byte(room, end, b'"')
}

/// Puts a text at a place as a field, between quotes if it needs them, and returns the place after it.
#[inline(always)]
pub(crate) fn put_text(room: &mut [u8; SHORT_TEXT], at: usize, text: &[u8]) -> usize
    requires { at + (2 * length text.now + 2) ≤ SHORT_TEXT }
    ensures text { take result room.new ≡ take at room.old ++ field_text default_writer text.now }
    ensures room { result ≤ at + (2 * length text.now + 2) }
{
    match put_unquoted(room, at, text) {
        Some(end) => end,
        None => put_quoted(room, at, text),
    }
}

/// Puts `true` or `false` at a place as a field, and returns the place after it.
#[inline(always)]
pub(crate) fn put_flag(room: &mut [u8; SHORT_TEXT], at: usize, flag: bool) -> usize
    requires { at + 5 ≤ SHORT_TEXT }
    ensures text { take result room.new ≡ take at room.old ++ field_text default_writer (if flag then codes "true" else codes "false") }
    ensures room { result ≤ at + 5 }
{
    if flag {
        put_bytes(room, at, b"true")
    } else {
        put_bytes(room, at, b"false")
    }
}

// Puts the two digits of a byte at a place, and returns the place after them.
#[inline(always)]
fn put_two_digits(room: &mut [u8; SHORT_TEXT], at: usize, byte: u8) -> usize
    requires { at + 2 ≤ SHORT_TEXT }
    ensures text { take result room.new ≡ take at room.old ++ hex_text (byte ∷ []) }
    ensures end { result ≡ at + 2 }
{
    let second = put_byte(room, at, lower_digit(byte / 16));
    put_byte(room, second, lower_digit(byte % 16))
}

/// Puts bytes at a place as hexadecimal digits, which need no quotes, and returns the place after them.
pub(crate) fn put_binary(room: &mut [u8; SHORT_TEXT], at: usize, bytes: &[u8]) -> usize
    requires { at + 2 * length bytes.now ≤ SHORT_TEXT }
    ensures text { take result room.new ≡ take at room.old ++ field_text default_writer (hex_text bytes.now) }
    ensures room { result ≤ at + 2 * length bytes.now }
{
    let mut end = at;
    for byte in bytes {
        end = put_two_digits(room, end, *byte);
    }
    end
}
