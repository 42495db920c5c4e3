//! Reading the first field of a text, if it is plain, in one pass over its bytes.
ghost use Rattle.std.specs.Prelude.{◌≡◌, ◌==◌, ◌≤◌, ◌^◌, ◌-◌, ◌∷◌, [], IfSome, Some, drop, false, get_or, pos, take, true};
ghost use Rattle.bt_value.specs.Ints.{int_of, is_digit as is_decimal, is_numeral, number_written};
ghost use Rattle.bt_value.specs.Texts.{is_text as is_text_of};
ghost use Rattle.bt_value.specs.PlainFields.{EndsPlain, fields_from, is_plain as stands_for_itself, is_special as is_quote_or_line_end};
ghost use Rattle.std.specs.List.{list_any};

use crate::int::{SAFE_DIGITS, begins_with};
use crate::slices::{front, tail};
use crate::text::MOST_VALUE_BYTES;

/// Whether a byte has a special meaning in a record: a quote or a line end.
#[inline(always)]
pub fn is_special(byte: u8) -> bool
    ensures { result ≡ is_quote_or_line_end byte }
{
    matches!(byte, b'"' | b'\r' | b'\n')
}

// One mark for each byte, 32 in a line. A dot marks an ASCII byte that stands for itself in a record.
static PLAIN_BYTES: [u8; 256] = *b"\
    ..........#..#..................\
    ..#.........#...................\
    ................................\
    ................................\
    ################################\
    ################################\
    ################################\
    ################################";

// Whether a byte is an ASCII byte that stands for itself in a record.
#[inline(always)]
fn is_plain(byte: u8) -> bool
    ensures { result ≡ stands_for_itself byte }
{
    PLAIN_BYTES[byte as usize] == b'.'
}

// Whether a byte is a digit.
#[inline(always)]
fn is_digit(byte: u8) -> bool
    ensures { result ≡ is_decimal byte }
{
    b'0' <= byte && byte <= b'9'
}

// Whether there is a comma at a place, or the text ends there.
#[inline(always)]
fn has_end(text: &[u8], place: usize) -> bool
    ensures { result ≡ (get_or text.now place 44 == 44) }
{
    place >= text.len() || text[place] == b','
}

/// Where the first field of a text ends, if it is plain.
#[inline(always)]
pub(crate) fn plain_end(text: &[u8]) -> Option<usize>
    ensures { IfSome result (λ end. EndsPlain text.now end) }
{
    let mut end = 0;
    while end < text.len() && is_plain(text[end]) {
        end += 1;
    }
    if has_end(text, end) { Some(end) } else { None }
}

/// Where the first field of a text ends, if it is plain and no longer than a value may be.
#[inline(always)]
pub(crate) fn plain_text_end(text: &[u8]) -> Option<usize>
    ensures text { IfSome result (λ end. is_text_of (take end text.now) ≡ true) }
    ensures ends { IfSome result (λ end. EndsPlain text.now end) }
{
    let end = plain_end(text)?;
    if end > MOST_VALUE_BYTES {
        return None;
    }
    Some(end)
}

// The number that the first field of a text writes, and where the field ends. The field must have 1 to 18 digits and nothing else.
#[inline(always)]
fn plain_number(text: &[u8]) -> Option<(i64, usize)>
    ensures number { IfSome result (λ found. pos (number_written (take found.1 text.now)) ≡ found.0) }
    ensures numeral { IfSome result (λ found. is_numeral (take found.1 text.now) ≡ true) }
    ensures small { IfSome result (λ found. number_written (take found.1 text.now) ≤ 2 ^ 63 - 1) }
    ensures ends { IfSome result (λ found. EndsPlain text.now found.1) }
{
    let mut number = 0u64;
    let mut end = 0;
    while end < text.len() && end < SAFE_DIGITS && is_digit(text[end]) {
        number = number * 10 + u64::from(text[end] - b'0');
        end += 1;
    }
    if end == 0 || !has_end(text, end) {
        return None;
    }
    Some((number as i64, end))
}

/// The whole number that the first field of a text encodes, and where the field ends. It must have an optional `-` and 1 to 18 digits.
#[inline(always)]
pub(crate) fn plain_int(text: &[u8]) -> Option<(i64, usize)>
    ensures number { IfSome result (λ found. int_of (take found.1 text.now) ≡ Some found.0) }
    ensures ends { IfSome result (λ found. EndsPlain text.now found.1) }
{
    if begins_with(text, b'-') {
        let (number, end) = plain_number(tail(text, 1))?;
        return Some((-number, end + 1));
    }
    plain_number(text)
}

/// The field that begins at a place of a text, if it is plain, and the place after its comma. After the last field that is one past the end.
#[tactic(auto, using(crate::proofs::offered::PlainFields::next_cut, crate::proofs::offered::PlainFields::next_plain))]
pub(crate) fn plain_field(text: &[u8], at: usize) -> Option<(&[u8], usize)>
    ensures field { IfSome result (λ read. fields_from at text.now ≡ read.0.now ∷ fields_from read.1 text.now) }
    ensures plain { IfSome result (λ read. list_any is_quote_or_line_end (drop at text.now) ≡ list_any is_quote_or_line_end (drop read.1 text.now)) }
{
    if at > text.len() {
        return None;
    }
    let rest = tail(text, at);
    let end = plain_end(rest)?;
    Some((front(rest, end), at + (end + 1)))
}

/// The fields of a text from a place on, if they are three plain fields.
pub fn plain_group(text: &[u8], at: usize) -> Option<(&[u8], &[u8], &[u8])>
    ensures fields { IfSome result (λ read. fields_from at text.now ≡ read.0.now ∷ read.1.now ∷ read.2.now ∷ []) }
    ensures plain { IfSome result (λ _. list_any is_quote_or_line_end (drop at text.now) ≡ false) }
{
    let (first, following_first) = plain_field(text, at)?;
    let (second, after_second) = plain_field(text, following_first)?;
    let (third, after_third) = plain_field(text, after_second)?;
    if after_third <= text.len() {
        return None;
    }
    Some((first, second, third))
}
