//! What is wrong with a field.
ghost use Rattle.std.specs.Prelude.{◌≡◌};
ghost use Rattle.std.specs.List.{list_all};
ghost use Rattle.bt_value.specs.Ints as ints;
ghost use Rattle.bt_fault.specs.Problems as spec;

use bt_value::{Kind, MOST_VALUE_BYTES};

/// What is wrong with a field, or with a record or a text as a whole.
#[derive(Clone, Copy, Debug, PartialEq, Eq)]
pub enum Problem {
    /// The number of fields is wrong.
    FieldCount,
    /// An int is digits, after a `-` if it is negative, and this field is not.
    NoInt,
    /// The number of an int has more than 64 bits.
    IntRange,
    /// A text, or bytes, are longer than 255 bytes.
    TooLong,
    /// A text is not UTF-8.
    NoText,
    /// A flag is neither `true` nor `false`.
    NoFlag,
    /// A letter of bytes is no hexadecimal digit.
    NoHex,
    /// Bytes have an odd number of hexadecimal digits.
    OddDigits,
    /// The word of an operation is unknown.
    NoOperation,
    /// No column has this name.
    NoColumn,
    /// The column is one of the key, which no operation changes.
    KeyColumn,
    /// The operation is one for ints, and the column has another kind.
    NoIntColumn,
    /// A batch has more messages than a batch may have.
    ManyMessages,
    /// A text that begins with two byte order marks has no header.
    SecondMark,
    /// A text has no record, and so no header.
    NoHeader,
    /// A field of a header is not the name of its column.
    OtherName,
}

impl Problem {
    /// The number that a caller of the library for C or of the engine sees.
    pub fn number(self) -> u32
        ensures { result ≡ spec.problem_number self }
    {
        match self {
            Problem::FieldCount => 1,
            Problem::NoInt => 2,
            Problem::IntRange => 3,
            Problem::TooLong => 4,
            Problem::NoText => 5,
            Problem::NoFlag => 6,
            Problem::NoHex => 7,
            Problem::OddDigits => 8,
            Problem::NoOperation => 9,
            Problem::NoColumn => 10,
            Problem::KeyColumn => 11,
            Problem::NoIntColumn => 12,
            Problem::ManyMessages => 13,
            Problem::SecondMark => 14,
            Problem::NoHeader => 15,
            Problem::OtherName => 16,
        }
    }
}

fn is_digit(byte: u8) -> bool
    ensures { result ≡ ints.is_digit byte }
{
    b'0' <= byte && byte <= b'9'
}

// Whether a text has only digits.
fn has_only_digits(text: &[u8]) -> bool
    ensures { result ≡ list_all ints.is_digit text.now }
{
    text.iter().all(|byte| is_digit(*byte))
}

// Whether a text is one or more digits, and nothing else.
fn is_numeral(text: &[u8]) -> bool
    ensures { result ≡ ints.is_numeral text.now }
{
    !text.is_empty() && has_only_digits(text)
}

// Whether a field has only digits, after a minus sign if it has one.
fn is_signed_numeral(field: &[u8]) -> bool
    ensures { result ≡ spec.is_signed_numeral field.now }
{
    match field {
        [b'-', digits @ ..] => is_numeral(digits),
        _ => is_numeral(field),
    }
}

fn is_hex_digit(byte: u8) -> bool
    ensures { result ≡ spec.is_hex_digit byte }
{
    matches!(byte, b'0'..=b'9' | b'a'..=b'f' | b'A'..=b'F')
}

// Whether a field has only hexadecimal digits.
fn is_hex(field: &[u8]) -> bool
    ensures { result ≡ spec.is_hex field.now }
{
    field.iter().all(|byte| is_hex_digit(*byte))
}

fn bytes_problem(field: &[u8]) -> Problem
    ensures { result ≡ spec.bytes_problem field.now }
{
    if !is_hex(field) {
        return Problem::NoHex;
    }
    if field.len() % 2 == 0 {
        Problem::TooLong
    } else {
        Problem::OddDigits
    }
}

// What is wrong with a field that is no value of a kind.
fn problem_in(kind: Kind, field: &[u8]) -> Problem
    ensures { result ≡ spec.problem_in kind field.now }
{
    match kind {
        Kind::Int if is_signed_numeral(field) => Problem::IntRange,
        Kind::Int => Problem::NoInt,
        Kind::Text if field.len() <= MOST_VALUE_BYTES => Problem::NoText,
        Kind::Text => Problem::TooLong,
        Kind::Flag => Problem::NoFlag,
        Kind::Bytes => bytes_problem(field),
    }
}

/// What is wrong with a field as a value of a kind, if it is none.
pub fn field_problem(kind: Kind, field: &[u8]) -> Option<Problem>
    ensures { result ≡ spec.field_problem kind field.now }
{
    let mut room = [0; MOST_VALUE_BYTES];
    match kind.read(field, &mut room) {
        Some(_value) => None,
        None => Some(problem_in(kind, field)),
    }
}
