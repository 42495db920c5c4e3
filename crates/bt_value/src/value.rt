//! Kinds and values. All code that depends on the kind is here: forms, words, the bytes that a kind takes, how its fields are read and
//! printed, and its default. Everything else depends only on the form of a value, with one exception: arithmetic operations and sums
//! check that a value is an int.
ghost use Rattle.std.specs.Prelude.{◌≡◌, ◌≢◌, ◌≤◌, ◌+◌, ◌++◌, IfOk, IfSome, Some, false, option_map, take, true};
ghost use Rattle.csv.specs.Writing.{default_writer, field_text};
ghost use Rattle.bt_value.specs.Kinds.{content_of, default_of, form_of, kind_of_word, kind_of, kind_of_tag, needs_room, tag_of, takes, text_of, value_of, value_with};
ghost use Rattle.bt_value.specs.Values.{BytesFit, IsInRange, takes_content};
ghost use Rattle.bt_value.specs.Views.{content_of_ref, value_of_ref};
ghost use Rattle.bt_value.specs.PlainFields.{EndsPlain};
ghost use Rattle.bt_value.specs.Room.{HasRoom, TakesRoom, room_of};

use crate::binary::{Binary, is_binary, read_binary};
use crate::field::{read_flag, read_text};
use crate::field_writer::{write_binary, write_flag, write_int, write_text};
use crate::int::read_int;
use crate::plain_fields::{plain_end, plain_int, plain_text_end};
use crate::short_text::{SHORT_TEXT, put_binary, put_flag, put_int, put_text};
use crate::slices::front;
use crate::text::{MOST_VALUE_BYTES, Text, is_text};
use crate::try_clone::TryClone;
use std::alloc::{AllocError, Global};

/// The kind of the values of a column.
#[derive(Clone, Copy, Debug, PartialEq, Eq)]
pub enum Kind {
    /// A signed whole number of 64 bits.
    Int,
    /// A text: UTF-8 of at most 255 bytes.
    Text,
    /// `true` or `false`.
    Flag,
    /// At most 255 bytes. A field encodes them in hexadecimal digits.
    Bytes,
}

/// How values of a kind are kept, ordered and encoded.
#[derive(Clone, Copy, Debug, PartialEq, Eq)]
pub enum Form {
    /// As a number of 64 bits.
    Number,
    /// As bytes, at most 255.
    Bytes,
    /// As a bit.
    Bit,
}

/// A value of a column.
#[derive(Debug, Drop)]
pub enum Value {
    /// A signed whole number of 64 bits.
    Int(i64),
    /// A text: UTF-8 of at most 255 bytes.
    Text(Text),
    /// `true` or `false`.
    Flag(bool),
    /// At most 255 bytes.
    Bytes(Binary),
}

/// A value whose bytes are borrowed.
#[derive(Clone, Copy, Debug, Drop)]
pub enum ValueRef<'a> {
    /// A signed whole number of 64 bits.
    Int(i64),
    /// A text: UTF-8 of at most 255 bytes.
    Text(&'a [u8]),
    /// `true` or `false`.
    Flag(bool),
    /// At most 255 bytes.
    Bytes(&'a [u8]),
}

/// The content of a value, in the form of its kind. Its bytes are borrowed.
#[derive(Clone, Copy, Debug, Drop)]
pub enum Content<'a> {
    /// A number of 64 bits.
    Number(i64),
    /// At most 255 bytes.
    Bytes(&'a [u8]),
    /// A bit.
    Bit(bool),
}

impl Kind {
    /// The kind that a word of the script language names.
    pub fn from_word(word: &[u8]) -> Option<Self>
        ensures { result ≡ kind_of_word word.now }
    {
        match word {
            b"int" => Some(Kind::Int),
            b"text" => Some(Kind::Text),
            b"flag" => Some(Kind::Flag),
            b"bytes" => Some(Kind::Bytes),
            _ => None,
        }
    }

    /// The form of the values of this kind.
    #[inline(always)]
    pub fn form(self) -> Form
        ensures { result ≡ form_of self }
    {
        match self {
            Kind::Int => Form::Number,
            Kind::Text => Form::Bytes,
            Kind::Flag => Form::Bit,
            Kind::Bytes => Form::Bytes,
        }
    }

    /// The number that a row stores for this kind.
    #[inline(always)]
    pub fn tag(self) -> u8
        ensures { result ≡ tag_of self }
    {
        match self {
            Kind::Int => 0,
            Kind::Text => 1,
            Kind::Flag => 2,
            Kind::Bytes => 4,
        }
    }

    /// The kind that has this number.
    #[inline(always)]
    pub fn from_tag(tag: u8) -> Self
        ensures { result ≡ kind_of_tag tag }
    {
        match tag {
            0 => Kind::Int,
            1 => Kind::Text,
            4 => Kind::Bytes,
            _ => Kind::Flag,
        }
    }

    // Whether bytes are a value of this kind.
    fn takes_bytes(self, bytes: &[u8]) -> bool
        ensures { result ≡ takes self bytes.now }
    {
        match self {
            Kind::Text => is_text(bytes),
            Kind::Bytes => is_binary(bytes),
            Kind::Int | Kind::Flag => false,
        }
    }

    /// Whether this kind takes a content of its form. Numbers and bits are always taken, and bytes are checked.
    pub fn takes(self, content: Content<'_>) -> bool
        ensures { result ≡ takes_content self (content_of_ref content.entry) }
    {
        match content {
            Content::Bytes(bytes) => self.takes_bytes(bytes),
            Content::Number(_) | Content::Bit(_) => true,
        }
    }

    /// The value of a column that was not set.
    #[tactic(auto, using(crate::proofs::offered::Texts::no_bytes))]
    pub fn default_value<'a>(self) -> ValueRef<'a>
        ensures value { value_of_ref result ≡ default_of self }
        ensures bytes { BytesFit (value_of_ref result) }
    {
        match self {
            Kind::Int => ValueRef::Int(0),
            Kind::Text => ValueRef::Text(&[]),
            Kind::Flag => ValueRef::Flag(false),
            Kind::Bytes => ValueRef::Bytes(&[]),
        }
    }

    /// Whether a field encodes bytes other than its own, so that reading it needs an array to write them into.
    #[inline(always)]
    pub fn needs_room(self) -> bool
        ensures { result ≡ needs_room self }
    {
        matches!(self, Kind::Bytes)
    }

    /// The value that a field encodes in a column of this kind, which needs no array. Its bytes are borrowed from the field.
    pub fn read_lent(self, field: &[u8]) -> Option<ValueRef<'_>>
        requires { needs_room self ≡ false }
        ensures value { option_map value_of_ref result ≡ value_of self field.now }
        ensures bytes { IfSome result (λ value. BytesFit (value_of_ref value)) }
    {
        match self {
            Kind::Int => Some(ValueRef::Int(read_int(field)?)),
            Kind::Text => Some(ValueRef::Text(read_text(field)?)),
            Kind::Flag => Some(ValueRef::Flag(read_flag(field)?)),
            Kind::Bytes => unreachable!(),
        }
    }

    /// The value that a field encodes in a column of this kind. Its bytes are borrowed from the field, or from `room` if they are not
    /// the field's own.
    pub fn read<'a: 'b, 'b>(
        self,
        field: &'a [u8],
        room: &'b mut [u8; MOST_VALUE_BYTES],
    ) -> Option<ValueRef<'b>>
        ensures value { option_map value_of_ref result ≡ value_of self field.now }
        ensures bytes { IfSome result (λ value. BytesFit (value_of_ref value)) }
    {
        match self {
            Kind::Bytes => Some(ValueRef::Bytes(read_binary(field, room)?)),
            other => other.read_lent(field),
        }
    }

    /// The value that the first field of a text encodes in a column of this kind, and where the field ends, if it is plain. Its bytes are
    /// borrowed from the text, so there is no value for a kind whose fields encode other bytes than their own.
    #[inline(always)]
    pub fn read_plain<'a>(self, text: &'a [u8]) -> Option<(ValueRef<'a>, usize)>
        ensures value { IfSome result (λ found. value_of self (take found.1 text.now) ≡ Some (value_of_ref found.0)) }
        ensures bytes { IfSome result (λ found. BytesFit (value_of_ref found.0)) }
        ensures ends { IfSome result (λ found. EndsPlain text.now found.1) }
    {
        match self {
            Kind::Int => {
                let (number, end) = plain_int(text)?;
                Some((ValueRef::Int(number), end))
            }
            Kind::Text => {
                let end = plain_text_end(text)?;
                Some((ValueRef::Text(front(text, end)), end))
            }
            Kind::Flag => {
                let end = plain_end(text)?;
                Some((ValueRef::Flag(read_flag(front(text, end))?), end))
            }
            Kind::Bytes => None,
        }
    }
}

impl Value {
    /// The value, with its bytes borrowed.
    pub fn as_ref(&self) -> ValueRef<'_>
        ensures value { value_of_ref result ≡ self.now }
        ensures bytes { BytesFit self.now }
        ensures in_range { IsInRange self.now }
    {
        match self {
            Value::Int(number) => ValueRef::Int(*number),
            Value::Text(text) => ValueRef::Text(text.as_bytes()),
            Value::Flag(flag) => ValueRef::Flag(*flag),
            Value::Bytes(bytes) => ValueRef::Bytes(bytes.as_bytes()),
        }
    }
}

impl TryClone for Value {
    fn try_clone(&self, alloc: Global) -> Result<Self, AllocError> {
        match self {
            Value::Int(number) => Ok(Value::Int(*number)),
            Value::Text(text) => Ok(Value::Text(text.copy(alloc)?)),
            Value::Flag(flag) => Ok(Value::Flag(*flag)),
            Value::Bytes(bytes) => Ok(Value::Bytes(bytes.copy(alloc)?)),
        }
    }
}

impl<'a> ValueRef<'a> {
    /// The value of a kind with this content, or the kind's default if the kind has another form.
    #[inline(always)]
    pub fn with(kind: Kind, content: Content<'a>) -> Self
        ensures { value_of_ref result ≡ value_with kind (content_of_ref content.entry) }
    {
        match (kind, content) {
            (Kind::Int, Content::Number(number)) => ValueRef::Int(number),
            (Kind::Text, Content::Bytes(bytes)) => ValueRef::Text(bytes),
            (Kind::Flag, Content::Bit(flag)) => ValueRef::Flag(flag),
            (Kind::Bytes, Content::Bytes(bytes)) => ValueRef::Bytes(bytes),
            (other, _) => other.default_value(),
        }
    }

    /// The kind of the value.
    #[inline(always)]
    pub fn kind(self) -> Kind
        ensures { result ≡ kind_of (value_of_ref self.entry) }
    {
        match self {
            ValueRef::Int(_) => Kind::Int,
            ValueRef::Text(_) => Kind::Text,
            ValueRef::Flag(_) => Kind::Flag,
            ValueRef::Bytes(_) => Kind::Bytes,
        }
    }

    /// The content of the value.
    #[inline(always)]
    pub fn content(self) -> Content<'a>
        ensures { content_of_ref result ≡ content_of (value_of_ref self.entry) }
    {
        match self {
            ValueRef::Int(number) => Content::Number(number),
            ValueRef::Text(bytes) => Content::Bytes(bytes),
            ValueRef::Flag(flag) => Content::Bit(flag),
            ValueRef::Bytes(bytes) => Content::Bytes(bytes),
        }
    }

    /// A copy of the value.
    pub fn to_value(self, alloc: Global) -> Result<Value, AllocError>
        requires { BytesFit (value_of_ref self) }
        ensures { IfOk result (λ value. value ≡ value_of_ref self.entry) }
    {
        match self {
            ValueRef::Int(number) => Ok(Value::Int(number)),
            ValueRef::Text(text) => Ok(Value::Text(Text::from_bytes(alloc, text)?)),
            ValueRef::Flag(flag) => Ok(Value::Flag(flag)),
            ValueRef::Bytes(bytes) => Ok(Value::Bytes(Binary::from_bytes(alloc, bytes)?)),
        }
    }

    /// Adds the text of the value as a field of a record. The caller has reserved room for it.
    #[inline(always)]
    pub fn write(self, out: &mut Vec<u8>)
        requires room { HasRoom out.old (room_of (value_of_ref self)) }
        ensures text { out.new.items ≡ out.old.items ++ field_text default_writer (text_of (value_of_ref self.entry)) }
        ensures room { TakesRoom out.old out.new (room_of (value_of_ref self.entry)) }
    {
        match self {
            ValueRef::Int(number) => write_int(out, number),
            ValueRef::Text(text) => write_text(out, text),
            ValueRef::Flag(flag) => write_flag(out, flag),
            ValueRef::Bytes(bytes) => write_binary(out, bytes),
        }
    }
    /// Puts the text of the value at a place as a field of a record, and returns the place after it.
    #[inline(always)]
    pub fn put(self, room: &mut [u8; SHORT_TEXT], at: usize) -> usize
        requires { at + room_of (value_of_ref self) ≤ SHORT_TEXT }
        ensures text { take result room.new ≡ take at room.old ++ field_text default_writer (text_of (value_of_ref self.entry)) }
        ensures room { result ≤ at + room_of (value_of_ref self.entry) }
    {
        match self {
            ValueRef::Int(number) => put_int(room, at, number),
            ValueRef::Text(text) => put_text(room, at, text),
            ValueRef::Flag(flag) => put_flag(room, at, flag),
            ValueRef::Bytes(bytes) => put_binary(room, at, bytes),
        }
    }
}
