//! Reading values from a string of bytes.
ghost use Rattle.std.specs.Prelude.{◌≡◌, ◌≤◌, ◌<◌, drop, length};
ghost use Rattle.bt_row.specs.inside.Packing.{IsAt, IsPacked, content_at as content_of_form, first_of, int_from, unpacked, width_in as width_of_form, width_of};
ghost use Rattle.bt_value.specs.Views.{content_of_ref, value_of_ref};

use bt_value::{Content, Form, Kind, ValueRef, tail};

/// The int that the eight bytes after a tag encode.
#[tactic(auto, unfolding(crate::specs::inside::Packing::int_from))]
pub(crate) fn int_at(bytes: &[u8]) -> i64
    requires { 9 ≤ length bytes.now }
    ensures { result ≡ int_from (drop 1 bytes.now) }
{
    u64::from_le_bytes([
        bytes[1], bytes[2], bytes[3], bytes[4], bytes[5], bytes[6], bytes[7], bytes[8],
    ])
    .cast_signed()
}

// The number of bytes that a value of a form takes, given the bytes after its tag.
#[inline(always)]
fn width_in(form: Form, following: &[u8]) -> usize
    ensures { result ≡ width_of_form form following.now }
{
    match form {
        Form::Number => 9,
        Form::Bytes => match following {
            [len, ..] => *len as usize + 2,
            [] => 2,
        },
        Form::Bit => 1,
    }
}

/// The number of bytes that the first value takes.
#[inline(always)]
pub(crate) fn width(bytes: &[u8]) -> usize
    ensures { result ≡ width_of bytes.now }
{
    match bytes {
        [tag, following @ ..] => width_in(Kind::from_tag(*tag).form(), following),
        [] => 0,
    }
}

// The content of a value of this form. The bytes begin with the tag of the value, and `is_set` is the content of a bit.
#[inline(always)]
fn content_at<'a>(form: Form, is_set: bool, bytes: &'a [u8]) -> Content<'a>
    requires some { 0 < length bytes.now }
    requires within { width_of_form form (drop 1 bytes.now) ≤ length bytes.now }
    ensures { content_of_ref result ≡ content_of_form form is_set (drop 1 bytes.now) }
{
    match form {
        Form::Number => Content::Number(int_at(bytes)),
        Form::Bytes => Content::Bytes(&bytes[2..bytes[1] as usize + 2]),
        Form::Bit => Content::Bit(is_set),
    }
}

/// The first value.
#[inline(always)]
pub(crate) fn first<'a>(bytes: &'a [u8]) -> ValueRef<'a>
    requires some { 0 < length bytes.now }
    requires within { width_of bytes.now ≤ length bytes.now }
    ensures { value_of_ref result ≡ first_of bytes.now }
{
    let tag = bytes[0];
    let kind = Kind::from_tag(tag);
    ValueRef::with(kind, content_at(kind.form(), tag == kind.tag() + 1, bytes))
}

/// The number of bytes that the value here takes.
pub(crate) fn width_at(bytes: &[u8], at: usize) -> usize
    requires { at ≤ length bytes.now }
    ensures { result ≡ width_of (drop at bytes.now) }
{
    width(tail(bytes, at))
}

/// The value that begins here.
pub(crate) fn first_at<'a>(bytes: &'a [u8], at: usize) -> ValueRef<'a>
    requires some { at < length bytes.now }
    requires left { 0 < length (drop at bytes.now) }
    requires within { width_of (drop at bytes.now) ≤ length (drop at bytes.now) }
    ensures { value_of_ref result ≡ first_of (drop at bytes.now) }
{
    first(tail(bytes, at))
}

/// The start of the value at a place, or the end if there are fewer values.
pub(crate) fn offset(bytes: &[u8], place: usize) -> usize
    requires { IsPacked bytes.now }
    ensures { IsAt bytes.now place result }
{
    let mut at = 0;
    let mut passed = 0;
    while passed < place && at < bytes.len() {
        at += width_at(bytes, at);
        passed += 1;
    }
    at
}

/// The number of values.
#[tactic(auto, using(crate::proofs::Walks::walked_all, crate::proofs::Walks::walk_begins))]
pub(crate) fn count(bytes: &[u8]) -> usize
    requires { IsPacked bytes.now }
    ensures { result ≡ length (unpacked bytes.now) }
{
    let mut at = 0;
    let mut passed = 0;
    while at < bytes.len() {
        at += width_at(bytes, at);
        passed += 1;
    }
    passed
}
