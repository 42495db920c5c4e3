//! Iterating over values, in a list of them or in a row.
ghost use Rattle.std.specs.Prelude.{◌≡◌, ◌∷◌, ◌==◌, [], Some, IfSome, IfNone, length};
ghost use Rattle.bt_value.specs.Values.{BytesFit, IsInRange};
ghost use Rattle.bt_row.specs.inside.Packing.{IsPacked, unpacked};
ghost use Rattle.bt_row.specs.inside.Sources.{IsSource, values_left};
ghost use Rattle.bt_value.specs.Values as spec;
ghost use Rattle.bt_value.specs.Views.{content_of_ref, value_of_ref};

use crate::rows::packed_values::{first, width};
use bt_value::{Content, Value, ValueRef, tail};
use std::cmp::Ordering;
use std::marker::Model;

// The source of the values.
#[derive(Clone, Copy, Drop)]
enum Source<'a> {
    // a list of values
    Listed(&'a [Value]),
    // the bytes of a row
    Packed(&'a [u8]),
}

/// The remaining values. A contract sees the list of them.
#[derive(Drop)]
pub struct Values<'a> {
    source: Source<'a>,
}

impl<'a> Model for Values<'a> {
    ghost use Rattle.std.specs.Prelude.{List};
    ghost use Rattle.bt_value.specs.declared.value.Value.{Value as value};
    ghost use Rattle.bt_row.specs.inside.Sources.{IsSource, values_left};

    ghost Value = { List value };

    ghost view = { λ a. values_left a.source };

    ghost invariant = { λ a. IsSource a.source };
}

// The first value of bytes, and the bytes after it.
#[inline(always)]
fn next_packed(bytes: &[u8]) -> Option<(ValueRef<'_>, &[u8])>
    requires { IsPacked bytes.now }
    ensures some { IfSome result (λ read. unpacked bytes.now ≡ value_of_ref read.0 ∷ unpacked read.1.now) }
    ensures in_range { IfSome result (λ read. IsInRange (value_of_ref read.0)) }
    ensures packed { IfSome result (λ read. IsPacked read.1.now) }
    ensures none { IfNone result (unpacked bytes.now ≡ []) }
{
    if bytes.is_empty() {
        return None;
    }
    Some((first(bytes), tail(bytes, width(bytes))))
}

// Whether bytes have no value.
fn holds_none(bytes: &[u8]) -> bool
    requires { IsPacked bytes.now }
    ensures { result ≡ (length (unpacked bytes.now) == 0) }
{
    bytes.is_empty()
}

// Whether two contents are the same.
fn same_content(left: Content<'_>, right: Content<'_>) -> bool
    ensures { result ≡ spec.same_content (content_of_ref left.entry) (content_of_ref right.entry) }
{
    match (left, right) {
        (Content::Number(a), Content::Number(b)) => a == b,
        (Content::Bytes(a), Content::Bytes(b)) => a == b,
        (Content::Bit(a), Content::Bit(b)) => a == b,
        _ => false,
    }
}

// Whether two values have the same kind and the same content.
#[tactic(auto, using(bt_value::proofs::offered::Kinds::tags_agree))]
fn same_value(left: ValueRef<'_>, right: ValueRef<'_>) -> bool
    ensures { result ≡ spec.same_value (value_of_ref left.entry) (value_of_ref right.entry) }
{
    left.kind().tag() == right.kind().tag() && same_content(left.content(), right.content())
}

// The order of the contents of two values of a kind.
fn compare_contents(left: Content<'_>, right: Content<'_>) -> Ordering
    ensures { result ≡ spec.content_cmp (content_of_ref left.entry) (content_of_ref right.entry) }
{
    match (left, right) {
        (Content::Number(a), Content::Number(b)) => a.cmp(&b),
        (Content::Bytes(a), Content::Bytes(b)) => a.cmp(b),
        (Content::Bit(a), Content::Bit(b)) => a.cmp(&b),
        _ => Ordering::Equal,
    }
}

/// The order of two values of a kind: ints by size, texts and bytes byte by byte, `false` before `true`.
pub fn compare_values(left: ValueRef<'_>, right: ValueRef<'_>) -> Ordering
    ensures { result ≡ spec.value_cmp (value_of_ref left.entry) (value_of_ref right.entry) }
{
    compare_contents(left.content(), right.content())
}

/// Whether two lists of values are the same, value by value.
pub fn same_values(left: Values<'_>, right: Values<'_>) -> bool
    ensures { result ≡ spec.same_values left.entry right.entry }
{
    let mut lefts = left;
    let mut rights = right;
    while let Some(a) = lefts.next() {
        let Some(b) = rights.next() else {
            return false;
        };
        if !same_value(a, b) {
            return false;
        }
    }
    rights.is_empty()
}

impl<'a> Values<'a> {
    /// These values.
    pub fn of(values: &'a [Value]) -> Self
        ensures { result ≡ values.now }
    {
        Values {
            source: Source::Listed(values),
        }
    }

    /// The values of these bytes.
    pub(crate) fn of_bytes(bytes: &'a [u8]) -> Self
        requires { IsPacked bytes.now }
        ensures { result ≡ unpacked bytes.now }
    {
        Values {
            source: Source::Packed(bytes),
        }
    }

    /// Another iterator over the same values.
    pub fn copy(&self) -> Self
        ensures { result ≡ self.now }
    {
        Values {
            source: self.source,
        }
    }

    /// Whether no value is left.
    pub fn is_empty(&self) -> bool
        ensures { result ≡ (length self.now == 0) }
    {
        match self.source {
            Source::Listed(values) => values.is_empty(),
            Source::Packed(bytes) => holds_none(bytes),
        }
    }

    /// The next value, if there is one.
    #[inline(always)]
    pub fn next(&mut self) -> Option<ValueRef<'a>>
        ensures some { IfSome result (λ value. self.old ≡ value_of_ref value ∷ self.new) }
        ensures bytes { IfSome result (λ value. BytesFit (value_of_ref value)) }
        ensures none { IfNone result ((self.old ≡ []) × (self.new ≡ [])) }
    {
        match self.source {
            Source::Listed(values) => {
                let [value, rest @ ..] = values else {
                    return None;
                };
                self.source = Source::Listed(rest);
                Some(value.as_ref())
            }
            Source::Packed(bytes) => {
                let (value, rest) = next_packed(bytes)?;
                self.source = Source::Packed(rest);
                Some(value)
            }
        }
    }
}
