//! The fields of one record, borrowed or owned.
ghost use Rattle.bt_record.specs.inside.Pieces.{LieWithin, part, pieces};
ghost use Rattle.std.specs.Prelude.{◌≡◌, ◌==◌, ◌++◌, ◌∷◌, ◌<◌, ◌≤◌, [], Some, length, slice_get, OnOk, OnErr};

use std::alloc::{AllocError, Global};
use std::marker::Model;

/// The place of a field in bytes: from its start up to its end.
#[derive(Debug, Clone, Copy)]
pub(crate) struct FieldSpan {
    pub start: usize,
    pub end: usize,
}

// The bytes in a span.
fn part_in(bytes: &[u8], span: FieldSpan) -> &[u8]
    requires order { span.start ≤ span.end }
    requires within { span.end ≤ length bytes.now }
    ensures { result.now ≡ part bytes.now span }
{
    &bytes[span.start..span.end]
}

// The part of bytes in one of the spans.
#[tactic(auto, using(crate::proofs::Pieces::piece_at, crate::proofs::Pieces::in_bounds))]
fn piece<'a>(bytes: &'a [u8], spans: &[FieldSpan], place: usize) -> &'a [u8]
    requires place { place < length spans.now }
    requires spans { LieWithin (length bytes.now) spans.now }
    ensures { slice_get (pieces bytes.now spans.now) place ≡ Some result.now }
{
    part_in(bytes, spans[place])
}

/// The fields of one record, in order, borrowed. A contract sees the bytes of each.
#[derive(Debug, Drop)]
pub struct FieldsRef<'a> {
    bytes: &'a [u8],
    spans: &'a [FieldSpan],
}

impl<'a> Model for FieldsRef<'a> {
    ghost use Rattle.std.specs.Prelude.{List, ℕ, length};
    ghost use Rattle.bt_record.specs.inside.Pieces.{LieWithin, pieces};

    ghost Value = { List (List ℕ) };

    ghost view = { λ a. pieces a.bytes.now a.spans.now };

    ghost invariant = { λ a. LieWithin (length a.bytes.now) a.spans.now };
}

impl<'a> FieldsRef<'a> {
    /// The parts of bytes in these spans.
    pub(crate) fn new(bytes: &'a [u8], spans: &'a [FieldSpan]) -> Self
        requires { LieWithin (length bytes.now) spans.now }
        ensures { result ≡ pieces bytes.now spans.now }
    {
        FieldsRef { bytes, spans }
    }

    /// The number of fields.
    #[tactic(auto, using(crate::proofs::Pieces::length_pieces))]
    pub fn len(&self) -> usize
        ensures { result ≡ length self.now }
    {
        self.spans.len()
    }

    /// The field at a place, counted from 0.
    #[tactic(auto, using(crate::proofs::Pieces::length_pieces))]
    pub fn get(&self, place: usize) -> &'a [u8]
        requires { place < length self.now }
        ensures { slice_get self.now place ≡ Some result.now }
    {
        piece(self.bytes, self.spans, place)
    }
}

/// The fields of one record, in order. A contract sees the bytes of each.
///
/// The bytes of all fields are in one list, so a record takes two allocations for any number of fields.
#[derive(Debug, Drop)]
pub struct Fields {
    bytes: Vec<u8>,
    spans: Vec<FieldSpan>,
}

impl Model for Fields {
    ghost use Rattle.std.specs.Prelude.{List, ℕ, length};
    ghost use Rattle.bt_record.specs.inside.Pieces.{LieWithin, pieces};

    ghost Value = { List (List ℕ) };

    ghost view = { λ a. pieces a.bytes.items a.spans.items };

    ghost invariant = { λ a. LieWithin (length a.bytes.items) a.spans.items };
}

impl Fields {
    /// No fields.
    pub fn new(alloc: Global) -> Self
        ensures { result ≡ [] }
    {
        Fields {
            bytes: Vec::new(alloc),
            spans: Vec::new(alloc),
        }
    }

    /// The parts of bytes in these spans.
    pub(crate) fn from_parts(bytes: Vec<u8>, spans: Vec<FieldSpan>) -> Self
        requires { LieWithin (length bytes.items) spans.items }
        ensures { result ≡ pieces bytes.items spans.items }
    {
        Fields { bytes, spans }
    }

    /// Removes all fields, and keeps the memory for others.
    pub fn clear(&mut self)
        ensures { self.new ≡ [] }
    {
        self.bytes.clear();
        self.spans.clear();
    }

    /// The fields, borrowed.
    pub fn as_ref(&self) -> FieldsRef<'_>
        ensures { result ≡ self.now }
    {
        FieldsRef::new(self.bytes.as_slice(), self.spans.as_slice())
    }

    /// The number of fields.
    pub fn len(&self) -> usize
        ensures { result ≡ length self.now }
    {
        self.as_ref().len()
    }

    /// Whether there are no fields.
    pub fn is_empty(&self) -> bool
        ensures { result ≡ (length self.now == 0) }
    {
        self.len() == 0
    }

    /// Adds a copy of the field at the end. An `Err` changes nothing.
    #[tactic(auto, using(crate::proofs::Pieces::pushed, crate::proofs::Pieces::pushed_within))]
    pub fn push(&mut self, field: &[u8]) -> Result<(), AllocError>
        ensures ok { OnOk result (self.new ≡ self.old ++ field.now ∷ []) }
        ensures err { OnErr result (self.new ≡ self.old) }
    {
        self.spans.reserve(1)?;
        let start = self.bytes.len();
        self.bytes.extend_from_slice(field)?;
        let end = self.bytes.len();
        self.spans.push_reserved(FieldSpan { start, end });
        Ok(())
    }

    /// The field at a place, counted from 0.
    pub fn get(&self, place: usize) -> &[u8]
        requires { place < length self.now }
        ensures { slice_get self.now place ≡ Some result.now }
    {
        self.as_ref().get(place)
    }
}
