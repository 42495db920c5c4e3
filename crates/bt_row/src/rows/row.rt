//! Rows.
ghost use Rattle.std.specs.Prelude.{◌≡◌, ◌≤◌, ◌<◌, ◌+◌, ◌-◌, ◌^◌, ◌++◌, ◌∷◌, [], IfOk, OnOk, OnErr, Some, drop, length, min, slice_get, take, true};
ghost use Rattle.bt_row.specs.Arithmetic.{Makes, Sets};
ghost use Rattle.bt_value.specs.Kinds.{Number, Bytes, Bit};
ghost use Rattle.bt_row.specs.Ops.{after_action};
ghost use Rattle.bt_value.specs.Values.{AreInRange, BytesFit, IsInRange};
ghost use Rattle.bt_row.specs.inside.Packing.{IsPacked, int_bytes, packed_values, packed_content, packed_value, unpacked};
ghost use Rattle.bt_value.specs.Views.{value_of_ref};

mod front;

use crate::operations::op::Arithmetic;
use crate::rows::growing_bytes::GrowingBytes;
use crate::rows::packed_values::{count, first_at, offset, width_at};
use crate::rows::values::Values;
use bt_value::{Content, MOST_VALUE_BYTES, Value, ValueRef, front, tail};
use std::alloc::{AllocError, Global};
use std::marker::Model;

/// The values of a row, column by column. A contract sees the list of them.
///
/// The values are stored one after another in one string of bytes. Each begins with the tag of its kind. A number follows in eight bytes,
/// and bytes follow after their length; a bit is added to the tag. Up to 30 bytes are kept in the row itself and take no memory of their
/// own. A `Row` has the size of four words.
#[derive(Debug, Drop)]
pub struct Row {
    bytes: GrowingBytes,
}

const _: () = prove!(size_of::<Row>() == 32);

const _: () = prove!(size_of::<Option<Row>>() == 40);

impl Model for Row {
    ghost use Rattle.std.specs.Prelude.{List};
    ghost use Rattle.bt_value.specs.declared.value.Value.{Value as value};
    ghost use Rattle.bt_row.specs.inside.Packing.{IsPacked, unpacked};

    ghost Value = { List value };

    ghost view = { λ a. unpacked a.bytes };

    ghost invariant = { λ a. IsPacked a.bytes };
}

// The eight bytes of an int.
#[tactic(auto, unfolding(crate::specs::inside::Packing::int_bytes))]
fn bytes_of_int(number: i64) -> [u8; 8]
    ensures { result ≡ int_bytes number }
{
    number.cast_unsigned().to_le_bytes()
}

// Adds a tag and the bytes of a number. An `Err` changes nothing.
#[inline(always)]
fn add_number(
    bytes: &mut GrowingBytes,
    alloc: Global,
    tag: u8,
    number: i64,
) -> Result<(), AllocError>
    ensures ok { OnOk result (bytes.new ≡ bytes.old ++ packed_content tag (Number number)) }
    ensures err { OnErr result (bytes.new ≡ bytes.old) }
{
    bytes.push(alloc, &[tag], &bytes_of_int(number))
}

// Adds a tag, the length of bytes, and the bytes. An `Err` changes nothing.
#[inline(always)]
fn add_bytes(
    bytes: &mut GrowingBytes,
    alloc: Global,
    tag: u8,
    more: &[u8],
) -> Result<(), AllocError>
    requires { length more.now ≤ MOST_VALUE_BYTES }
    ensures ok { OnOk result (bytes.new ≡ bytes.old ++ packed_content tag (Bytes more.now)) }
    ensures err { OnErr result (bytes.new ≡ bytes.old) }
{
    bytes.push(alloc, &[tag, more.len() as u8], more)
}

// Adds the byte of a bit. An `Err` changes nothing.
#[inline(always)]
fn add_bit(bytes: &mut GrowingBytes, alloc: Global, tag: u8, bit: bool) -> Result<(), AllocError>
    requires { tag < 255 }
    ensures ok { OnOk result (bytes.new ≡ bytes.old ++ packed_content tag (Bit bit)) }
    ensures err { OnErr result (bytes.new ≡ bytes.old) }
{
    let byte = if bit { tag + 1 } else { tag };
    bytes.push(alloc, &[byte], &[])
}

// Adds the bytes of a value. An `Err` changes nothing.
#[inline(always)]
#[tactic(auto, using(bt_value::proofs::offered::Kinds::bytes_length, bt_value::proofs::offered::Kinds::low_tag))]
fn add_value(bytes: &mut GrowingBytes, alloc: Global, value: ValueRef<'_>) -> Result<(), AllocError>
    requires { BytesFit (value_of_ref value) }
    ensures ok { OnOk result (bytes.new ≡ bytes.old ++ packed_value (value_of_ref value.entry)) }
    ensures err { OnErr result (bytes.new ≡ bytes.old) }
    ensures in_range { IsInRange (value_of_ref value.entry) }
{
    let tag = value.kind().tag();
    match value.content() {
        Content::Number(number) => add_number(bytes, alloc, tag, number),
        Content::Bytes(more) => add_bytes(bytes, alloc, tag, more),
        Content::Bit(bit) => add_bit(bytes, alloc, tag, bit),
    }
}

/// The number of bytes that a value takes.
#[tactic(auto, using(crate::proofs::Packing::length_int_bytes))]
pub(crate) fn width_of_value(value: ValueRef<'_>) -> usize
    ensures { result ≡ length (packed_value (value_of_ref value.entry)) }
{
    match value.content() {
        Content::Number(_) => 9,
        Content::Bytes(bytes) => bytes.len() + 2,
        Content::Bit(_) => 1,
    }
}

// The bytes, with those of a value instead of the part between two places.
fn replacement(
    alloc: Global,
    bytes: &[u8],
    at: usize,
    end: usize,
    value: ValueRef<'_>,
) -> Result<GrowingBytes, AllocError>
    requires order { at ≤ end }
    requires within { end ≤ length bytes.now }
    requires bytes { BytesFit (value_of_ref value) }
    ensures bytes { IfOk result (λ new. new ≡ take at bytes.now ++ (packed_value (value_of_ref value.entry) ++ drop end bytes.now)) }
    ensures in_range { IfOk result (λ _. IsInRange (value_of_ref value.entry)) }
{
    let rest = tail(bytes, end);
    let room = width_of_value(value)
        .saturating_add(at)
        .saturating_add(rest.len());
    let mut new = GrowingBytes::with_room(alloc, room)?;
    new.push(alloc, front(bytes, at), &[])?;
    add_value(&mut new, alloc, value)?;
    new.push(alloc, rest, &[])?;
    Ok(new)
}

impl Row {
    /// The row without values.
    #[tactic(auto, using(crate::proofs::Walks::unpacked_none, crate::proofs::Walks::none_packed))]
    pub fn new() -> Self
        ensures { result ≡ [] }
    {
        Row {
            bytes: GrowingBytes::new(),
        }
    }

    /// The row without values, with room for this many bytes.
    #[tactic(auto, using(crate::proofs::Walks::unpacked_none, crate::proofs::Walks::none_packed))]
    pub fn with_room(alloc: Global, room: usize) -> Result<Self, AllocError>
        ensures { IfOk result (λ row. row ≡ []) }
    {
        Ok(Row {
            bytes: GrowingBytes::with_room(alloc, room)?,
        })
    }

    /// The row of these values.
    pub fn from_values(alloc: Global, values: &[Value]) -> Result<Self, AllocError>
        ensures { IfOk result (λ row. row ≡ values.now) }
    {
        let mut row = Row::with_room(alloc, room_for_values(values))?;
        for value in values {
            row.push(alloc, value.as_ref())?;
        }
        Ok(row)
    }

    /// Whether one more value at the end fits in the row itself. This only chooses how values are read, and no contract depends on it.
    #[inline(always)]
    pub fn has_room(&self, value: ValueRef<'_>) -> bool {
        self.bytes.has_room(width_of_value(value))
    }

    /// Adds a value at the end. An `Err` changes nothing.
    #[inline(always)]
    pub fn push(&mut self, alloc: Global, value: ValueRef<'_>) -> Result<(), AllocError>
        requires { BytesFit (value_of_ref value) }
        ensures ok { OnOk result (self.new ≡ self.old ++ value_of_ref value.entry ∷ []) }
        ensures err { OnErr result (self.new ≡ self.old) }
    {
        add_value(&mut self.bytes, alloc, value)?;
        Ok(())
    }

    /// Adds the first values of another row at the end, or all if there are fewer. After an `Err` some of them may have been added.
    pub fn push_first(&mut self, alloc: Global, row: &Row, count: usize) -> Result<(), AllocError>
        ensures { OnOk result (self.new ≡ self.old ++ take count row.now) }
    {
        let mut rest = row.first_values(count);
        while let Some(value) = rest.next() {
            self.push(alloc, value)?;
        }
        Ok(())
    }

    /// The same row, with room for this many more bytes.
    pub(crate) fn with_more_room(self, alloc: Global, room: usize) -> Result<Self, AllocError>
        ensures { IfOk result (λ row. row ≡ self) }
    {
        let bytes = self.bytes.as_slice();
        let mut wider = GrowingBytes::with_room(alloc, bytes.len().saturating_add(room))?;
        wider.push(alloc, bytes, &[])?;
        Ok(Row { bytes: wider })
    }

    /// The bytes of the values.
    pub(crate) fn as_bytes(&self) -> &[u8]
        ensures packed { IsPacked result.now }
        ensures values { unpacked result.now ≡ self.now }
    {
        self.bytes.as_slice()
    }

    // What is true of any row: its values are within the ranges of their kinds. It does nothing: a call whose contract states this calls it.
    pub(crate) fn soundness(&self)
        ensures { AreInRange self.now }
    {
        let _bytes = self.as_bytes();
    }

    /// The number of values in the row.
    pub fn len(&self) -> usize
        ensures { result ≡ length self.now }
    {
        count(self.as_bytes())
    }

    /// The value at a place, counted from 0.
    pub fn get(&self, place: usize) -> ValueRef<'_>
        requires { place < length self.now }
        ensures value { slice_get self.now place ≡ Some (value_of_ref result) }
        ensures in_range { IsInRange (value_of_ref result) }
    {
        let bytes = self.as_bytes();
        let at = offset(bytes, place);
        first_at(bytes, at)
    }

    /// An iterator over the values.
    pub fn values(&self) -> Values<'_>
        ensures { result ≡ self.now }
    {
        Values::of_bytes(self.as_bytes())
    }

    /// An iterator over the first values, or over all if there are fewer.
    #[tactic(auto, using(crate::proofs::Walks::are_first, crate::proofs::Walks::are_first_packed))]
    pub fn first_values(&self, count: usize) -> Values<'_>
        ensures { result ≡ take count self.now }
    {
        let bytes = self.as_bytes();
        let end = offset(bytes, count);
        Values::of_bytes(front(bytes, end))
    }

    /// Sets the value at a place, if the row has it. An `Err` changes nothing.
    pub(crate) fn set(
        &mut self,
        alloc: Global,
        place: usize,
        value: ValueRef<'_>,
    ) -> Result<(), AllocError>
        requires { BytesFit (value_of_ref value) }
        ensures ok { OnOk result (self.new ≡ after_action self.old (Sets place (value_of_ref value.entry))) }
        ensures err { OnErr result (self.new ≡ self.old) }
    {
        let bytes = self.bytes.as_slice();
        let at = offset(bytes, place);
        if at == bytes.len() {
            return Ok(());
        }
        let end = at + width_at(bytes, at);
        let new = replacement(alloc, bytes, at, end, value)?;
        self.bytes = new;
        Ok(())
    }

    /// Combines the int at a place with a number, and writes the result over it. Any other value is unchanged, and so is a row without that place.
    pub(crate) fn make(&mut self, arithmetic: Arithmetic, place: usize, number: i64)
        ensures { self.new ≡ after_action self.old (Makes arithmetic place number) }
    {
        self.bytes.make_at(arithmetic, place, number);
    }
}

/// The number of bytes that the values take, or the largest `usize` if that is more.
#[tactic(auto, using(crate::proofs::Packing::length_packed))]
pub(crate) fn room_for_values(values: &[Value]) -> usize
    ensures { result ≡ min (length (packed_values values.now)) (2 ^ 64 - 1) }
{
    let mut room: usize = 0;
    for value in values {
        room = room.saturating_add(width_of_value(value.as_ref()));
    }
    room
}

/// A copy of the row.
pub fn copy_row(alloc: Global, row: &Row) -> Result<Row, AllocError>
    ensures { IfOk result (λ copy. copy ≡ row.now) }
{
    Ok(Row {
        bytes: row.bytes.copy(alloc)?,
    })
}
