//! Bytes that grow at their end. Short ones take no memory of their own.
ghost use Rattle.std.specs.Prelude.{◌≡◌, ◌≤◌, ◌+◌, ◌++◌, [], IfOk, OnOk, OnErr, length, nat_le, take, true};
ghost use Rattle.bt_row.specs.Arithmetic.{Makes};
ghost use Rattle.bt_row.specs.Ops.{after_action};
ghost use Rattle.bt_row.specs.inside.Packing.{IsPacked, unpacked};
ghost use Rattle.bt_row.specs.inside.GrowingBytes.{FitsInside, bytes_of};

use crate::operations::arithmetic::make_at;
use crate::operations::op::Arithmetic;
use bt_value::Bytes;
use std::alloc::{AllocError, Global};
use std::marker::Model;

// The most bytes that are kept in the value itself.
const MOST_INLINE: usize = 30;

#[derive(Debug, Drop)]
struct Inline {
    // how many bytes of the array are used
    len: u8,
    bytes: [u8; MOST_INLINE],
}

#[derive(Debug, Drop)]
enum GrowingStorage {
    Short(Inline),
    Long(Vec<u8>),
}

/// Bytes in order that can be appended to: those of a row, or of the code of a key. A contract sees the list of them.
///
/// Up to 30 bytes are kept in the value itself and take no memory of their own. More bytes take one list. A `GrowingBytes` has the size
/// of four words.
#[derive(Debug, Drop)]
pub struct GrowingBytes {
    storage: GrowingStorage,
}

impl Model for GrowingBytes {
    ghost use Rattle.std.specs.Prelude.{List, ℕ};
    ghost use Rattle.bt_row.specs.inside.GrowingBytes.{FitsInside, bytes_of};

    ghost Value = { List ℕ };

    ghost view = { λ b. bytes_of b.storage };

    ghost invariant = { λ b. FitsInside b.storage };
}

// Writes bytes at a place.
#[inline(always)]
fn write_at(bytes: &mut [u8; MOST_INLINE], at: usize, more: &[u8])
    requires { at + length more.now ≤ MOST_INLINE }
    ensures { take (at + length more.now) bytes.new ≡ take at bytes.old ++ more.now }
{
    bytes[at..at + more.len()].copy_from_slice(more);
}

// Whether there is room for both byte strings.
#[inline(always)]
fn has_room(short: &Inline, first: &[u8], second: &[u8]) -> bool
    requires { short.now.len ≤ MOST_INLINE }
    ensures { result ≡ nat_le (short.now.len + (length first.now + length second.now)) MOST_INLINE }
{
    let room = MOST_INLINE - short.len as usize;
    first.len() <= room && second.len() <= room - first.len()
}

// Writes both byte strings after the bytes that are there.
#[inline(always)]
fn write_after(short: &mut Inline, first: &[u8], second: &[u8])
    requires { short.old.len + (length first.now + length second.now) ≤ MOST_INLINE }
    ensures bytes { take short.new.len short.new.bytes ≡ take short.old.len short.old.bytes ++ (first.now ++ second.now) }
    ensures inside { short.new.len ≤ MOST_INLINE }
{
    let len = short.len as usize;
    write_at(&mut short.bytes, len, first);
    write_at(&mut short.bytes, len + first.len(), second);
    short.len = (len + first.len() + second.len()) as u8;
}

// All three byte strings, in a list of exactly their length.
fn list_of_three(
    alloc: Global,
    bytes: &[u8],
    first: &[u8],
    second: &[u8],
) -> Result<Vec<u8>, AllocError>
    ensures { IfOk result (λ list. list.items ≡ bytes.now ++ (first.now ++ second.now)) }
{
    let room = bytes.len().saturating_add(first.len());
    let mut list = Vec::with_capacity(alloc, room.saturating_add(second.len()))?;
    list.extend_from_slice(bytes)?;
    list.extend_from_slice(first)?;
    list.extend_from_slice(second)?;
    Ok(list)
}

// Adds both byte strings at the end. An `Err` changes nothing.
fn append(list: &mut Vec<u8>, first: &[u8], second: &[u8]) -> Result<(), AllocError>
    ensures ok { OnOk result (list.new.items ≡ list.old.items ++ (first.now ++ second.now)) }
    ensures err { OnErr result (list.new.items ≡ list.old.items) }
{
    list.reserve(first.len().saturating_add(second.len()))?;
    list.extend_from_slice(first)?;
    list.extend_from_slice(second)
}

impl GrowingBytes {
    /// No bytes.
    pub fn new() -> Self
        ensures { result ≡ [] }
    {
        GrowingBytes {
            storage: GrowingStorage::Short(Inline {
                len: 0,
                bytes: [0; MOST_INLINE],
            }),
        }
    }

    /// No bytes, with room for this many.
    pub(crate) fn with_room(alloc: Global, room: usize) -> Result<Self, AllocError>
        ensures { IfOk result (λ new. new ≡ []) }
    {
        if room <= MOST_INLINE {
            return Ok(GrowingBytes::new());
        }
        Ok(GrowingBytes {
            storage: GrowingStorage::Long(Vec::with_capacity(alloc, room)?),
        })
    }

    pub(crate) fn as_slice(&self) -> &[u8]
        ensures { result.now ≡ self.now }
    {
        match &self.storage {
            GrowingStorage::Short(short) => &short.bytes[..short.len as usize],
            GrowingStorage::Long(bytes) => bytes.as_slice(),
        }
    }

    /// A copy of the bytes.
    pub(crate) fn copy(&self, alloc: Global) -> Result<Self, AllocError>
        ensures { IfOk result (λ copy. copy ≡ self.now) }
    {
        match &self.storage {
            GrowingStorage::Short(short) => Ok(GrowingBytes {
                storage: GrowingStorage::Short(Inline {
                    len: short.len,
                    bytes: short.bytes,
                }),
            }),
            GrowingStorage::Long(bytes) => Ok(GrowingBytes {
                storage: GrowingStorage::Long(Vec::from_slice(alloc, bytes.as_slice())?),
            }),
        }
    }

    /// Whether this many more bytes fit in the value itself.
    #[inline(always)]
    pub(crate) fn has_room(&self, more: usize) -> bool {
        match &self.storage {
            GrowingStorage::Short(short) => more <= MOST_INLINE - short.len as usize,
            GrowingStorage::Long(_) => false,
        }
    }

    /// Adds both byte strings at the end. An `Err` changes nothing.
    ///
    /// Inlined, because most callers know the lengths of both at compile time.
    #[inline(always)]
    pub fn push(&mut self, alloc: Global, first: &[u8], second: &[u8]) -> Result<(), AllocError>
        ensures ok { OnOk result (self.new ≡ self.old ++ (first.now ++ second.now)) }
        ensures err { OnErr result (self.new ≡ self.old) }
    {
        match &mut self.storage {
            GrowingStorage::Short(short) => {
                if has_room(short, first, second) {
                    write_after(short, first, second);
                    return Ok(());
                }
                let len = short.len as usize;
                let list = list_of_three(alloc, &short.bytes[..len], first, second)?;
                self.storage = GrowingStorage::Long(list);
                Ok(())
            }
            GrowingStorage::Long(list) => append(list, first, second),
        }
    }

    /// The bytes, without spare capacity.
    pub fn into_bytes(self, alloc: Global) -> Result<Bytes, AllocError>
        ensures { IfOk result (λ bytes. bytes ≡ self) }
    {
        match self.storage {
            GrowingStorage::Short(short) => {
                Bytes::from_slice(alloc, &short.bytes[..short.len as usize])
            }
            GrowingStorage::Long(list) => {
                let mut list = list;
                list.shrink_to_fit();
                Bytes::from_vec(alloc, list)
            }
        }
    }

    /// The bytes encode values. Combines the int at a place with a number, and writes the result over it. Any other value is unchanged,
    /// and so are values without this place.
    pub(crate) fn make_at(&mut self, arithmetic: Arithmetic, place: usize, number: i64)
        requires { IsPacked self.old }
        ensures packed { IsPacked self.new }
        ensures values { unpacked self.new ≡ after_action (unpacked self.old) (Makes arithmetic place number) }
    {
        match &mut self.storage {
            GrowingStorage::Short(short) => {
                let len = short.len as usize;
                make_at(&mut short.bytes[..len], arithmetic, place, number)
            }
            GrowingStorage::Long(bytes) => make_at(bytes.as_mut_slice(), arithmetic, place, number),
        }
    }
}
