//! Lists of bytes. Short ones take no memory of their own.
ghost use Rattle.std.specs.Prelude.{◌≡◌, ◌≤◌, [], IfOk, IsOk, length, take};
ghost use Rattle.bt_value.specs.Paddings.{padded as padded_to};
ghost use Rattle.bt_value.specs.inside.Shorts.{FitsInside, bytes_of};

use std::alloc::{AllocError, Global};
use std::marker::Model;

/// The most bytes that are kept in the value itself.
pub const SHORT_BYTES: usize = 22;

#[derive(Debug, Drop)]
enum BytesStorage {
    // how many bytes of the array are used, and the array
    Short(u8, [u8; SHORT_BYTES]),
    Long(Box<Vec<u8>>),
}

/// Bytes in order, such as those of a text or of a key. A contract sees the list of them.
///
/// Up to 22 bytes are kept in the value itself and take no memory of their own. A `Bytes` has the size of three words.
#[derive(Debug, Drop)]
pub struct Bytes {
    storage: BytesStorage,
}

impl Model for Bytes {
    ghost use Rattle.std.specs.Prelude.{List, ℕ};
    ghost use Rattle.bt_value.specs.inside.Shorts.{FitsInside, bytes_of};

    ghost Value = { List ℕ };

    ghost view = { λ b. bytes_of b.storage };

    ghost invariant = { λ b. FitsInside b.storage };
}

// The bytes, followed by zeros.
fn padded(bytes: &[u8]) -> [u8; SHORT_BYTES]
    requires { length bytes.now ≤ SHORT_BYTES }
    ensures { result ≡ padded_to SHORT_BYTES bytes.now }
{
    let mut padded = [0; SHORT_BYTES];
    padded[..bytes.len()].copy_from_slice(bytes);
    padded
}

// The bytes in the value itself.
fn short(bytes: &[u8]) -> BytesStorage
    requires { length bytes.now ≤ SHORT_BYTES }
    ensures bytes { bytes_of result ≡ bytes.now }
    ensures inside { FitsInside result }
{
    BytesStorage::Short(bytes.len() as u8, padded(bytes))
}

impl Bytes {
    /// No bytes.
    pub fn new() -> Self
        ensures { result ≡ [] }
    {
        Bytes {
            storage: BytesStorage::Short(0, [0; SHORT_BYTES]),
        }
    }

    /// A copy of these bytes.
    pub fn from_slice(alloc: Global, bytes: &[u8]) -> Result<Self, AllocError>
        ensures copy { IfOk result (λ copy. copy ≡ bytes.now) }
        ensures short { length bytes.now ≤ SHORT_BYTES → IsOk result }
    {
        if bytes.len() <= SHORT_BYTES {
            return Ok(Bytes {
                storage: short(bytes),
            });
        }
        let long = Vec::from_slice(alloc, bytes)?;
        Ok(Bytes {
            storage: BytesStorage::Long(Box::new(alloc, long)?),
        })
    }

    /// These bytes.
    pub fn from_vec(alloc: Global, bytes: Vec<u8>) -> Result<Self, AllocError>
        ensures { IfOk result (λ whole. whole ≡ bytes.items) }
    {
        if bytes.len() <= SHORT_BYTES {
            return Ok(Bytes {
                storage: short(bytes.as_slice()),
            });
        }
        Ok(Bytes {
            storage: BytesStorage::Long(Box::new(alloc, bytes)?),
        })
    }

    /// A copy of the bytes.
    pub fn copy(&self, alloc: Global) -> Result<Self, AllocError>
        ensures { IfOk result (λ copy. copy ≡ self.now) }
    {
        match &self.storage {
            BytesStorage::Short(len, bytes) => Ok(Bytes {
                storage: BytesStorage::Short(*len, *bytes),
            }),
            BytesStorage::Long(bytes) => Bytes::from_slice(alloc, bytes.as_slice()),
        }
    }

    /// The bytes, followed by zeros up to a length of 22 if there are fewer.
    pub fn padded(&self) -> &[u8]
        ensures bytes { result.now ≡ padded_to (length result.now) self.now }
        ensures room { SHORT_BYTES ≤ length result.now }
        ensures whole { length self.now ≤ length result.now }
    {
        match &self.storage {
            BytesStorage::Short(_, bytes) => bytes.as_slice(),
            BytesStorage::Long(bytes) => bytes.as_slice(),
        }
    }

    pub fn as_slice(&self) -> &[u8]
        ensures { result.now ≡ self.now }
    {
        match &self.storage {
            BytesStorage::Short(len, bytes) => &bytes[..*len as usize],
            BytesStorage::Long(bytes) => bytes.as_slice(),
        }
    }
}
