//! Building the code of values that are added one after the other.
ghost use Rattle.std.specs.Prelude.{◌≡◌, ◌++◌, ◌∷◌, [], IfOk, OnOk, OnErr};
ghost use Rattle.bt_keycode.specs.Codes.{code_of_value, eight_bytes, escaped, raised};
ghost use Rattle.bt_value.specs.Views.{value_of_ref};

use crate::key::Key;
use crate::zeros::split_at_zero;
use bt_row::GrowingBytes;
use bt_value::{Content, ValueRef};
use std::alloc::{AllocError, Global};
use std::marker::Model;

/// The code of the values that were added. A contract sees the list of its bytes.
///
/// Up to 30 bytes are kept in the value itself and take no memory of their own ([`GrowingBytes`]). A key has room for fewer.
#[derive(Debug, Drop)]
pub struct CodeBuilder {
    alloc: Global,
    bytes: GrowingBytes,
}

impl Model for CodeBuilder {
    ghost use Rattle.std.specs.Prelude.{List, ℕ};

    ghost Value = { List ℕ };

    ghost view = { λ b. b.bytes };
}

// The eight bytes of an int with its sign bit inverted.
#[tactic(auto, unfolding(crate::specs::Codes::eight_bytes))]
pub(crate) fn int_code(number: i64) -> [u8; 8]
    ensures { result ≡ eight_bytes (raised number) }
{
    number.abs_diff(i64::MIN).to_be_bytes()
}

impl CodeBuilder {
    /// The code of no values.
    pub fn new(alloc: Global) -> Self
        ensures { result ≡ [] }
    {
        CodeBuilder {
            alloc,
            bytes: GrowingBytes::new(),
        }
    }

    // Adds both byte strings at the end. An `Err` changes nothing.
    #[inline(always)]
    fn push(&mut self, first: &[u8], second: &[u8]) -> Result<(), AllocError>
        ensures ok { OnOk result (self.new ≡ self.old ++ (first.now ++ second.now)) }
        ensures err { OnErr result (self.new ≡ self.old) }
    {
        self.bytes.push(self.alloc, first, second)
    }

    // Adds the code of bytes. Each part up to a zero byte is added as a whole.
    pub(crate) fn add_bytes(&mut self, bytes: &[u8]) -> Result<(), AllocError>
        ensures { OnOk result (self.new ≡ self.old ++ (escaped bytes.now ++ (0 ∷ 1 ∷ []))) }
    {
        let mut rest = bytes;
        while let Some((part, following)) = split_at_zero(rest) {
            self.push(part, &[0, 255])?;
            rest = following;
        }
        self.push(rest, &[0, 1])
    }

    /// Adds the code of a value. After an `Err` the builder may have a part of the code.
    #[inline]
    pub fn add(&mut self, value: ValueRef<'_>) -> Result<(), AllocError>
        ensures { OnOk result (self.new ≡ self.old ++ code_of_value (value_of_ref value.entry)) }
    {
        match value.content() {
            Content::Number(number) => self.push(&int_code(number), &[]),
            Content::Bytes(bytes) => self.add_bytes(bytes),
            Content::Bit(true) => self.push(&[1], &[]),
            Content::Bit(false) => self.push(&[0], &[]),
        }
    }

    /// Adds a code that was made before. An `Err` changes nothing.
    #[inline]
    pub fn add_code(&mut self, code: &Key) -> Result<(), AllocError>
        ensures ok { OnOk result (self.new ≡ self.old ++ code.now) }
        ensures err { OnErr result (self.new ≡ self.old) }
    {
        self.push(code.as_slice(), &[])
    }

    /// The key that encodes the values.
    pub fn finish(self) -> Result<Key, AllocError>
        ensures { IfOk result (λ key. key ≡ self) }
    {
        let CodeBuilder { alloc, bytes } = self;
        Ok(Key::of(bytes.into_bytes(alloc)?))
    }
}
