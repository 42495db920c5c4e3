//! Texts, which contracts see as their bytes, and lists of texts.
ghost use Rattle.std.specs.Prelude.{◌≡◌, ◌≤◌, ◌++◌, ◌∷◌, [], IfOk, OnOk, OnErr, length, map, string_bytes, true};
ghost use Rattle.bt_value.specs.Texts.{is_text as is_text_of};

use crate::bytes::Bytes;
use std::alloc::{AllocError, Global};
use std::marker::Model;
use std::str;

/// The most bytes of a value or of a name.
pub const MOST_VALUE_BYTES: usize = 255;

/// A text of at most 255 bytes: a value, or the name of a column or of a tree. A contract sees its bytes, which are UTF-8.
#[derive(Debug, Drop)]
pub struct Text {
    bytes: Bytes,
}

impl Model for Text {
    ghost use Rattle.std.specs.Prelude.{List, ℕ, ◌≡◌, true};
    ghost use Rattle.bt_value.specs.Texts.{is_text};

    ghost Value = { List ℕ };

    ghost view = { λ a. a.bytes };

    ghost invariant = { λ a. is_text a.bytes ≡ true };
}

impl Text {
    /// A copy of the text.
    #[tactic(auto, using(crate::proofs::offered::Texts::short_text))]
    pub fn new(alloc: Global, text: &str) -> Result<Self, AllocError>
        requires { length text.now ≤ MOST_VALUE_BYTES }
        ensures { IfOk result (λ copy. copy ≡ text.now) }
    {
        Text::from_bytes(alloc, text.as_bytes())
    }

    /// A copy of the text of these bytes.
    pub fn from_bytes(alloc: Global, bytes: &[u8]) -> Result<Self, AllocError>
        requires { is_text_of bytes.now ≡ true }
        ensures { IfOk result (λ copy. copy ≡ bytes.now) }
    {
        Ok(Text {
            bytes: Bytes::from_slice(alloc, bytes)?,
        })
    }

    /// The empty text.
    pub fn empty() -> Self
        ensures { result ≡ [] }
    {
        Text {
            bytes: Bytes::new(),
        }
    }

    /// A copy of the text.
    pub fn copy(&self, alloc: Global) -> Result<Self, AllocError>
        ensures { IfOk result (λ copy. copy ≡ self.now) }
    {
        Ok(Text {
            bytes: self.bytes.copy(alloc)?,
        })
    }

    /// The bytes.
    pub fn as_bytes(&self) -> &[u8]
        ensures value { result.now ≡ self.now }
        ensures text { is_text_of self.now ≡ true }
    {
        self.bytes.as_slice()
    }
}

/// Whether bytes are a text of a column.
pub(crate) fn is_text(bytes: &[u8]) -> bool
    ensures { result ≡ is_text_of bytes.now }
{
    match str::from_utf8(bytes) {
        Ok(_) => bytes.len() <= MOST_VALUE_BYTES,
        Err(_) => false,
    }
}

/// A list of texts, such as the words of a command line. A contract sees the bytes of each.
#[derive(Debug, Drop)]
pub struct Texts {
    alloc: Global,
    texts: Vec<String>,
}

impl Model for Texts {
    ghost use Rattle.std.specs.Prelude.{List, ℕ, map, string_bytes};

    ghost Value = { List (List ℕ) };

    ghost view = { λ a. map string_bytes a.texts.items };
}

impl Texts {
    /// No texts. The allocator is kept for `push`.
    pub fn new(alloc: Global) -> Self
        ensures { result ≡ [] }
    {
        Texts {
            alloc,
            texts: Vec::new(alloc),
        }
    }

    /// Adds a copy of the text at the end. An `Err` changes nothing.
    pub fn push(&mut self, text: &str) -> Result<(), AllocError>
        ensures ok { OnOk result (self.new ≡ self.old ++ text.now ∷ []) }
        ensures err { OnErr result (self.new ≡ self.old) }
    {
        let text = String::from_str(self.alloc, text)?;
        self.texts.push(text)?;
        Ok(())
    }

    /// The texts, borrowed.
    pub fn as_slice(&self) -> &[String]
        ensures { map string_bytes result.now ≡ self.now }
    {
        self.texts.as_slice()
    }
}
