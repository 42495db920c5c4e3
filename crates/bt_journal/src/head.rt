//! The head of a file: its first frame, which says what the others are.
ghost use Rattle.std.specs.Prelude.{◌≡◌, ◌≤◌, length, IfOk, IfSome};
ghost use Rattle.bt_journal.specs.Heads.{head_at, head_bytes, head_frame, head_of, next_salt, IsAlike};

use crate::frame::{frame_of, number_at, payload_at};
use std::alloc::{AllocError, Global};

/// The bytes of the frame of a head.
pub(crate) const HEAD_SIZE: usize = 40;

// The bytes of a head.
const HEAD_BYTES: usize = 24;

// The seed of the first frame.
const HEAD_SEED: u64 = 1;

// The golden ratio's fraction of 2^64: salts that differ by few multiples of it are far from each other.
const SALT_STEP: u64 = 11_400_714_819_323_198_485;

/// What a file is.
#[derive(Clone, Copy, Debug, Drop, PartialEq, Eq)]
pub struct Head {
    /// The number of the format of the payloads.
    pub format: u64,
    /// The number of the engine that runs the payloads.
    pub engine: u64,
    /// The seed of the frame after the head. It is another one in each file that takes the place of an older one, so that no block of a deleted file passes as a
    /// part of the new one.
    pub salt: u64,
}

// The head that a payload encodes.
#[tactic(auto, unfolding(crate::specs::Heads::head_of))]
fn head_of(payload: &[u8]) -> Option<Head>
    ensures { result ≡ head_of payload.now }
{
    if payload.len() == HEAD_BYTES {
        Some(Head {
            format: number_at(payload),
            engine: number_at(&payload[8..]),
            salt: number_at(&payload[16..]),
        })
    } else {
        None
    }
}

impl Head {
    /// The head of a file, if it has one.
    #[tactic(auto, unfolding(crate::specs::Heads::head_at))]
    pub(crate) fn at(file: &[u8]) -> Option<Head>
        ensures head { result ≡ head_at file.now }
        ensures long { IfSome result (λ _. HEAD_SIZE ≤ length file.now) }
    {
        match payload_at(HEAD_SEED, file) {
            Some(payload) => head_of(payload),
            None => None,
        }
    }

    // The payload of the first frame.
    fn bytes(self, alloc: Global) -> Result<Vec<u8>, AllocError>
        ensures { IfOk result (λ bytes. bytes.items ≡ head_bytes self) }
    {
        let mut bytes = Vec::new(alloc);
        bytes.extend_from_slice(&self.format.to_le_bytes())?;
        bytes.extend_from_slice(&self.engine.to_le_bytes())?;
        bytes.extend_from_slice(&self.salt.to_le_bytes())?;
        Ok(bytes)
    }

    /// The first frame of a file with this head.
    pub(crate) fn frame(self, alloc: Global) -> Result<Vec<u8>, AllocError>
        ensures { IfOk result (λ bytes. bytes.items ≡ head_frame self) }
    {
        let bytes = self.bytes(alloc)?;
        let frame = frame_of(alloc, HEAD_SEED, &bytes)?;
        Ok(frame)
    }

    /// The head of the file that takes the place of one with this head.
    #[tactic(auto, unfolding(crate::specs::Heads::next_salt))]
    pub(crate) fn next(self) -> Head
        ensures salt { result.salt ≡ next_salt self.salt }
        ensures same { IsAlike self result }
    {
        Head {
            format: self.format,
            engine: self.engine,
            salt: self.salt.wrapping_add(SALT_STEP),
        }
    }
}
