//! What follows the frames of a file.
ghost use Rattle.std.specs.Prelude.{◌≡◌, true, length, replicate};
ghost use Rattle.bt_journal.specs.Files.{has_frame_after};

use crate::frame::payload_at;

/// Whether there is a frame after the first of these bytes.
#[tactic(auto, unfolding(crate::specs::Files::has_frame_after))]
pub(crate) fn has_frame_after(seed: u64, bytes: &[u8]) -> bool
    ensures { result ≡ has_frame_after seed bytes.now }
{
    let mut seed = seed;
    let mut rest = bytes;
    while let [_, after @ ..] = rest {
        seed = seed.wrapping_add(1);
        if payload_at(seed, after).is_some() {
            return true;
        }
        rest = after;
    }
    false
}

/// Whether all bytes are zeros.
pub(crate) fn are_zeros(bytes: &[u8]) -> bool
    ensures { result ≡ true → bytes.now ≡ replicate (length bytes.now) 0 }
{
    let mut rest = bytes;
    while let [first, after @ ..] = rest {
        if *first != 0 {
            return false;
        }
        rest = after;
    }
    true
}
