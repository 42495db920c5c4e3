//! Frames: each has the size of the frame, a sum of that and of the payload, and the payload.
ghost use Rattle.std.specs.Prelude.{◌≡◌, ◌+◌, ◌*◌, ◌<◌, ◌≤◌, ◌^◌, ◌%◌, ◌++◌, length, option_map, IfOk, IfSome};
ghost use Rattle.bt_journal.specs.Frames.{mixed, sum_from, check_of, next_seed, number_at, payload_at, frame_of};

use std::alloc::{AllocError, Global};

/// The bytes of a frame before its payload.
pub(crate) const FRAME_START: usize = 16;

// An odd factor with well mixed bits, which Knuth gives for a congruential generator (MMIX).
const FACTOR: u64 = 6_364_136_223_846_793_005;

// The sum after one more byte.
#[tactic(auto, unfolding(crate::specs::Frames::mixed))]
fn mix(sum: u64, byte: u8) -> u64
    ensures { result ≡ mixed sum byte }
{
    sum.wrapping_mul(FACTOR).wrapping_add(u64::from(byte) + 1)
}

/// The sum after these bytes, of which each changes it, from a sum before them.
pub fn sum_after(seed: u64, bytes: &[u8]) -> u64
    ensures { result ≡ sum_from seed bytes.now }
{
    let mut sum = seed;
    for byte in bytes {
        sum = mix(sum, *byte);
    }
    sum
}

// The sum of a payload and of the size of its frame.
#[tactic(auto, unfolding(crate::specs::Frames::check_of))]
fn check_of(seed: u64, payload: &[u8]) -> u64
    ensures { result ≡ check_of seed payload.now }
{
    let size = FRAME_START + payload.len();
    sum_after(sum_after(seed, &(size as u64).to_le_bytes()), payload)
}

/// The seed of the frame after this one.
#[tactic(auto, unfolding(crate::specs::Frames::next_seed))]
pub(crate) fn next_seed(seed: u64, payload: &[u8]) -> u64
    ensures { result ≡ next_seed seed payload.now }
{
    seed.wrapping_add((FRAME_START + payload.len()) as u64)
}

/// The frame of a payload.
#[tactic(auto, unfolding(crate::specs::Frames::frame_of))]
pub(crate) fn frame_of(alloc: Global, seed: u64, payload: &[u8]) -> Result<Vec<u8>, AllocError>
    ensures { IfOk result (λ bytes. bytes.items ≡ frame_of seed payload.now) }
{
    let size = FRAME_START + payload.len();
    let mut bytes = Vec::new(alloc);
    bytes.extend_from_slice(&(size as u64).to_le_bytes())?;
    bytes.extend_from_slice(&check_of(seed, payload).to_le_bytes())?;
    bytes.extend_from_slice(payload)?;
    Ok(bytes)
}

/// The number that the first eight bytes encode.
#[tactic(auto, unfolding(crate::specs::Frames::number_at))]
pub(crate) fn number_at(bytes: &[u8]) -> u64
    requires { 8 ≤ length bytes.now }
    ensures { result ≡ number_at bytes.now }
{
    u64::from_le_bytes([
        bytes[0], bytes[1], bytes[2], bytes[3], bytes[4], bytes[5], bytes[6], bytes[7],
    ])
}

/// The payload of the frame that these bytes begin with, if there is a whole one with the right sum.
#[tactic(auto, unfolding(crate::specs::Frames::payload_at))]
pub(crate) fn payload_at(seed: u64, bytes: &[u8]) -> Option<&[u8]>
    ensures { option_map (λ payload. payload.now) result ≡ payload_at seed bytes.now }
{
    if bytes.len() < FRAME_START {
        return None;
    }
    let size = number_at(bytes) as usize;
    if size < FRAME_START {
        return None;
    }
    if bytes.len() < size {
        return None;
    }
    let payload = &bytes[FRAME_START..size];
    if check_of(seed, payload) == number_at(&bytes[8..]) {
        Some(payload)
    } else {
        None
    }
}
