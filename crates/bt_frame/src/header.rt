//! The header of a frame.
ghost use Rattle.std.specs.Prelude.{◌≡◌, ◌≤◌, length, option_map};
ghost use Rattle.bt_frame.specs.Frames as frames;

/// What a header begins with: the version is 1.
pub(crate) const MAGIC: [u8; 4] = *b"BTF\x01";

/// The number of bytes of a header.
pub(crate) const HEADER_SIZE: usize = 13;

/// The eight bytes of a number.
#[tactic(auto, unfolding(crate::specs::Frames::number_bytes))]
pub fn number_bytes(number: u64) -> [u8; 8]
    ensures { result ≡ frames.number_bytes number }
{
    number.to_le_bytes()
}

// The number that the first eight bytes encode.
#[tactic(auto, unfolding(crate::specs::Frames::number_from))]
fn number_from(bytes: &[u8]) -> u64
    requires { 8 ≤ length bytes.now }
    ensures { result ≡ frames.number_from bytes.now }
{
    u64::from_le_bytes([
        bytes[0], bytes[1], bytes[2], bytes[3], bytes[4], bytes[5], bytes[6], bytes[7],
    ])
}

/// The kind of a frame, and the length of its payload.
#[derive(Clone, Copy, Drop)]
pub(crate) struct Header {
    pub(crate) kind: u8,
    pub(crate) length: u64,
}

/// The header that bytes are, if they are one.
pub(crate) fn header_of(bytes: &[u8]) -> Option<Header>
    requires { length bytes.now ≡ frames.header_size }
    ensures { option_map (λ header. (header.kind, header.length)) result ≡ frames.header_at bytes.now }
{
    let rest = bytes.strip_prefix(MAGIC.as_slice())?;
    Some(Header {
        kind: bytes[12],
        length: number_from(rest),
    })
}
