//! The bytes before a place, and those from it on.
ghost use Rattle.std.specs.Prelude.{◌≡◌, ◌≤◌, drop, length, take};

/// The bytes from a place on.
pub fn tail<'a>(bytes: &'a [u8], at: usize) -> &'a [u8]
    requires { at ≤ length bytes.now }
    ensures { result.now ≡ drop at bytes.now }
{
    &bytes[at..]
}

/// The bytes before a place.
pub fn front<'a>(bytes: &'a [u8], at: usize) -> &'a [u8]
    requires { at ≤ length bytes.now }
    ensures { result.now ≡ take at bytes.now }
{
    &bytes[..at]
}
