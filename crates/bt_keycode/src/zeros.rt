//! Finding zero bytes.
ghost use Rattle.std.specs.List.{list_any};
ghost use Rattle.std.specs.Prelude.{◌≡◌, ◌++◌, ◌∷◌, IfNone, IfSome, false, nat_eq};

use memchr::memchr;

// The bytes before the first zero byte, and those after it.
pub(crate) fn split_at_zero(bytes: &[u8]) -> Option<(&[u8], &[u8])>
    ensures parts { IfSome result (λ parts. bytes.now ≡ parts.0.now ++ 0 ∷ parts.1.now) }
    ensures first { IfSome result (λ parts. list_any (λ b. nat_eq b 0) parts.0.now ≡ false) }
    ensures none { IfNone result (list_any (λ b. nat_eq b 0) bytes.now ≡ false) }
{
    match memchr(0, bytes) {
        Some(place) => Some((&bytes[..place], &bytes[place + 1..])),
        None => None,
    }
}
