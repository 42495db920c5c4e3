//! Keys: lists of bytes, ordered byte by byte.
ghost use Rattle.std.specs.Prelude.{◌≡◌, ◌+◌, ◌++◌, ◌≤◌, ◌∷◌, [], IfNone, IfOk, IfSome, OnOk, OnErr, drop, length};
ghost use Rattle.bt_value.specs.Hex.{hex_text};
ghost use Rattle.bt_value.specs.Paddings.{padded};
ghost use Rattle.bt_keycode.specs.Keys.{key_cmp};
ghost use Rattle.bt_keycode.specs.Codes.{eight_bytes};
ghost use Rattle.bt_keycode.specs.Prefixes.{first_eight};

use bt_value::{Bytes, SHORT_BYTES, write_hex};
use std::alloc::{AllocError, Global};
use std::cmp::Ordering;
use std::marker::Model;

/// The most bytes of a key that is kept in the value itself. Such a key takes no memory of its own.
pub const SHORT_KEY: usize = SHORT_BYTES;

/// The last place in a short key at which eight bytes begin.
pub const LAST_EIGHT: usize = SHORT_KEY - 8;

/// A key: bytes, ordered byte by byte, with a prefix before any longer key. A contract sees the list of its bytes.
///
/// Up to 22 bytes are kept in the value itself, which has 24 bytes. Most comparisons compare eight bytes at once, as numbers.
#[derive(Debug, Drop)]
pub struct Key {
    bytes: Bytes,
}

const _: () = prove!(size_of::<Key>() == 24);

impl Model for Key {
    ghost use Rattle.std.specs.Prelude.{List, ℕ};

    ghost Value = { List ℕ };

    ghost view = { λ k. k.bytes };
}

// The first eight bytes as a number, with the highest byte first.
pub(crate) fn prefix_of(bytes: &[u8]) -> u64
    requires { 8 ≤ length bytes.now }
    ensures { eight_bytes result ≡ first_eight bytes.now }
{
    u64::from_be_bytes([
        bytes[0], bytes[1], bytes[2], bytes[3], bytes[4], bytes[5], bytes[6], bytes[7],
    ])
}

// The eight bytes from a place on as a number, with the highest byte first.
#[inline(always)]
fn eight_at(bytes: &[u8], place: usize) -> u64
    requires { place + 8 ≤ length bytes.now }
    ensures { eight_bytes result ≡ first_eight (drop place bytes.now) }
{
    prefix_of(&bytes[place..])
}

// The order of the first 22 of these bytes, by the eight bytes from a place on as numbers, if these differ. The bytes before the place
// are the same.
#[inline(always)]
fn order_at(left: &[u8], right: &[u8], place: usize) -> Option<Ordering>
    requires within { place ≤ LAST_EIGHT }
    requires left_room { SHORT_KEY ≤ length left.now }
    requires right_room { SHORT_KEY ≤ length right.now }
    requires before { padded place left.now ≡ padded place right.now }
    ensures apart { IfSome result (λ order. order ≡ key_cmp (padded SHORT_KEY left.now) (padded SHORT_KEY right.now)) }
    ensures same { IfNone result (first_eight (drop place left.now) ≡ first_eight (drop place right.now)) }
{
    let (first, second) = (eight_at(left, place), eight_at(right, place));
    if first != second {
        return Some(first.cmp(&second));
    }
    None
}

// The order of the first 22 of these bytes, by three numbers.
#[inline(always)]
fn compare_short(left: &[u8], right: &[u8]) -> Ordering
    requires left_room { SHORT_KEY ≤ length left.now }
    requires right_room { SHORT_KEY ≤ length right.now }
    ensures { result ≡ key_cmp (padded SHORT_KEY left.now) (padded SHORT_KEY right.now) }
{
    if let Some(order) = order_at(left, right, 0) {
        return order;
    }
    if let Some(order) = order_at(left, right, 8) {
        return order;
    }
    if let Some(order) = order_at(left, right, LAST_EIGHT) {
        return order;
    }
    Ordering::Equal
}

impl Key {
    /// The empty key, which is before all others.
    pub fn new() -> Self
        ensures { result ≡ [] }
    {
        Key::of(Bytes::new())
    }

    /// The key of these bytes.
    pub fn from_bytes(alloc: Global, bytes: &[u8]) -> Result<Self, AllocError>
        ensures { IfOk result (λ key. key ≡ bytes.now) }
    {
        Ok(Key::of(Bytes::from_slice(alloc, bytes)?))
    }

    // The key of these bytes. It takes them over without copying.
    pub(crate) fn of(bytes: Bytes) -> Self
        ensures { result ≡ bytes }
    {
        Key { bytes }
    }

    /// A copy of the key.
    pub fn copy(&self, alloc: Global) -> Result<Self, AllocError>
        ensures { IfOk result (λ copy. copy ≡ self.now) }
    {
        Ok(Key::of(self.bytes.copy(alloc)?))
    }

    /// The smallest key that is larger than this one: its bytes followed by a byte 0.
    pub fn next(&self, alloc: Global) -> Result<Self, AllocError>
        ensures { IfOk result (λ next. next ≡ self.now ++ 0 ∷ []) }
    {
        let mut bytes = Vec::from_slice(alloc, self.as_slice())?;
        bytes.push(0)?;
        Key::from_bytes(alloc, bytes.as_slice())
    }

    /// The number of bytes.
    pub fn len(&self) -> usize
        ensures { result ≡ length self.now }
    {
        self.bytes.as_slice().len()
    }

    pub fn as_slice(&self) -> &[u8]
        ensures { result.now ≡ self.now }
    {
        self.bytes.as_slice()
    }

    // The bytes, followed by zeros up to 22 bytes if there are fewer.
    #[inline(always)]
    fn padded(&self) -> &[u8]
        ensures bytes { result.now ≡ padded (length result.now) self.now }
        ensures room { SHORT_KEY ≤ length result.now }
    {
        self.bytes.padded()
    }

    /// The first eight bytes as a number, with the highest byte first. Missing bytes count as zero.
    pub fn first_number(&self) -> u64
        ensures { eight_bytes result ≡ first_eight self.now }
    {
        self.number_at(0)
    }

    /// The eight bytes from a place on as a number, with the highest byte first. Missing bytes count as zero.
    #[inline(always)]
    pub fn number_at(&self, place: usize) -> u64
        requires { place ≤ LAST_EIGHT }
        ensures { eight_bytes result ≡ first_eight (drop place self.now) }
    {
        eight_at(self.padded(), place)
    }

    // The order of two keys with the same first 22 bytes. Missing bytes count as zero.
    fn compare_rest(&self, other: &Key) -> Ordering
        requires { padded SHORT_KEY self.now ≡ padded SHORT_KEY other.now }
        ensures { result ≡ key_cmp self.now other.now }
    {
        if self.len() <= SHORT_KEY && other.len() <= SHORT_KEY {
            return self.len().cmp(&other.len());
        }
        self.as_slice().cmp(other.as_slice())
    }

    /// The order of this key and another one, byte by byte.
    #[inline(always)]
    pub fn compare(&self, other: &Key) -> Ordering
        ensures { result ≡ key_cmp self.now other.now }
    {
        // Nearly all keys differ in the bytes that they keep inline, most in the first eight. These are compared inline, as in the loops of
        // a sort, after one test of where each key has its bytes.
        match compare_short(self.padded(), other.padded()) {
            Ordering::Equal => self.compare_rest(other),
            order => order,
        }
    }

    /// Adds the bytes as text: two lower-case hexadecimal digits for each. An `Err` means out of memory, and leaves `out` unchanged.
    pub fn write_hex(&self, out: &mut Vec<u8>) -> Result<(), AllocError>
        ensures ok { OnOk result (out.new.items ≡ out.old.items ++ hex_text self.now) }
        ensures err { OnErr result (out.new.items ≡ out.old.items) }
    {
        write_hex(out, self.as_slice())
    }
}
