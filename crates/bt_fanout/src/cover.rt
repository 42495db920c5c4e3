//! How far an index covers the rows.
ghost use Rattle.std.specs.Prelude.{◌≡◌, ◌++◌, ◌∷◌, [], IfOk};
ghost use Rattle.bt_fanout.specs.Covers as spec;
ghost use Rattle.bt_fanout.specs.Covers.{is_covered};

use bt_keycode::Key;
use std::alloc::{AllocError, Global};
use std::cmp::Ordering;

/// The part of the keys whose rows an index has.
#[derive(Debug, Drop)]
pub enum Cover {
    /// No key.
    Nothing,
    /// The keys up to and including this one, which was the last that was read.
    UpTo(Key),
    /// All keys.
    Whole,
}

/// Whether a key is covered. Allocates nothing.
pub fn covers(cover: &Cover, key: &Key) -> bool
    ensures { result ≡ is_covered cover.now key.now }
{
    match cover {
        Cover::Nothing => false,
        Cover::UpTo(last) => last.compare(key) != Ordering::Less,
        Cover::Whole => true,
    }
}

/// The wider of two covers: it covers each key that one of them covers. Allocates nothing.
pub fn wider<'a>(cover: &'a Cover, other: &'a Cover) -> &'a Cover
    ensures { result.now ≡ spec.wider cover.now other.now }
{
    match cover {
        Cover::Nothing => other,
        Cover::UpTo(last) => match other {
            Cover::Nothing => cover,
            Cover::UpTo(later) => {
                if last.compare(later) == Ordering::Less {
                    other
                } else {
                    cover
                }
            }
            Cover::Whole => other,
        },
        Cover::Whole => cover,
    }
}

// A copy of a cover.
pub(crate) fn copy_cover(alloc: Global, cover: &Cover) -> Result<Cover, AllocError>
    ensures { IfOk result (λ copy. copy ≡ cover.now) }
{
    match cover {
        Cover::Nothing => Ok(Cover::Nothing),
        Cover::UpTo(last) => Ok(Cover::UpTo(last.copy(alloc)?)),
        Cover::Whole => Ok(Cover::Whole),
    }
}

// The smallest key that is larger than this one: its bytes followed by a byte 0.
pub(crate) fn next_key(alloc: Global, key: &Key) -> Result<Key, AllocError>
    ensures { IfOk result (λ next. next ≡ key.now ++ 0 ∷ []) }
{
    key.next(alloc)
}
