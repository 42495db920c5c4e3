//! A piece of a slice.
ghost use Rattle.std.specs.Prelude.{◌+◌, ◌<◌, ◌^◌, length};

/// Consecutive items of a slice, and the number of items before them.
#[derive(Drop)]
pub struct Piece<'a, T> {
    pub before: usize,
    pub items: &'a [T],
    pub ghost within: { before + length items.now < 2 ^ 63 },
}
