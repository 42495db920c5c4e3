//! Cutting a slice into pieces, for jobs of nearly equal length.
ghost use Rattle.std.specs.List.{flat_map};
ghost use Rattle.std.specs.Prelude.{◌≡◌, ◌<◌, ◌≤◌, ◌-◌, ◌/◌, ◌^◌, IfOk, drop, length, take, vec_len};
ghost use Rattle.bt_gang.specs.Pieces.{AreEven, AreInRow};

use crate::piece::Piece;
use std::alloc::{AllocError, Global};

// The items between two places, as a piece.
fn piece_at<T>(items: &[T], start: usize, end: usize) -> Piece<'_, T>
    requires ordered { start ≤ end }
    requires within { end ≤ length items.now }
    requires few { length items.now < 2 ^ 63 }
    ensures before { result.before ≡ start }
    ensures items { result.items.now ≡ take (end - start) (drop start items.now) }
{
    Piece {
        before: start,
        items: &items[start..end],
    }
}

/// Cuts the items into this many pieces, in order. The lengths of two pieces differ by at most one.
pub fn pieces_of<T>(
    alloc: Global,
    items: &[T],
    count: usize,
) -> Result<Vec<Piece<'_, T>>, AllocError>
    requires some { 0 < count }
    requires few { length items.now < 2 ^ 63 }
    ensures whole { IfOk result (λ pieces. flat_map (λ piece. piece.items.now) pieces.items ≡ items.now) }
    ensures row { IfOk result (λ pieces. AreInRow 0 pieces.items) }
    ensures count { IfOk result (λ pieces. vec_len pieces ≡ count) }
    ensures even { IfOk result (λ pieces. AreEven (length items.now / count) pieces.items) }
{
    let mut pieces = Vec::with_capacity(alloc, count)?;
    let mut start = 0;
    for place in 1..count {
        let end = start + (items.len() - start) / (count - place + 1);
        pieces.push_reserved(piece_at(items, start, end));
        start = end;
    }
    pieces.push_reserved(piece_at(items, start, items.len()));
    Ok(pieces)
}
