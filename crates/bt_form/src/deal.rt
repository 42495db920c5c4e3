//! Deals items, in order, into parts that are as even as possible.
ghost use Rattle.std.specs.Prelude.{◌≡◌, ◌+◌, ◌<◌, ◌∷◌, IfOk, OnOk, drop, map, take};
ghost use Rattle.std.specs.Vec.Iter.{into_iter_items};
ghost use Rattle.bt_form.specs.Deals.{deal, even};

use std::alloc::{AllocError, Global};
use std::vec::IntoIter;

/// The size of the part at a place, if this many items are dealt into this many parts.
pub fn size_at(place: usize, items: usize, parts: usize) -> usize
    requires { place < parts }
    ensures { drop place (even items parts) ≡ result ∷ drop (place + 1) (even items parts) }
{
    let size = items / parts;
    if place < items % parts {
        size + 1
    } else {
        size
    }
}

// The next items as one part.
fn next_part<T: Drop>(
    alloc: Global,
    rest: &mut IntoIter<T>,
    size: usize,
) -> Result<Vec<T>, AllocError>
    ensures part { IfOk result (λ part. part.items ≡ take size (into_iter_items rest.old)) }
    ensures rest { OnOk result (into_iter_items rest.new ≡ drop size (into_iter_items rest.old)) }
{
    let mut part = Vec::with_capacity(alloc, size)?;
    for _ in 0..size {
        if let Some(item) = rest.next() {
            part.push_reserved(item);
        }
    }
    Ok(part)
}

/// Deals items, in order, into parts of at most `most`. If all fit in one part, none is moved.
pub(crate) fn deal<T: Drop>(
    alloc: Global,
    items: Vec<T>,
    most: usize,
) -> Result<Vec<Vec<T>>, AllocError>
    requires { 0 < most }
    ensures { IfOk result (λ parts. map (λ part. part.items) parts.items ≡ deal most items.items) }
{
    let count = items.len();
    if count <= most {
        return Ok(vec![in alloc; items]?);
    }
    let many = count.div_ceil(most);
    let mut parts = Vec::with_capacity(alloc, many)?;
    let mut rest = items.into_iter();
    for place in 0..many {
        let size = size_at(place, count, many);
        parts.push_reserved(next_part(alloc, &mut rest, size)?);
    }
    Ok(parts)
}
