//! Places that are empty at first.
ghost use Rattle.std.specs.Prelude.{◌≡◌, IfOk, None, replicate};

use std::alloc::{AllocError, Global};

/// This many empty places.
pub(crate) fn empty_places<T: Drop>(alloc: Global, n: usize) -> Result<Vec<Option<T>>, AllocError>
    ensures { IfOk result (λ v. v.items ≡ replicate n None) }
{
    let mut places = Vec::with_capacity(alloc, n)?;
    for _ in 0..n {
        places.push_reserved(None);
    }
    Ok(places)
}
