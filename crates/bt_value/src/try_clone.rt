//! Copies that can run out of memory.
ghost use Rattle.std.specs.Prelude.{◌≡◌, IfOk};

use std::alloc::{AllocError, Global};

/// A type with copies that can run out of memory.
pub trait TryClone: Sized {
    /// A copy of the value.
    fn try_clone(&self, alloc: Global) -> Result<Self, AllocError>
        ensures { IfOk result (λ copy. copy ≡ self.now) };
}

impl<A: TryClone + Drop, B: TryClone + Drop> TryClone for (A, B) {
    fn try_clone(&self, alloc: Global) -> Result<Self, AllocError> {
        let first = self.0.try_clone(alloc)?;
        let second = self.1.try_clone(alloc)?;
        Ok((first, second))
    }
}

/// Copies of all items, in order.
pub fn clone_all<T: TryClone + Drop>(alloc: Global, items: &[T]) -> Result<Vec<T>, AllocError>
    ensures { IfOk result (λ copies. copies.items ≡ items.now) }
{
    let mut copies = Vec::with_capacity(alloc, items.len())?;
    for item in items {
        copies.push(item.try_clone(alloc)?)?;
    }
    Ok(copies)
}
