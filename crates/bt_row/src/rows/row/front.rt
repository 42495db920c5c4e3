//! The first values of a row, compared and copied as bytes, and single values of a row.
ghost use Rattle.std.specs.Prelude.{◌≡◌, ◌≤◌, IfOk, MatchOption, Some, length, slice_get, take};
ghost use Rattle.bt_value.specs.Values.{same_values};
ghost use Rattle.bt_value.specs.Views.{value_of_ref};

use crate::rows::growing_bytes::GrowingBytes;
use crate::rows::packed_values::{first_at, offset};
use crate::rows::row::Row;
use bt_value::{ValueRef, front};
use std::alloc::{AllocError, Global};

impl Row {
    /// Whether the first values, or all if there are fewer, are the values of another row.
    pub fn starts_with(&self, count: usize, first: &Row) -> bool
        ensures { result ≡ same_values first.now (take count self.now) }
    {
        let bytes = self.as_bytes();
        front(bytes, offset(bytes, count)) == first.as_bytes()
    }

    /// The row of the first values, or of all if there are fewer.
    pub fn first(&self, alloc: Global, count: usize) -> Result<Row, AllocError>
        ensures { IfOk result (λ row. row ≡ take count self.now) }
    {
        let bytes = self.as_bytes();
        let end = offset(bytes, count);
        let mut first = GrowingBytes::with_room(alloc, end)?;
        first.push(alloc, front(bytes, end), &[])?;
        Ok(Row { bytes: first })
    }

    /// The value at a place, counted from 0, if the row has one there.
    pub fn find(&self, place: usize) -> Option<ValueRef<'_>>
        ensures { MatchOption result (length self.now ≤ place) (λ value. slice_get self.now place ≡ Some (value_of_ref value)) }
    {
        let bytes = self.as_bytes();
        let at = offset(bytes, place);
        if at < bytes.len() {
            Some(first_at(bytes, at))
        } else {
            None
        }
    }
}
