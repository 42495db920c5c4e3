//! Index values.
ghost use Rattle.std.specs.Prelude.{◌≡◌, IfOk, min};
ghost use Rattle.bt_keycode.specs.Lengths.{most_weight};
ghost use Rattle.bt_message.specs.Payloads.{entry_terms, row_payload};

use crate::message::Merge;
use bt_keycode::row_code_len;
use bt_row::{Row, copy_row};
use std::alloc::{AllocError, Global};
use std::marker::Model;

/// The value of an index at a key: the included columns of a row. A contract sees the list of their values.
#[derive(Debug, Drop)]
pub struct Entry {
    values: Row,
}

impl Model for Entry {
    ghost use Rattle.std.specs.Prelude.{List};
    ghost use Rattle.bt_value.specs.declared.value.Value.{Value as value};

    ghost Value = { List value };

    ghost view = { λ e. e.values };
}

impl Default for Entry {
    fn default() -> Self {
        Entry { values: Row::new() }
    }
}

impl Entry {
    /// The index value with the values of this row.
    pub fn new(values: Row) -> Self
        ensures { result ≡ values }
    {
        Entry { values }
    }

    /// The values, as a row.
    pub fn as_row(&self) -> &Row
        ensures { result.now ≡ self.now }
    {
        &self.values
    }
}

fn copy_entry(alloc: Global, entry: &Entry) -> Result<Entry, AllocError>
    ensures { IfOk result (λ copy. copy ≡ entry.now) }
{
    Ok(Entry {
        values: copy_row(alloc, &entry.values)?,
    })
}

impl Merge for Entry {
    type Delta = Entry;

    ghost terms = { entry_terms };

    fn merge(alloc: Global, _old: Option<Entry>, delta: &Entry) -> Result<Entry, AllocError>
        ensures { IfOk result (λ new. new ≡ delta.now) }
    {
        copy_entry(alloc, delta)
    }

    fn weight(&self) -> u64 {
        row_code_len(&self.values)
    }

    fn delta_weight(delta: &Entry) -> u64
        ensures { result ≡ min most_weight (row_payload delta.now) }
    {
        row_code_len(&delta.values)
    }

    fn copy(&self, alloc: Global) -> Result<Entry, AllocError> {
        copy_entry(alloc, self)
    }

    fn copy_delta(alloc: Global, delta: &Entry) -> Result<Entry, AllocError> {
        delta.copy(alloc)
    }
}
