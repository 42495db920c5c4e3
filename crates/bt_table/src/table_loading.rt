//! How a load makes the entries of indexes: on several threads, or on one.
ghost use Rattle.std.specs.FinMap.{is_sorted};
ghost use Rattle.std.specs.Prelude.{◌≡◌, IfOk, IsTrue};
ghost use Rattle.bt_keycode.specs.Keys.{key_cmp};
ghost use Rattle.bt_fanout.specs.Entries.{entry_of};
ghost use Rattle.bt_fanout.specs.Promises.{SuitsRows};
ghost use Rattle.bt_fanout.specs.Selections.{select};

use bt_fanout::{IndexDef, sorted_entries, sorted_entries_in_threads};
use bt_keycode::Key;
use bt_load::{InThreads, InTurn, Loading};
use bt_messages::Entry;
use bt_row::Row;
use std::alloc::{AllocError, Global};
use std::thread::Threads;

/// A loading that makes the entries of indexes in the way in which it reads records: [`InThreads`] with `rayon`, [`InTurn`] one after the other.
pub trait TableLoading: Loading {
    /// The entries of rows, in ascending order of their keys: the contents of an index that is made from these rows.
    fn sorted_entries(
        &self,
        alloc: Global,
        def: &IndexDef,
        rows: &[(Key, Row)],
    ) -> Result<Vec<(Key, Entry)>, AllocError>
        requires ready { Self.accepts self.now }
        requires suits { SuitsRows def.now rows.now }
        ensures entries { IfOk result (λ entries. entries.items ≡ select (entry_of def.now) rows.now) }
        ensures rising { IfOk result (λ entries. IsTrue (is_sorted key_cmp entries.items)) };
}

impl<'a, R: Threads + Sync> TableLoading for InThreads<'a, R> {
    fn sorted_entries(
        &self,
        alloc: Global,
        def: &IndexDef,
        rows: &[(Key, Row)],
    ) -> Result<Vec<(Key, Entry)>, AllocError> {
        sorted_entries_in_threads(self.rt, alloc, def, rows, self.piece_len(rows.len()))
    }
}

impl TableLoading for InTurn {
    fn sorted_entries(
        &self,
        alloc: Global,
        def: &IndexDef,
        rows: &[(Key, Row)],
    ) -> Result<Vec<(Key, Entry)>, AllocError> {
        sorted_entries(alloc, def, rows)
    }
}
