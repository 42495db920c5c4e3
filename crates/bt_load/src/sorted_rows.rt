//! Rows by rising key that are taken one at a time.
ghost use Rattle.std.specs.Prelude.{◌≡◌, ◌∷◌, [], MatchOption, length, map};
ghost use Rattle.bt_keycode.specs.Occurrences.{AreDistinctBelow};
ghost use Rattle.bt_load.specs.inside.Sorts.{pair_at, places_of};

use crate::placed::Placed;
use bt_keycode::Key;
use bt_row::Row;
use std::marker::Model;
use std::mem;
use std::vec::IntoIter;

/// Rows by rising key, of which the next is taken with its key, so that no list of both is made. A contract sees the list of those that are left.
#[derive(Drop)]
pub struct SortedRows {
    placed: IntoIter<Placed>,
    rows: Vec<Row>,
}

impl Model for SortedRows {
    ghost use Rattle.std.specs.Prelude.{length, map};
    ghost use Rattle.std.specs.Vec.Iter.{into_iter_items};
    ghost use Rattle.bt_keycode.specs.Occurrences.{AreDistinctBelow};
    ghost use Rattle.bt_keycode.specs.Standing.{RowMap};
    ghost use Rattle.bt_load.specs.inside.Sorts.{pair_at, places_of};

    ghost Value = { RowMap };

    ghost view = { λ s. map (pair_at s.rows.items) (into_iter_items s.placed) };

    ghost invariant = { λ s. AreDistinctBelow (length s.rows.items) (places_of (into_iter_items s.placed)) };
}

impl SortedRows {
    /// The rows at the places of the keys, in the order of the keys.
    pub(crate) fn new(placed: Vec<Placed>, rows: Vec<Row>) -> Self
        requires { AreDistinctBelow (length rows.items) (places_of placed.items) }
        ensures { result ≡ map (pair_at rows.items) placed.items }
    {
        SortedRows {
            placed: placed.into_iter(),
            rows,
        }
    }

    /// Takes the next row, with its key.
    pub fn next_row(&mut self) -> Option<(Key, Row)>
        ensures { MatchOption result (self.old ≡ []) (λ row. self.old ≡ row ∷ self.new) }
    {
        let Some(next) = self.placed.next() else {
            return None;
        };
        let row = mem::replace(&mut self.rows[next.1], Row::new());
        Some((next.0, row))
    }
}
