//! Rows in rising order of keys.
ghost use Rattle.std.specs.FinMap.{is_sorted};
ghost use Rattle.std.specs.Prelude.{◌≡◌, IfOk, IsTrue, length};
ghost use Rattle.std.specs.Result.{result_map_both};
ghost use Rattle.bt_value.specs.Answers.{Answers};
ghost use Rattle.bt_keycode.specs.Keys.{key_cmp};
ghost use Rattle.bt_load.specs.Maps.{map_of};
ghost use Rattle.bt_keycode.specs.Standing.{AllAreUnder, AllStand, AreOf};

use crate::loading::Loading;
use crate::placed::{ordered_keys, with_rows};
use crate::sorted_rows::SortedRows;
use bt_keycode::Key;
use bt_row::{Row, Schema};
use bt_value::Refusal;
use std::alloc::Global;

/// The rows in rising order of keys, each with its key, sorted on several threads or on one. `DuplicateKey` has the number of the first
/// row, counted from 1, whose key an earlier row has. Rows whose keys already rise aren't sorted.
pub fn load_rows_by<L: Loading>(
    loading: &L,
    alloc: Global,
    rows: Vec<Row>,
    schema: &Schema,
) -> Result<Vec<(Key, Row)>, Refusal>
    requires ready { L.accepts loading.now }
    ensures answer { Answers (map_of schema.now.keys rows.items) (result_map_both (λ pairs. pairs.items) (λ e. e) result) }
    ensures rising { IfOk result (λ pairs. IsTrue (is_sorted key_cmp pairs.items)) }
    ensures keys { IfOk result (λ pairs. AllAreUnder schema.now.keys pairs.items) }
    ensures stand { AreOf schema.now.columns rows.items → IfOk result (λ pairs. AllStand schema.now pairs.items) }
{
    let placed = ordered_keys(loading, alloc, rows.as_slice(), schema.keys())?;
    Ok(with_rows(alloc, placed, rows)?)
}

/// The rows by rising key that [`load_rows_by`] gives, to be taken one at a time.
pub fn sorted_rows_by<L: Loading>(
    loading: &L,
    alloc: Global,
    rows: Vec<Row>,
    schema: &Schema,
) -> Result<SortedRows, Refusal>
    requires ready { L.accepts loading.now }
    ensures answer { Answers (map_of schema.now.keys rows.items) result }
    ensures rising { IfOk result (λ sorted. IsTrue (is_sorted key_cmp sorted)) }
    ensures count { IfOk result (λ sorted. length sorted ≡ length rows.items) }
{
    let placed = ordered_keys(loading, alloc, rows.as_slice(), schema.keys())?;
    Ok(SortedRows::new(placed, rows))
}
