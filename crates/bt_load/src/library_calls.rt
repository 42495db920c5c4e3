//! Calls that the engine does not make, since a table gives a [`Loading`](crate::Loading). They are for callers in Rattle who load with the
//! threads of a runtime.
ghost use Rattle.std.specs.FinMap.{is_sorted};
ghost use Rattle.std.specs.Prelude.{◌≡◌, IfOk, IsTrue};
ghost use Rattle.std.specs.Result.{result_map_both};
ghost use Rattle.bt_value.specs.Answers.{Answers};
ghost use Rattle.bt_keycode.specs.Keys.{key_cmp};
ghost use Rattle.bt_keycode.specs.Standing.{AllAreUnder, AllStand, AreOf};
ghost use Rattle.bt_load.specs.Loads.{text_rows};
ghost use Rattle.bt_load.specs.Maps.{map_of};

use crate::loading::{InThreads, MOST_THREADS};
use crate::read::read_records_by;
use crate::sort::load_rows_by;
use bt_keycode::Key;
use bt_row::{Row, Schema};
use bt_value::Refusal;
use std::alloc::Global;
use std::thread::Threads;

/// The rows of a CSV text after its header, in order, as [`read_records_by`] returns them.
pub fn read_records(
    rt: &(impl Threads + Sync),
    alloc: Global,
    text: &[u8],
    schema: &Schema,
) -> Result<Vec<Row>, Refusal>
    ensures answer { Answers (text_rows schema.now.columns text.now) (result_map_both (λ rows. rows.items) (λ e. e) result) }
    ensures rows { IfOk result (λ rows. AreOf schema.now.columns rows.items) }
{
    read_records_by(
        &InThreads {
            rt,
            workers: MOST_THREADS,
        },
        alloc,
        text,
        schema,
    )
}

/// The rows in rising order of keys, each with its key, as [`load_rows_by`] returns them.
pub fn load_rows(
    rt: &(impl Threads + Sync),
    alloc: Global,
    rows: Vec<Row>,
    schema: &Schema,
) -> Result<Vec<(Key, Row)>, Refusal>
    ensures answer { Answers (map_of schema.now.keys rows.items) (result_map_both (λ pairs. pairs.items) (λ e. e) result) }
    ensures rising { IfOk result (λ pairs. IsTrue (is_sorted key_cmp pairs.items)) }
    ensures keys { IfOk result (λ pairs. AllAreUnder schema.now.keys pairs.items) }
    ensures stand { AreOf schema.now.columns rows.items → IfOk result (λ pairs. AllStand schema.now pairs.items) }
{
    load_rows_by(
        &InThreads {
            rt,
            workers: MOST_THREADS,
        },
        alloc,
        rows,
        schema,
    )
}
