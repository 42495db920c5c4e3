//! The rows of a text. `csv` reads its header.
ghost use Rattle.std.specs.Prelude.{◌≡◌, ◌≢◌, Err, IfErr, IfOk};
ghost use Rattle.std.specs.Result.{result_map_both};
ghost use Rattle.bt_value.specs.Answers.{Answers};
ghost use Rattle.bt_value.specs.Results.{all_read};
ghost use Rattle.bt_load.specs.Loads.{text_rows, typed_from};
ghost use Rattle.bt_keycode.specs.Standing.{AreOf};

use crate::lines::Lines;
use crate::loading::Loading;
use crate::typing::{all_have_values, rows_or_none, type_in_turn};
use bt_record::{Fields, Records};
use bt_row::{Row, Schema};
use bt_rowtype::is_header;
use bt_value::Refusal;
use std::alloc::Global;

// The records of a CSV text after its header. `BadSchema` means that the header isn't the names of the columns in order.
fn records_under_header<'a>(
    alloc: Global,
    text: &'a [u8],
    schema: &Schema,
) -> Result<Records<'a>, Refusal>
    ensures records { IfOk result (λ records. text_rows schema.now.columns text.now ≡ all_read (typed_from schema.now.columns 1 records)) }
    ensures refused { IfErr result (λ refusal. refusal ≢ Refusal.OutOfMemory → text_rows schema.now.columns text.now ≡ Err refusal) }
{
    let Some(mut records) = Records::new(text) else {
        return Err(Refusal::BadSchema);
    };
    let columns = schema.columns();
    let mut reader = records.csv_reader(alloc);
    let mut names = Fields::new(alloc);
    // one name more than there are columns shows that there are too many
    if !reader.next(&mut names, columns.len() + 1)? || !is_header(columns, &names) {
        return Err(Refusal::BadSchema);
    }
    records.next();
    Ok(records)
}

// The rows of lines, or the lowest refusal.
fn rows_of_lines<L: Loading>(
    loading: &L,
    alloc: Global,
    schema: &Schema,
    lines: &Lines<'_>,
) -> Result<Vec<Row>, Refusal>
    requires ready { L.accepts loading.now }
    ensures { Answers (all_read (typed_from schema.now.columns 1 lines.now)) (result_map_both (λ rows. rows.items) (λ e. e) result) }
{
    let rows = rows_or_none(loading, alloc, schema, lines)?;
    if all_have_values(rows.as_slice()) {
        return Ok(rows);
    }
    // A record was refused, or an allocation failed. One pass over all lines finds the lowest refusal.
    let reading = type_in_turn(alloc, schema, lines.as_slice())?;
    match reading.finish() {
        Ok(rows) => Ok(rows.into_vec()),
        Err(refusal) => Err(refusal),
    }
}

/// The rows of a CSV text after its header, in order, typed on several threads or on one.
///
/// `BadSchema` means that the header isn't the names of the columns in order. `BadField` and `BadLength` mean that a record is
/// refused. If several records are refused, the lowest refusal is returned. Records are counted from 1 after the header.
pub fn read_records_by<L: Loading>(
    loading: &L,
    alloc: Global,
    text: &[u8],
    schema: &Schema,
) -> Result<Vec<Row>, Refusal>
    requires ready { L.accepts loading.now }
    ensures answer { Answers (text_rows schema.now.columns text.now) (result_map_both (λ rows. rows.items) (λ e. e) result) }
    ensures rows { IfOk result (λ rows. AreOf schema.now.columns rows.items) }
{
    let records = records_under_header(alloc, text, schema)?;
    let lines = Lines::of(alloc, records)?;
    rows_of_lines(loading, alloc, schema, &lines)
}
