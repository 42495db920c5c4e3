//! Why the fields of a record are refused by their columns.
ghost use Rattle.std.specs.Prelude.{◌≡◌, ◌≤◌, IfOk, length, option_map, take};
ghost use Rattle.bt_fault.specs.Reasons as spec;

use crate::problem::{Problem, field_problem};
use crate::reason::Reason;
use bt_record::{FieldsRef, RecordCutter, RecordLine};
use bt_row::Column;
use bt_value::Refusal;
use std::alloc::AllocError;

// The first field that is no value of its column, counted from 1, and what is wrong with it.
fn first_problem(columns: &[Column], fields: &FieldsRef<'_>) -> Option<(u64, Problem)>
    requires { length columns.now ≤ length fields.now }
    ensures { result ≡ spec.first_problem spec.value_problem 0 columns.now fields.now }
{
    for (place, column) in columns.iter().enumerate() {
        if let Some(problem) = field_problem(column.kind, fields.get(place)) {
            return Some((place as u64 + 1, problem));
        }
    }
    None
}

/// The first field of an item that is no value of its column.
pub(crate) fn bad_field(columns: &[Column], item: u64, fields: &FieldsRef<'_>) -> Option<Reason>
    requires { length columns.now ≤ length fields.now }
    ensures { result ≡ spec.bad_field columns.now item fields.now }
{
    let (field, problem) = first_problem(columns, fields)?;
    Some(Reason::at(Refusal::BadField(item), item, field, problem))
}

/// Why a record is no row of these columns.
pub(crate) fn row_reason(
    cutter: &mut RecordCutter,
    columns: &[Column],
    item: u64,
    line: &RecordLine<'_>,
) -> Result<Option<Reason>, AllocError>
    ensures { IfOk result (λ reason. reason ≡ spec.row_reason columns.now item line.now) }
{
    match cutter.fields(line, columns.len())? {
        Some(fields) if fields.len() == columns.len() => Ok(bad_field(columns, item, &fields)),
        _ => Ok(Some(Reason::wrong_count(item))),
    }
}

/// Why a record is no values of the first of these columns.
pub(crate) fn prefix_reason(
    cutter: &mut RecordCutter,
    columns: &[Column],
    item: u64,
    line: &RecordLine<'_>,
) -> Result<Option<Reason>, AllocError>
    ensures { IfOk result (λ reason. reason ≡ spec.prefix_reason columns.now item line.now) }
{
    match cutter.fields(line, columns.len())? {
        Some(fields) if fields.len() > 0 => {
            Ok(bad_field(&columns[..fields.len()], item, &fields))
        }
        _ => Ok(Some(Reason::wrong_count(item))),
    }
}
