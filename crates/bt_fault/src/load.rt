//! Why the text of a load is refused.
ghost use Rattle.std.specs.Prelude.{◌≡◌, ◌==◌, ◌≤◌, IfOk, length};
ghost use Rattle.std.specs.Cmp.Lexicographic.{pointwise};
ghost use Rattle.bt_load.specs.Loads.{text_rows};
ghost use Rattle.bt_fault.specs.Calls as spec;
ghost use Rattle.bt_fault.specs.Reasons as reasons;

use crate::problem::Problem;
use crate::reason::{Reason, lower_reason};
use crate::records::row_reason;
use bt_record::{FieldsRef, RecordCutter, RecordLine, Records};
use bt_row::{Column, Schema};
use bt_value::Refusal;
use std::alloc::{AllocError, Global};

// Whether a column has this name.
fn is_named(column: &Column, name: &[u8]) -> bool
    ensures { result ≡ pointwise ◌==◌ column.now.name name.now }
{
    column.name.as_bytes() == name
}

// The header is at fault at this field.
fn bad_header(field: u64, problem: Problem) -> Reason
    ensures { result ≡ spec.bad_header field problem }
{
    Reason::at(Refusal::BadSchema, 0, field, problem)
}

// The first field that is not the name of its column.
fn other_name(columns: &[Column], names: &FieldsRef<'_>) -> Option<(u64, Problem)>
    requires { length columns.now ≤ length names.now }
    ensures { result ≡ reasons.first_problem spec.name_problem 0 columns.now names.now }
{
    for (place, column) in columns.iter().enumerate() {
        if !is_named(column, names.get(place)) {
            return Some((place as u64 + 1, Problem::OtherName));
        }
    }
    None
}

// Why fields are not the names of the columns in order, of which there are as many.
fn names_reason(columns: &[Column], names: &FieldsRef<'_>) -> Option<Reason>
    requires { length names.now ≡ length columns.now }
    ensures { result ≡ spec.header_reason columns.now names.now }
{
    let (field, problem) = other_name(columns, names)?;
    Some(bad_header(field, problem))
}

// Why a record is no header.
fn header_reason(
    cutter: &mut RecordCutter,
    columns: &[Column],
    line: &RecordLine<'_>,
) -> Result<Option<Reason>, AllocError>
    ensures { IfOk result (λ reason. reason ≡ spec.header_reason columns.now line.now) }
{
    match cutter.fields(line, columns.len())? {
        Some(names) if names.len() == columns.len() => Ok(names_reason(columns, &names)),
        _ => Ok(Some(bad_header(0, Problem::FieldCount))),
    }
}

// The records that are left, as lines.
fn lines_of<'a>(alloc: Global, records: Records<'a>) -> Result<Vec<RecordLine<'a>>, AllocError>
    ensures { IfOk result (λ lines. lines.items ≡ records.entry) }
{
    let mut records = records;
    let mut lines = Vec::new(alloc);
    while let Some(line) = records.next() {
        lines.push(line)?;
    }
    Ok(lines)
}

// Why records are no rows: the first of the lowest reasons.
fn records_reason(
    cutter: &mut RecordCutter,
    columns: &[Column],
    lines: &[RecordLine<'_>],
) -> Result<Option<Reason>, AllocError>
    ensures { IfOk result (λ reason. reason ≡ reasons.lowest_reason (spec.record_reasons columns.now 1 lines.now)) }
{
    let mut found = None;
    for (place, line) in lines.iter().enumerate() {
        let reason = row_reason(cutter, columns, place as u64 + 1, line)?;
        found = lower_reason(found, reason);
    }
    Ok(found)
}

// Why a text is refused.
fn reason_in(alloc: Global, schema: &Schema, text: &[u8]) -> Result<Option<Reason>, AllocError>
    ensures { IfOk result (λ reason. reason ≡ spec.text_reason schema.now.columns text.now) }
{
    let Some(mut records) = Records::new(text) else {
        return Ok(Some(bad_header(0, Problem::SecondMark)));
    };
    let Some(names) = records.next() else {
        return Ok(Some(bad_header(0, Problem::NoHeader)));
    };
    let columns = schema.columns();
    let mut cutter = RecordCutter::new(alloc);
    if let Some(reason) = header_reason(&mut cutter, columns, &names)? {
        return Ok(Some(reason));
    }
    let lines = lines_of(alloc, records)?;
    records_reason(&mut cutter, columns, &lines)
}

/// Why the text of a load is refused: its header, or the first of the lowest reasons of the records after it. Records are counted from 1 after the header,
/// which is item 0.
#[tactic(auto, using(crate::proofs::ExplainedCalls::text_explained))]
pub fn text_reason(
    alloc: Global,
    schema: &Schema,
    text: &[u8],
) -> Result<Option<Reason>, AllocError>
    ensures reason { IfOk result (λ reason. reason ≡ spec.text_reason schema.now.columns text.now) }
    ensures refusal { IfOk result (λ reason. reasons.Explains (text_rows schema.now.columns text.now) reason) }
{
    reason_in(alloc, schema, text)
}
