//! Why the record of an upsert is refused.
ghost use Rattle.std.specs.Prelude.{◌≡◌, ◌≤◌, ◌+◌, ◌<◌, ◌^◌, IfOk, drop, length, true};
ghost use Rattle.bt_row.specs.Ops as ops;
ghost use Rattle.bt_fault.specs.Reasons as spec;

use crate::problem::{Problem, field_problem};
use crate::reason::{Reason, lower_reason};
use crate::records::bad_field;
use bt_record::{FieldsRef, RecordCutter, RecordLine};
use bt_row::{Arithmetic, MOST_OPS, SET_WORD, Schema, find_column};
use bt_value::{Kind, Refusal};
use std::alloc::AllocError;

// The name of an operation is no column that operations may change.
fn closed_reason(schema: &Schema, item: u64, before: u64, name: &[u8]) -> Reason
    requires { before + 3 < 2 ^ 64 }
    ensures { result ≡ spec.closed_reason schema.now item before name.now }
{
    let problem = match find_column(schema.columns(), 0, name) {
        Some(_column) => Problem::KeyColumn,
        None => Problem::NoColumn,
    };
    Reason::at(Refusal::NoSuchColumn, item, before + 2, problem)
}

// Why the argument of an operation is no value of a kind.
fn argument_reason(item: u64, before: u64, argument: &[u8], kind: Kind) -> Option<Reason>
    requires { before + 3 < 2 ^ 64 }
    ensures { result ≡ spec.argument_reason item before argument.now kind }
{
    let problem = field_problem(kind, argument)?;
    Some(Reason::at(Refusal::BadField(item), item, before + 3, problem))
}

// The same for an arithmetic operation, which a column of another kind than int doesn't have.
fn number_reason(item: u64, before: u64, argument: &[u8], kind: Kind) -> Option<Reason>
    requires { before + 3 < 2 ^ 64 }
    ensures { result ≡ spec.number_reason item before argument.now kind }
{
    match kind {
        Kind::Int => argument_reason(item, before, argument, Kind::Int),
        _ => Some(Reason::at(Refusal::NotInt, item, before + 2, Problem::NoIntColumn)),
    }
}

// Why an operation is refused whose word, column's name and argument are the fields after a number of others.
fn op_reason(
    schema: &Schema,
    item: u64,
    before: u64,
    word: &[u8],
    name: &[u8],
    argument: &[u8],
) -> Option<Reason>
    requires { before + 3 < 2 ^ 64 }
    ensures { result ≡ spec.op_reason schema.now item before word.now name.now argument.now }
{
    let is_set = word == SET_WORD.as_bytes();
    if !is_set && Arithmetic::from_word(word).is_none() {
        return Some(Reason::at(
            Refusal::BadField(item),
            item,
            before + 1,
            Problem::NoOperation,
        ));
    }
    let Some((_place, kind)) = find_column(schema.columns(), schema.keys(), name) else {
        return Some(closed_reason(schema, item, before, name));
    };
    if is_set {
        argument_reason(item, before, argument, kind)
    } else {
        number_reason(item, before, argument, kind)
    }
}

// The first of the lowest reasons of the operations that the fields after the key encode.
fn ops_reason(schema: &Schema, item: u64, fields: &FieldsRef<'_>) -> Option<Reason>
    requires { schema.now.keys ≤ length fields.now }
    ensures { result ≡ spec.lowest_reason (spec.op_reasons schema.now item schema.now.keys (drop schema.now.keys fields.now)) }
{
    let keys = schema.keys();
    let mut found = None;
    for group in 0..(fields.len() - keys) / 3 {
        let place = keys + 3 * group;
        let (word, name, argument) = (
            fields.get(place),
            fields.get(place + 1),
            fields.get(place + 2),
        );
        let reason = op_reason(schema, item, place as u64, word, name, argument);
        found = lower_reason(found, reason);
    }
    found
}

// Why the fields of a key and of operations are refused.
fn parts_reason(schema: &Schema, item: u64, fields: &FieldsRef<'_>) -> Option<Reason>
    requires { schema.now.keys ≤ length fields.now }
    ensures { result ≡ spec.parts_reason schema.now item fields.now }
{
    let key = bad_field(schema.key_columns(), item, fields);
    let ops = ops_reason(schema, item, fields);
    lower_reason(key, ops)
}

// Whether a record has the fields of a key and of 1 to 16 operations.
fn is_upsert(keys: usize, fields: usize) -> bool
    ensures is { result ≡ ops.is_upsert keys fields }
    ensures long { result ≡ true → keys ≤ fields }
{
    if fields < keys {
        return false;
    }
    let rest = fields - keys;
    rest >= 3 && rest <= 3 * MOST_OPS && rest % 3 == 0
}

/// Why a record is no upsert.
pub(crate) fn ups_reason(
    cutter: &mut RecordCutter,
    schema: &Schema,
    item: u64,
    line: &RecordLine<'_>,
) -> Result<Option<Reason>, AllocError>
    ensures { IfOk result (λ reason. reason ≡ spec.ups_reason schema.now item line.now) }
{
    let keys = schema.key_columns().len();
    match cutter.fields(line, keys + 3 * MOST_OPS)? {
        Some(fields) if is_upsert(keys, fields.len()) => Ok(parts_reason(schema, item, &fields)),
        _ => Ok(Some(Reason::wrong_count(item))),
    }
}
