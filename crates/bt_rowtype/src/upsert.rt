//! Reading the record of an upsert.
ghost use Rattle.std.specs.Prelude.{◌≡◌, ◌≤◌, ◌∷◌, [], Err, IfErr, IfOk, IfSome, Ok, drop, false, is_some, length, true};
ghost use Rattle.std.specs.List.{filter_map};
ghost use Rattle.std.specs.Result.{result_err, result_map_both, result_ok};
ghost use Rattle.bt_value.specs.Answers.{Answers};
ghost use Rattle.bt_value.specs.Ints.{int_of};
ghost use Rattle.bt_row.specs.Ops as spec;
ghost use Rattle.bt_record.specs.Records.{csv_record, fields_in};
ghost use Rattle.bt_value.specs.Refusals.{lowest};
ghost use Rattle.bt_value.specs.Results.{both_read, or_refused};

use crate::both::both_read;
use crate::plain_row::read_plain_columns;
use crate::row_reader::read_fields;
use bt_record::FieldsRef;
use bt_row::{Arithmetic, MOST_OPS, Op, Ops, Row, SET_WORD, Schema, find_column};
use bt_value::{Collected, Kind, Refusal, plain_group, read_int, read_value};
use std::alloc::{AllocError, Global};

/// The key and the operations of an upsert.
#[derive(Drop)]
pub(crate) struct Upsert {
    /// The values of the key.
    pub(crate) key: Row,
    /// The operations on its row.
    pub(crate) ops: Ops,
}

// The column with this name that operations may change, and its kind.
fn find_open_column(schema: &Schema, name: &[u8]) -> Option<(usize, Kind)>
    ensures { result ≡ spec.open_column schema.now name.now }
{
    find_column(schema.columns(), schema.keys(), name)
}

// The number that a field encodes, or its refusal as this item.
fn read_number(item: u64, field: &[u8]) -> Result<i64, Refusal>
    ensures { result ≡ or_refused (Refusal.BadField item) (int_of field.now) }
{
    match read_int(field) {
        Some(number) => Ok(number),
        None => Err(Refusal::BadField(item)),
    }
}

// The operation `set` with a column's name and an argument, or its refusal.
fn read_set(
    alloc: Global,
    schema: &Schema,
    item: u64,
    name: &[u8],
    argument: &[u8],
) -> Result<Op, Refusal>
    ensures answer { Answers (spec.at_column (spec.set_of item argument.now) (spec.open_column schema.now name.now)) result }
    ensures certain { IfErr (spec.at_column (spec.set_of item argument.now) (spec.open_column schema.now name.now)) (λ e. result ≡ Err e) }
{
    let Some((place, kind)) = find_open_column(schema, name) else {
        return Err(Refusal::NoSuchColumn);
    };
    Ok(Op::Set(place, read_value(alloc, kind, item, argument)?))
}

// The arithmetic operation with a column's name and an argument, or its refusal.
fn read_making(
    arithmetic: Arithmetic,
    schema: &Schema,
    item: u64,
    name: &[u8],
    argument: &[u8],
) -> Result<Op, Refusal>
    ensures { result ≡ spec.at_column (spec.making_of arithmetic item argument.now) (spec.open_column schema.now name.now) }
{
    let Some((place, kind)) = find_open_column(schema, name) else {
        return Err(Refusal::NoSuchColumn);
    };
    if kind != Kind::Int {
        return Err(Refusal::NotInt);
    }
    Ok(Op::making(arithmetic, place, read_number(item, argument)?))
}

// The operation of a word, a column's name and an argument, or its one fault.
fn read_op(
    alloc: Global,
    schema: &Schema,
    item: u64,
    word: &[u8],
    name: &[u8],
    argument: &[u8],
) -> Result<Op, Refusal>
    ensures answer { Answers (spec.op_of schema.now item word.now name.now argument.now) result }
    ensures certain { IfErr (spec.op_of schema.now item word.now name.now argument.now) (λ e. result ≡ Err e) }
{
    if word == SET_WORD.as_bytes() {
        return read_set(alloc, schema, item, name, argument);
    }
    match Arithmetic::from_word(word) {
        Some(arithmetic) => read_making(arithmetic, schema, item, name, argument),
        None => Err(Refusal::BadField(item)),
    }
}

// Whether a record has the fields of a key and of 1 to 16 operations.
fn is_upsert(keys: usize, fields: usize) -> bool
    ensures { result ≡ spec.is_upsert keys fields }
{
    if fields < keys {
        return false;
    }
    let rest = fields - keys;
    rest >= 3 && rest <= 3 * MOST_OPS && rest % 3 == 0
}

// The operations that the fields after the key encode, in groups of three.
fn read_groups(
    alloc: Global,
    schema: &Schema,
    item: u64,
    fields: &FieldsRef<'_>,
) -> Result<Collected<Op>, AllocError>
    requires { schema.now.keys ≤ length fields.now }
    ensures values { IfOk result (λ read. read.values ≡ filter_map result_ok (spec.ops_of schema.now item (drop schema.now.keys fields.now))) }
    ensures refusal { IfOk result (λ read. read.refusal ≡ lowest (filter_map result_err (spec.ops_of schema.now item (drop schema.now.keys fields.now)))) }
{
    let keys = schema.keys();
    let groups = (fields.len() - keys) / 3;
    let mut reading = Collected::with_capacity(alloc, groups)?;
    for group in 0..groups {
        let place = keys + 3 * group;
        let (word, name, argument) = (
            fields.get(place),
            fields.get(place + 1),
            fields.get(place + 2),
        );
        let read = read_op(alloc, schema, item, word, name, argument);
        reading.add(read)?;
    }
    Ok(reading)
}

/// The operations that the record of an upsert encodes: the fields of the key, then 1 to 16 groups of a word, the name of a column
/// and an argument. The words are `set`, `add`, `max` and `min`.
///
/// `BadLength` if the number of fields is different. An operation has one fault, the first of: the word (`BadField`), a column that does
/// not exist or is a key column (`NoSuchColumn`), an arithmetic word at a column that is not int (`NotInt`), the argument (`BadField`).
/// If several operations have faults, the lowest refusal is returned.
pub(crate) fn read_ops_record(
    alloc: Global,
    schema: &Schema,
    item: u64,
    fields: &FieldsRef<'_>,
) -> Result<Ops, Refusal>
    ensures answer { Answers (spec.ops_as schema.now item fields.now) result }
    ensures certain { spec.is_upsert schema.now.keys (length fields.now) ≡ false → result ≡ Err (Refusal.BadLength item) }
{
    if !is_upsert(schema.keys(), fields.len()) {
        return Err(Refusal::BadLength(item));
    }
    let reading = read_groups(alloc, schema, item, fields)?;
    reading.finish()
}

/// The key and the operation that a text encodes, if all fields are plain, the key is a row that keeps its values in itself, and there is
/// exactly one operation.
pub(crate) fn read_plain_upsert(
    alloc: Global,
    schema: &Schema,
    item: u64,
    text: &[u8],
) -> Result<Option<(Row, Op)>, AllocError>
    requires { is_some (csv_record text.now) ≡ true }
    ensures { IfOk result (λ found. IfSome found (λ read. spec.upsert_as schema.now item (fields_in text.now) ≡ Ok (read.0, read.1 ∷ []))) }
{
    let Some((key, at)) = read_plain_columns(alloc, schema.key_columns(), text)? else {
        return Ok(None);
    };
    let Some((word, name, argument)) = plain_group(text, at) else {
        return Ok(None);
    };
    match read_op(alloc, schema, item, word, name, argument) {
        Ok(op) => Ok(Some((key, op))),
        Err(Refusal::OutOfMemory) => Err(AllocError),
        Err(_) => Ok(None),
    }
}

/// The key and the operations that the record of an upsert encodes. They are refused as in [`read_ops_record`], or as `BadField` for a field
/// of the key. If both are at fault, the lower refusal is returned.
pub(crate) fn read_upsert(
    alloc: Global,
    schema: &Schema,
    item: u64,
    fields: &FieldsRef<'_>,
) -> Result<Upsert, Refusal>
    ensures { Answers (spec.upsert_as schema.now item fields.now) (result_map_both (λ upsert. (upsert.key, upsert.ops)) (λ e. e) result) }
{
    if !is_upsert(schema.keys(), fields.len()) {
        return Err(Refusal::BadLength(item));
    }
    let key = read_fields(alloc, schema.key_columns(), item, fields);
    let ops = read_ops_record(alloc, schema, item, fields);
    let (key, ops) = both_read(key, ops)?;
    Ok(Upsert { key, ops })
}
