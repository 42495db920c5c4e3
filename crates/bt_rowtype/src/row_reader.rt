//! Reading a record as a row or as a key.
ghost use Rattle.std.specs.Prelude.{◌≡◌, ◌≢◌, ◌≤◌, Err, IfSome, None, length, option_map, take};
ghost use Rattle.std.specs.Result.{result_map_both};
ghost use Rattle.bt_value.specs.Answers.{Answers};
ghost use Rattle.bt_value.specs.Views.{value_of_ref};
ghost use Rattle.bt_value.specs.Values.{BytesFit};
ghost use Rattle.bt_value.specs.Results.{or_refused};
ghost use Rattle.bt_row.specs.Schemas.{read_as, values_of};
ghost use Rattle.bt_rowtype.specs.inside.RowGrowth.{with_field, with_read_value};

use bt_record::{Fields, FieldsRef};
use bt_row::{Column, Row, Schema};
use bt_value::{Form, Kind, MOST_VALUE_BYTES, Refusal, ValueRef};
use std::alloc::Global;

// Adds a value that was read. If there is none, returns the refusal of its field as this item.
#[inline(always)]
fn push_read(
    alloc: Global,
    row: &mut Row,
    item: u64,
    read: Option<ValueRef<'_>>,
) -> Result<(), Refusal>
    requires { IfSome read (λ value. BytesFit (value_of_ref value)) }
    ensures answer { Answers (with_read_value item (option_map value_of_ref read.entry) row.old) (result_map_both (λ _. row.new) (λ e. e) result) }
    ensures certain { option_map value_of_ref read.entry ≡ None → result ≡ Err (Refusal.BadField item) }
{
    match read {
        Some(value) => Ok(row.push(alloc, value)?),
        None => Err(Refusal::BadField(item)),
    }
}

// Adds the value that a field encodes, or returns the field's refusal as this item. Its bytes are written into an array first. The
// function is never inlined, so that only such fields have the array on the stack.
#[inline(never)]
fn push_spelled(
    alloc: Global,
    row: &mut Row,
    kind: Kind,
    item: u64,
    field: &[u8],
) -> Result<(), Refusal>
    ensures { Answers (with_field kind item field.now row.old) (result_map_both (λ _. row.new) (λ e. e) result) }
{
    let mut room = [0; MOST_VALUE_BYTES];
    push_read(alloc, row, item, kind.read(field, &mut room))
}

// Adds the value that a field encodes, or returns the field's refusal as this item.
#[inline(always)]
fn push_field(
    alloc: Global,
    row: &mut Row,
    kind: Kind,
    item: u64,
    field: &[u8],
) -> Result<(), Refusal>
    ensures { Answers (with_field kind item field.now row.old) (result_map_both (λ _. row.new) (λ e. e) result) }
{
    if kind.needs_room() {
        return push_spelled(alloc, row, kind, item, field);
    }
    push_read(alloc, row, item, kind.read_lent(field))
}

// The most bytes that a value takes. A value in the form of bytes has no more than its field.
fn room_of(form: Form, field: &[u8]) -> usize {
    match form {
        Form::Number => 9,
        Form::Bytes => field.len().saturating_add(2),
        Form::Bit => 1,
    }
}

// The number of bytes that values of these columns take.
fn room_for_fields(columns: &[Column], fields: &FieldsRef<'_>) -> usize
    requires { length columns.now ≤ length fields.now }
{
    let mut room: usize = 0;
    for (place, column) in columns.iter().enumerate() {
        room = room.saturating_add(room_of(column.kind.form(), fields.get(place)));
    }
    room
}

/// The values that the first fields encode, one for each column.
pub(crate) fn read_fields(
    alloc: Global,
    columns: &[Column],
    item: u64,
    fields: &FieldsRef<'_>,
) -> Result<Row, Refusal>
    requires { length columns.now ≤ length fields.now }
    ensures { Answers (or_refused (Refusal.BadField item) (values_of columns.now (take (length columns.now) fields.now))) result }
{
    let mut row = Row::with_room(alloc, room_for_fields(columns, fields))?;
    for (place, column) in columns.iter().enumerate() {
        push_field(alloc, &mut row, column.kind, item, fields.get(place))?;
    }
    Ok(row)
}

/// The values that fields encode, one for each column.
pub(crate) fn read_values(
    alloc: Global,
    columns: &[Column],
    item: u64,
    fields: &FieldsRef<'_>,
) -> Result<Row, Refusal>
    ensures answer { Answers (read_as columns.now item fields.now) result }
    ensures certain { length fields.now ≢ length columns.now → result ≡ Err (Refusal.BadLength item) }
{
    if fields.len() != columns.len() {
        return Err(Refusal::BadLength(item));
    }
    read_fields(alloc, columns, item, fields)
}

/// The row that a record encodes, one field for each column. `BadLength` if the number of fields differs. Otherwise `BadField` if a field
/// is not a value of its column. Both have this item.
pub fn read_row(alloc: Global, schema: &Schema, item: u64, fields: &Fields) -> Result<Row, Refusal>
    ensures answer { Answers (read_as schema.now.columns item fields.now) result }
    ensures certain { length fields.now ≢ length schema.now.columns → result ≡ Err (Refusal.BadLength item) }
{
    read_values(alloc, schema.columns(), item, &fields.as_ref())
}
