//! The row after operations, and the row that a key begins with.
ghost use Rattle.std.specs.Prelude.{◌≡◌, IfOk, OnOk, drop};
ghost use Rattle.bt_row.specs.Ops as spec;

use crate::operations::lent_row::LentRow;
use crate::operations::op::{Action, Op};
use crate::rows::row::{Row, width_of_value};
use crate::rows::schema::{Column, Schema};
use std::alloc::{AllocError, Global};

// The columns after the key.
fn open_columns(schema: &Schema) -> &[Column]
    ensures { result.now ≡ drop schema.now.keys schema.now.columns }
{
    &schema.columns()[schema.keys()..]
}

// The number of bytes that the defaults of these columns take.
fn room_for_defaults(columns: &[Column]) -> usize {
    let mut room: usize = 0;
    for column in columns {
        room = room.saturating_add(width_of_value(column.kind.default_value()));
    }
    room
}

/// The first row of a key: the key's values, then 0, the empty text, `false` or no bytes in each other column.
pub fn default_row(alloc: Global, schema: &Schema, key: Row) -> Result<Row, AllocError>
    ensures { IfOk result (λ row. row ≡ spec.default_row schema.now key) }
{
    let columns = open_columns(schema);
    let mut row = key.with_more_room(alloc, room_for_defaults(columns))?;
    for column in columns {
        row.push(alloc, column.kind.default_value())?;
    }
    Ok(row)
}

// Applies one operation to a row.
fn apply_op(alloc: Global, row: &mut Row, op: &Op) -> Result<(), AllocError>
    ensures { OnOk result (row.new ≡ spec.after_op row.old op.now) }
{
    match op.action() {
        Action::Set(place, value) => row.set(alloc, place, value.as_ref()),
        Action::Make(arithmetic, place, number) => {
            row.make(arithmetic, place, number);
            Ok(())
        }
    }
}

// The row after the operations, in order. Each of them writes the row.
fn after_each(alloc: Global, row: Row, ops: &[Op]) -> Result<Row, AllocError>
    ensures { IfOk result (λ after. after ≡ spec.after_ops ops.now row) }
{
    let mut after = row;
    for op in ops {
        apply_op(alloc, &mut after, op)?;
    }
    Ok(after)
}

// The row after the operations, in order. The row is written once, at the end.
fn after_all(alloc: Global, row: &Row, ops: &[Op]) -> Result<Row, AllocError>
    ensures { IfOk result (λ after. after ≡ spec.after_ops ops.now row.now) }
{
    let mut values = LentRow::of(alloc, row)?;
    for op in ops {
        values.apply(op);
    }
    values.pack(alloc)
}

// The number of operations that set a value.
fn set_count(ops: &[Op]) -> usize {
    let mut sets: usize = 0;
    for op in ops {
        if let Op::Set(_, _) = op {
            sets = sets.saturating_add(1);
        }
    }
    sets
}

// Whether the operations set enough values that it is faster to read all values first and to write the row once.
fn sets_many(row: &Row, ops: &[Op]) -> bool {
    let sets = set_count(ops);
    sets > 1 && sets > row.len() / 4
}

/// The row after the operations, in order. An operation does nothing if the row does not have its place, or if it is arithmetic and the
/// value is not an int.
///
/// Arithmetic writes its result in place and takes no memory.
pub fn apply_ops(alloc: Global, row: Row, ops: &[Op]) -> Result<Row, AllocError>
    ensures { IfOk result (λ after. after ≡ spec.after_ops ops.now row) }
{
    if sets_many(&row, ops) {
        after_all(alloc, &row, ops)
    } else {
        after_each(alloc, row, ops)
    }
}
