//! The values of a row while operations change them.
ghost use Rattle.std.specs.Prelude.{◌≡◌, IfOk, set};
ghost use Rattle.bt_row.specs.Arithmetic.{new_value};
ghost use Rattle.bt_row.specs.Ops.{after_op};
ghost use Rattle.bt_value.specs.Values.{BytesFit};
ghost use Rattle.bt_value.specs.Views.{value_of_ref};

use crate::operations::op::{Action, Arithmetic, Op};
use crate::rows::row::{Row, width_of_value};
use crate::rows::schema::MOST_COLUMNS;
use bt_value::ValueRef;
use std::alloc::{AllocError, Global};
use std::marker::Model;

/// The values of a row, each borrowed from the row or from the operation that set it. A contract sees the list of them.
#[derive(Drop)]
pub(crate) struct LentRow<'a> {
    values: Vec<ValueRef<'a>>,
}

impl<'a> Model for LentRow<'a> {
    ghost use Rattle.std.specs.Prelude.{List, map};
    ghost use Rattle.std.specs.List.{All};
    ghost use Rattle.bt_value.specs.Values.{BytesFit};
    ghost use Rattle.bt_value.specs.Views.{value_of_ref};
    ghost use Rattle.bt_value.specs.declared.value.Value.{Value as value};

    ghost Value = { List value };

    ghost view = { λ a. map value_of_ref a.values.items };

    ghost invariant = { λ a. All BytesFit (map value_of_ref a.values.items) };
}

// An int combined with a number. Any other value is unchanged.
fn made_value(arithmetic: Arithmetic, number: i64, value: ValueRef<'_>) -> ValueRef<'_>
    ensures value { value_of_ref result ≡ new_value arithmetic number (value_of_ref value.entry) }
    ensures bytes { BytesFit (value_of_ref value.entry) → BytesFit (value_of_ref result) }
{
    match value {
        ValueRef::Int(old) => ValueRef::Int(arithmetic.make(old, number)),
        other => other,
    }
}

impl<'a> LentRow<'a> {
    /// The values of a row.
    pub(crate) fn of(alloc: Global, row: &'a Row) -> Result<Self, AllocError>
        ensures { IfOk result (λ lent. lent ≡ row.now) }
    {
        let mut values = Vec::with_capacity(alloc, MOST_COLUMNS)?;
        let mut rest = row.values();
        while let Some(value) = rest.next() {
            values.push(value)?;
        }
        Ok(LentRow { values })
    }

    // Sets the value at a place, if there is one.
    fn set(&mut self, place: usize, value: ValueRef<'a>)
        requires { BytesFit (value_of_ref value) }
        ensures { self.new ≡ set self.old place (value_of_ref value.entry) }
    {
        if place < self.values.len() {
            self.values[place] = value;
        }
    }

    /// Applies one operation to the values.
    pub(crate) fn apply(&mut self, op: &'a Op)
        ensures { self.new ≡ after_op self.old op.now }
    {
        match op.action() {
            Action::Set(place, value) => self.set(place, value.as_ref()),
            Action::Make(arithmetic, place, number) => {
                if place < self.values.len() {
                    let old = self.values[place];
                    self.set(place, made_value(arithmetic, number, old));
                }
            }
        }
    }

    /// The row with these values.
    pub(crate) fn pack(&self, alloc: Global) -> Result<Row, AllocError>
        ensures { IfOk result (λ row. row ≡ self.now) }
    {
        let values = self.values.as_slice();
        let mut row = Row::with_room(alloc, room_for_lent(values))?;
        for value in values {
            row.push(alloc, *value)?;
        }
        Ok(row)
    }
}

// The number of bytes that the values take.
fn room_for_lent(values: &[ValueRef<'_>]) -> usize {
    let mut room: usize = 0;
    for value in values {
        room = room.saturating_add(width_of_value(*value));
    }
    room
}
