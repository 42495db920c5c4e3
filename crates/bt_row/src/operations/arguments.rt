//! Iterating over the arguments of the operations of a change.
ghost use Rattle.std.specs.Prelude.{◌≡◌, ◌∷◌, [], IfSome, IfNone, map};
ghost use Rattle.bt_row.specs.Ops.{argument_of};
ghost use Rattle.bt_value.specs.Values.{BytesFit};
ghost use Rattle.bt_value.specs.Views.{value_of_ref};
ghost use Rattle.bt_value.specs.declared.value.Value.TheVariants as value;

use crate::operations::op::Op;
use bt_value::ValueRef;
use std::marker::Model;

/// The remaining arguments of operations: the value that each sets, or its number. A contract sees the list of them.
#[derive(Drop)]
pub struct Arguments<'a> {
    // the number of one operation, before the operations
    number: Option<i64>,
    ops: &'a [Op],
}

impl<'a> Model for Arguments<'a> {
    ghost use Rattle.std.specs.Prelude.{List};
    ghost use Rattle.bt_value.specs.declared.value.Value.{Value as value};
    ghost use Rattle.bt_row.specs.inside.Arguments.{arguments_left};

    ghost Value = { List value };

    ghost view = { λ a. arguments_left a.number a.ops.now };
}

impl<'a> Arguments<'a> {
    /// The argument of one arithmetic operation.
    pub(crate) fn of_number(number: i64) -> Self
        ensures { result ≡ value.Int number ∷ [] }
    {
        Arguments {
            number: Some(number),
            ops: &[],
        }
    }

    /// The arguments of these operations.
    pub(crate) fn of(ops: &'a [Op]) -> Self
        ensures { result ≡ map argument_of ops.now }
    {
        Arguments { number: None, ops }
    }

    /// The next argument, if there is one.
    pub fn next(&mut self) -> Option<ValueRef<'a>>
        ensures some { IfSome result (λ argument. self.old ≡ value_of_ref argument ∷ self.new) }
        ensures bytes { IfSome result (λ argument. BytesFit (value_of_ref argument)) }
        ensures none { IfNone result ((self.old ≡ []) × (self.new ≡ [])) }
    {
        if let Some(number) = self.number {
            self.number = None;
            return Some(ValueRef::Int(number));
        }
        let [op, rest @ ..] = self.ops else {
            return None;
        };
        self.ops = rest;
        Some(op.argument())
    }
}
