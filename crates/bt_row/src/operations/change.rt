//! Changes: what an upsert does to the row of its key.
ghost use Rattle.std.specs.Prelude.{◌≡◌, ◌∷◌, [], IfOk, IfSome, map};
ghost use Rattle.bt_row.specs.inside.Changes.{ops_in};
ghost use Rattle.bt_row.specs.Ops as spec;

use crate::operations::apply::apply_ops;
use crate::operations::arguments::Arguments;
use crate::operations::op::{Action, Arithmetic, Op, Ops, one_op};
use crate::rows::row::{Row, copy_row};
use bt_value::{Sequence, clone_all};
use std::alloc::{AllocError, Global};
use std::marker::Model;

// The operations of a change, as the change stores them.
#[derive(Debug, Drop)]
enum ChangeOps {
    // a single arithmetic operation
    One(Arithmetic, u16, i64),
    // any other operations
    List(Box<Ops>),
}

/// What an upsert does to the row of its key. A change has operations, which are applied in order, and the row to begin with if the
/// key has none: the key's values and the default of each other column. A contract sees `base` and `ops`.
///
/// A single arithmetic operation is stored in the change itself and takes no memory of its own.
#[derive(Debug, Drop)]
pub struct Change {
    base: Row,
    ops: ChangeOps,
}

const _: () = prove!(size_of::<Change>() == 48);

impl Model for Change {
    ghost use Rattle.bt_row.specs.inside.Changes.{ops_in};
    ghost use Rattle.bt_row.specs.Ops as spec;

    ghost Value = { spec.Change };

    ghost view = { λ a. record { base = a.base; ops = ops_in a.ops } };
}

// The operation as a change stores it in itself, if it is arithmetic.
#[tactic(auto, using(crate::proofs::offered::Actions::making_action))]
fn one_making(op: &Op) -> Option<ChangeOps>
    ensures { IfSome result (λ kept. ops_in kept ≡ op.now ∷ []) }
{
    match op.action() {
        Action::Make(arithmetic, place, number) if place <= u16::MAX as usize => {
            Some(ChangeOps::One(arithmetic, place as u16, number))
        }
        _ => None,
    }
}

// The operations as a change stores them.
fn change_ops(alloc: Global, ops: Ops) -> Result<ChangeOps, AllocError>
    ensures { IfOk result (λ kept. ops_in kept ≡ ops) }
{
    if let [op] = ops.as_slice()
        && let Some(kept) = one_making(op)
    {
        return Ok(kept);
    }
    Ok(ChangeOps::List(Box::new(alloc, ops)?))
}

// A single operation as a change stores it. An arithmetic one needs no list.
fn change_ops_of_one(alloc: Global, op: Op) -> Result<ChangeOps, AllocError>
    ensures { IfOk result (λ kept. ops_in kept ≡ op ∷ []) }
{
    if let Some(kept) = one_making(&op) {
        return Ok(kept);
    }
    let ops = one_op(alloc, op)?;
    Ok(ChangeOps::List(Box::new(alloc, ops)?))
}

// A copy of operations.
fn copy_ops(alloc: Global, ops: &Ops) -> Result<Ops, AllocError>
    ensures { IfOk result (λ copy. copy ≡ ops.now) }
{
    Ok(Sequence::from_vec(clone_all(alloc, ops.as_slice())?))
}

// A copy of the operations of a change.
fn copy_change_ops(alloc: Global, kept: &ChangeOps) -> Result<ChangeOps, AllocError>
    ensures { IfOk result (λ copy. ops_in copy ≡ ops_in kept.now) }
{
    match kept {
        ChangeOps::One(arithmetic, place, number) => Ok(ChangeOps::One(
            *arithmetic,
            *place,
            *number,
        )),
        ChangeOps::List(ops) => Ok(ChangeOps::List(Box::new(alloc, copy_ops(alloc, ops)?)?)),
    }
}

// The row after the operations.
fn after(alloc: Global, row: Row, kept: &ChangeOps) -> Result<Row, AllocError>
    ensures { IfOk result (λ after. after ≡ spec.after_ops (ops_in kept.now) row) }
{
    match kept {
        ChangeOps::One(arithmetic, place, number) => {
            let mut row = row;
            row.make(*arithmetic, *place as usize, *number);
            Ok(row)
        }
        ChangeOps::List(ops) => apply_ops(alloc, row, ops.as_slice()),
    }
}

impl Change {
    /// The change with this first row and these operations.
    pub fn new(alloc: Global, base: Row, ops: Ops) -> Result<Self, AllocError>
        ensures base { IfOk result (λ change. change.base ≡ base) }
        ensures ops { IfOk result (λ change. change.ops ≡ ops) }
    {
        Ok(Change {
            base,
            ops: change_ops(alloc, ops)?,
        })
    }

    /// The change with this first row and this one operation.
    pub fn of_one(alloc: Global, base: Row, op: Op) -> Result<Self, AllocError>
        ensures base { IfOk result (λ change. change.base ≡ base) }
        ensures ops { IfOk result (λ change. change.ops ≡ op ∷ []) }
    {
        Ok(Change {
            base,
            ops: change_ops_of_one(alloc, op)?,
        })
    }

    /// The row to begin with if the key has none.
    pub fn base(&self) -> &Row
        ensures { result.now ≡ self.now.base }
    {
        &self.base
    }

    /// A copy of the operations.
    pub fn ops(&self, alloc: Global) -> Result<Ops, AllocError>
        ensures { IfOk result (λ ops. ops ≡ self.now.ops) }
    {
        match &self.ops {
            ChangeOps::One(arithmetic, place, number) => {
                one_op(alloc, Op::making(*arithmetic, *place as usize, *number))
            }
            ChangeOps::List(ops) => copy_ops(alloc, ops),
        }
    }

    /// An iterator over the arguments of the operations.
    pub fn arguments(&self) -> Arguments<'_>
        ensures { result ≡ map spec.argument_of self.now.ops }
    {
        match &self.ops {
            ChangeOps::One(_, _, number) => Arguments::of_number(*number),
            ChangeOps::List(ops) => Arguments::of(ops.as_slice()),
        }
    }

    /// The row after the change. If there is no old row, the change applies to the row to begin with. The result of a single arithmetic
    /// operation is written in place.
    pub fn apply(&self, alloc: Global, old: Option<Row>) -> Result<Row, AllocError>
        ensures { IfOk result (λ new. new ≡ spec.merged old self.now) }
    {
        let row = match old {
            Some(row) => row,
            None => copy_row(alloc, &self.base)?,
        };
        after(alloc, row, &self.ops)
    }
}

/// A copy of a change.
pub fn copy_change(alloc: Global, change: &Change) -> Result<Change, AllocError>
    ensures { IfOk result (λ copy. copy ≡ change.now) }
{
    Ok(Change {
        base: copy_row(alloc, &change.base)?,
        ops: copy_change_ops(alloc, &change.ops)?,
    })
}
