//! Operations on single columns. All code that depends on the operation is here, including how each changes an int. Everything else only
//! distinguishes whether an operation sets a value or does arithmetic on an int.
ghost use Rattle.std.specs.Prelude.{◌≡◌, ◌≤◌, ◌∷◌, [], IfOk, length};
ghost use Rattle.bt_row.specs.Arithmetic.{action_of, arithmetic_of_word, new_number, op_making, word_of};
ghost use Rattle.bt_row.specs.Ops as spec;
ghost use Rattle.bt_value.specs.Values.{BytesFit};
ghost use Rattle.bt_row.specs.Views.{action_of_ref};
ghost use Rattle.bt_value.specs.Views.{value_of_ref};

use bt_value::{Sequence, TryClone, Value, ValueRef};
use std::alloc::{AllocError, Global};

/// The word of an operation that sets a value.
pub const SET_WORD: &str = "set";

/// The most operations of an upsert.
pub const MOST_OPS: usize = 16;

/// An operation on the value of one column, counted from 0.
#[derive(Debug, Drop)]
pub enum Op {
    /// Sets the column to this value.
    Set(usize, Value),
    /// Adds the number to an int. The sum stops at the smallest and the largest int of 64 bits.
    Add(usize, i64),
    /// Sets an int to the number if the number is larger.
    Max(usize, i64),
    /// Sets an int to the number if the number is smaller.
    Min(usize, i64),
}

/// What an operation does at a place.
#[derive(Clone, Copy, Debug)]
pub enum Action<'a> {
    /// Sets this value.
    Set(usize, &'a Value),
    /// Combines the int that is there with this number.
    Make(Arithmetic, usize, i64),
}

/// Operations in order.
pub type Ops = Sequence<Op>;

/// The list of this one operation.
pub(crate) fn one_op(alloc: Global, op: Op) -> Result<Ops, AllocError>
    ensures { IfOk result (λ ops. ops ≡ op ∷ []) }
{
    let mut ops = Ops::with_capacity(alloc, 1)?;
    ops.push(op)?;
    Ok(ops)
}

/// How an operation changes an int, given its number.
#[derive(Clone, Copy, Debug, PartialEq, Eq)]
pub enum Arithmetic {
    /// Their sum, which stops at the smallest and the largest int of 64 bits.
    Add,
    /// The larger of the two.
    Max,
    /// The smaller of the two.
    Min,
}

impl Arithmetic {
    /// The arithmetic that a word of the script language names.
    pub fn from_word(word: &[u8]) -> Option<Self>
        ensures { result ≡ arithmetic_of_word word.now }
    {
        match word {
            b"add" => Some(Arithmetic::Add),
            b"max" => Some(Arithmetic::Max),
            b"min" => Some(Arithmetic::Min),
            _ => None,
        }
    }

    /// Its word in the script language.
    pub fn word(self) -> &'static str
        ensures value { result.now ≡ word_of self }
        ensures short { length result.now ≤ 3 }
    {
        match self {
            Arithmetic::Add => "add",
            Arithmetic::Max => "max",
            Arithmetic::Min => "min",
        }
    }

    /// An old number combined with this one.
    pub(crate) fn make(self, old: i64, number: i64) -> i64
        ensures { result ≡ new_number self old number }
    {
        match self {
            Arithmetic::Add => old.saturating_add(number),
            Arithmetic::Max => old.max(number),
            Arithmetic::Min => old.min(number),
        }
    }
}

impl Op {
    /// What the operation does.
    #[inline(always)]
    pub fn action(&self) -> Action<'_>
        ensures { action_of_ref result ≡ action_of self.now }
    {
        match self {
            Op::Set(place, value) => Action::Set(*place, value),
            Op::Add(place, number) => Action::Make(Arithmetic::Add, *place, *number),
            Op::Max(place, number) => Action::Make(Arithmetic::Max, *place, *number),
            Op::Min(place, number) => Action::Make(Arithmetic::Min, *place, *number),
        }
    }

    /// The arithmetic operation with these parts.
    pub fn making(arithmetic: Arithmetic, place: usize, number: i64) -> Self
        ensures { result ≡ op_making arithmetic place number }
    {
        match arithmetic {
            Arithmetic::Add => Op::Add(place, number),
            Arithmetic::Max => Op::Max(place, number),
            Arithmetic::Min => Op::Min(place, number),
        }
    }

    /// The place of the operation's column.
    pub fn place(&self) -> usize
        ensures { result ≡ spec.place_in (action_of self.now) }
    {
        match self.action() {
            Action::Set(place, _) => place,
            Action::Make(_, place, _) => place,
        }
    }

    /// The operation's word in the script language.
    pub fn word(&self) -> &'static str
        ensures value { result.now ≡ spec.word_in (action_of self.now) }
        ensures short { length result.now ≤ 3 }
    {
        match self.action() {
            Action::Set(_, _) => SET_WORD,
            Action::Make(arithmetic, _, _) => arithmetic.word(),
        }
    }

    /// The value that the operation sets, or its number.
    pub fn argument(&self) -> ValueRef<'_>
        ensures value { value_of_ref result ≡ spec.argument_of self.now }
        ensures bytes { BytesFit (value_of_ref result) }
    {
        match self.action() {
            Action::Set(_, value) => value.as_ref(),
            Action::Make(_, _, number) => ValueRef::Int(number),
        }
    }
}

impl TryClone for Op {
    #[tactic(auto, using(crate::proofs::offered::Actions::making_action, crate::proofs::offered::Actions::set_action))]
    fn try_clone(&self, alloc: Global) -> Result<Self, AllocError> {
        match self.action() {
            Action::Set(place, value) => Ok(Op::Set(place, value.try_clone(alloc)?)),
            Action::Make(arithmetic, place, number) => Ok(Op::making(arithmetic, place, number)),
        }
    }
}
