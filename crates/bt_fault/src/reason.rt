//! The reason of a refusal.
ghost use Rattle.std.specs.Prelude.{◌≡◌};
ghost use Rattle.bt_value.specs.Refusals.{is_lower};
ghost use Rattle.bt_fault.specs.Reasons as spec;

use crate::problem::Problem;
use bt_value::Refusal;

/// Why a call is refused: the item and the field at fault, and what is wrong with it.
#[derive(Clone, Copy, Debug, PartialEq, Eq)]
pub struct Reason {
    /// The refusal.
    pub refusal: Refusal,
    /// The item at fault, counted from 1: a line of a batch, a record after the header of a load, the key of a get, or 1 for the lower bound of a range and 2
    /// for the upper one; 0 if it is the header of a load.
    pub item: u64,
    /// The field of the item at fault, counted from 1; 0 if it is no single one.
    pub field: u64,
    /// What is wrong with it.
    pub problem: Problem,
}

impl Reason {
    /// A refusal at a field of an item.
    pub(crate) fn at(refusal: Refusal, item: u64, field: u64, problem: Problem) -> Self
        ensures { result ≡ spec.reason_at refusal item field problem }
    {
        Reason {
            refusal,
            item,
            field,
            problem,
        }
    }

    /// An item has a wrong number of fields.
    pub(crate) fn wrong_count(item: u64) -> Self
        ensures { result ≡ spec.wrong_count item }
    {
        Reason::at(Refusal::BadLength(item), item, 0, Problem::FieldCount)
    }
}

// Whether a refusal has the smaller number or, of equal numbers, the smaller item.
fn is_before(one: Refusal, other: Refusal) -> bool
    ensures { result ≡ is_lower one other }
{
    let (number, other_number) = (one.number(), other.number());
    if number != other_number {
        return number < other_number;
    }
    one.item().unwrap_or(0) < other.item().unwrap_or(0)
}

/// Of two reasons the one with the lower refusal, and the first if they have the same.
pub(crate) fn lower_reason(first: Option<Reason>, second: Option<Reason>) -> Option<Reason>
    ensures { result ≡ spec.lower_reason first second }
{
    let Some(one) = first else {
        return second;
    };
    match second {
        Some(other) if is_before(other.refusal, one.refusal) => Some(other),
        _ => Some(one),
    }
}
