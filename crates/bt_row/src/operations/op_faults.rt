//! Whether operations fit a schema.
ghost use Rattle.std.specs.Prelude.{◌≡◌, OnOk};
ghost use Rattle.std.specs.List.{filter_map};
ghost use Rattle.std.specs.Option.{option_to_list};
ghost use Rattle.bt_row.specs.Fits.{OpInRange, OpsInRange};
ghost use Rattle.bt_row.specs.Ops as spec;
ghost use Rattle.bt_value.specs.Refusals.{lowest, lowest_from};
ghost use Rattle.bt_value.specs.Values.{IsInRange};

use crate::operations::op::{Action, MOST_OPS, Op};
use crate::rows::schema::{Schema, is_of_kind};
use bt_value::{Kind, Refusal, Value, lowest_with};

// The kind of the column at a place, if operations may change it.
fn open_kind(schema: &Schema, place: usize) -> Option<Kind>
    ensures { result ≡ spec.open_kind schema.now place }
{
    if place < schema.keys() {
        return None;
    }
    let column = schema.columns().get(place)?;
    Some(column.kind)
}

// The fault of an operation that sets a value in a column of this kind. `None` means that there is no column that it may change.
fn set_fault(item: u64, value: &Value, kind: Option<Kind>) -> Option<Refusal>
    ensures fault { result ≡ spec.set_fault item value.now kind }
    ensures in_range { IsInRange value.now }
{
    let value = value.as_ref();
    let Some(kind) = kind else {
        return Some(Refusal::NoSuchColumn);
    };
    if is_of_kind(kind, value) {
        return None;
    }
    Some(Refusal::BadField(item))
}

// The fault of an arithmetic operation on a column of this kind. `None` means that there is no column that it may change.
fn number_fault(kind: Option<Kind>) -> Option<Refusal>
    ensures { result ≡ spec.number_fault kind }
{
    match kind {
        None => Some(Refusal::NoSuchColumn),
        Some(Kind::Int) => None,
        Some(_) => Some(Refusal::NotInt),
    }
}

// The fault of an operation, if it has one.
fn fault_of(schema: &Schema, item: u64, op: &Op) -> Option<Refusal>
    ensures fault { result ≡ spec.fault_of schema.now item op.now }
    ensures in_range { OpInRange op.now }
{
    match op.action() {
        Action::Set(place, value) => set_fault(item, value, open_kind(schema, place)),
        Action::Make(_, place, _number) => number_fault(open_kind(schema, place)),
    }
}

// The smaller of a refusal found before, if there was one, and of a fault, if there is one.
fn with_fault(found: Option<Refusal>, fault: Option<Refusal>) -> Option<Refusal>
    ensures { result ≡ lowest_from found (option_to_list fault) }
{
    match fault {
        Some(fault) => Some(lowest_with(found, fault)),
        None => found,
    }
}

// The lowest fault of the operations, if they have one.
fn lowest_fault(schema: &Schema, item: u64, ops: &[Op]) -> Option<Refusal>
    ensures fault { result ≡ lowest (filter_map (spec.fault_of schema.now item) ops.now) }
    ensures in_range { OpsInRange ops.now }
{
    let mut found = None;
    for op in ops {
        found = with_fault(found, fault_of(schema, item, op));
    }
    found
}

/// Whether these are 1 to 16 operations on columns after the key of this schema. Each must have a value of its column or, if it is
/// arithmetic, an int column. They are refused as in `read_ops` of `bt_rowtype`. Takes no memory.
pub fn check_ops(schema: &Schema, item: u64, ops: &[Op]) -> Result<(), Refusal>
    ensures answer { result ≡ spec.checked_ops schema.now item ops.now }
    ensures in_range { OnOk result (OpsInRange ops.now) }
{
    if ops.is_empty() || ops.len() > MOST_OPS {
        return Err(Refusal::BadLength(item));
    }
    match lowest_fault(schema, item, ops) {
        Some(refusal) => Err(refusal),
        None => Ok(()),
    }
}
