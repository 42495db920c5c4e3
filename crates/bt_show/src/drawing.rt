//! How values are written in the image of a tree.
ghost use Rattle.std.specs.Prelude.{◌≡◌, ◌≤◌, ◌++◌, ◌∷◌, [], IfOk, List, OnOk, flat_map, get_or, length, map, ℕ};
ghost use Rattle.bt_value.specs.declared.value.Value.TheVariants as value;
ghost use Rattle.bt_show.specs.Images as spec;

use bt_messages::{Entry, Merge};
use bt_row::{Change, Column, Op, Row, write_row};
use bt_value::{MOST_VALUE_BYTES, Text, Value};
use std::alloc::{AllocError, Global};

/// How the values of a tree are written in their lines, each after its key.
pub trait Drawing<V: Merge> {
    /// The text after the key of a value, with the space before it.
    ghost value_text: { Self → V → List ℕ };

    /// The text after the key of an upsert, with the space before it.
    ghost delta_text: { Self → V.Delta → List ℕ };

    /// Appends the text after the key of a value.
    fn write_value(&self, out: &mut Vec<u8>, value: &V) -> Result<(), AllocError>
        ensures { OnOk result (out.new.items ≡ out.old.items ++ value_text self.now value.now) };

    /// Appends the text after the key of an upsert.
    fn write_delta(
        &self,
        alloc: Global,
        out: &mut Vec<u8>,
        delta: &V::Delta,
    ) -> Result<(), AllocError>
        ensures { OnOk result (out.new.items ≡ out.old.items ++ delta_text self.now delta.now) };
}

// Appends a space and the record of values.
fn write_row_text(out: &mut Vec<u8>, values: &Row) -> Result<(), AllocError>
    ensures { OnOk result (out.new.items ≡ out.old.items ++ spec.row_text values.now) }
{
    out.push(b' ')?;
    write_row(out, values)
}

// A copy of the name of the column at a place, or the empty text if there is none.
fn name_at(alloc: Global, columns: &[Column], place: usize) -> Result<Text, AllocError>
    ensures { IfOk result (λ name. name ≡ get_or (map (λ c. c.name) columns.now) place []) }
{
    match columns.get(place) {
        Some(column) => column.name.copy(alloc),
        None => Ok(Text::empty()),
    }
}

// Appends the values of an operation: its word, the name of its column, its argument.
fn push_op(
    alloc: Global,
    values: &mut Vec<Value>,
    word: &str,
    name: Text,
    argument: Value,
) -> Result<(), AllocError>
    requires { length word.now ≤ MOST_VALUE_BYTES }
    ensures { OnOk result (values.new.items ≡ values.old.items ++ (value.Text word.now ∷ value.Text name ∷ argument ∷ [])) }
{
    if let Err(error) = values.reserve(3) {
        drop(name);
        drop(argument);
        return Err(error);
    }
    let word = match Text::new(alloc, word) {
        Ok(word) => word,
        Err(error) => {
            drop(name);
            drop(argument);
            return Err(error);
        }
    };
    values.push_reserved(Value::Text(word));
    values.push_reserved(Value::Text(name));
    values.push_reserved(argument);
    Ok(())
}

// Appends an operation on one of these columns as values.
fn add_op(
    alloc: Global,
    values: &mut Vec<Value>,
    columns: &[Column],
    op: &Op,
) -> Result<(), AllocError>
    ensures { OnOk result (values.new.items ≡ values.old.items ++ spec.values_of_op columns.now op.now) }
{
    let name = name_at(alloc, columns, op.place())?;
    let argument = op.argument().to_value(alloc)?;
    push_op(alloc, values, op.word(), name, argument)
}

// Operations on these columns as values.
fn values_of_ops(alloc: Global, columns: &[Column], ops: &[Op]) -> Result<Vec<Value>, AllocError>
    ensures { IfOk result (λ values. values.items ≡ flat_map (spec.values_of_op columns.now) ops.now) }
{
    let mut values = Vec::new(alloc);
    for op in ops {
        add_op(alloc, &mut values, columns, op)?;
    }
    Ok(values)
}

/// How rows with these columns are written.
#[derive(Drop)]
pub struct RowDrawing<'a> {
    pub columns: &'a [Column],
}

impl<'a> Drawing<Row> for RowDrawing<'a> {
    ghost value_text = { λ _. spec.row_text };

    ghost delta_text = { λ d. spec.change_text d.columns.now };

    fn write_value(&self, out: &mut Vec<u8>, row: &Row) -> Result<(), AllocError> {
        write_row_text(out, row)
    }

    fn write_delta(
        &self,
        alloc: Global,
        out: &mut Vec<u8>,
        change: &Change,
    ) -> Result<(), AllocError> {
        let ops = change.ops(alloc)?;
        let values = values_of_ops(alloc, self.columns, ops.as_slice())?;
        let row = Row::from_values(alloc, values.as_slice())?;
        write_row_text(out, &row)
    }
}

// Appends a space and the included columns, if there are any.
fn write_entry(out: &mut Vec<u8>, entry: &Entry) -> Result<(), AllocError>
    ensures { OnOk result (out.new.items ≡ out.old.items ++ spec.entry_text entry.now) }
{
    let values = entry.as_row();
    if values.len() == 0 {
        return Ok(());
    }
    write_row_text(out, values)
}

/// How index values are written.
#[derive(Drop)]
pub struct EntryDrawing;

impl Drawing<Entry> for EntryDrawing {
    ghost value_text = { λ _. spec.entry_text };

    ghost delta_text = { λ _. spec.entry_text };

    fn write_value(&self, out: &mut Vec<u8>, entry: &Entry) -> Result<(), AllocError> {
        write_entry(out, entry)
    }

    fn write_delta(
        &self,
        _alloc: Global,
        out: &mut Vec<u8>,
        entry: &Entry,
    ) -> Result<(), AllocError> {
        write_entry(out, entry)
    }
}
