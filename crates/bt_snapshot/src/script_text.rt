//! The script of a snapshot. Its text needs no contract: a snapshot is restored when it is made, and counts only if the definitions are then the same.
use bt_fanout::{Condition, IndexDef};
use bt_form::Shape;
use bt_messages::Measure;
use bt_row::{Column, Row, Schema, Test, write_row};
use bt_table::{IndexRefs, TreeRefs};
use bt_value::{Kind, Text, write_number};
use std::alloc::{AllocError, Global};
use std::slice;

// The word of a kind.
fn word_of(kind: Kind) -> &'static [u8] {
    match kind {
        Kind::Int => b"int",
        Kind::Text => b"text",
        Kind::Flag => b"flag",
        Kind::Bytes => b"bytes",
    }
}

// Appends a space and the name and the kind of each column.
fn write_columns(out: &mut Vec<u8>, columns: &[Column]) -> Result<(), AllocError> {
    for column in columns {
        out.push(b' ')?;
        out.extend_from_slice(column.name.as_bytes())?;
        out.push(b':')?;
        out.extend_from_slice(word_of(column.kind))?;
    }
    Ok(())
}

// Appends the command that makes the table.
fn write_table(out: &mut Vec<u8>, schema: &Schema, shape: Shape) -> Result<(), AllocError> {
    let unit: &[u8] = match shape.measure() {
        Measure::Messages => b" ",
        Measure::Bytes => b"b ",
    };
    out.extend_from_slice(b"table ")?;
    write_number(out, shape.fanout() as u64)?;
    out.push(b' ')?;
    write_number(out, shape.buffer() as u64)?;
    out.extend_from_slice(unit)?;
    write_number(out, shape.leaf() as u64)?;
    out.push(b' ')?;
    write_number(out, schema.keys() as u64)?;
    write_columns(out, schema.columns())?;
    out.push(b'\n')?;
    Ok(())
}

// Appends the name of the column at a place. A definition has places of columns only.
fn write_name(out: &mut Vec<u8>, columns: &[Column], place: usize) -> Result<(), AllocError> {
    match columns.get(place) {
        Some(column) => out.extend_from_slice(column.name.as_bytes()),
        None => Ok(()),
    }
}

// Appends a word and the names of the columns at places, with commas between them.
fn write_names(
    out: &mut Vec<u8>,
    word: &[u8],
    columns: &[Column],
    places: &[usize],
) -> Result<(), AllocError> {
    out.extend_from_slice(word)?;
    let mut separator = b' ';
    for place in places {
        out.push(separator)?;
        write_name(out, columns, *place)?;
        separator = b',';
    }
    Ok(())
}

fn word_of_test(test: Test) -> &'static [u8] {
    match test {
        Test::Equal => b" = ",
        Test::Less => b" < ",
        Test::AtLeast => b" >= ",
    }
}

// Appends the condition on the rows of an index.
fn write_condition(
    alloc: Global,
    out: &mut Vec<u8>,
    columns: &[Column],
    condition: &Condition,
) -> Result<(), AllocError> {
    out.extend_from_slice(b" where ")?;
    write_name(out, columns, condition.place)?;
    out.extend_from_slice(word_of_test(condition.test))?;
    let constant = Row::from_values(alloc, slice::from_ref(&condition.constant))?;
    write_row(out, &constant)
}

// Appends the commands that create an index and complete it, while the table has no rows.
fn write_index(
    alloc: Global,
    out: &mut Vec<u8>,
    columns: &[Column],
    name: &Text,
    def: &IndexDef,
) -> Result<(), AllocError> {
    out.extend_from_slice(b"index ")?;
    out.extend_from_slice(name.as_bytes())?;
    write_names(out, b" on", columns, def.on())?;
    if !def.include().is_empty() {
        write_names(out, b" include", columns, def.include())?;
    }
    if let Some(condition) = def.condition() {
        write_condition(alloc, out, columns, condition)?;
    }
    out.extend_from_slice(b"\nbuild ")?;
    out.extend_from_slice(name.as_bytes())?;
    out.extend_from_slice(b" 1\n")
}

// Appends the commands of indexes.
fn write_indexes(
    alloc: Global,
    out: &mut Vec<u8>,
    columns: &[Column],
    indexes: IndexRefs<'_>,
) -> Result<(), AllocError> {
    let mut rest = indexes;
    while let Some(index) = rest.next() {
        write_index(alloc, out, columns, &index.head.name, &index.head.def)?;
    }
    Ok(())
}

/// Appends the script that makes a table with the same definitions.
pub(crate) fn write_script(
    alloc: Global,
    out: &mut Vec<u8>,
    trees: &TreeRefs<'_>,
) -> Result<(), AllocError> {
    write_table(out, trees.schema, trees.rows.shape())?;
    write_indexes(alloc, out, trees.schema.columns(), trees.indexes)
}
