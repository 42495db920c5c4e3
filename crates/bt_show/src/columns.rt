//! The columns of the rows of an index.
ghost use Rattle.std.specs.Prelude.{◌≡◌, ◌<◌, ◌≤◌, ◌++◌, IfOk, IfSome, OnOk, length, map, take};
ghost use Rattle.bt_row.specs.Ops.{named_from};
ghost use Rattle.bt_show.specs.Ranges as spec;
ghost use Rattle.bt_show.specs.inside.Entries.{index_kinds};

use bt_fanout::IndexDef;
use bt_row::{Column, Columns, Schema, find_column};
use bt_value::{Kind, Text};
use std::alloc::{AllocError, Global};

fn copy_column(alloc: Global, column: &Column) -> Result<Column, AllocError>
    ensures { IfOk result (λ copy. copy ≡ column.now) }
{
    Ok(Column {
        name: column.name.copy(alloc)?,
        kind: column.kind,
    })
}

// A copy of the column at a place.
fn column_at(alloc: Global, columns: &[Column], place: usize) -> Result<Column, AllocError>
    ensures { IfOk result (λ column. column ≡ spec.column_in columns.now place) }
{
    match columns.get(place) {
        Some(column) => copy_column(alloc, column),
        None => Ok(Column {
            name: Text::empty(),
            kind: Kind::Flag,
        }),
    }
}

// Appends copies of the columns at places.
fn add_columns(
    alloc: Global,
    shown: &mut Columns,
    columns: &[Column],
    places: &[usize],
) -> Result<(), AllocError>
    ensures { OnOk result (shown.new ≡ shown.old ++ map (spec.column_in columns.now) places.now) }
{
    for place in places {
        shown.push(column_at(alloc, columns, *place)?)?;
    }
    Ok(())
}

/// Appends copies of columns.
pub fn add_all(alloc: Global, shown: &mut Columns, columns: &[Column]) -> Result<(), AllocError>
    ensures { OnOk result (shown.new ≡ shown.old ++ columns.now) }
{
    for column in columns {
        shown.push(copy_column(alloc, column)?)?;
    }
    Ok(())
}

/// Copies of the columns of the rows of an index: those that it is ordered by, the key columns of the table, and those that it includes.
pub fn index_columns(alloc: Global, schema: &Schema, def: &IndexDef) -> Result<Columns, AllocError>
    ensures { IfOk result (λ columns. columns ≡ (spec.index_schema schema.now def.now).columns) }
{
    let mut shown = Columns::new(alloc);
    add_columns(alloc, &mut shown, schema.columns(), def.on())?;
    add_all(alloc, &mut shown, schema.key_columns())?;
    add_columns(alloc, &mut shown, schema.columns(), def.include())?;
    Ok(shown)
}

// The name and the kind of the column at a place; no name and the kind of a flag if there is none.
fn name_and_kind(columns: &[Column], place: usize) -> (&[u8], Kind)
    ensures name { result.0.now ≡ (spec.column_in columns.now place).name }
    ensures kind { result.1 ≡ (spec.column_in columns.now place).kind }
{
    match columns.get(place) {
        Some(column) => (column.name.as_bytes(), column.kind),
        None => (&[], Kind::Flag),
    }
}

// The kinds of the columns at places.
fn kinds_at(alloc: Global, columns: &[Column], places: &[usize]) -> Result<Vec<Kind>, AllocError>
    ensures { IfOk result (λ kinds. kinds.items ≡ map (λ place. (spec.column_in columns.now place).kind) places.now) }
{
    let mut kinds = Vec::new(alloc);
    for place in places {
        let (_name, kind) = name_and_kind(columns, *place);
        kinds.push(kind)?;
    }
    Ok(kinds)
}

/// The kinds of the key columns of an index.
pub fn index_kinds(alloc: Global, schema: &Schema, def: &IndexDef) -> Result<Vec<Kind>, AllocError>
    ensures { IfOk result (λ kinds. kinds.items ≡ index_kinds schema.now def.now) }
{
    let mut kinds = kinds_at(alloc, schema.columns(), def.on())?;
    for column in schema.key_columns() {
        kinds.push(column.kind)?;
    }
    Ok(kinds)
}

// The first of the columns at places that has a name: its position in the list of places, and its kind.
fn find_placed(columns: &[Column], places: &[usize], name: &[u8]) -> Option<(usize, Kind)>
    ensures found { result ≡ named_from 0 name.now (map (spec.column_in columns.now) places.now) }
    ensures within { IfSome result (λ f. f.0 < length places.now) }
{
    for (at, place) in places.iter().enumerate() {
        let (own, kind) = name_and_kind(columns, *place);
        if own == name {
            return Some((at, kind));
        }
    }
    None
}

/// The first column of the rows of an index that has a name: its place and its kind. Allocates nothing.
pub fn find_index_column(schema: &Schema, def: &IndexDef, name: &[u8]) -> Option<(usize, Kind)>
    ensures { result ≡ named_from 0 name.now (spec.index_schema schema.now def.now).columns }
{
    let on = def.on();
    if let Some(found) = find_placed(schema.columns(), on, name) {
        return Some(found);
    }
    let keys = schema.key_columns();
    if let Some((place, kind)) = find_column(keys, 0, name) {
        return Some((on.len() + place, kind));
    }
    let (place, kind) = find_placed(schema.columns(), def.include(), name)?;
    Some((on.len() + keys.len() + place, kind))
}

/// The number of key columns of an index.
pub fn key_count(schema: &Schema, def: &IndexDef) -> usize
    ensures count { result ≡ (spec.index_schema schema.now def.now).keys }
    ensures within { result ≤ length (spec.index_schema schema.now def.now).columns }
{
    def.on().len() + schema.key_columns().len()
}

/// The key columns of an index, which come first.
pub fn key_columns<'a>(schema: &Schema, def: &IndexDef, columns: &'a [Column]) -> &'a [Column]
    requires { columns.now ≡ (spec.index_schema schema.now def.now).columns }
    ensures columns { result.now ≡ take (spec.index_schema schema.now def.now).keys (spec.index_schema schema.now def.now).columns }
    ensures count { length result.now ≡ (spec.index_schema schema.now def.now).keys }
{
    &columns[..key_count(schema, def)]
}
