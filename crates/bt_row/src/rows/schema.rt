//! The columns of a table.
ghost use Rattle.std.specs.Prelude.{◌≡◌, ◌≤◌, Ok, Err, if◌then◌else◌, drop, length, take};
ghost use Rattle.bt_row.specs.Ops.{named_from};
ghost use Rattle.bt_row.specs.Schemas.{are_apart, checked_as, fit_columns, has_column as has_column_named, is_schema};
ghost use Rattle.bt_value.specs.Values.{AreInRange, fits_kind};
ghost use Rattle.bt_value.specs.Views.{value_of_ref};

use crate::rows::row::Row;
use crate::rows::values::Values;
use bt_value::{Kind, Refusal, Sequence, Text, ValueRef};
use std::marker::Model;

/// The most columns of a table.
pub const MOST_COLUMNS: usize = 16;

/// The most columns of a key.
pub const MOST_KEYS: usize = 4;

/// A column: its name and its kind.
#[derive(Debug, Drop)]
pub struct Column {
    /// Its name. No other column of a schema has the same.
    pub name: Text,
    /// The kind of its values.
    pub kind: Kind,
}

/// Columns in order.
pub type Columns = Sequence<Column>;

/// The columns of a table. The first of them are its key.
#[derive(Debug, Drop)]
pub struct Schema {
    columns: Columns,
    keys: usize,
}

impl Model for Schema {
    ghost use Rattle.bt_row.specs.Fits.{IsSchema};
    ghost use Rattle.bt_row.specs.Schemas as schemas;

    ghost Value = { schemas.Schema };

    ghost view = { λ a. record { columns = a.columns; keys = a.keys } };

    ghost invariant = { λ a. IsSchema a.columns a.keys };
}

impl Schema {
    /// The schema of these columns, with the first `keys` as the key. It is refused as `BadSchema` unless it has 1 to 16 columns with
    /// different names, and 1 to 4 of them are key columns.
    pub fn new(columns: Columns, keys: usize) -> Result<Self, Refusal>
        ensures { result ≡ (if is_schema columns keys then Ok (record { columns = columns; keys = keys }) else Err Refusal.BadSchema) }
    {
        if is_schema_of(columns.as_slice(), keys) {
            Ok(Schema { columns, keys })
        } else {
            Err(Refusal::BadSchema)
        }
    }

    /// All columns, in order.
    pub fn columns(&self) -> &[Column]
        ensures { result.now ≡ self.now.columns }
    {
        self.columns.as_slice()
    }

    /// The columns of the key.
    pub fn key_columns(&self) -> &[Column]
        ensures value { result.now ≡ take self.now.keys self.now.columns }
        ensures within { self.now.keys ≤ length self.now.columns }
    {
        &self.columns.as_slice()[..self.keys]
    }

    /// The number of key columns.
    pub fn keys(&self) -> usize
        ensures value { result ≡ self.now.keys }
        ensures within { self.now.keys ≤ length self.now.columns }
    {
        self.keys
    }

    /// Whether a row fits this schema. `BadLength` if its length differs, `BadField` if a value is not of its column. Takes no memory.
    pub fn check_row(&self, item: u64, row: &Row) -> Result<(), Refusal>
        ensures answer { result ≡ checked_as self.now.columns item row.now }
        ensures in_range { AreInRange row.now }
    {
        check_values(self.columns.as_slice(), item, row)
    }

    /// Whether values fit the key columns of this schema, one value for each. They are refused as in [`Schema::check_row`].
    pub fn check_key(&self, item: u64, key: &Row) -> Result<(), Refusal>
        ensures answer { result ≡ checked_as (take self.now.keys self.now.columns) item key.now }
        ensures in_range { AreInRange key.now }
    {
        check_values(self.key_columns(), item, key)
    }
}

// Whether values fit columns, or their refusal as this item.
fn check_values(columns: &[Column], item: u64, values: &Row) -> Result<(), Refusal>
    ensures answer { result ≡ checked_as columns.now item values.now }
    ensures in_range { AreInRange values.now }
{
    values.soundness();
    if values.len() != columns.len() {
        return Err(Refusal::BadLength(item));
    }
    if are_of_columns(columns, values.values()) {
        Ok(())
    } else {
        Err(Refusal::BadField(item))
    }
}

/// The first column with this name from a place on, counted from 0: its place and its kind.
pub fn find_column(columns: &[Column], start: usize, name: &[u8]) -> Option<(usize, Kind)>
    ensures { result ≡ named_from start name.now (drop start columns.now) }
{
    for place in start..columns.len() {
        let column = &columns[place];
        if column.name.as_bytes() == name {
            return Some((place, column.kind));
        }
    }
    None
}

// Whether values are of the kinds of their columns, one value for each column.
fn are_of_columns(columns: &[Column], values: Values<'_>) -> bool
    ensures { result ≡ fit_columns columns.now values.entry }
{
    let mut rest = values;
    for column in columns {
        let Some(value) = rest.next() else {
            return false;
        };
        if !is_of_kind(column.kind, value) {
            return false;
        }
    }
    rest.is_empty()
}

/// Whether a value is of a kind.
#[tactic(auto, using(bt_value::proofs::offered::Kinds::tags_agree))]
pub(crate) fn is_of_kind(kind: Kind, value: ValueRef<'_>) -> bool
    ensures { result ≡ fits_kind kind (value_of_ref value.entry) }
{
    value.kind().tag() == kind.tag() && kind.takes(value.content())
}

// Whether these columns, with the first `keys` as the key, are a schema.
fn is_schema_of(columns: &[Column], keys: usize) -> bool
    ensures { result ≡ is_schema columns.now keys }
{
    if columns.is_empty() || columns.len() > MOST_COLUMNS {
        return false;
    }
    if keys == 0 || keys > MOST_KEYS || keys > columns.len() {
        return false;
    }
    names_differ(columns)
}

// Whether a column has this name.
fn has_column(columns: &[Column], name: &Text) -> bool
    ensures { result ≡ has_column_named name.now columns.now }
{
    columns
        .iter()
        .any(|column| column.name.as_bytes() == name.as_bytes())
}

// Whether no two columns have the same name.
fn names_differ(columns: &[Column]) -> bool
    ensures { result ≡ are_apart columns.now }
{
    let mut rest = columns;
    while let [first, others @ ..] = rest {
        if has_column(others, &first.name) {
            return false;
        }
        rest = others;
    }
    true
}
