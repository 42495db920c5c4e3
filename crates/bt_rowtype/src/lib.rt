//! Typed rows: reading records by the columns of a table.
//!
//! A field of a record is read by the kind of its column and becomes a [`Value`]: an int, a text, a flag or bytes. A record becomes a
//! [`Row`], or is refused with a number, a name and the item at fault. The record of an upsert becomes a key and operations ([`Op`]) that
//! change single columns of a row. Together with the row to begin with, they are a [`Change`].
//!
//! The records of a CSV text are borrowed one after the other ([`Records`]). A [`RecordReader`] reads rows, keys and changes directly from
//! lines. If you already have owned [`Fields`], then [`read_row`], [`read_key`] and [`read_ops`] return the same, and [`is_header`]
//! compares them with the names of columns.
//!
//! The crate depends on three crates: `bt_value` has kinds, values and refusals, `bt_record` cuts texts into records and fields, and
//! `bt_row` has rows, schemas and operations. This crate re-exports the parts of them that most callers need. A crate that needs only
//! one of the three can depend on that one.
//!
//! ```text
//! let mut columns = Columns::new(alloc);
//! for (name, kind) in [("id", Kind::Int), ("city", Kind::Text), ("qty", Kind::Int)] {
//!     let name = Text::new(alloc, name)?;
//!     columns.push(Column { name, kind })?;
//! }
//! let schema = Schema::new(columns, 1)?;
//! let mut fields = Fields::new(alloc);
//! fields.push(b"007")?;
//! fields.push(b"Oslo, west")?;
//! fields.push(b"-5")?;
//! let row = read_row(alloc, &schema, 1, &fields)?;
//! write_row(&mut out, &row)?;                                 // adds 7,"Oslo, west",-5
//! let row = apply_ops(alloc, row, &[Op::Add(2, 8)])?;         // the last value is 3
//! let mut reader = RecordReader::new(alloc);
//! let mut records = Records::new(text)?;                      // None after a second byte order mark
//! while let Some(line) = records.next() {
//!     let row = reader.read_row(alloc, &schema, 1, &line)?;
//! }
//! ```
#![tactic(auto)]

mod both;
mod header;
mod item;
mod library_calls;
mod plain_row;
mod record_reader;
mod row_reader;
mod upsert;

pub use both::both_read;
pub use bt_record::{Fields, RecordLine, Records};
pub use bt_row::{
    Action, Arguments, Arithmetic, Change, Column, Columns, Filter, GrowingBytes, MOST_COLUMNS,
    MOST_KEYS, MOST_OPS, Op, Ops, Row, Schema, Test, Values, apply_ops, check_ops, compare_values,
    copy_change, copy_row, default_row, find_column, same_values, write_record, write_row,
};
pub use bt_value::{
    Binary, Bytes, Collected, Content, Form, Kind, MOST_VALUE_BYTES, Refusal, SHORT_BYTES,
    Sequence, Text, Texts, TryClone, Value, ValueRef, clone_all, lowest_with, read_field,
    write_hex, write_number,
};
pub use header::is_header;
pub use item::Item;
pub use library_calls::{read_key, read_ops};
pub use record_reader::RecordReader;
pub use row_reader::read_row;
