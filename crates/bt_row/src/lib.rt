//! Rows: values by columns, and the operations that change them.
//!
//! A [`Row`] stores its values in one string of bytes. A [`Schema`] has the columns of a table, and the first of them are the key. An
//! operation ([`Op`]) sets one value of a row, or does arithmetic on an int. A [`Change`] has operations, and the row to begin with if a
//! key has none. The code that depends on the operation is in one file, `operations/op.rt`. A row is printed as one record.
//!
//! The crate also defines which rows and operations the fields of a record encode ([`Schemas`](../specs/Schemas.antt),
//! [`Ops`](../specs/Ops.antt)). It does not cut text into fields.
//!
//! ```text
//! let mut row = Row::new();
//! row.push(alloc, ValueRef::Int(7))?;
//! row.push(alloc, ValueRef::Int(-5))?;
//! let row = apply_ops(alloc, row, &[Op::Add(1, 8)])?;         // the last value is 3
//! write_row(&mut out, &row)?;                                 // adds 7,3
//! ```
#![tactic(auto)]

mod library_calls;
mod operations;
mod rows;

pub use library_calls::write_record;
pub use operations::apply::{apply_ops, default_row};
pub use operations::arguments::Arguments;
pub use operations::change::{Change, copy_change};
pub use operations::op::{Action, Arithmetic, MOST_OPS, Op, Ops, SET_WORD};
pub use operations::op_faults::check_ops;
pub use rows::filter::{Filter, Test};
pub use rows::growing_bytes::GrowingBytes;
pub use rows::record_writer::write_row;
pub use rows::row::{Row, copy_row};
pub use rows::schema::{Column, Columns, MOST_COLUMNS, MOST_KEYS, Schema, find_column};
pub use rows::values::{Values, compare_values, same_values};
