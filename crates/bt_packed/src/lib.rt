//! The calls of a table on packed bytes: changes, a key or a page in, rows out, with no text in between.
//!
//! Packed bytes begin with the letters `BTV` and the version of the layout, 1. Numbers are little endian, there is no padding, and there are no pointers. A
//! value has the kind of its column: an int is eight bytes, a text or bytes are one byte for the length and the bytes, a flag is one byte, 0 or 1.
//!
//! - Changes ([`apply_packed`]): their number in four bytes, and each change: 0 and the values of all columns for a put; 1 and those of the key columns for
//!   a del; 2, those of the key columns, the number of operations in one byte and the operations for an upsert. An operation is 0 for set, 1 for add, 2 for
//!   max or 3 for min, the place of its column, counted from 0, and the value or, in eight bytes, the number.
//! - A key ([`get_packed`]): the number 1 in four bytes, and the values of the key columns.
//! - A page ([`page_packed`]): the most rows in four bytes, the name of the tree as a text, the lower bound and the upper one. A bound is 0 for none; 1, a
//!   number of values in one byte, and the values of that many of the tree's first key columns; or 2 and those of all its key columns, for the place directly
//!   after the row with this key. So the next page begins with 2 and the bytes of the key columns of the last row, with which that row begins.
//! - A page from the end ([`last_page_packed`]), in the same form: the reply has the last rows of the range, from the last one back. The next page has the same
//!   lower bound, and its upper one is 1, the number of all key columns of the tree, and the bytes of those of the last row of the reply.
//! - The name of a tree ([`columns_packed`]): the number 1 in four bytes, and the name as a text. The reply has, after the first four bytes, the number of key
//!   columns in eight bytes, and of each column the kind in one byte (0 int, 1 text, 2 flag, 4 bytes) and the name as a text.
//! - The name of a tree ([`usage_packed`]), in the same form: the reply has, after the first four bytes, the number of rows in the leaves of the tree, the number
//!   of messages in its buffers and its height, each in eight bytes.
//! - Trees ([`trees_packed`]): the number 0 in four bytes, or 1 for how much each tree holds too. The reply has, after the first four bytes, of the tree of the rows
//!   and then of each index: its name as a text, one byte (0 complete, 1 building), the numbers of its key columns and of all its columns in eight bytes each, its
//!   columns as above, and, with the number 1, how much it holds as above.
//! - Sums ([`sums_packed`]): the number of columns of a group in four bytes, the name of the tree and that of the summed column as texts, and two bounds as for a
//!   page. The reply has, after the first four bytes, of each group the values of its columns, the number of its rows in eight bytes and the sum in sixteen. The
//!   number 0 makes one group of all rows of the range, even of none; with an empty name for the column, no column is summed, and each sum is 0.
//! - Rows (the replies to a key and to pages): after the first four bytes, the values of each row, one row after the other, to the end of the bytes.
//!
//! ```text
//! let context = Context { rt: &rt, alloc, crew: &crew };             // or &(), alloc and &Alone
//! apply_packed(&context, &mut table, b"BTV\x01\x01\0\0\0\0...")?;   // one put
//! let room = ReplyRoom::of(Vec::new(alloc));                        // or the bytes of an earlier reply
//! let reply = get_packed(alloc, &table, b"BTV\x01\x01\0\0\0...", room)?;
//! ```
//!
//! [`apply`] and [`ask`] take a table that may not be there yet. Changes and sums are worked on by a crew or by the caller alone ([`PackedWorkforce`]).
//!
//! A [`Fault`] says why bytes are refused, and where. The definitions are in `specs`.
#![tactic(auto)]

mod calls;
mod changes;
mod columns;
mod counts;
mod fault;
mod operations;
mod page;
mod pieces;
mod question;
mod reading;
mod rows;
mod trees;
mod workforce;

pub use calls::{
    apply_packed, columns_packed, get_packed, last_page_packed, page_packed, sums_packed,
    trees_packed, usage_packed,
};
pub use changes::read_changes;
pub use fault::Fault;
pub use question::{Question, apply, ask};
pub use rows::{PackedRows, ReplyRoom};
pub use workforce::PackedWorkforce;
