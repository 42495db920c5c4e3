//! Values: their kinds, how a field of a record encodes them, and the refusals of calls.
//!
//! A value is an int, a text, a flag or bytes ([`Value`], or [`ValueRef`] if its bytes are borrowed), and has a [`Kind`]. A kind has
//! a [`Form`]: its values are kept, ordered and encoded as a number, as bytes or as a bit ([`Content`]). The code that depends on the
//! kind is in one file, `value.rt`.
//!
//! A call is refused with a [`Refusal`]: a number, a name and, for some, the item at fault. [`Collected`] gathers the results of
//! several reads: all values, or the lowest refusal.
//!
//! ```text
//! let value = read_field(alloc, Kind::Int, b"007")?;          // Value::Int(7)
//! out.reserve(20)?;                                           // the most bytes that an int takes
//! value.as_ref().write(&mut out);                             // adds 7
//! ```
#![tactic(auto)]

// Lists, bytes and texts.
mod bytes;
mod sequence;
mod slices;
mod text;
mod try_clone;

// Values, and the fields that encode them.
mod binary;
mod field;
mod field_writer;
mod hex;
mod int;
mod number;
mod plain_fields;
mod short_text;
mod value;

// Refusals.
mod collected;
mod refusal;

pub use binary::Binary;
pub use bytes::{Bytes, SHORT_BYTES};
pub use collected::Collected;
pub use field::{read_field, read_value};
pub use hex::write_hex;
pub use int::read_int;
pub use number::write_number;
pub use plain_fields::{is_special, plain_group};
pub use refusal::{Refusal, lowest_with};
pub use sequence::Sequence;
pub use short_text::{SHORT_TEXT, put_byte};
pub use slices::{front, tail};
pub use text::{MOST_VALUE_BYTES, Text, Texts};
pub use try_clone::{TryClone, clone_all};
pub use value::{Content, Form, Kind, Value, ValueRef};
