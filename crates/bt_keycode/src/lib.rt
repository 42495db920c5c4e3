//! Keys as bytes: encodes a list of values so that the order of the codes, byte by byte, is the order of the lists.
//!
//! A tree compares keys and does not decode them, so the values of a key become one [`Key`]:
//!
//! - an int is eight bytes, big endian, with the sign bit inverted;
//! - a text, or bytes, are followed by 0 and 1, and each zero byte in them is followed by 255;
//! - a flag is one byte, 0 or 1.
//!
//! The code of a list is the codes of its values, one after the other. No code is a proper prefix of another one of the same kinds. The
//! length of a code is also available without writing it, as a weight ([`row_code_len`]).
//!
//! ```text
//! let key = encode(alloc, &[Value::Int(3)])?;
//! key.write_hex(&mut out)?;               // 8000000000000003
//! let other = encode(alloc, &[Value::Int(-1)])?;
//! other.compare(&key)                     // Less
//! let mut code = CodeBuilder::new(alloc);
//! code.add(ValueRef::Int(3))?;
//! code.finish()?.compare(&key)            // Equal
//! decode_onto(alloc, &[Kind::Int], key.as_slice(), &mut row)?;    // adds 3
//! ```
#![tactic(auto)]

mod code;
mod code_builder;
mod decoder;
mod key;
mod lengths;
mod library_calls;
mod zeros;

pub use code::encode_row;
pub use code_builder::CodeBuilder;
pub use decoder::{DecodeError, decode_onto, is_code};
pub use key::{Key, LAST_EIGHT, SHORT_KEY};
pub use lengths::{MOST_WEIGHT, change_code_len, row_code_len};
pub use library_calls::{cmp_rows, code_len, decode, encode, encode_prefix};
