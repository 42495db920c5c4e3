//! Why records are refused: the item and the field at fault, and what is wrong with it.
//!
//! A refusal says little about the record that is at fault: a number, a name and, for some, an item. The calls of this crate read the records of a refused
//! call again and return a [`Reason`]: the same refusal, the item, the field of the item, and a [`Problem`]. They are no part of the fast path. A call that
//! is refused for another reason, or that is not refused, has none.
//!
//! If several fields are at fault, the reason is one with the refusal that the call returns, and of these the first. That it is the refusal of the call is a
//! clause of each function here.
//!
//! ```text
//! let packet = read_packet_alone(alloc, &schema, items.as_slice());          // Err(BadField(2)), for a second line `put 7,12O`
//! let reason = batch_reason(alloc, &schema, items.as_slice())?;              // BadField(2), item 2, field 2, NoInt
//! ```
//!
//! The definitions are in `specs`: `Problems` says what is wrong with a field, `Reasons` why a record is refused, and `Batches` and `Calls` why a batch, a key, the
//! bounds of a range and the text of a load are.
#![tactic(auto)]

mod batch;
mod bounds;
mod command;
mod load;
mod problem;
mod reason;
mod records;
mod upsert;

pub use batch::{batch_reason, key_reason};
pub use bounds::range_reason;
pub use command::{command_reason, script_reason};
pub use load::text_reason;
pub use problem::{Problem, field_problem};
pub use reason::Reason;
