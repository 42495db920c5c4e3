//! What a message is: a put, a del or an upsert of the value of a key.
//!
//! A message is sent to a key. Its effect is the new value of the key, or none. A put gives its own value. A del gives none. An upsert
//! gives what [`Merge::merge`] returns for the old value or for none. The values are rows in a table and [`Entry`]s in an index.
//!
//! The load of messages is their number or their weight ([`Measure`]). A message weighs one, plus the bytes of its key, plus the bytes
//! that a put or an upsert carries, and at most 16,777,215.
//!
//! Messages with their keys are sorted by key, and those of one key stay in the order in which they came. [`sorted_places`] gives the
//! places of a list in that order, and [`sort_by_key`] moves the items of a list into it.
//!
//! ```text
//! let old = effect(alloc, None, Message::Put(row))?;              // the row
//! let new = effect(alloc, old, Message::Ups(change))?;            // the row after the change
//! let places = sorted_places(alloc, batch.as_slice())?;           // the place of the smallest key first
//! ```
#![tactic(auto)]

mod entry;
mod iter;
mod measure;
mod message;
mod sorting;

pub use entry::Entry;
pub use iter::Messages;
pub use measure::{Measure, weigh_all};
pub use message::{Merge, Message, effect, effect_borrowed};
pub use sorting::{sort_by_key, sorted_places};
