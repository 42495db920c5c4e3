//! Messages that are pending on their way to the rows of their keys, in packets and in buffers.
//!
//! A [`Packet`] holds messages that are sent on. A [`Buffer`] holds messages that wait. Both are sorted by key, and the messages of one
//! key are in the order in which they came, the newest last. Two upserts of a key stay two messages. A buffer is one list. A packet is
//! a sequence of runs, which are lists of a few messages. Whole runs are moved down to the next node. Each run is freed once it has been
//! read, so its memory is used again while it is in the cache.
//!
//! Messages are weighed when they join a buffer, as a [`Share`] of a stream that gives their weight. A buffer stores its weight while it
//! knows the weight of each share that it gets, and computes it otherwise. A run that lies in one share stores its weight too, so it
//! isn't weighed again further down. If messages are counted, none is weighed.
//!
//! What a message is and does is in `bt_message`, whose types this crate exports again.
//!
//! ```text
//! let mut batch = Vec::new(alloc);
//! batch.push((encode(alloc, &[Value::Int(2)])?, Message::Put(row)))?;
//! batch.push((encode(alloc, &[Value::Int(1)])?, Message::Del))?;
//! let mut buffer = Buffer::new(alloc);
//! buffer.add(Packet::from_batch(alloc, batch)?)?;
//! for (key, message) in buffer.iter() { .. }      // the del of 1, then the put of 2
//! ```
#![tactic(auto)]

pub use bt_message::{Entry, Measure, Merge, Message, Messages, effect, effect_borrowed};

mod batch_places;
mod bins;
mod bounds;
mod buffer;
mod buffer_messages;
mod message_runs;
mod packet;
mod search;
mod share;
mod sorting;
mod stream;
mod stream_messages;
mod two_streams;

pub use bins::Bins;
pub use bounds::{between, count_before};
pub use buffer::Buffer;
pub use buffer_messages::BufferMessages;
pub use packet::Packet;
pub use search::count_before_near;
pub use share::Share;
pub use stream::Stream;
