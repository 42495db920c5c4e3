//! Batches: a crew types and sorts the records of a batch in pieces, and merges the pieces by ranges of keys.
//!
//! Each line of a batch encodes a message: a put of a row, or a del or an upsert of the row of a key. [`read_packet`] returns the packet of a
//! batch, which the trees take. The lines are divided into pieces, at most one for each worker and at most one for every four grains of lines.
//! A worker types the lines of its piece and sorts their messages by key, so that each piece is a packet. Then the keys
//! are divided into ranges, and a worker merges the messages of all packets in its range. The results follow each other in one packet. Indexes use
//! [`merged_groups`], which does this for several batches in one round. [`read_packet_alone`] works without threads: the whole batch is one piece.
//! [`sorted_messages`] sorts messages that are made in another way.
//!
//! A batch of at least 16,384 lines is read into ranges of keys at once, with and without threads. Pivots are chosen from a sample of its lines, each message
//! goes to the list of its range, and each range is sorted by itself. So a sort has some 8,192 messages, which the caches of a processor hold, and no packets
//! are merged.
//!
//! The result doesn't depend on the division into pieces or on the workers. It is the messages sorted by key, those of one key in the order of
//! their lines, or else the lowest refusal that applies. The refusal of a line has the number of the line in the batch. `TooMany` is the refusal
//! of more than [`MOST_MESSAGES`] lines.
//!
//! ```text
//! let crew = Crew::new(4, 2, 64, NoGate)?;
//! let packet = read_packet(&rt, alloc, &schema, items.as_slice(), &crew)?;    // 1,200 lines: four pieces of 300
//! for (key, message) in packet.iter() { .. }                                  // by rising key
//! ```
//!
//! A caller who has values in place of records adds them to [`Changes`], which checks each by the schema and gives the same packet.
//!
//! ```text
//! let mut changes = Changes::new(alloc, &schema);
//! changes.put(alloc, row)?;                                                   // refused as BadField 1 or BadLength 1 if the row doesn't fit
//! let packet = changes.into_packet(alloc)?;
//! ```
//!
//! The definitions are in `specs`: `Batches` says which messages records encode, and why they are refused, and `Changes` the same of values.
#![tactic(auto)]

mod batch_packet;
mod changes;
mod key_ranges;
mod line_messages;
mod merging;
mod sorting;

pub use batch_packet::{read_packet, read_packet_alone};
pub use changes::Changes;
pub use line_messages::MOST_MESSAGES;
pub use merging::merged_groups;
pub use sorting::sorted_messages;
