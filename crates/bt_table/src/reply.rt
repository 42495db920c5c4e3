//! The replies of a table.
use bt_row::Row;
use bt_value::{Sequence, Text};

/// How many messages an index was sent for a batch.
#[derive(Drop)]
pub struct SentCount {
    pub name: Text,
    pub count: usize,
}

/// The reply to a call on a table that is not refused.
#[derive(Drop)]
pub enum Reply {
    /// A batch of this many messages was applied, and each index was sent this many, in order of creation.
    Batch {
        count: usize,
        sent: Sequence<SentCount>,
    },
    /// The row of a key, if it has one.
    Row(Option<Row>),
    /// The index of this name was created.
    Created(Text),
    /// A step of building of the index of this name read this many rows, and the index is complete or not.
    Built {
        name: Text,
        read: usize,
        complete: bool,
    },
    /// The index of this name was dropped.
    Dropped(Text),
    /// This many records were loaded.
    Loaded(usize),
    /// The buffers of the tree of this name were flushed.
    Drained(Text),
    /// The tree of this name was rebuilt.
    Rebuilt(Text),
}
