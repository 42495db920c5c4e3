//! How much a tree holds.
ghost use Rattle.std.specs.Prelude.{◌≡◌, length, min};
ghost use Rattle.bt_show.specs.Usage as spec;

use bt_messages::Merge;
use bt_node::Walk;

/// How much a tree holds. A number that is larger than the largest `u64` is counted as the largest.
#[derive(Clone, Copy, Debug, Drop, PartialEq, Eq)]
pub struct TreeUsage {
    /// The rows in its leaves. A row of the tree can also be in a buffer, as a message, or a row in a leaf can be deleted by one.
    pub rows: u64,
    /// The messages in the buffers of its inner nodes.
    pub messages: u64,
    /// The number of nodes from the root down to the deepest leaf.
    pub height: u64,
}

// A count of messages, which is at most the largest `u64`.
fn counted(count: u128) -> u64
    ensures { result ≡ spec.counted count }
{
    match u64::try_from(count) {
        Ok(count) => count,
        Err(_) => u64::MAX,
    }
}

/// How much a node and those below it hold.
pub fn usage_of<V: Merge>(walk: &Walk<V>) -> TreeUsage
    ensures { result ≡ spec.usage_of walk.now }
{
    let mut rows = walk.row_count() as u64;
    let mut messages = counted(walk.message_count());
    let mut highest = 0u64;
    for place in 0..walk.child_count() {
        let child = walk.child(place);
        let below = usage_of(&child);
        rows = rows.saturating_add(below.rows);
        messages = messages.saturating_add(below.messages);
        highest = highest.max(below.height);
    }
    TreeUsage {
        rows,
        messages,
        height: highest.saturating_add(1),
    }
}
