//! About how many rows a tree has.

use bt_message::Merge;
use bt_node::Walk;
use bt_table::{Table, TreeRef};
use bt_value::Text;

// A crew leaves a tree with fewer rows to the caller, because starting threads would take longer than the workers gain.
const FEW_ROWS: usize = 49_152;

// A tree has fewer levels than these.
const MOST_LEVELS: usize = 64;

// About how many rows there are below a node: the children of each node on the first path down, multiplied, times the rows of its leaf.
fn rows_below<V: Merge>(node: Walk<'_, V>) -> usize {
    let mut node = node;
    let mut count: usize = 1;
    for _ in 0..MOST_LEVELS {
        let children = node.child_count();
        if children == 0 {
            return count.saturating_mul(node.row_count());
        }
        count = count.saturating_mul(children);
        node = node.child(0);
    }
    count
}

/// Whether the tree of this name seems to have so few rows that one caller reads them sooner than a crew does, or does not exist. One path is looked at, and no pending
/// message. The answer decides who reads the tree, and not what is read.
pub fn has_few_rows(table: &Table, name: &Text) -> bool {
    match table.tree(name) {
        Ok(TreeRef::Rows { tree, .. }) => rows_below(tree.walk()) < FEW_ROWS,
        Ok(TreeRef::Index { index, .. }) => rows_below(index.tree.walk()) < FEW_ROWS,
        Err(_) => true,
    }
}
