//! The form of the nodes of a Bε-tree: rows, children with their pending messages, and the shapes that trees may have.
//!
//! A leaf has [`Rows`]. An inner node has children and, for each, the messages that are pending for it. [`Siblings`] are nodes side by side with the pivots
//! between them, and [`Children`] are siblings with their bins. A [`Shape`] has the sizes that the nodes of a tree may have.
//!
//! The crate bt_read reads nodes, the crate bt_flush sends messages down, and the crate bt_node has the trees.
//!
//! The definitions are in `specs`. `Trees` defines the nodes, `Fits` which of them are in order, `Shapes` the sizes that a tree may have. `Messages` defines the
//! rows of a map and the messages that change them, `Deals` how items are dealt into even parts, `Parts` the parts of a node, and `Children` children with their
//! bins. `Flushes` defines how a node takes a packet in each mode. `Plans` and `Loops` say which children are flushed, `Marks` says it for each child, and
//! `Passes` defines one pass over marked items. `Walks` and `Portions` define what is read: one node, and subtrees with the messages above them. `Stored` has
//! codes of ghost trees. Definitions that only private clauses cite are in `inside`.
#![tactic(auto)]

mod children;
mod deal;
mod mode;
mod node;
mod rows;
mod search;
mod shape;
mod source;

pub use children::{ChildIterator, Children};
pub use deal::size_at;
pub use mode::Mode;
pub use node::{Node, NodeKind, Parts, Siblings};
pub use rows::{Rows, split_first};
pub use search::{mean_step, part_from};
pub use shape::{
    LARGEST_BUFFER, LARGEST_FANOUT, LARGEST_LEAF, LARGEST_WEIGHED_BUFFER, SMALLEST_BUFFER,
    SMALLEST_FANOUT, SMALLEST_LEAF, Shape,
};
pub use source::RowSource;
