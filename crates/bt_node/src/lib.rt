//! Bε-trees: search trees whose inner nodes keep a buffer of messages on the way to their rows.
//!
//! A message enters at the root. When a buffer is over its capacity, the child with the largest load is flushed: its pending messages go
//! down together, and the nodes into which it splits replace it. The load of a child is the number of its pending messages, or their weight
//! in bytes, according to the [`Shape`] of the tree. A tree represents the map that results when all its messages have had their effect,
//! those nearer to a leaf first.
//!
//! ```text
//! use bt_keycode::encode;
//! use bt_messages::{Message, Packet};
//! use bt_node::{Shape, Tree};
//! use bt_rowtype::{Row, Value};
//! use std::alloc::{AllocError, Global};
//!
//! // The number of rows of a tree after a put of key 1 and a del of key 2: one. `Shape::new(4, 3, 2)` is a shape of small nodes.
//! fn count(alloc: Global, shape: Shape, row: Row) -> Result<usize, AllocError> {
//!     let one = encode(alloc, &[Value::Int(1)])?;
//!     let two = encode(alloc, &[Value::Int(2)])?;
//!     let batch = vec![in alloc; (one, Message::Put(row)), (two, Message::Del)]?;
//!     let tree = Tree::empty(alloc, shape).sink(alloc, Packet::from_batch(alloc, batch)?)?;
//!     Ok(tree.rows(alloc)?.len())
//! }
//! ```
//!
//! A flush takes one step at each node, in a [`Mode`]. [`open`] takes messages into an inner node. The node has room for all and stays, or
//! it is opened: its children are side by side ([`Children`]), and those to which messages go down are marked. [`close`] deals the new
//! children under inner nodes. [`absorb_alone`] and [`drain_alone`] take all steps on one thread. To divide a flush among threads, call
//! [`open`] and [`close`].
//!
//! [`pack`] builds a tree from sorted rows at once, and [`pack_source`] from rows that come one at a time. [`Tree::drain`] sends all messages
//! down to the leaves. [`Tree::rebuild`] packs the rows of a tree into a new one.
//!
//! [`Tree::walk`] returns a [`Walk`], which reads a tree as the map that it represents. It gives the value at one key (`get`) and at several
//! keys (`values`). It shows the rows between two bounds to a [`Visitor`] (`visit`) or copies them (`rows`). It shows the first rows from a
//! key on, up to a limit (`visit_first`, `visit_page`), at a cost that depends only on the rows shown and on the nodes on the way.
//!
//! The definitions are in `specs`. `Trees` defines the nodes. `Flushes` defines how a node takes a packet in each mode. `Drains` defines
//! trees without pending messages and trees built from rows alone. `Fits` says which trees are in order. `Plans` and `Loops` say which children are flushed, and `Marks` says it for each child, and when a node has room.
//! `Children` defines children with their bins, and `Steps` the result of [`open`]. `Shapes` has the sizes that a tree may have. `Deals`
//! defines how items are dealt into even parts, `Parts` the parts of a node, and `Messages` the rows of a map and the messages that change
//! them. `Walks`, `Portions` and `Folds` define what is read: one node, subtrees with the messages above them, and a visitor that takes
//! rows in parts. `Laws` has the further facts that calls promise. `Passes` defines one pass over marked items, for private clauses and for
//! the proofs of the crate bt_plan. `Stored` has codes of ghost trees. Definitions that only private clauses cite are in `inside`. `proofs`
//! has worked examples of small trees, in `WorkedRows`.
#![tactic(auto)]

mod library_calls;
mod tree;

pub use bt_flush::{Opened, Step, close, open, plan};
pub use bt_form::{
    Children, LARGEST_BUFFER, LARGEST_FANOUT, LARGEST_LEAF, LARGEST_WEIGHED_BUFFER, Mode, Node,
    Parts, RowSource, SMALLEST_BUFFER, SMALLEST_FANOUT, SMALLEST_LEAF, Shape, Siblings,
};
pub use bt_read::{Copies, ForkVisitor, Portion, Visitor, Walk};
pub use library_calls::regroup;
pub use tree::{Tree, absorb_alone, crown, drain_alone, pack, pack_source};
