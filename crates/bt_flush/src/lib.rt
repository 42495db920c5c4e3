//! How a node of a Bε-tree takes messages, and the nodes that replace it.
//!
//! A flush takes one step at each node, in a [`Mode`](bt_form::Mode). [`open`] takes messages into an inner node. The node has room for all and stays, or it is
//! opened: its children are side by side ([`Children`](bt_form::Children)), and those to which messages go down are marked. [`plan`] says which. [`close`] deals
//! the new children under inner nodes. [`flush`] takes all steps on one thread.
//!
//! The definitions are in `specs`. `Steps` defines the result of [`open`], `Drains` trees without pending messages and trees built from rows alone, and `Laws`
//! the further facts that calls promise. The flush itself is defined in bt_form.
#![tactic(auto)]

mod crown;
mod flushing;
mod group;
mod leaf_sources;
mod opening;
mod planning;

pub use crown::crown_node;
pub use flushing::flush;
pub use group::{close, leaves};
pub use leaf_sources::source_leaves;
pub use opening::{Opened, Step, open};
pub use planning::plan;
