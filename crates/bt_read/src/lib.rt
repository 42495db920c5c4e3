//! Reads a tree through the messages that are pending above its rows.
//!
//! A [`Walk`] reads a node as the map that it represents. It gives the value at one key (`get`) and at several keys (`values`). It shows the rows between two
//! bounds to a [`Visitor`] (`visit`) or copies them (`rows`). It shows the first rows from a key on, up to a limit (`visit_first`, `visit_page`), at a cost that
//! depends only on the rows shown and on the nodes on the way. A [`Portion`] is a subtree with the messages above it, which can be read by itself.
//!
//! The definitions are in `specs`: `Folds` defines a visitor that takes rows in parts. What nodes and portions represent is defined in bt_form.
#![tactic(auto)]

mod joint_lookup;
mod leaf_visits;
mod lent_messages;
mod lookup;
mod portions;
mod row_limit;
mod value_so_far;
mod visitor;
mod visits;
mod walk;

pub use portions::Portion;
pub use visitor::{Copies, ForkVisitor, Visitor};
pub use walk::Walk;
