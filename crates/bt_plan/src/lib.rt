//! Trees in pieces: the children that are flushed, and the flushes of a tree moved out of it as jobs.
//!
//! ```text
//! let (holed, jobs) = cut(alloc, 0, tree, packet, 2, Mode::Absorb)?;    // tree 0, down to two levels
//! for job in jobs { .. }                                                // each has its place, a node and the messages for it
//! ```
//!
//! The definitions are in `specs`. `Pieces` defines trees with holes and how they are filled. `Cuts` says which nodes are moved out with their
//! messages. `Laws` has the further promises of a cut. `Views` maps the values of the code to the definitions. `DepthBounds` gives the depth of
//! a tree in pieces. `proofs` has small trees cut and filled, in `WorkedRows`.
#![tactic(auto)]

mod cutting;
mod holed;
mod job;

pub use bt_node::{Mode, plan};
pub use cutting::cut;
pub use holed::{Holed, HoledNode, HoledParts};
pub use job::{Job, Place};
