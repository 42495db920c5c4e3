//! Rounds over trees: the flushes of several trees are the jobs of one run, and the result of each job goes back to its place in its tree.
//!
//! ```text
//!   tree of rows   cut to jobs 0 and 1   \                 / pieces 0 and 1   filled and crowned
//!   first index    sunk by the caller     }  one run of the {
//!   second index   cut to jobs 2 to 4    /  jobs by a crew  \ pieces 2 to 4    filled and crowned
//! ```
//!
//! `bt_plan` cuts a tree. A worker runs each job with [`run_job`]. [`fill`] puts the pieces into the holes of the tree, one at each hole.
//! [`sink`] and [`drain`] do all three steps. [`sink`] does not cut a tree without rows whose packet puts new rows: it deals the packet, and jobs
//! make the leaves.
//!
//! The crate bt_portions reads a tree with a crew. Its calls are also exported here.
//!
//! Jobs are numbered tree by tree, those of the rows first. Each tree takes as many pieces as it has jobs, so the results of a run go back to
//! their trees by number. Nodes and messages are moved, never copied. If an allocation fails, every worker has ended before the call returns.
//!
//! ```text
//! let crew = Crew::new(4, 2, 64, NoGate)?;
//! let (rows, entries) = sink(&rt, alloc, rows, entries, &crew)?;
//! let rows = drain(&rt, alloc, tree, &crew)?;
//! ```
//!
//! The definitions are in `specs`. `Rounds` defines the result for several trees. `Misfits` says which pieces don't fit a tree in pieces. `Laws`
//! says what [`fill`] requires and what it refuses.
#![tactic(auto)]

mod either;
mod filling;
mod flush_work;
mod hole_places;
mod library_calls;
mod misfit;
mod new_leaves;
mod round;
mod round_tree;

pub use bt_portions::{Portion, owned_keys, read, rebuild};
pub use flush_work::run_job;
pub use library_calls::{FillError, fill};
pub use misfit::Misfit;
pub use round::{drain, sink};
pub use round_tree::MOST_TREES;
