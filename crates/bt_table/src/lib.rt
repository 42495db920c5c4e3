//! A table: rows of a schema in a tree, under the codes of their keys, and secondary indexes on them.
//!
//! Each call is a step of a plain table, which is a map of rows beside its trees: the state before the call gives the state after it and
//! a reply, or a refusal, and then the table does not change. After any call, each row is under the code of its key columns and is of the
//! schema, each tree fits its shape, and the tree of the rows holds exactly the rows. Each complete index holds exactly the entries that
//! its definition selects from the rows now, and an index that is still building holds those of the rows that it covers. A batch is
//! applied whole or not at all. If memory runs out after a tree has been taken apart, the table is lost: from then on each call is refused
//! as `Failed`.
//!
//! ```text
//! let mut table = Table::new(alloc, schema, shape);
//! let crew = Crew::new(4, 2, 64, NoGate)?;
//! let reply = table.apply(&rt, alloc, items, &crew)?;                 // Reply::Batch { count: 3, .. }
//! let reply = table.create_index(alloc, name, def)?;                  // Reply::Created(name)
//! let reply = table.build_step(&rt, alloc, &name, 1_000, &crew)?;     // Reply::Built { read: 3, complete: true, .. }
//! ```
//!
//! The calls are worked on by a [`Workforce`]: the caller [`Alone`], which starts no thread, or a crew. Each call has the same clauses for
//! both.
//!
//! `specs` has the definitions: `Tables` defines a table and how a batch changes it, `Calls` the step of each call, and `Standing` what is
//! true of a table between any two calls.
#![tactic(auto)]

mod alone;
mod index;
mod reply;
mod table;
mod table_loading;
mod trees;
mod workforce;

pub use alone::Alone;
pub use index::{IndexHead, IndexRef, IndexRefs};
pub use reply::{Reply, SentCount};
pub use table::{MOST_INDEXES, Table, TreeRef, TreeRefs, name_of_rows};
pub use table_loading::TableLoading;
pub use workforce::Workforce;
