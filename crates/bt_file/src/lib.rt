//! A file of the system as a disk: what a crash may leave of it follows from the list of its calls.
//!
//! ```text
//! let file = bt_file::open(rt, "table.journal")?;        // locks the file, and syncs it
//! let store = Store::open(alloc, file, head, machine)?;   // reads it once, in pieces
//! ```
//!
//! No proof can know what a file of the system has. So each method of [`HostFile`] makes its calls, and then adds to a list that only clauses read what the calls
//! were and whether they succeeded. That they add what they did is not proved: read the five methods and `open` in `host_file.rt`. What the calls do to a file,
//! and what a crash may leave of it, is defined in `specs/Events`. That this meets the clauses of `Disk` is proved.
#![tactic(auto)]

mod calls;
mod host_file;
mod ordered_file;

pub use host_file::{HostFile, OpenError, open};
pub use ordered_file::OrderedFile;
