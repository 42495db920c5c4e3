//! Tables as bytes: a snapshot of a table restores it, in a smaller form.
//!
//! A snapshot is a number of eight bytes, the lowest first; a script of that many bytes that makes a table with the same columns, shape and
//! indexes; and a CSV text with a header and all rows, which that table loads.
//!
//! ```text
//! table 16 1024 256 1 id:int city:text qty:int
//! index c on city include qty where qty >= 15
//! build c 1
//! ```
//!
//! [`restore`] carries out the script and loads the text. [`compact`] writes the snapshot of a table and restores it at once, so the two
//! tables are known to have the same definitions, and the snapshot is known to restore the new one. The trees of the new table are packed:
//! no message is pending in them.
//!
//! ```text
//! let Some(Compacted { snapshot, table }) = compact(&context, &table) else { .. };
//! let same = restore(&context, snapshot.as_slice())?;
//! ```
//!
//! `specs/Snapshots` defines which table a snapshot restores, and what is true of a table that was compacted.
#![tactic(auto)]

mod compacting;
mod definitions;
mod restoring;
mod script_text;
mod snapshot;

pub use compacting::{Compacted, compact};
pub use restoring::restore;
