//! Secondary indexes: the entries of rows, and the messages that keep an index equal to what its definition selects.
//!
//! An index is ordered by some columns of a table, may include other columns, and may have a filter. A row that passes the filter has
//! one entry. The key of the entry is the code of the columns that the index is ordered by, followed by the key of the row. Its value is
//! the included columns. So rows with different keys have entries with different keys.
//!
//! An index that is building covers a part of the keys: none at first, then those up to the last row that was read, and in the end all. A
//! batch sends it the changes at keys that it covers. A step of building sends it the entries of the next rows, which it reads in the tree
//! without copying them. A load builds the tree of an index from the sorted entries of all rows.
//!
//! ```text
//! // an index on the quantity, of the rows that have a quantity of 15 or more
//! let filter = Filter { column: qty, test: Test::AtLeast, constant: Bytes::from_slice(alloc, b"15")? };
//! let def = IndexDef::new(alloc, &schema, &on, &include, Some(&filter))?;
//! // how a packet changes the rows, worked out before the tree of rows has the packet, and the messages of the index for that
//! let effects = effects(&rt, alloc, &rows, &packet, &Cover::Whole, &crew)?;
//! let entries = index_packet(alloc, &def, &Cover::Whole, effects.as_slice())?;
//! // the same of several indexes, by the workers of a crew
//! let context = Context { rt: &rt, alloc, crew: &crew };
//! let indexes = [IndexTarget { def: &def, cover: &Cover::Whole }, IndexTarget { def: &other, cover: &part }];
//! let packets = index_packets(&context, &rows, &packet, &Cover::Whole, &indexes)?;
//! // the messages of a step of building that reads the first hundred rows not covered yet, and the cover after it
//! let BuildStep { packet, cover, read } = build_step(&context, &def, &cover, &rows, 100)?;
//! // the entries of sorted rows, from which the tree of an index is packed
//! let entries = sorted_entries(alloc, &def, &pairs)?;
//! ```
//!
//! `specs` has the definitions. `Selections` says, for any kind of entries, what an index selects of a map and which messages a batch
//! sends to it. `Entries` defines the entry of a row, `Definitions` the meaning of names and filters, and `Covers` which keys a building
//! index covers and which rows a step of building reads. `Effects` defines how a batch changes rows, and `Promises` what the messages of
//! an index do. `inside/Readings` says which rows a step of building reads, one by one and between two covers, and `inside/RowEntries` has
//! the entries of rows before they are sorted.
#![tactic(auto)]

mod building;
mod cover;
mod definition;
mod definition_parts;
mod effect;
mod effect_jobs;
mod entry_packet;
mod joint_packets;
mod library_calls;
mod puts;
mod row_effects;
mod selecting;
mod step;

pub use building::{sorted_entries, sorted_entries_in_threads};
pub use cover::{Cover, covers, wider};
pub use definition::{Condition, IndexDef, MOST_INCLUDED, MOST_ON};
pub use effect::Effect;
pub use entry_packet::index_packet;
pub use joint_packets::{IndexTarget, index_packets, index_packets_alone};
pub use library_calls::{effects, entry};
pub use row_effects::effects_alone;
pub use selecting::entry_at;
pub use step::{BuildStep, build_step, build_step_alone};
