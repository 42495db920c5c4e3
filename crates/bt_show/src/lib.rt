//! What is seen of trees: the rows of an index as those of a table, ranges of keys, groups of rows with their sums, how much a tree holds, and its text.
//!
//! [`RowList`] keeps the rows that a visitor is shown, and [`RecordText`] writes them as text. The crate bt_view shows the trees of a table so.
//!
//! The definitions are in `specs`: `Ranges` defines the columns and rows of an index and ranges of keys, `Groups` groups and their sums, `Usage` how much a tree
//! holds, and `Images` its text. Definitions that only private clauses cite are in `inside`.
#![tactic(auto)]

mod columns;
mod drawing;
mod entry_groups;
mod entry_rows;
mod groups;
mod range;
mod tree_image;
mod tree_usage;
mod visitors;

pub use columns::{add_all, find_index_column, index_columns, index_kinds, key_columns, key_count};
pub use drawing::{EntryDrawing, RowDrawing};
pub use entry_groups::EntryGroups;
pub use entry_rows::EntryRows;
pub use groups::{Grouping, Sum, summed_place};
pub use range::{KeyRange, read_range};
pub use tree_image::image_text;
pub use tree_usage::{TreeUsage, usage_of};
pub use visitors::{RecordText, RowList};
