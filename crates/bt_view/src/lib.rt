//! Reading a table: the rows of a range, sums of groups of rows, and images of its trees.
//!
//! A scan returns no list: it shows each row of a range, with its key, to a visitor, which it takes and returns. [`RowList`] keeps the
//! rows, and [`RecordText`] writes them as text. An index shows the rows that it selects, each with the columns that it is ordered by, the
//! key columns of the table and those that it includes. Scans and sums are worked on by a crew or by the caller alone, with the same
//! clauses.
//!
//! ```text
//! let context = Context { rt: &rt, alloc, crew: &crew };
//! let rows = scan(&context, &table, &name, Some(&from), None, RowList::new(alloc))?;      // the rows from the key that `from` encodes
//! let rows = page(alloc, &table, &name, &range, 100, RowList::new(alloc))?;               // the first 100 rows of a range of keys
//! let rows = last_page(alloc, &table, &name, &range, 100, RowList::new(alloc))?;          // the last 100 rows, from the last one back
//! let sums = sums(&context, &table, &name, 1, &column, None, None)?;                      // one Sum for each value of the first column
//! let sums = sums_between(&context, &table, &name, range, 1, &column)?;                   // the same for a range of keys
//! let count = sums_between_alone(alloc, &table, &name, range, 0, &Text::empty())?;        // one Sum, with the number of all its rows
//! let text = image(alloc, &table, &name)?;                                                // the nodes of the tree, line by line
//! ```
//!
//! `specs` has the definitions: `Ranges` defines the rows of a range, `Groups` groups and their sums, `RangeSums` those of a range of keys,
//! `Usage` how much a tree holds, and `Images` its text.
#![tactic(auto)]

mod last_rows;
mod pages;
mod range_sums;
mod shown;
mod shown_columns;
mod sizes;
mod view;

pub use bt_show::{KeyRange, RecordText, RowList, Sum, TreeUsage};
pub use shown_columns::{TreeColumns, tree_columns};
pub use sizes::has_few_rows;
pub use view::{
    check_scan, image, last_page, page, scan, scan_alone, sums, sums_alone, sums_between,
    sums_between_alone, usage,
};
