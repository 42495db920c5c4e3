//! Loads the rows of a CSV text: types them and sorts them by key, on several threads or on one.
//!
//! The library `csv` reads the header, and the records of each piece in which a record has a quote. In any other piece each line is cut at
//! its commas. If a record is refused or an allocation fails, all lines are read again, one by one and without `csv`'s reader, to find
//! the lowest refusal.
//!
//! A [`Loading`] says who works: threads of a runtime, or the caller alone. The results are the same.
//!
//! ```text
//! let rows = read_records_by(&InTurn, alloc, b"id,name\n2,b\n1,a\n", &schema)?;
//! let pairs = load_rows_by(&InThreads { rt: &rt, workers: 4 }, alloc, rows, &schema)?;     // the rows of the keys 1 and 2, each with its key
//! ```
#![tactic(auto)]

mod library_calls;
mod lines;
mod loading;
mod placed;
mod read;
mod sort;
mod sorted_rows;
mod typing;

pub use library_calls::{load_rows, read_records};
pub use loading::{InThreads, InTurn, Loading, MOST_THREADS};
pub use read::read_records_by;
pub use sort::{load_rows_by, sorted_rows_by};
pub use sorted_rows::SortedRows;
