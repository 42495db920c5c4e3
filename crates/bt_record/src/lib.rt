//! Records, as `csv` reads them: a text is cut into records, and a record into its fields.
//!
//! The records of a CSV text are borrowed one after the other ([`Records`]), and so is the record of one line ([`RecordLine`]). A line
//! is cut when its fields are asked for: into owned fields ([`Fields`]), or by a [`RecordCutter`], which keeps its memory from one line to
//! the next. Where many records are read one after the other, a [`CsvReader`] reads them with `csv` itself. This crate has no kinds and no
//! columns: a field is bytes.
//!
//! ```text
//! let mut records = Records::new(b"7,\"Oslo, west\"\n8,Lima\n")?;   // None after a second byte order mark
//! let line = records.next()?;
//! let fields = line.fields(alloc)?;                           // 7 and Oslo, west
//! ```
#![tactic(auto)]

mod commas;
mod csv_reader;
mod csv_states;
mod fields;
mod line;
mod record_cutter;
mod records;

pub use csv_reader::CsvReader;
pub use fields::{Fields, FieldsRef};
pub use line::RecordLine;
pub use record_cutter::RecordCutter;
pub use records::Records;
