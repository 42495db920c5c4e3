//! The messages of a batch, as records encode them.
use bt_record::RecordLine;

/// A message of a batch. Its record is borrowed from the script, and is cut when it is read.
#[derive(Drop)]
pub enum Item<'a> {
    /// The fields of a row, one for each column.
    Put(RecordLine<'a>),
    /// The fields of a key, one for each key column.
    Del(RecordLine<'a>),
    /// The fields of a key, and three for each operation.
    Ups(RecordLine<'a>),
}
