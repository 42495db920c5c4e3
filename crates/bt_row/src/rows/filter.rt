//! Filters: which rows of a table a script asks for.
use bt_value::{Bytes, Text};

/// How the value of a column is compared with a constant.
#[derive(Clone, Copy, Debug, PartialEq, Eq)]
pub enum Test {
    /// The value is the constant.
    Equal,
    /// The value comes before it in the order of its kind.
    Less,
    /// The value is the constant or comes after it.
    AtLeast,
}

/// The rows whose value in a column passes a test against a constant.
#[derive(Debug, Drop)]
pub struct Filter {
    /// The name of the column.
    pub column: Text,
    /// How its value is compared.
    pub test: Test,
    /// The bytes of a field that encodes a value of the column.
    pub constant: Bytes,
}
