//! How a batch changes the row of a key.
use bt_keycode::Key;
use bt_row::Row;

/// The row that a key had before a batch, and the row that it has after it.
#[derive(Debug, Drop)]
pub struct Effect {
    pub key: Key,
    pub before: Option<Row>,
    pub after: Option<Row>,
}
