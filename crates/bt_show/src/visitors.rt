//! Visitors for a scan: one keeps the rows that are shown, one writes them as records.
ghost use Rattle.std.specs.Prelude.{◌≡◌, ◌++◌, ◌∷◌, []};
ghost use Rattle.bt_show.specs.Lists.{lists_as_one};
ghost use Rattle.bt_show.specs.RecordTexts.{record_line};

use bt_keycode::Key;
use bt_node::{ForkVisitor, Visitor};
use bt_row::{Row, copy_row, write_row};
use std::alloc::{AllocError, Global};
use std::marker::Model;

/// Copies of the rows that are shown, without their keys. A contract sees the list of them.
#[derive(Drop)]
pub struct RowList {
    rows: Vec<Row>,
}

impl Model for RowList {
    ghost use Rattle.std.specs.Prelude.{List};
    ghost use Rattle.bt_value.specs.declared.value.Value.{Value as value};

    ghost Value = { List (List value) };

    ghost view = { λ l. l.rows.items };
}

impl RowList {
    /// No rows. Allocates nothing.
    pub fn new(alloc: Global) -> Self
        ensures { result ≡ [] }
    {
        RowList {
            rows: Vec::new(alloc),
        }
    }

    /// The rows that were shown, in order.
    pub fn as_slice(&self) -> &[Row]
        ensures { result.now ≡ self.now }
    {
        self.rows.as_slice()
    }
}

impl Visitor<Row> for RowList {
    ghost visited = { λ rows row. rows ++ row.1 ∷ [] };

    fn visit(&mut self, alloc: Global, _key: &Key, row: &Row) -> Result<(), AllocError> {
        self.rows.push(copy_row(alloc, row)?)?;
        Ok(())
    }
}

impl ForkVisitor<Row> for RowList {
    ghost forked = { λ _. [] };

    ghost joined = { λ rows following. rows ++ following };

    fn fork(&self, alloc: Global) -> Self {
        RowList::new(alloc)
    }

    fn join(&mut self, _alloc: Global, following: Self) -> Result<(), AllocError> {
        let RowList { mut rows } = following;
        self.rows.append(&mut rows)
    }

    ghost as_one = { λ list rows following. lists_as_one (λ row. row.1 ∷ []) list rows following };
}

/// The records of the rows that are shown, as [`write_row`] writes them, each followed by a line feed: a CSV text without a header. A text in a row may contain
/// line breaks, between quotes. A contract sees the bytes.
#[derive(Drop)]
pub struct RecordText {
    text: Vec<u8>,
}

impl Model for RecordText {
    ghost use Rattle.std.specs.Prelude.{List, ℕ};

    ghost Value = { List ℕ };

    ghost view = { λ t. t.text.items };
}

impl RecordText {
    /// No records. Allocates nothing.
    pub fn new(alloc: Global) -> Self
        ensures { result ≡ [] }
    {
        RecordText {
            text: Vec::new(alloc),
        }
    }

    /// The text.
    pub fn as_bytes(&self) -> &[u8]
        ensures { result.now ≡ self.now }
    {
        self.text.as_slice()
    }
}

impl Visitor<Row> for RecordText {
    ghost visited = { λ text row. text ++ record_line row.1 };

    fn visit(&mut self, _alloc: Global, _key: &Key, row: &Row) -> Result<(), AllocError> {
        write_row(&mut self.text, row)?;
        self.text.push(b'\n')?;
        Ok(())
    }
}

impl ForkVisitor<Row> for RecordText {
    ghost forked = { λ _. [] };

    ghost joined = { λ text following. text ++ following };

    fn fork(&self, alloc: Global) -> Self {
        RecordText::new(alloc)
    }

    fn join(&mut self, _alloc: Global, following: Self) -> Result<(), AllocError> {
        let RecordText { mut text } = following;
        self.text.append(&mut text)
    }

    ghost as_one = { λ text rows following. lists_as_one (λ row. record_line row.1) text rows following };
}
