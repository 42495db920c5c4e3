//! The bytes of a snapshot.
ghost use Rattle.std.specs.Prelude.{◌≡◌, ◌++◌, IfOk, List, None, Ok, OnOk, codes, flat_map, map, ℕ};
ghost use Rattle.bt_value.specs.declared.value.Value.{Value};
ghost use Rattle.bt_show.specs.RecordTexts.{record_line};
ghost use Rattle.bt_view.specs.Ranges as ranges;
ghost use Rattle.bt_snapshot.specs.Snapshots as spec;
ghost use Rattle.bt_snapshot.specs.inside.Compacting.{HasDump, name_value};

use crate::script_text::write_script;
use bt_keycode::Key;
use bt_node::Visitor;
use bt_row::{Column, Row, write_row};
use bt_table::{Table, TreeRefs};
use bt_value::{Refusal, Text, ValueRef};
use bt_view::scan_alone;
use std::alloc::{AllocError, Global};
use std::marker::Model;

// The names of columns as a row.
fn row_of_names(alloc: Global, columns: &[Column]) -> Result<Row, AllocError>
    ensures { IfOk result (λ row. row ≡ map name_value columns.now) }
{
    let mut row = Row::new();
    for column in columns {
        row.push(alloc, ValueRef::Text(column.name.as_bytes()))?;
    }
    Ok(row)
}

// Appends the header of the text.
fn write_header(alloc: Global, out: &mut Vec<u8>, columns: &[Column]) -> Result<(), AllocError>
    ensures { OnOk result (out.new.items ≡ out.old.items ++ spec.header_line columns.now) }
{
    let names = row_of_names(alloc, columns)?;
    write_row(out, &names)?;
    out.push(b'\n')?;
    Ok(())
}

// A text, to which each row that is shown adds its line. A contract sees the bytes.
#[derive(Drop)]
struct RowLines {
    text: Vec<u8>,
}

impl Model for RowLines {
    ghost use Rattle.std.specs.Prelude.{List, ℕ};

    ghost Value = { List ℕ };

    ghost view = { λ t. t.text.items };
}

impl Visitor<Row> for RowLines {
    ghost visited = { λ text row. text ++ record_line row.1 };

    fn visit(&mut self, _alloc: Global, _key: &Key, row: &Row) -> Result<(), AllocError> {
        write_row(&mut self.text, row)?;
        self.text.push(b'\n')?;
        Ok(())
    }
}

// A text, followed by the lines of all rows of a table.
fn with_rows(alloc: Global, table: &Table, text: Vec<u8>) -> Result<Vec<u8>, Refusal>
    ensures { IfOk result (λ whole. (rows : List (List Value)) → ranges.scan table.now (codes "primary") None None ≡ Ok rows → whole.items ≡ text.items ++ flat_map record_line rows) }
{
    let name = Text::new(alloc, "primary")?;
    let lines = scan_alone(alloc, table, &name, None, None, RowLines { text })?;
    let RowLines { text } = lines;
    Ok(text)
}

// A snapshot without the lines of the rows.
fn snapshot_without_rows(alloc: Global, trees: &TreeRefs<'_>) -> Result<Vec<u8>, AllocError>
    ensures { IfOk result (λ begun. (lines : List ℕ) → spec.text_of (begun.items ++ lines) ≡ spec.header_line trees.now.schema.now.columns ++ lines) }
{
    let mut script = Vec::new(alloc);
    write_script(alloc, &mut script, trees)?;
    let mut payload = Vec::from_slice(alloc, &(script.len() as u64).to_le_bytes())?;
    payload.extend_from_slice(script.as_slice())?;
    write_header(alloc, &mut payload, trees.schema.columns())?;
    Ok(payload)
}

/// The snapshot of a table.
pub(crate) fn snapshot_of(alloc: Global, table: &Table) -> Result<Vec<u8>, Refusal>
    ensures { IfOk result (λ payload. HasDump table.now payload.items) }
{
    let trees = table.trees()?;
    let begun = snapshot_without_rows(alloc, &trees)?;
    with_rows(alloc, table, begun)
}
