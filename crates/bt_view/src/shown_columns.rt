//! The columns of the rows of a tree.
ghost use Rattle.std.specs.Prelude.{◌≡◌, IfErr, IfOk, IsErrOf, take};
ghost use Rattle.bt_value.specs.Answers.{Answers};
ghost use Rattle.bt_table.specs.Calls.{tree_named};
ghost use Rattle.bt_view.specs.Ranges as spec;

use bt_row::{Column, Columns, Schema};
use bt_show::{add_all, index_columns, key_count};
use bt_table::{Table, TreeRef};
use bt_value::{Refusal, Text};
use std::alloc::{AllocError, Global};
use std::marker::Model;

/// The columns of the rows of a tree, of which the first are those of its key. A contract sees them as a schema.
#[derive(Drop)]
pub struct TreeColumns {
    columns: Columns,
    keys: usize,
}

impl Model for TreeColumns {
    ghost use Rattle.std.specs.Prelude.{◌≤◌, length};
    ghost use Rattle.bt_row.specs.Schemas as schemas;

    ghost Value = { schemas.Schema };

    ghost view = { λ t. record { columns = t.columns; keys = t.keys } };

    ghost invariant = { λ t. t.keys ≤ length t.columns };
}

impl TreeColumns {
    /// All columns, in order.
    pub fn columns(&self) -> &[Column]
        ensures { result.now ≡ self.now.columns }
    {
        self.columns.as_slice()
    }

    /// The columns of the key.
    pub fn key_columns(&self) -> &[Column]
        ensures { result.now ≡ take self.now.keys self.now.columns }
    {
        &self.columns.as_slice()[..self.keys]
    }

    /// The number of key columns.
    pub fn keys(&self) -> usize
        ensures { result ≡ self.now.keys }
    {
        self.keys
    }
}

// The columns of the rows of the table.
fn columns_of_rows(alloc: Global, schema: &Schema) -> Result<TreeColumns, AllocError>
    ensures { IfOk result (λ columns. columns ≡ schema.now) }
{
    let mut columns = Columns::new(alloc);
    add_all(alloc, &mut columns, schema.columns())?;
    Ok(TreeColumns {
        columns,
        keys: schema.keys(),
    })
}

/// The columns of the rows of the tree of this name. `Failed` and `NoSuchTree` come before anything is allocated.
pub fn tree_columns(alloc: Global, table: &Table, name: &Text) -> Result<TreeColumns, Refusal>
    ensures answer { Answers (spec.tree_columns table.now name.now) result }
    ensures certain { IfErr (tree_named table.now name.now) (IsErrOf result) }
{
    match table.tree(name)? {
        TreeRef::Rows { schema, .. } => Ok(columns_of_rows(alloc, schema)?),
        TreeRef::Index { schema, index } => {
            let keys = key_count(schema, &index.head.def);
            let columns = index_columns(alloc, schema, &index.head.def)?;
            Ok(TreeColumns { columns, keys })
        }
    }
}
