//! The trees of a table as packed bytes.
ghost use Rattle.std.specs.Prelude.{◌≡◌, ◌≤◌, ◌++◌, IfOk, OnOk, length};
ghost use Rattle.bt_table.specs.Indexes.{index_of_ref, indexes_of_refs};
ghost use Rattle.bt_table.specs.Tables.{held_by};
ghost use Rattle.bt_packed.specs.Calls as spec;

use crate::columns::add_columns;
use crate::counts::add_usage;
use crate::rows::{ReplyRoom, add_bytes, count_bytes};
use bt_row::{Column, Schema};
use bt_show::{index_columns, key_count, usage_of};
use bt_table::{IndexRef, IndexRefs, TreeRefs, name_of_rows};
use std::alloc::{AllocError, Global};

// Adds a tree without its use: its name, its state, the number of its key columns, and its columns after their number.
fn add_tree(
    out: &mut Vec<u8>,
    name: &[u8],
    is_complete: bool,
    keys: usize,
    columns: &[Column],
) -> Result<(), AllocError>
    requires { length name.now ≤ 255 }
    ensures { OnOk result (out.new.items ≡ out.old.items ++ spec.tree_bytes name.now is_complete (record { columns = columns.now; keys = keys })) }
{
    add_bytes(out, name)?;
    out.push(if is_complete { 0 } else { 1 })?;
    out.extend_from_slice(&count_bytes(keys as u64))?;
    out.extend_from_slice(&count_bytes(columns.len() as u64))?;
    add_columns(out, columns)
}

// Adds the tree of the rows.
fn add_rows(out: &mut Vec<u8>, trees: &TreeRefs<'_>, has_usage: bool) -> Result<(), AllocError>
    ensures { OnOk result (out.new.items ≡ out.old.items ++ spec.rows_bytes has_usage (held_by trees.now.schema.now trees.now.rows.now (indexes_of_refs trees.now.indexes))) }
{
    let schema = trees.schema;
    add_tree(out, name_of_rows(), true, schema.keys(), schema.columns())?;
    if has_usage {
        add_usage(out, usage_of(&trees.rows.walk()))?;
    }
    Ok(())
}

// Adds an index of a table with this schema.
fn add_index(
    alloc: Global,
    out: &mut Vec<u8>,
    schema: &Schema,
    index: IndexRef<'_>,
    has_usage: bool,
) -> Result<(), AllocError>
    ensures { OnOk result (out.new.items ≡ out.old.items ++ spec.index_bytes has_usage schema.now (index_of_ref index.entry)) }
{
    let head = index.head;
    let columns = index_columns(alloc, schema, &head.def)?;
    let keys = key_count(schema, &head.def);
    add_tree(
        out,
        head.name.as_bytes(),
        index.is_complete(),
        keys,
        columns.as_slice(),
    )?;
    if has_usage {
        add_usage(out, usage_of(&index.tree.walk()))?;
    }
    Ok(())
}

// Adds the indexes of a table with this schema.
fn add_indexes(
    alloc: Global,
    out: &mut Vec<u8>,
    schema: &Schema,
    indexes: IndexRefs<'_>,
    has_usage: bool,
) -> Result<(), AllocError>
    ensures { OnOk result (out.new.items ≡ out.old.items ++ spec.indexes_bytes has_usage schema.now (indexes_of_refs indexes.entry)) }
{
    let mut rest = indexes;
    while let Some(index) = rest.next() {
        add_index(alloc, out, schema, index, has_usage)?;
    }
    Ok(())
}

/// The trees of a table: that of its rows, and its indexes in order of creation.
pub(crate) fn packed_trees(
    alloc: Global,
    trees: TreeRefs<'_>,
    has_usage: bool,
    room: ReplyRoom,
) -> Result<Vec<u8>, AllocError>
    ensures { IfOk result (λ bytes. bytes.items ≡ spec.packed_trees has_usage (held_by trees.entry.schema.now trees.entry.rows.now (indexes_of_refs trees.entry.indexes))) }
{
    let mut out = room.begin()?;
    add_rows(&mut out, &trees, has_usage)?;
    add_indexes(alloc, &mut out, trees.schema, trees.indexes, has_usage)?;
    Ok(out)
}
