//! The columns of a tree as packed bytes.
ghost use Rattle.std.specs.Prelude.{◌≡◌, ◌++◌, IfOk, OnOk};
ghost use Rattle.bt_packed.specs.Calls as spec;

use crate::rows::{ReplyRoom, add_bytes, count_bytes};
use bt_row::Column;
use std::alloc::AllocError;

// Adds a column: its kind and its name.
fn add_column(out: &mut Vec<u8>, column: &Column) -> Result<(), AllocError>
    ensures { OnOk result (out.new.items ≡ out.old.items ++ spec.column_bytes column.now) }
{
    out.push(column.kind.tag())?;
    add_bytes(out, column.name.as_bytes())
}

/// Adds columns.
pub(crate) fn add_columns(out: &mut Vec<u8>, columns: &[Column]) -> Result<(), AllocError>
    ensures { OnOk result (out.new.items ≡ out.old.items ++ spec.columns_bytes columns.now) }
{
    for column in columns {
        add_column(out, column)?;
    }
    Ok(())
}

/// The columns, after the number of key columns.
pub(crate) fn packed_columns(
    columns: &[Column],
    keys: usize,
    room: ReplyRoom,
) -> Result<Vec<u8>, AllocError>
    ensures { IfOk result (λ bytes. bytes.items ≡ spec.packed_columns (record { columns = columns.now; keys = keys })) }
{
    let mut out = room.begin()?;
    out.extend_from_slice(&count_bytes(keys as u64))?;
    add_columns(&mut out, columns)?;
    Ok(out)
}
