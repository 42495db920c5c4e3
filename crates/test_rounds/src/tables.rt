//! Tables of ints that batches make, and their images.
use bt_fanout::IndexDef;
use bt_node::Shape;
use bt_rowtype::{Column, Kind, Refusal, Schema, Sequence, Text, Texts};
use bt_script::{Command, Parsed, parse_command};
use bt_table::{Alone, Reply, Table, Workforce};
use bt_view::image;
use std::alloc::{AllocError, Global};

/// Three leaves of two rows each.
pub(crate) const SIX_ROWS: &str =
    "batch\nput 1,10\nput 2,20\nput 3,30\nput 4,40\nput 5,50\nput 6,60\nend\n";

/// Four, two and two messages for these leaves; the first two leaves are flushed.
pub(crate) const EIGHT_MESSAGES: &str =
    "batch\nput 1,11\nput 2,21\nput 0,0\nput -1,-10\nput 3,31\nput 4,41\nput 5,51\nput 6,61\nend\n";

// A table of the columns `id`, which is the key, and `qty`: at most four children, `buffer` messages and two rows a node.
fn empty_table(alloc: Global, buffer: u32) -> Result<Table, Refusal> {
    let mut columns = Sequence::new(alloc);
    for name in ["id", "qty"] {
        columns.push(Column {
            name: Text::new(alloc, name)?,
            kind: Kind::Int,
        })?;
    }
    let Ok(schema) = Schema::new(columns, 1) else {
        return Err(Refusal::BadSchema);
    };
    Ok(Table::new(alloc, schema, Shape::new(4, buffer, 2)?))
}

/// Applies the batch at the start of a script.
pub(crate) fn apply<T, C: Workforce<T>>(
    rt: &T,
    alloc: Global,
    table: &mut Table,
    script: &str,
    crew: &C,
) -> Result<Reply, Refusal>
    requires ready { C.accepts crew.now }
{
    match parse_command(alloc, script.as_bytes(), 0)? {
        Parsed::Good {
            command: Command::Batch(items),
            ..
        } => table.apply(rt, alloc, items.as_slice(), crew),
        _ => Err(Refusal::Syntax),
    }
}

/// A table after these batches, by the caller alone. A node has room for three messages.
pub(crate) fn table_after(alloc: Global, batches: &[&str]) -> Result<Table, Refusal> {
    table_with_room_after(alloc, 3, batches)
}

/// A table after these batches, by the caller alone. A node has room for `buffer` messages.
pub(crate) fn table_with_room_after(
    alloc: Global,
    buffer: u32,
    batches: &[&str],
) -> Result<Table, Refusal> {
    let mut table = empty_table(alloc, buffer)?;
    for batch in batches {
        drop(apply(&(), alloc, &mut table, batch, &Alone)?);
    }
    Ok(table)
}

/// Creates the index `q` on `qty`.
pub(crate) fn create_index(alloc: Global, table: &mut Table) -> Result<Reply, Refusal> {
    let mut on = Texts::new(alloc);
    on.push("qty")?;
    let def = IndexDef::new(alloc, table.schema()?, &on, &Texts::new(alloc), None)?;
    table.create_index(alloc, Text::new(alloc, "q")?, def)
}

/// The name of the tree of the rows.
pub(crate) fn primary(alloc: Global) -> Result<Text, AllocError> {
    Text::new(alloc, "primary")
}

/// The image of the tree of the rows.
pub(crate) fn image_of_rows(alloc: Global, table: &Table) -> Result<Vec<u8>, Refusal> {
    image(alloc, table, &primary(alloc)?)
}
