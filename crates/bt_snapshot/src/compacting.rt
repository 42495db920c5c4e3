//! Replacing a table by one in a smaller form.
ghost use Rattle.std.specs.List.{list_all};
ghost use Rattle.std.specs.Prelude.{◌≡◌, IfSome, Ok, true};
ghost use Rattle.bt_table.specs.Indexes.{indexes_of_refs, is_complete};
ghost use Rattle.bt_snapshot.specs.Snapshots.{IsCompacted, restored};
ghost use Rattle.bt_snapshot.specs.inside.Compacting.{IsWhole};

use crate::definitions::have_same_definitions;
use crate::restoring::restore;
use crate::snapshot::snapshot_of;
use bt_gang::Context;
use bt_shell::ScriptWorkforce;
use bt_table::{IndexRefs, Table};

/// A table that was compacted.
#[derive(Drop)]
pub struct Compacted {
    /// The bytes that restore the table.
    pub snapshot: Vec<u8>,
    /// The table that these bytes restore.
    pub table: Table,
}

// Whether all indexes are complete.
fn are_complete(indexes: IndexRefs<'_>) -> bool
    ensures { result ≡ list_all is_complete (indexes_of_refs indexes.entry) }
{
    let mut rest = indexes;
    while let Some(index) = rest.next() {
        if !index.is_complete() {
            return false;
        }
    }
    true
}

// Whether a table is not lost and its indexes are complete.
fn is_whole(table: &Table) -> bool
    ensures { result ≡ true → IsWhole table.now }
{
    match table.trees() {
        Ok(trees) => are_complete(trees.indexes),
        Err(_refusal) => false,
    }
}

/// A table with the same definitions and rows, whose trees are packed, and a snapshot that restores it. The table is read once, and is not changed.
///
/// `None` if the table is lost, if an index is building, if memory runs out, if the snapshot cannot be restored, or if the table that it restores has other
/// definitions. The last two happen if a name cannot be written in a script, or if the constant of a condition has a line break.
pub fn compact<T, C: ScriptWorkforce<T>>(
    context: &Context<'_, T, C>,
    table: &Table,
) -> Option<Compacted>
    requires ready { C.accepts context.now.crew.now }
    ensures restored { IfSome result (λ made. restored made.snapshot.items ≡ Ok made.table) }
    ensures compacted { IfSome result (λ made. IsCompacted table.now made.table) }
{
    if !is_whole(table) {
        return None;
    }
    let Ok(snapshot) = snapshot_of(context.alloc, table) else {
        return None;
    };
    let Ok(restored) = restore(context, snapshot.as_slice()) else {
        return None;
    };
    if !have_same_definitions(table, &restored) {
        return None;
    }
    Some(Compacted {
        snapshot,
        table: restored,
    })
}
