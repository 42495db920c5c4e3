//! One list for items of the trees of rows and items of the trees of indexes.
ghost use Rattle.std.specs.Prelude.{◌≡◌, ◌≤◌, [], IfOk, length, vec_capacity};
ghost use Rattle.bt_gather.specs.inside.Eithers.{entries_in, one_list, rows_in};

use std::alloc::{AllocError, Global};

/// An item of a tree of rows, or of the tree of an index.
#[derive(Drop)]
pub(crate) enum Either<R, E> {
    Rows(R),
    Entries(E),
}

/// One list of both kinds of items, those of the trees of rows first.
pub(crate) fn one_list<R: Drop, E: Drop>(
    alloc: Global,
    rows: Vec<R>,
    entries: Vec<E>,
) -> Result<Vec<Either<R, E>>, AllocError>
    ensures { IfOk result (λ list. list.items ≡ one_list rows.items entries.items) }
{
    let Some(count) = rows.len().checked_add(entries.len()) else {
        return Err(AllocError);
    };
    let mut list = Vec::with_capacity(alloc, count)?;
    for row in rows {
        list.push_reserved(Either::Rows(row));
    }
    for entry in entries {
        list.push_reserved(Either::Entries(entry));
    }
    Ok(list)
}

/// The items of the trees of rows and those of the trees of indexes, in two empty lists whose capacity suffices.
pub(crate) fn two_lists<R: Drop, E: Drop>(
    list: Vec<Either<R, E>>,
    mut rows: Vec<R>,
    mut entries: Vec<E>,
) -> (Vec<R>, Vec<E>)
    requires rows { (rows.items ≡ []) × (length (rows_in list.items) ≤ vec_capacity rows) }
    requires entries { (entries.items ≡ []) × (length (entries_in list.items) ≤ vec_capacity entries) }
    ensures rows { result.0.items ≡ rows_in list.items }
    ensures entries { result.1.items ≡ entries_in list.items }
{
    for either in list {
        match either {
            Either::Rows(row) => rows.push_reserved(row),
            Either::Entries(entry) => entries.push_reserved(entry),
        }
    }
    (rows, entries)
}
