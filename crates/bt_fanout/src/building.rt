//! The entries of all rows, and entries as messages.
ghost use Rattle.std.specs.FinMap.{is_sorted};
ghost use Rattle.std.specs.Prelude.{◌≡◌, ◌++◌, ◌+◌, ◌<◌, ◌≤◌, IfOk, IsTrue, OnOk, length};
ghost use Rattle.std.specs.List.{All};
ghost use Rattle.std.specs.Option.{option_to_list};
ghost use Rattle.bt_keycode.specs.Keys.{key_cmp};
ghost use Rattle.bt_fanout.specs.Covers.{put_of_entry};
ghost use Rattle.bt_fanout.specs.Entries.{IsWithin, entry_of};
ghost use Rattle.bt_fanout.specs.Promises.{SuitsRows};
ghost use Rattle.bt_fanout.specs.Selections.{select};
ghost use Rattle.bt_fanout.specs.inside.RowEntries.{AreEntriesOrFailed, IsEntryOrFailed, entries_of};

use crate::definition::IndexDef;
use crate::selecting::entry_at;
use bt_keycode::Key;
use bt_message::sort_by_key;
use bt_messages::{Entry, Message};
use bt_row::Row;
use rayon::prelude::*;
use std::alloc::{AllocError, Global};
use std::thread::Threads;

// Adds a put of an entry, if there is one.
pub(crate) fn add_put(
    messages: &mut Vec<(Key, Message<Entry>)>,
    entry: Option<(Key, Entry)>,
) -> Result<(), AllocError>
    ensures { OnOk result (messages.new.items ≡ messages.old.items ++ put_of_entry entry) }
{
    match entry {
        Some((key, value)) => {
            messages.push((key, Message::Put(value)))?;
            Ok(())
        }
        None => Ok(()),
    }
}

// Adds an entry, if there is one.
fn add_entry(entries: &mut Vec<(Key, Entry)>, entry: Option<(Key, Entry)>) -> Result<(), AllocError>
    ensures { OnOk result (entries.new.items ≡ entries.old.items ++ option_to_list entry) }
{
    match entry {
        Some(entry) => {
            entries.push(entry)?;
            Ok(())
        }
        None => Ok(()),
    }
}

// The entries of rows, in the order of the rows.
fn entries_in_order(
    alloc: Global,
    def: &IndexDef,
    rows: &[(Key, Row)],
) -> Result<Vec<(Key, Entry)>, AllocError>
    requires { All (λ row. IsWithin def.now (length row.1)) rows.now }
    ensures { IfOk result (λ entries. entries.items ≡ entries_of (entry_of def.now) rows.now) }
{
    let mut entries = Vec::new(alloc);
    for row in rows {
        add_entry(&mut entries, entry_at(alloc, def, &row.0, &row.1)?)?;
    }
    Ok(entries)
}

// The entry of a row, or the error of an allocation.
fn entry_or_failed(
    alloc: Global,
    def: &IndexDef,
    row: &(Key, Row),
) -> Result<Option<(Key, Entry)>, AllocError>
    requires { IsWithin def.now (length row.now.1) }
    ensures { IsEntryOrFailed def.now row.now result }
{
    entry_at(alloc, def, &row.0, &row.1)
}

// Writes the entries of the rows from `start` on to a piece.
fn write_entries(
    alloc: Global,
    def: &IndexDef,
    rows: &[(Key, Row)],
    start: usize,
    piece: &mut [Result<Option<(Key, Entry)>, AllocError>],
)
    requires within { start + length piece.old ≤ length rows.now }
    requires suit { All (λ row. IsWithin def.now (length row.1)) rows.now }
    ensures long { length piece.new ≡ length piece.old }
    ensures entries { AreEntriesOrFailed def.now start rows.now piece.new }
{
    for offset in 0..piece.len() {
        piece[offset] = entry_or_failed(alloc, def, &rows[start + offset]);
    }
}

// The entries of rows, in the order of the rows, made in threads. A job makes those of at most `len` rows.
fn entries_in_threads<R: Threads + Sync>(
    rt: &R,
    alloc: Global,
    def: &IndexDef,
    rows: &[(Key, Row)],
    len: usize,
) -> Result<Vec<(Key, Entry)>, AllocError>
    requires some { 0 < len }
    requires suit { All (λ row. IsWithin def.now (length row.1)) rows.now }
    ensures { IfOk result (λ entries. entries.items ≡ entries_of (entry_of def.now) rows.now) }
{
    let mut made = Vec::new(alloc);
    made.resize_with(rows.len(), || Ok(None))?;
    par_chunks_mut_for_each(
        rt,
        made.as_mut_slice(),
        len,
        |start: usize, piece: &mut [Result<Option<(Key, Entry)>, AllocError>]|
            requires within { start + length piece.now ≤ length rows.now }
            requires suit { All (λ row. IsWithin def.now (length row.1)) rows.now }
            ensures long { length piece.new ≡ length piece.old }
            ensures entries { AreEntriesOrFailed def.entry.now start rows.entry.now piece.new }
        { write_entries(alloc, def, rows, start, piece) },
    );
    let mut entries = Vec::new(alloc);
    for entry in made {
        add_entry(&mut entries, entry?)?;
    }
    Ok(entries)
}

/// The entries of all rows, in ascending order of their keys: the contents of an index that is made from these rows. No two entries have the same key, since
/// the key of an entry ends with the key of its row.
pub fn sorted_entries(
    alloc: Global,
    def: &IndexDef,
    rows: &[(Key, Row)],
) -> Result<Vec<(Key, Entry)>, AllocError>
    requires { SuitsRows def.now rows.now }
    ensures entries { IfOk result (λ entries. entries.items ≡ select (entry_of def.now) rows.now) }
    ensures rising { IfOk result (λ entries. IsTrue (is_sorted key_cmp entries.items)) }
{
    let mut entries = entries_in_order(alloc, def, rows)?;
    sort_by_key(alloc, &mut entries)?;
    Ok(entries)
}

/// The entries that [`sorted_entries`] returns, made and sorted on the threads of a runtime, with `rayon`. A job makes the entries of at most `len` rows. The
/// sort takes its number of threads from the machine.
pub fn sorted_entries_in_threads<R: Threads + Sync>(
    rt: &R,
    alloc: Global,
    def: &IndexDef,
    rows: &[(Key, Row)],
    len: usize,
) -> Result<Vec<(Key, Entry)>, AllocError>
    requires some { 0 < len }
    requires suits { SuitsRows def.now rows.now }
    ensures entries { IfOk result (λ entries. entries.items ≡ select (entry_of def.now) rows.now) }
    ensures rising { IfOk result (λ entries. IsTrue (is_sorted key_cmp entries.items)) }
{
    let mut entries = entries_in_threads(rt, alloc, def, rows, len)?;
    par_sort_unstable_by(
        rt,
        entries.as_mut_slice(),
        |left: &(Key, Entry), right: &(Key, Entry)| left.0.compare(&right.0),
    );
    Ok(entries)
}
