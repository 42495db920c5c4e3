//! Groups of the rows of a range of keys.
ghost use Rattle.std.specs.Prelude.{◌≡◌, ◌≢◌, ◌≤◌, IfErr, IfOk, IsErrOf, fold};
ghost use Rattle.bt_value.specs.Answers.{Answers};
ghost use Rattle.bt_value.specs.Results.{and_then, map_ok, or_refused};
ghost use Rattle.bt_fanout.specs.Effects.{entry_effect, row_effect};
ghost use Rattle.bt_form.specs.Flushes.{holds};
ghost use Rattle.bt_form.specs.Messages.{between};
ghost use Rattle.bt_table.specs.Calls.{Primary, Secondary, ShowsIndex, ShowsRows};
ghost use Rattle.bt_table.specs.Indexes.{index_of_ref};
ghost use Rattle.bt_table.specs.Tables.{PlainTable};
ghost use Rattle.bt_view.specs.RangeSums as spec;
ghost use Rattle.bt_show.specs.inside.Entries.{rows_of_entries};
ghost use Rattle.bt_show.specs.inside.Neighbours.{after_row};
ghost use Rattle.bt_row.specs.Ops.{named_from};
ghost use Rattle.bt_view.specs.Ranges.{index_schema, when_whole};
ghost use Rattle.bt_view.specs.inside.Shown.{AnswersGroups, with_whole};

use crate::shown::{Shown, Summed, entries_in};
use bt_fanout::Cover;
use bt_messages::Entry;
use bt_node::Tree;
use bt_row::{Row, Schema, find_column};
use bt_show::{EntryGroups, Grouping, KeyRange, Sum, find_index_column, key_count};
use bt_table::IndexRef;
use bt_value::{Kind, Refusal, Sequence, Text};
use std::alloc::{AllocError, Global};

// The place of no column: no row has a value there, so its number is 0.
const NO_COLUMN: usize = usize::MAX;

/// Groups the rows of entries of an index in a range; the kinds are those of its key columns.
pub(crate) fn group_entries(
    alloc: Global,
    tree: &Tree<Entry>,
    kinds: &[Kind],
    range: &KeyRange,
    groups: Grouping,
) -> Result<Grouping, AllocError>
    ensures { IfOk result (λ after. after ≡ fold after_row groups (rows_of_entries kinds.now (between range.now.from range.now.to (holds entry_effect tree.now.1)))) }
{
    let (from, to) = range.bounds();
    let mut entries = EntryGroups::new(kinds, groups);
    tree.walk().visit(alloc, from, to, &mut entries)?;
    Ok(entries.into_groups())
}

// The place of the column that is summed, if one of its name was found; without a name it is `NO_COLUMN`. `NoSuchColumn` if none was found, or if a group has more
// columns than the key, and `NotInt` if the column is not int. Allocates nothing.
fn place_in_range(
    found: Option<(usize, Kind)>,
    keys: usize,
    grouping: u32,
    name: &Text,
) -> Result<usize, Refusal>
    ensures place { result ≡ spec.place_at keys grouping name.now found }
    ensures few { IfOk result (λ _. grouping ≤ keys) }
{
    if grouping as usize > keys {
        return Err(Refusal::NoSuchColumn);
    }
    if name.as_bytes().is_empty() {
        return Ok(NO_COLUMN);
    }
    match found {
        Some((place, Kind::Int)) => Ok(place),
        Some((_place, _)) => Err(Refusal::NotInt),
        None => Err(Refusal::NoSuchColumn),
    }
}

/// The sums of rows that were grouped by their first `grouping` columns. Without columns there is one group, even of no rows.
pub(crate) fn range_sums(groups: Grouping, grouping: u32) -> Result<Sequence<Sum>, Refusal>
    ensures { Answers (map_ok (with_whole grouping) (or_refused Refusal.TooMany groups.2)) result }
{
    let mut sums = groups.finish()?;
    if grouping == 0 && sums.as_slice().is_empty() {
        sums.push(Sum {
            group: Row::new(),
            count: 0,
            total: 0,
        })?;
    }
    Ok(sums)
}

/// The rows of a table in a range that are grouped.
pub(crate) fn rows_of_table<'a>(
    alloc: Global,
    schema: &Schema,
    tree: &'a Tree<Row>,
    range: KeyRange,
    grouping: u32,
    column: &Text,
) -> Result<Summed<'a>, Refusal>
    ensures answer { (table : PlainTable) → ShowsRows table schema.now tree.now → AnswersGroups grouping (spec.groups_within grouping column.now (Primary table) range) result }
    ensures certain { (table : PlainTable) → ShowsRows table schema.now tree.now →
        IfErr (spec.groups_within grouping column.now (Primary table) range) (λ refusal. refusal ≢ Refusal.TooMany → IsErrOf result refusal) }
{
    let found = find_column(schema.columns(), 0, column.as_bytes());
    match place_in_range(found, schema.keys(), grouping, column) {
        Ok(place) => Ok(Summed {
            shown: Shown::Rows { tree, range },
            groups: Grouping::new(alloc, grouping as usize, place),
        }),
        Err(refusal) => {
            drop(range);
            Err(refusal)
        }
    }
}

// The place of the summed column of an index, which has rows only if it covers all.
fn place_in_index(
    schema: &Schema,
    index: IndexRef<'_>,
    grouping: u32,
    column: &Text,
) -> Result<usize, Refusal>
    ensures place { result ≡ and_then (spec.place_at (index_schema schema.now index.entry.head.now.def).keys grouping column.now)
        (when_whole index.entry.head.now.cover (named_from 0 column.now (index_schema schema.now index.entry.head.now.def).columns)) }
    ensures few { IfOk result (λ _. grouping ≤ (index_schema schema.now index.entry.head.now.def).keys) }
{
    match index.head.cover {
        Cover::Whole => {
            let found = find_index_column(schema, &index.head.def, column.as_bytes());
            let keys = key_count(schema, &index.head.def);
            place_in_range(found, keys, grouping, column)
        }
        Cover::Nothing | Cover::UpTo(_) => Err(Refusal::Building),
    }
}

/// The rows of an index in a range that are grouped. It has rows only if it covers all.
pub(crate) fn rows_of_index<'a>(
    alloc: Global,
    schema: &Schema,
    index: IndexRef<'a>,
    range: KeyRange,
    grouping: u32,
    column: &Text,
) -> Result<Summed<'a>, Refusal>
    ensures answer { (table : PlainTable) → ShowsIndex table schema.now (index_of_ref index.entry) →
        AnswersGroups grouping (spec.groups_within grouping column.now (Secondary table (index_of_ref index.entry)) range) result }
    ensures certain { (table : PlainTable) → ShowsIndex table schema.now (index_of_ref index.entry) →
        IfErr (spec.groups_within grouping column.now (Secondary table (index_of_ref index.entry)) range) (λ refusal. refusal ≢ Refusal.TooMany → IsErrOf result refusal) }
{
    match place_in_index(schema, index, grouping, column) {
        Ok(place) => Ok(Summed {
            shown: entries_in(alloc, schema, index, range)?,
            groups: Grouping::new(alloc, grouping as usize, place),
        }),
        Err(refusal) => {
            drop(range);
            Err(refusal)
        }
    }
}
