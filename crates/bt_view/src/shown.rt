//! Which rows of a table are shown, and showing them, by a crew or by the caller alone.
ghost use Rattle.std.specs.Prelude.{◌≡◌, ◌≢◌, ◌≤◌, IfErr, IfOk, IsErrOf, None, Ok, fold, take};
ghost use Rattle.std.specs.Option.{option_copied};
ghost use Rattle.bt_value.specs.Answers.{Answers};
ghost use Rattle.bt_fanout.specs.Effects.{entry_effect, row_effect};
ghost use Rattle.bt_form.specs.Flushes.{holds};
ghost use Rattle.bt_form.specs.Messages.{between};
ghost use Rattle.bt_value.specs.Results.{and_then};
ghost use Rattle.bt_table.specs.Calls.{Secondary, ShowsIndex, tree_named};
ghost use Rattle.bt_table.specs.Indexes.{index_of_ref};
ghost use Rattle.bt_table.specs.Tables.{PlainTable};
ghost use Rattle.bt_view.specs.Groups as groups;
ghost use Rattle.bt_view.specs.Ranges as spec;
ghost use Rattle.bt_show.specs.inside.Entries.{index_kinds, rows_of_entries};
ghost use Rattle.bt_show.specs.inside.Neighbours.{after_row};
ghost use Rattle.bt_view.specs.inside.Shown.{AnswersRows, AnswersSums, rows_shown};

use crate::range_sums::group_entries;
use bt_fanout::{Cover, IndexDef};
use bt_gang::{Context, Crew, Gate};
use bt_messages::Entry;
use bt_node::{ForkVisitor, Tree, Visitor};
use bt_portions::read;
use bt_record::RecordLine;
use bt_row::{Row, Schema, find_column};
use bt_show::{
    EntryGroups, EntryRows, Grouping, KeyRange, find_index_column, index_columns, index_kinds,
    key_columns, key_count, read_range, summed_place,
};
use bt_table::{IndexRef, Table, TreeRef};
use bt_value::{Kind, Refusal, Text};
use std::alloc::{AllocError, Global};
use std::sync::Wait;
use std::thread::Threads;

/// The rows of a range that are shown.
#[derive(Drop)]
pub(crate) enum Shown<'a> {
    /// Rows of the table.
    Rows {
        tree: &'a Tree<Row>,
        range: KeyRange,
    },
    /// Rows of an index; the kinds are those of its key columns.
    Entries {
        tree: &'a Tree<Entry>,
        kinds: Vec<Kind>,
        range: KeyRange,
    },
}

/// The rows of a range that are summed, and their grouping.
#[derive(Drop)]
pub(crate) struct Summed<'a> {
    pub(crate) shown: Shown<'a>,
    pub(crate) groups: Grouping,
}

// Shows the rows of a table in a range, without workers.
fn show_rows<S: Visitor<Row>>(
    alloc: Global,
    tree: &Tree<Row>,
    range: &KeyRange,
    visitor: S,
) -> Result<S, AllocError>
    ensures { IfOk result (λ after. after ≡ fold S.visited visitor (between range.now.from range.now.to (holds row_effect tree.now.1))) }
{
    let (from, to) = range.bounds();
    let mut visitor = visitor;
    tree.walk().visit(alloc, from, to, &mut visitor)?;
    Ok(visitor)
}

/// Shows the rows, without workers.
pub(crate) fn show_alone<S: Visitor<Row>>(
    alloc: Global,
    shown: Shown<'_>,
    visitor: S,
) -> Result<S, AllocError>
    ensures { IfOk result (λ after. after ≡ fold S.visited visitor (rows_shown shown.entry)) }
{
    match shown {
        Shown::Rows { tree, range } => show_rows(alloc, tree, &range, visitor),
        Shown::Entries { tree, kinds, range } => {
            let (from, to) = range.bounds();
            let mut rows = EntryRows {
                kinds: kinds.as_slice(),
                visitor,
            };
            tree.walk().visit(alloc, from, to, &mut rows)?;
            let EntryRows { visitor, .. } = rows;
            Ok(visitor)
        }
    }
}

/// Shows the rows, by a crew.
pub(crate) fn show<S: ForkVisitor<Row> + Send, G: Gate + Sync, T: Threads + Wait + Sync>(
    context: &Context<'_, T, Crew<G>>,
    shown: Shown<'_>,
    visitor: S,
) -> Result<S, AllocError>
    ensures { IfOk result (λ after. after ≡ fold S.visited visitor (rows_shown shown.entry)) }
{
    match shown {
        Shown::Rows { tree, range } => {
            let (from, to) = range.bounds();
            read(context, tree, from, to, visitor)
        }
        Shown::Entries { tree, kinds, range } => {
            let (from, to) = range.bounds();
            let rows = EntryRows {
                kinds: kinds.as_slice(),
                visitor,
            };
            let EntryRows { visitor, .. } = read(context, tree, from, to, rows)?;
            Ok(visitor)
        }
    }
}

/// The groups of the rows, without workers.
pub(crate) fn sum_alone(alloc: Global, summed: Summed<'_>) -> Result<Grouping, AllocError>
    ensures { IfOk result (λ groups. groups ≡ fold after_row summed.entry.groups (rows_shown summed.entry.shown)) }
{
    let Summed { shown, groups } = summed;
    match shown {
        Shown::Entries { tree, kinds, range } => {
            group_entries(alloc, tree, kinds.as_slice(), &range, groups)
        }
        rows => show_alone(alloc, rows, groups),
    }
}

/// The groups of the rows, by a crew.
pub(crate) fn sum<G: Gate + Sync, T: Threads + Wait + Sync>(
    context: &Context<'_, T, Crew<G>>,
    summed: Summed<'_>,
) -> Result<Grouping, AllocError>
    ensures { IfOk result (λ groups. groups ≡ fold after_row summed.entry.groups (rows_shown summed.entry.shown)) }
{
    let Summed { shown, groups } = summed;
    match shown {
        Shown::Entries { tree, kinds, range } => {
            let entries = EntryGroups::new(kinds.as_slice(), groups);
            let (from, to) = range.bounds();
            let entries = read(context, tree, from, to, entries)?;
            Ok(entries.into_groups())
        }
        rows => show(context, rows, groups),
    }
}

// The range between two bounds of an index. If there is no bound, nothing is allocated.
fn read_index_range(
    alloc: Global,
    schema: &Schema,
    def: &IndexDef,
    from: Option<&RecordLine<'_>>,
    to: Option<&RecordLine<'_>>,
) -> Result<KeyRange, Refusal>
    ensures answer { Answers (spec.range_as (take (spec.index_schema schema.now def.now).keys (spec.index_schema schema.now def.now).columns) (option_copied from.entry) (option_copied to.entry)) result }
    ensures unbounded { from.entry ≡ None → to.entry ≡ None → result ≡ Ok spec.all_keys }
{
    if from.is_none() && to.is_none() {
        return Ok(KeyRange {
            from: None,
            to: None,
        });
    }
    let columns = index_columns(alloc, schema, def)?;
    read_range(
        alloc,
        key_columns(schema, def, columns.as_slice()),
        from,
        to,
    )
}

// The range between two bounds of an index, which has rows to show only if it covers all.
fn index_range(
    alloc: Global,
    schema: &Schema,
    index: IndexRef<'_>,
    from: Option<&RecordLine<'_>>,
    to: Option<&RecordLine<'_>>,
) -> Result<KeyRange, Refusal>
    ensures answer { Answers
        (and_then (spec.when_whole index.entry.head.now.cover)
        (spec.range_as (take (spec.index_schema schema.now index.entry.head.now.def).keys (spec.index_schema schema.now index.entry.head.now.def).columns)
        (option_copied from.entry) (option_copied to.entry)))
        result }
    ensures unbounded { from.entry ≡ None → to.entry ≡ None → result ≡ spec.when_whole index.entry.head.now.cover spec.all_keys }
{
    let range = read_index_range(alloc, schema, &index.head.def, from, to)?;
    match index.head.cover {
        Cover::Whole => Ok(range),
        Cover::Nothing | Cover::UpTo(_) => {
            drop(range);
            Err(Refusal::Building)
        }
    }
}

/// The entries of an index in a range.
pub(crate) fn entries_in<'a>(
    alloc: Global,
    schema: &Schema,
    index: IndexRef<'a>,
    range: KeyRange,
) -> Result<Shown<'a>, AllocError>
    ensures { IfOk result (λ shown. rows_shown shown ≡ rows_of_entries (index_kinds schema.now index.entry.head.now.def) (between range.from range.to (holds entry_effect index.entry.tree.now.1))) }
{
    match index_kinds(alloc, schema, &index.head.def) {
        Ok(kinds) => Ok(Shown::Entries {
            tree: index.tree,
            kinds,
            range,
        }),
        Err(error) => {
            drop(range);
            Err(error)
        }
    }
}

// The rows that a scan of an index shows.
fn scan_index<'a>(
    alloc: Global,
    schema: &Schema,
    index: IndexRef<'a>,
    from: Option<&RecordLine<'_>>,
    to: Option<&RecordLine<'_>>,
) -> Result<Shown<'a>, Refusal>
    ensures answer { (table : PlainTable) → ShowsIndex table schema.now (index_of_ref index.entry) →
        AnswersRows (spec.scan_with_keys_of (option_copied from.entry) (option_copied to.entry) (Secondary table (index_of_ref index.entry))) result }
    ensures unbounded { (table : PlainTable) → from.entry ≡ None → to.entry ≡ None → IfErr (spec.scan_with_keys_of None None (Secondary table (index_of_ref index.entry))) (IsErrOf result) }
{
    let range = index_range(alloc, schema, index, from, to)?;
    Ok(entries_in(alloc, schema, index, range)?)
}

/// The rows that a scan of the tree of this name shows: those at or after the key that `from` encodes and before the one that `to` encodes. A bound is a record
/// of at least one of the first columns of the tree's key; one that is absent does not limit the range.
///
/// Refused with the first that applies: `Failed`, `NoSuchTree`, the lowest of `BadField` and `BadLength` with item 1 for `from` and 2 for `to`, `Building`.
/// `Failed` and `NoSuchTree`, and also `Building` if there is no bound, come before anything is allocated.
pub(crate) fn rows_to_show<'a>(
    alloc: Global,
    table: &'a Table,
    name: &Text,
    from: Option<&RecordLine<'_>>,
    to: Option<&RecordLine<'_>>,
) -> Result<Shown<'a>, Refusal>
    ensures answer { AnswersRows (spec.scan_with_keys table.now name.now (option_copied from.entry) (option_copied to.entry)) result }
    ensures certain { IfErr (tree_named table.now name.now) (IsErrOf result) }
    ensures unbounded { from.entry ≡ None → to.entry ≡ None → IfErr (spec.scan_with_keys table.now name.now None None) (IsErrOf result) }
{
    match table.tree(name)? {
        TreeRef::Rows { schema, tree } => {
            let range = read_range(alloc, schema.key_columns(), from, to)?;
            Ok(Shown::Rows { tree, range })
        }
        TreeRef::Index { schema, index } => scan_index(alloc, schema, index, from, to),
    }
}

// The place of the summed column of this name among those of the rows of an index, grouped by the first `grouping` columns. Allocates nothing.
fn index_place(
    schema: &Schema,
    def: &IndexDef,
    grouping: u32,
    column: &Text,
) -> Result<usize, Refusal>
    ensures place { result ≡ groups.summed_place (spec.index_schema schema.now def.now).columns (spec.index_schema schema.now def.now).keys grouping column.now }
    ensures few { IfOk result (λ _. grouping ≤ (spec.index_schema schema.now def.now).keys) }
{
    let found = find_index_column(schema, def, column.as_bytes());
    summed_place(found, key_count(schema, def), grouping)
}

// The rows of an index that are summed.
fn sum_index<'a>(
    alloc: Global,
    schema: &Schema,
    index: IndexRef<'a>,
    grouping: u32,
    column: &Text,
    from: Option<&RecordLine<'_>>,
    to: Option<&RecordLine<'_>>,
) -> Result<Summed<'a>, Refusal>
    ensures answer { (table : PlainTable) → ShowsIndex table schema.now (index_of_ref index.entry) →
        AnswersSums (groups.sums_of grouping column.now (option_copied from.entry) (option_copied to.entry) (Secondary table (index_of_ref index.entry))) result }
    ensures unbounded { (table : PlainTable) → ShowsIndex table schema.now (index_of_ref index.entry) → from.entry ≡ None → to.entry ≡ None →
        IfErr (groups.sums_of grouping column.now None None (Secondary table (index_of_ref index.entry)))
        (λ refusal. refusal ≢ Refusal.TooMany → IsErrOf result refusal) }
{
    let range = index_range(alloc, schema, index, from, to)?;
    let place = match index_place(schema, &index.head.def, grouping, column) {
        Ok(place) => place,
        Err(refusal) => {
            drop(range);
            return Err(refusal);
        }
    };
    Ok(Summed {
        shown: entries_in(alloc, schema, index, range)?,
        groups: Grouping::new(alloc, grouping as usize, place),
    })
}

/// The rows of the tree of this name that are summed: those of `rows_to_show`, grouped by the first `grouping` columns, with the sum of the column of this
/// name.
///
/// Refused like `rows_to_show`, and after that with `NoSuchColumn` if a group has no columns or more than the key, or if there is no column of this name, and
/// with `NotInt` if it is not int. If there is no bound, all of these come before anything is allocated.
pub(crate) fn rows_to_sum<'a>(
    alloc: Global,
    table: &'a Table,
    name: &Text,
    grouping: u32,
    column: &Text,
    from: Option<&RecordLine<'_>>,
    to: Option<&RecordLine<'_>>,
) -> Result<Summed<'a>, Refusal>
    ensures answer { AnswersSums (groups.sums table.now name.now grouping column.now (option_copied from.entry) (option_copied to.entry)) result }
    ensures certain { IfErr (tree_named table.now name.now) (IsErrOf result) }
    ensures unbounded { from.entry ≡ None → to.entry ≡ None → IfErr (groups.sums table.now name.now grouping column.now None None) (λ refusal. refusal ≢ Refusal.TooMany → IsErrOf result refusal) }
{
    match table.tree(name)? {
        TreeRef::Rows { schema, tree } => {
            let range = read_range(alloc, schema.key_columns(), from, to)?;
            let found = find_column(schema.columns(), 0, column.as_bytes());
            match summed_place(found, schema.keys(), grouping) {
                Ok(place) => Ok(Summed {
                    shown: Shown::Rows { tree, range },
                    groups: Grouping::new(alloc, grouping as usize, place),
                }),
                Err(refusal) => {
                    drop(range);
                    Err(refusal)
                }
            }
        }
        TreeRef::Index { schema, index } => {
            sum_index(alloc, schema, index, grouping, column, from, to)
        }
    }
}
