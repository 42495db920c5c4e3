//! Scans, grouped sums and images of the trees of a table.
ghost use Rattle.std.specs.Prelude.{◌≡◌, ◌≢◌, Err, IfErr, IfOk, IsErrOf, None, Ok, fold};
ghost use Rattle.std.specs.Option.{option_copied};
ghost use Rattle.bt_value.specs.Answers.{Answers};
ghost use Rattle.bt_value.specs.Results.{map_ok};
ghost use Rattle.bt_table.specs.Calls.{tree_named};
ghost use Rattle.bt_view.specs.Groups as groups;
ghost use Rattle.bt_view.specs.Images as images;
ghost use Rattle.bt_view.specs.RangeSums as ranged;
ghost use Rattle.bt_view.specs.Ranges as spec;
ghost use Rattle.bt_view.specs.Usage as usages;
ghost use Rattle.bt_view.specs.inside.Orders as orders;
ghost use Rattle.bt_view.specs.inside.Shown.{AnswersGroups};

use crate::pages::{RowOrder, page_of_index, page_of_rows};
use crate::range_sums::{range_sums, rows_of_index, rows_of_table};
use crate::shown::{Summed, rows_to_show, rows_to_sum, show, show_alone, sum, sum_alone};
use bt_gang::{Context, Crew, Gate};
use bt_node::{ForkVisitor, Visitor};
use bt_record::RecordLine;
use bt_row::Row;
use bt_show::{EntryDrawing, KeyRange, RowDrawing, Sum, TreeUsage, image_text, usage_of};
use bt_table::{Table, TreeRef};
use bt_value::{Refusal, Sequence, Text};
use std::alloc::Global;
use std::sync::Wait;
use std::thread::Threads;

/// Shows a visitor the rows of the tree of this name in a range, by a crew. These are the rows at or after the key that `from` encodes and before the one that
/// `to` encodes, in ascending order of their keys; each is shown with its key. A bound is a record of at least one of the first columns of the tree's key; one
/// that is absent does not limit the range.
///
/// Refused with the first that applies: `Failed`, `NoSuchTree`, the lowest of `BadField` and `BadLength` with item 1 for `from` and 2 for `to`, `Building`.
/// `Failed` and `NoSuchTree`, and also `Building` if there is no bound, come before anything is allocated. Only subtrees that overlap the range are read.
pub fn scan<S: ForkVisitor<Row> + Send, G: Gate + Sync, T: Threads + Wait + Sync>(
    context: &Context<'_, T, Crew<G>>,
    table: &Table,
    name: &Text,
    from: Option<&RecordLine<'_>>,
    to: Option<&RecordLine<'_>>,
    visitor: S,
) -> Result<S, Refusal>
    ensures answer { Answers (map_ok (fold S.visited visitor) (spec.scan_with_keys table.now name.now (option_copied from.entry) (option_copied to.entry))) result }
    ensures certain { IfErr (tree_named table.now name.now) (IsErrOf result) }
    ensures unbounded { from.entry ≡ None → to.entry ≡ None → IfErr (spec.scan table.now name.now None None) (IsErrOf result) }
{
    let shown = rows_to_show(context.alloc, table, name, from, to)?;
    Ok(show(context, shown, visitor)?)
}

/// The same, by the caller without workers.
pub fn scan_alone<S: Visitor<Row>>(
    alloc: Global,
    table: &Table,
    name: &Text,
    from: Option<&RecordLine<'_>>,
    to: Option<&RecordLine<'_>>,
    visitor: S,
) -> Result<S, Refusal>
    ensures answer { Answers (map_ok (fold S.visited visitor) (spec.scan_with_keys table.now name.now (option_copied from.entry) (option_copied to.entry))) result }
    ensures certain { IfErr (tree_named table.now name.now) (IsErrOf result) }
    ensures unbounded { from.entry ≡ None → to.entry ≡ None → IfErr (spec.scan table.now name.now None None) (IsErrOf result) }
{
    let shown = rows_to_show(alloc, table, name, from, to)?;
    Ok(show_alone(alloc, shown, visitor)?)
}

/// Whether [`scan`] would be refused, and as what. No row is read.
pub fn check_scan(
    alloc: Global,
    table: &Table,
    name: &Text,
    from: Option<&RecordLine<'_>>,
    to: Option<&RecordLine<'_>>,
) -> Result<(), Refusal>
    ensures { Answers (map_ok (λ _. tt) (spec.scan_with_keys table.now name.now (option_copied from.entry) (option_copied to.entry))) result }
{
    let shown = rows_to_show(alloc, table, name, from, to)?;
    drop(shown);
    Ok(())
}

// Shows a visitor a page of the tree of this name, in an order.
fn page_in_order<S: Visitor<Row>>(
    alloc: Global,
    table: &Table,
    name: &Text,
    range: &KeyRange,
    order: RowOrder,
    limit: usize,
    visitor: S,
) -> Result<S, Refusal>
    ensures answer { Answers (map_ok (fold S.visited visitor) (orders.page order table.now name.now range.now limit)) result }
    ensures certain { IfErr (orders.page order table.now name.now range.now limit) (IsErrOf result) }
{
    match table.tree(name)? {
        TreeRef::Rows { tree, .. } => {
            Ok(page_of_rows(alloc, tree, range, order, limit, visitor)?)
        }
        TreeRef::Index { schema, index } => {
            page_of_index(alloc, schema, index, range, order, limit, visitor)
        }
    }
}

/// Shows a visitor a page of the tree of this name: the first rows, at most `limit`, whose keys are in a range, in ascending order of their keys; each is
/// shown with its key. The key of a row of the table is the code of its key columns, and that of a row of an index is the code of the columns that it is
/// ordered by and of the table's key columns. If the last row of a page has a key, [`KeyRange::after`] is the range of the next page.
///
/// Refused with the first that applies: `Failed`, `NoSuchTree`, `Building`. They come before anything is allocated. Subtrees outside of the range or after the
/// last row are not read, and no thread starts.
pub fn page<S: Visitor<Row>>(
    alloc: Global,
    table: &Table,
    name: &Text,
    range: &KeyRange,
    limit: usize,
    visitor: S,
) -> Result<S, Refusal>
    ensures answer { Answers (map_ok (fold S.visited visitor) (spec.page table.now name.now range.now limit)) result }
    ensures certain { IfErr (spec.page table.now name.now range.now limit) (IsErrOf result) }
{
    page_in_order(alloc, table, name, range, RowOrder::Rising, limit, visitor)
}

/// Shows a visitor a page from the end of a range of the tree of this name: the last rows, at most `limit`, in descending order of their keys; each is shown
/// with its key, as by [`page`]. If the last row shown has a key, [`KeyRange::before`] is the range of the next page.
///
/// Refused like [`page`]. Subtrees outside of the range or before the last row shown are not read, and no thread starts.
pub fn last_page<S: Visitor<Row>>(
    alloc: Global,
    table: &Table,
    name: &Text,
    range: &KeyRange,
    limit: usize,
    visitor: S,
) -> Result<S, Refusal>
    ensures answer { Answers (map_ok (fold S.visited visitor) (spec.last_page table.now name.now range.now limit)) result }
    ensures certain { IfErr (spec.last_page table.now name.now range.now limit) (IsErrOf result) }
{
    page_in_order(alloc, table, name, range, RowOrder::Falling, limit, visitor)
}

/// The groups of the rows that `scan` shows, in order, by a crew. The rows are grouped by their first `grouping` columns, with the sum of the column of this
/// name.
///
/// Refused like `scan`, and after that with `NoSuchColumn` if a group has no columns or more than the key, or if there is no column of this name, with `NotInt`
/// if it is not int, and with `TooMany` if a group has more than 2^64 - 1 rows. If there is no bound, all but the last come before anything is allocated.
pub fn sums<G: Gate + Sync, T: Threads + Wait + Sync>(
    context: &Context<'_, T, Crew<G>>,
    table: &Table,
    name: &Text,
    grouping: u32,
    column: &Text,
    from: Option<&RecordLine<'_>>,
    to: Option<&RecordLine<'_>>,
) -> Result<Sequence<Sum>, Refusal>
    ensures answer { Answers (groups.sums table.now name.now grouping column.now (option_copied from.entry) (option_copied to.entry)) result }
    ensures certain { IfErr (tree_named table.now name.now) (IsErrOf result) }
    ensures unbounded { from.entry ≡ None → to.entry ≡ None → IfErr (groups.sums table.now name.now grouping column.now None None) (λ refusal. refusal ≢ Refusal.TooMany → IsErrOf result refusal) }
{
    let summed = rows_to_sum(context.alloc, table, name, grouping, column, from, to)?;
    sum(context, summed)?.finish()
}

/// The same, by the caller without workers.
pub fn sums_alone(
    alloc: Global,
    table: &Table,
    name: &Text,
    grouping: u32,
    column: &Text,
    from: Option<&RecordLine<'_>>,
    to: Option<&RecordLine<'_>>,
) -> Result<Sequence<Sum>, Refusal>
    ensures answer { Answers (groups.sums table.now name.now grouping column.now (option_copied from.entry) (option_copied to.entry)) result }
    ensures certain { IfErr (tree_named table.now name.now) (IsErrOf result) }
    ensures unbounded { from.entry ≡ None → to.entry ≡ None → IfErr (groups.sums table.now name.now grouping column.now None None) (λ refusal. refusal ≢ Refusal.TooMany → IsErrOf result refusal) }
{
    let summed = rows_to_sum(alloc, table, name, grouping, column, from, to)?;
    sum_alone(alloc, summed)?.finish()
}

// The rows of the tree of this name in a range that are grouped.
fn rows_to_group<'a>(
    alloc: Global,
    table: &'a Table,
    name: &Text,
    range: KeyRange,
    grouping: u32,
    column: &Text,
) -> Result<Summed<'a>, Refusal>
    ensures answer { AnswersGroups grouping (ranged.sums_between table.now name.now grouping column.now range) result }
    ensures certain { IfErr (ranged.sums_between table.now name.now grouping column.now range) (λ refusal. refusal ≢ Refusal.TooMany → IsErrOf result refusal) }
{
    match table.tree(name) {
        Ok(TreeRef::Rows { schema, tree }) => {
            rows_of_table(alloc, schema, tree, range, grouping, column)
        }
        Ok(TreeRef::Index { schema, index }) => {
            rows_of_index(alloc, schema, index, range, grouping, column)
        }
        Err(refusal) => {
            drop(range);
            Err(refusal)
        }
    }
}

/// The groups of the rows of the tree of this name whose keys are in a range, in order, by a crew. The rows are grouped by their first `grouping` columns, with the
/// sum of the column of this name. Without columns they are one group, even if there are no rows. If the name is empty, no column is summed, and each sum is 0.
///
/// Refused with the first that applies: `Failed`, `NoSuchTree`, `Building`, `NoSuchColumn` if a group has more columns than the key, or if there is no column of
/// this name, `NotInt` if it is not int, and `TooMany` if a group has more than 2^64 - 1 rows. All but the last come before anything is allocated.
pub fn sums_between<G: Gate + Sync, T: Threads + Wait + Sync>(
    context: &Context<'_, T, Crew<G>>,
    table: &Table,
    name: &Text,
    range: KeyRange,
    grouping: u32,
    column: &Text,
) -> Result<Sequence<Sum>, Refusal>
    ensures answer { Answers (ranged.sums_between table.now name.now grouping column.now range) result }
    ensures certain { IfErr (ranged.sums_between table.now name.now grouping column.now range) (λ refusal. refusal ≢ Refusal.TooMany → IsErrOf result refusal) }
{
    let summed = rows_to_group(context.alloc, table, name, range, grouping, column)?;
    range_sums(sum(context, summed)?, grouping)
}

/// The same, by the caller without workers.
pub fn sums_between_alone(
    alloc: Global,
    table: &Table,
    name: &Text,
    range: KeyRange,
    grouping: u32,
    column: &Text,
) -> Result<Sequence<Sum>, Refusal>
    ensures answer { Answers (ranged.sums_between table.now name.now grouping column.now range) result }
    ensures certain { IfErr (ranged.sums_between table.now name.now grouping column.now range) (λ refusal. refusal ≢ Refusal.TooMany → IsErrOf result refusal) }
{
    let summed = rows_to_group(alloc, table, name, range, grouping, column)?;
    range_sums(sum_alone(alloc, summed)?, grouping)
}

/// How much the tree of this name holds. All its nodes are read. Refused with the first that applies: `Failed`, `NoSuchTree`. Allocates nothing.
pub fn usage(table: &Table, name: &Text) -> Result<TreeUsage, Refusal>
    ensures { result ≡ usages.usage table.now name.now }
{
    match table.tree(name)? {
        TreeRef::Rows { tree, .. } => Ok(usage_of(&tree.walk())),
        TreeRef::Index { index, .. } => Ok(usage_of(&index.tree.walk())),
    }
}

/// The image of the tree of this name: its nodes with their rows, pivots and messages. `Failed` and `NoSuchTree` come before anything is allocated.
pub fn image(alloc: Global, table: &Table, name: &Text) -> Result<Vec<u8>, Refusal>
    ensures done { IfOk result (λ text. images.image table.now name.now ≡ Ok text.items) }
    ensures refused { IfErr result (λ refusal. refusal ≢ Refusal.OutOfMemory → images.image table.now name.now ≡ Err refusal) }
    ensures certain { IfErr (tree_named table.now name.now) (IsErrOf result) }
{
    let shown = table.tree(name)?;
    match shown {
        TreeRef::Rows { schema, tree } => {
            let drawing = RowDrawing {
                columns: schema.columns(),
            };
            Ok(image_text(alloc, &drawing, name, &tree.walk())?)
        }
        TreeRef::Index { index, .. } => {
            Ok(image_text(alloc, &EntryDrawing, name, &index.tree.walk())?)
        }
    }
}
