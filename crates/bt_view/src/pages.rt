//! Pages of a tree: the first or the last rows of a range of keys, up to a limit.
ghost use Rattle.std.specs.Prelude.{◌≡◌, IfErr, IfOk, IsErrOf, OnOk, fold, take};
ghost use Rattle.bt_value.specs.Answers.{Answers};
ghost use Rattle.bt_value.specs.Results.{map_ok};
ghost use Rattle.bt_fanout.specs.Effects.{entry_effect, row_effect};
ghost use Rattle.bt_message.specs.Effects.{effect_of};
ghost use Rattle.bt_form.specs.Fits.{IsInOrder};
ghost use Rattle.bt_form.specs.Flushes.{holds};
ghost use Rattle.bt_form.specs.Messages.{between};
ghost use Rattle.bt_table.specs.Calls.{Secondary, ShowsIndex};
ghost use Rattle.bt_table.specs.Indexes.{index_of_ref};
ghost use Rattle.bt_table.specs.Tables.{PlainTable};
ghost use Rattle.bt_view.specs.inside.Orders.{in_order, page_of};
ghost use Rattle.bt_show.specs.inside.Entries.{rows_of_entries};

use crate::last_rows::visit_last;
use bt_fanout::Cover;
use bt_messages::{Entry, Merge};
use bt_node::{Tree, Visitor, Walk};
use bt_row::{Row, Schema};
use bt_show::{EntryRows, KeyRange, index_kinds};
use bt_table::IndexRef;
use bt_value::{Kind, Refusal};
use std::alloc::{AllocError, Global};

/// The order in which a page shows rows: from the first one of a range on, or from the last one back.
#[derive(Clone, Copy)]
pub(crate) enum RowOrder {
    Rising,
    Falling,
}

// Shows a visitor the first rows of a range in an order.
fn visit_page<V: Merge, S: Visitor<V>>(
    alloc: Global,
    tree: &Walk<'_, V>,
    range: &KeyRange,
    order: RowOrder,
    limit: usize,
    visitor: &mut S,
) -> Result<(), AllocError>
    requires { IsInOrder tree.now }
    ensures { OnOk result (visitor.new ≡ fold S.visited visitor.old (take limit (in_order order (between range.now.from range.now.to (holds (effect_of V.terms.merged) tree.now))))) }
{
    let (from, to) = range.bounds();
    match order {
        RowOrder::Rising => tree.visit_page(alloc, from, to, limit, visitor),
        RowOrder::Falling => visit_last(alloc, tree, from, to, limit, visitor),
    }
}

/// Shows a visitor a page of a tree of rows.
pub(crate) fn page_of_rows<S: Visitor<Row>>(
    alloc: Global,
    tree: &Tree<Row>,
    range: &KeyRange,
    order: RowOrder,
    limit: usize,
    visitor: S,
) -> Result<S, AllocError>
    ensures { IfOk result (λ after. after ≡ fold S.visited visitor (take limit (in_order order (between range.now.from range.now.to (holds row_effect tree.now.1))))) }
{
    let mut visitor = visitor;
    visit_page(alloc, &tree.walk(), range, order, limit, &mut visitor)?;
    Ok(visitor)
}

// Shows a visitor a page of a tree of entries, as rows; the kinds are those of the key columns of the index.
fn page_of_entries<S: Visitor<Row>>(
    alloc: Global,
    tree: &Tree<Entry>,
    kinds: &[Kind],
    range: &KeyRange,
    order: RowOrder,
    limit: usize,
    visitor: S,
) -> Result<S, AllocError>
    ensures { IfOk result (λ after. after ≡ fold S.visited visitor (rows_of_entries kinds.now (take limit (in_order order (between range.now.from range.now.to (holds entry_effect tree.now.1)))))) }
{
    let mut rows = EntryRows { kinds, visitor };
    visit_page(alloc, &tree.walk(), range, order, limit, &mut rows)?;
    let EntryRows { visitor, .. } = rows;
    Ok(visitor)
}

/// Shows a visitor a page of an index, which has rows to show only if it covers all.
pub(crate) fn page_of_index<S: Visitor<Row>>(
    alloc: Global,
    schema: &Schema,
    index: IndexRef<'_>,
    range: &KeyRange,
    order: RowOrder,
    limit: usize,
    visitor: S,
) -> Result<S, Refusal>
    ensures answer { (table : PlainTable) → ShowsIndex table schema.now (index_of_ref index.entry) →
        Answers (map_ok (fold S.visited visitor) (page_of order range.now limit (Secondary table (index_of_ref index.entry)))) result }
    ensures certain { (table : PlainTable) → ShowsIndex table schema.now (index_of_ref index.entry) →
        IfErr (page_of order range.now limit (Secondary table (index_of_ref index.entry))) (IsErrOf result) }
{
    match index.head.cover {
        Cover::Whole => {
            let kinds = index_kinds(alloc, schema, &index.head.def)?;
            let kinds = kinds.as_slice();
            Ok(page_of_entries(alloc, index.tree, kinds, range, order, limit, visitor)?)
        }
        Cover::Nothing | Cover::UpTo(_) => {
            drop(visitor);
            Err(Refusal::Building)
        }
    }
}
