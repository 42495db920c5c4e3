//! Reads the rows between two bounds, leaf by leaf.
ghost use Rattle.std.specs.Prelude.{◌≡◌, ◌≤◌, OnOk, fold, length};
ghost use Rattle.std.specs.Option.{option_copied};
ghost use Rattle.bt_message.specs.Effects.{effect_of};
ghost use Rattle.bt_form.specs.Fits.{IsInOrder};
ghost use Rattle.bt_form.specs.Flushes.{holds};
ghost use Rattle.bt_read.specs.inside.Lookups.{first_place};
ghost use Rattle.bt_form.specs.Messages.{between};
ghost use Rattle.bt_form.specs.Portions.{rows_of};
ghost use Rattle.bt_form.specs.Parts.{AreRising};
ghost use Rattle.bt_read.specs.inside.Bounds.{next_bound};
ghost use Rattle.bt_read.specs.inside.Limits.{first_rows, limited};

use crate::leaf_visits::visit_leaf;
use crate::lent_messages::lies_before;
use crate::lookup::pivots_up_to;
use crate::portions::{Portion, first_child};
use crate::row_limit::RowLimit;
use crate::visitor::Visitor;
use bt_form::{Node, NodeKind};
use bt_keycode::Key;
use bt_messages::Merge;
use std::alloc::{AllocError, Global};

/// The place of the first child that may have keys at or past a bound.
pub(crate) fn first_place(pivots: &[Key], from: Option<&Key>) -> usize
    requires { AreRising pivots.now }
    ensures place { result ≡ first_place (option_copied from.entry) pivots.now }
    ensures bound { result ≤ length pivots.now }
{
    match from {
        Some(key) => pivots_up_to(pivots, key),
        None => 0,
    }
}

/// The pivot after a child, if there is one and it is before a bound.
pub(crate) fn next_pivot<'a>(pivots: &'a [Key], place: usize, to: Option<&Key>) -> Option<&'a Key>
    ensures { option_copied result ≡ next_bound (option_copied to.entry) place pivots.now }
{
    let pivot = pivots.get(place)?;
    if lies_before(pivot, to) {
        Some(pivot)
    } else {
        None
    }
}

/// Shows the rows of a portion between its bounds, when all messages have had their effect, in rising order, up to the limit. Each
/// child between the bounds is entered with the messages to it from above, unless the limit is reached first.
pub(crate) fn visit_portion<V: Merge, S: Visitor<V>>(
    alloc: Global,
    portion: Portion<'_, V>,
    visitor: &mut S,
    limit: &mut RowLimit,
) -> Result<(), AllocError>
    ensures { OnOk result ((visitor.new, limit.new) ≡ fold (limited S.visited) (visitor.old, limit.old) (rows_of (effect_of V.terms.merged) portion.entry)) }
{
    if let NodeKind::Leaf(rows) = portion.node.kind() {
        let Portion {
            node: _,
            newer,
            low,
            high,
        } = portion;
        return visit_leaf(alloc, rows.between(low, high), newer, visitor, limit);
    }
    let mut rest = portion;
    loop {
        if limit.is_reached() {
            return Ok(());
        }
        let (child, others) = first_child(alloc, rest)?;
        visit_portion(alloc, child, visitor, limit)?;
        let Some(others) = others else {
            return Ok(());
        };
        rest = others;
    }
}

/// Shows the rows of a node between the bounds, when all its messages have had their effect, in rising order, up to the limit.
pub(crate) fn visit_between<V: Merge, S: Visitor<V>>(
    alloc: Global,
    node: &Node<V>,
    from: Option<&Key>,
    to: Option<&Key>,
    visitor: &mut S,
    limit: RowLimit,
) -> Result<(), AllocError>
    requires { IsInOrder node.now }
    ensures { OnOk result (visitor.new ≡ fold S.visited visitor.old (first_rows limit (between (option_copied from.entry) (option_copied to.entry) (holds (effect_of V.terms.merged) node.now)))) }
{
    let whole = Portion::whole(alloc, node, from, to);
    let mut limit = limit;
    visit_portion(alloc, whole, visitor, &mut limit)
}
