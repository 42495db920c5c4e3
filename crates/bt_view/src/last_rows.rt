//! The last rows of a range of a tree, in falling order of their keys.
//!
//! The range is cut at pivots of the tree, and the pieces are read from the last to the first: each at most a leaf with the messages to it, in rising order.
ghost use Rattle.std.specs.Prelude.{◌≡◌, ◌-◌, IfOk, IsTrue, OnOk, false, fold, length, reverse, take};
ghost use Rattle.std.specs.Option.{option_copied};
ghost use Rattle.bt_keycode.specs.Keys.{is_before_lower, is_before_upper};
ghost use Rattle.bt_message.specs.Effects.{effect_of};
ghost use Rattle.bt_form.specs.Fits.{IsInOrder};
ghost use Rattle.bt_form.specs.Flushes.{holds};
ghost use Rattle.bt_form.specs.Messages.{between};

use bt_keycode::Key;
use bt_messages::Merge;
use bt_node::{Visitor, Walk};
use std::alloc::{AllocError, Global};
use std::cmp::Ordering;

// Whether a key is after a lower bound.
fn is_after(key: &Key, low: Option<&Key>) -> bool
    ensures { IsTrue result → is_before_lower (option_copied low.entry) key.now ≡ false }
{
    match low {
        Some(low) => key.compare(low) == Ordering::Greater,
        None => true,
    }
}

// Whether a key is before an upper bound.
fn is_before(key: &Key, high: Option<&Key>) -> bool
    ensures { result ≡ is_before_upper (option_copied high.entry) key.now }
{
    match high {
        Some(high) => key.compare(high) == Ordering::Less,
        None => true,
    }
}

// Shows rows from the last to the first, at most `limit`. Returns how many more may be shown.
fn visit_rows<V: Merge, S: Visitor<V>>(
    alloc: Global,
    rows: Vec<(Key, V)>,
    limit: usize,
    visitor: &mut S,
) -> Result<usize, AllocError>
    ensures shown { OnOk result (visitor.new ≡ fold S.visited visitor.old (take limit (reverse rows.items))) }
    ensures left { IfOk result (λ left. left ≡ limit - length rows.items) }
{
    let mut rows = rows;
    let mut left = limit;
    while left > 0 {
        let Some((key, value)) = rows.pop() else {
            return Ok(left);
        };
        visitor.visit(alloc, &key, &value)?;
        left -= 1;
    }
    Ok(left)
}

// Shows the rows of a tree between two bounds from the last to the first, at most `limit`. The range is cut at the pivots of `node` and of the nodes below it.
// Returns how many more may be shown.
fn visit_pieces<'t, V: Merge, S: Visitor<V>>(
    alloc: Global,
    tree: &Walk<'t, V>,
    node: &Walk<'t, V>,
    low: Option<&Key>,
    high: Option<&Key>,
    limit: usize,
    visitor: &mut S,
) -> Result<usize, AllocError>
    requires { IsInOrder tree.now }
    ensures shown { OnOk result (visitor.new ≡ fold S.visited visitor.old (take limit (reverse (between (option_copied low.entry) (option_copied high.entry) (holds (effect_of V.terms.merged) tree.now))))) }
    ensures left { IfOk result (λ left. left ≡ limit - length (between (option_copied low.entry) (option_copied high.entry) (holds (effect_of V.terms.merged) tree.now))) }
{
    if limit == 0 {
        return Ok(0);
    }
    if node.child_count() == 0 {
        let rows = tree.rows(alloc, low, high)?;
        return visit_rows(alloc, rows, limit, visitor);
    }
    let mut place = node.child_count() - 1;
    let mut high = high;
    let mut left = limit;
    while left > 0 && place > 0 && is_after(node.pivot(place), low) {
        let pivot = node.pivot(place);
        if is_before(pivot, high) {
            let child = node.child(place);
            left = visit_pieces(alloc, tree, &child, Some(pivot), high, left, visitor)?;
            high = Some(pivot);
        }
        place -= 1;
    }
    visit_pieces(alloc, tree, &node.child(place), low, high, left, visitor)
}

/// Shows a visitor the last rows of a tree, at most `count`, with a key at or past `from` and before `to`, when all messages have had their effect, in falling
/// order. An absent bound doesn't limit. Subtrees before the last row shown aren't read. An `Err` comes from the visitor or from a failed allocation.
pub(crate) fn visit_last<V: Merge, S: Visitor<V>>(
    alloc: Global,
    tree: &Walk<'_, V>,
    from: Option<&Key>,
    to: Option<&Key>,
    count: usize,
    visitor: &mut S,
) -> Result<(), AllocError>
    requires { IsInOrder tree.now }
    ensures { OnOk result (visitor.new ≡ fold S.visited visitor.old (take count (reverse (between (option_copied from.entry) (option_copied to.entry) (holds (effect_of V.terms.merged) tree.now))))) }
{
    visit_pieces(alloc, tree, tree, from, to, count, visitor)?;
    Ok(())
}
