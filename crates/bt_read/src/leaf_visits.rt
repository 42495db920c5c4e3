//! Reads the rows of a leaf and the messages to it in one pass.
ghost use Rattle.std.specs.Prelude.{◌≡◌, [], IsTrue, None, OnOk, fold, option_map};
ghost use Rattle.std.specs.FinMap.{find, is_sorted};
ghost use Rattle.std.specs.Option.{option_copied, option_to_list};
ghost use Rattle.bt_keycode.specs.Keys.{IsSorted, key_cmp};
ghost use Rattle.bt_message.specs.Effects.{effect_of};
ghost use Rattle.bt_form.specs.Messages.{before, rows_after, with_value};
ghost use Rattle.bt_read.specs.inside.ValuesSoFar.{option_of};
ghost use Rattle.bt_read.specs.inside.Limits.{limited};

use crate::lent_messages::LentMessages;
use crate::row_limit::RowLimit;
use crate::value_so_far::ValueSoFar;
use crate::visitor::Visitor;
use bt_form::split_first;
use bt_keycode::Key;
use bt_messages::{Merge, between};
use std::alloc::{AllocError, Global};
use std::cmp::Ordering;

// Shows rows as they are, up to the limit.
fn visit_rows<V: Merge, S: Visitor<V>>(
    alloc: Global,
    rows: &[(Key, V)],
    visitor: &mut S,
    limit: &mut RowLimit,
) -> Result<(), AllocError>
    ensures { OnOk result ((visitor.new, limit.new) ≡ fold (limited S.visited) (visitor.old, limit.old) rows.now) }
{
    let count = limit.count_up_to(rows.len());
    for (key, value) in &rows[..count] {
        visitor.visit(alloc, key, value)?;
    }
    Ok(())
}

// Shows a row, unless the limit is reached.
fn visit_row<V: Merge, S: Visitor<V>>(
    alloc: Global,
    key: &Key,
    value: &V,
    visitor: &mut S,
    limit: &mut RowLimit,
) -> Result<(), AllocError>
    ensures { OnOk result ((visitor.new, limit.new) ≡ limited S.visited (visitor.old, limit.old) (key.now, value.now)) }
{
    if limit.count_up_to(1) == 0 {
        return Ok(());
    }
    visitor.visit(alloc, key, value)
}

// Shows the value of a key, if it has one and the limit isn't reached.
fn visit_held<V: Merge, S: Visitor<V>>(
    alloc: Global,
    key: &Key,
    held: ValueSoFar<'_, V>,
    visitor: &mut S,
    limit: &mut RowLimit,
) -> Result<(), AllocError>
    ensures { OnOk result ((visitor.new, limit.new) ≡ fold (limited S.visited) (visitor.old, limit.old) (option_to_list (option_map (λ v. (key.now, v)) (option_of held.entry)))) }
{
    match held {
        ValueSoFar::Absent => Ok(()),
        ValueSoFar::Lent(value) => visit_row(alloc, key, value, visitor, limit),
        ValueSoFar::Made(value) => visit_row(alloc, key, &value, visitor, limit),
    }
}

/// Shows the rows of a leaf after messages to them, up to the limit. A row without a message is shown as it is, and the value of a
/// put is shown from the message.
pub(crate) fn visit_leaf<'a, V: Merge, S: Visitor<V>>(
    alloc: Global,
    rows: &'a [(Key, V)],
    messages: LentMessages<'a, V>,
    visitor: &mut S,
    limit: &mut RowLimit,
) -> Result<(), AllocError>
    requires rows { IsTrue (is_sorted key_cmp rows.now) }
    requires messages { IsSorted messages }
    ensures { OnOk result ((visitor.new, limit.new) ≡ fold (limited S.visited) (visitor.old, limit.old) (rows_after (effect_of V.terms.merged) messages.entry rows.now)) }
{
    let mut left = rows;
    let mut messages = messages;
    while let Some((key, message)) = messages.next() {
        visit_rows(alloc, between(left, None, Some(key)), visitor, limit)?;
        if limit.is_reached() {
            return Ok(());
        }
        let (old, others) = split_first(between(left, Some(key), None), key);
        let first = ValueSoFar::of(old).after(alloc, message)?;
        let value = messages.take_effect(alloc, key, first)?;
        visit_held(alloc, key, value, visitor, limit)?;
        left = others;
    }
    visit_rows(alloc, left, visitor, limit)
}
