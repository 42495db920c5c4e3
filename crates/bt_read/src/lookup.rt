//! Looks up the value at a key along one path from the root, only as far down as needed.
ghost use Rattle.std.specs.Prelude.{◌≡◌, ◌<◌, ◌≤◌, [], IfOk, length, slice_index_or};
ghost use Rattle.bt_keycode.specs.Keys.{AllFrom, IsSorted};
ghost use Rattle.bt_message.specs.Effects.{effect_of};
ghost use Rattle.bt_form.specs.Fits.{IsInOrder};
ghost use Rattle.bt_read.specs.inside.Lookups.{pivots_up_to, tree_value};
ghost use Rattle.bt_form.specs.Messages.{value_after};
ghost use Rattle.bt_form.specs.Parts.{AreRising};
ghost use Rattle.bt_read.specs.inside.ValuesSoFar.{BeginsWith, option_of};

use crate::value_so_far::{ValueSoFar, reset};
use bt_form::{Node, NodeKind};
use bt_keycode::Key;
use bt_messages::{Bins, Merge, Messages};
use std::alloc::{AllocError, Global};
use std::cmp::Ordering;

/// The number of pivots that are at most the key, found by binary search.
pub(crate) fn pivots_up_to(pivots: &[Key], key: &Key) -> usize
    requires { AreRising pivots.now }
    ensures count { result ≡ pivots_up_to key.now pivots.now }
    ensures bound { result ≤ length pivots.now }
{
    pivots.partition_point(|pivot| key.compare(pivot) != Ordering::Less)
}

// The messages to a key in the bin of its child after the last put or del, and the value that this one leaves. Nothing before it
// counts, in this node or below. Messages to larger keys may follow.
#[derive(Drop)]
struct Newest<'a, V: Merge> {
    start: Option<ValueSoFar<'a, V>>,
    left: Messages<'a, V>,
}

fn since_reset<'a, V: Merge>(bins: &'a Bins<V>, place: usize, key: &Key) -> Newest<'a, V>
    requires { place < length bins.now }
    ensures value { BeginsWith (effect_of V.terms.merged) key.now (slice_index_or bins.now place []) result.start result.left }
    ensures from { AllFrom key.now result.left }
    ensures sorted { IsSorted result.left }
{
    let mut start = None;
    let mut left = bins.bin_from(place, key);
    let mut rest = left.again();
    while let Some((at, message)) = rest.next() {
        if at.compare(key) != Ordering::Equal {
            return Newest { start, left };
        }
        if let Some(held) = reset(message) {
            start = Some(held);
            left = rest.again();
        }
    }
    Newest { start, left }
}

/// The value of a key after the messages to it.
pub(crate) fn after_messages<'a, V: Merge>(
    alloc: Global,
    messages: Messages<'a, V>,
    key: &Key,
    old: ValueSoFar<'a, V>,
) -> Result<ValueSoFar<'a, V>, AllocError>
    requires from { AllFrom key.now messages }
    requires sorted { IsSorted messages }
    ensures { IfOk result (λ value. option_of value ≡ value_after (effect_of V.terms.merged) key.now messages.entry (option_of old.entry)) }
{
    let mut value = old;
    for (at, message) in messages {
        if at.compare(key) != Ordering::Equal {
            return Ok(value);
        }
        value = value.after(alloc, message)?;
    }
    Ok(value)
}

/// The value at a key below a node. It is the value that the last put or del leaves, or else the value in the leaf, after the
/// messages that follow. The value is borrowed unless an upsert changes it.
pub(crate) fn tree_value<'a, V: Merge>(
    alloc: Global,
    node: &'a Node<V>,
    key: &Key,
) -> Result<ValueSoFar<'a, V>, AllocError>
    requires { IsInOrder node.now }
    ensures { IfOk result (λ value. option_of value ≡ tree_value (effect_of V.terms.merged) key.now node.now) }
{
    match node.kind() {
        NodeKind::Leaf(rows) => Ok(ValueSoFar::of(rows.find(key))),
        NodeKind::Inner { children, bins } => {
            let place = pivots_up_to(children.pivots(), key);
            let Newest { start, left } = since_reset(bins, place, key);
            if let Some(held) = start {
                return after_messages(alloc, left, key, held);
            }
            let old = tree_value(alloc, &children.nodes()[place], key)?;
            after_messages(alloc, left, key, old)
        }
    }
}
