//! Looks up several keys together. Neighbouring keys that belong to one child go down together.
ghost use Rattle.std.specs.Prelude.{◌≡◌, ◌<◌, ◌≤◌, ◌++◌, [], IfOk, OnOk, Some, drop, length, map, slice_get, slice_index_or, take};
ghost use Rattle.std.specs.Option.{option_copied};
ghost use Rattle.std.specs.FinMap.{find};
ghost use Rattle.bt_keycode.specs.Keys.{key_cmp};
ghost use Rattle.bt_message.specs.Effects.{effect_of};
ghost use Rattle.bt_form.specs.Fits.{IsInOrder};
ghost use Rattle.bt_form.specs.Parts.{AreRising};
ghost use Rattle.bt_read.specs.inside.ValuesSoFar.{option_of};
ghost use Rattle.bt_read.specs.inside.Together.{AllBelong, count_between, values_after, tree_values};

use crate::lent_messages::lies_before;
use crate::lookup::{after_messages, pivots_up_to};
use crate::value_so_far::ValueSoFar;
use bt_form::{Node, NodeKind, Rows, mean_step, part_from};
use bt_keycode::Key;
use bt_messages::{Bins, Merge, Messages};
use std::alloc::{AllocError, Global};
use std::cmp::Ordering;

// The number of keys at the front that lie between the bounds.
fn count_between(keys: &[&Key], low: &Key, high: Option<&Key>) -> usize
    ensures bound { result ≤ length keys.now }
    ensures count { result ≡ count_between (Some low.now) (option_copied high.entry) (map (λ k. k.now) keys.now) }
{
    for (place, key) in keys.iter().enumerate() {
        if key.compare(low) == Ordering::Less || !lies_before(key, high) {
            return place;
        }
    }
    keys.len()
}

// The pivot after a child, if there is one.
fn pivot_after(pivots: &[Key], place: usize) -> Option<&Key>
    ensures { option_copied result ≡ slice_get pivots.now place }
{
    pivots.get(place)
}

// The keys from a place on.
fn later_keys<'k>(keys: &'k [&'k Key], place: usize) -> &'k [&'k Key]
    requires { place ≤ length keys.now }
    ensures { result.now ≡ drop place keys.now }
{
    &keys[place..]
}

// The child to which the first key belongs, and the keys at the front that belong to it.
fn first_run<'k>(pivots: &[Key], keys: &'k [&'k Key]) -> (usize, &'k [&'k Key])
    requires rising { AreRising pivots.now }
    requires some { 0 < length keys.now }
    ensures place { result.0 ≤ length pivots.now }
    ensures count { length result.1.now ≤ length keys.now }
    ensures own { result.1.now ≡ take (length result.1.now) keys.now }
    ensures some { 0 < length result.1.now }
    ensures belong { AllBelong pivots.now result.0 (map (λ k. k.now) result.1.now) }
{
    let first = keys[0];
    let place = pivots_up_to(pivots, first);
    let next = pivot_after(pivots, place);
    let count = count_between(later_keys(keys, 1), first, next) + 1;
    (place, &keys[..count])
}

// The values of a leaf at keys. The keys mostly rise, so each search starts where the last key was found.
fn found_at<'a, V: Merge>(
    alloc: Global,
    rows: &'a Rows<V>,
    keys: &[&Key],
) -> Result<Vec<ValueSoFar<'a, V>>, AllocError>
    ensures { IfOk result (λ values. map option_of values.items ≡ map (λ k. find key_cmp k.now rows.now) keys.now) }
{
    let mut values = Vec::with_capacity(alloc, keys.len())?;
    let step = mean_step(rows.len(), keys.len());
    let mut place = 0;
    for key in keys {
        let (next, value) = rows.find_near(place, step, key);
        values.push_reserved(ValueSoFar::of(value));
        place = next;
    }
    Ok(values)
}

// Adds the values of a child at keys after the messages in its bin. Without messages, they are the values as they are. Otherwise
// messages and keys are read together: each search for messages starts where those of the last key were found.
fn add_after<'a, V: Merge>(
    alloc: Global,
    values: &mut Vec<ValueSoFar<'a, V>>,
    bins: &'a Bins<V>,
    place: usize,
    keys: &[&Key],
    below: Vec<ValueSoFar<'a, V>>,
) -> Result<(), AllocError>
    requires within { place < length bins.now }
    requires len { length below.items ≡ length keys.now }
    ensures { OnOk result (map option_of values.new.items ≡ map option_of values.old.items ++ values_after (effect_of V.terms.merged) (slice_index_or bins.now place []) (map (λ k. k.now) keys.now) (map option_of below.entry.items)) }
{
    if bins.count(place) == 0 {
        let mut below = below;
        values.append(&mut below)?;
        return Ok(());
    }
    let messages = bins.bin(place).as_slice();
    let step = mean_step(messages.len(), keys.len());
    let mut near = 0;
    let mut rest = keys;
    for old in below {
        // The keys don't end here: there are as many of them as values.
        let [key, others @ ..] = rest else {
            return Ok(());
        };
        let (next, later) = part_from(messages, near, step, key);
        values.push(after_messages(alloc, Messages::of_sorted(later), key, old)?)?;
        near = next;
        rest = others;
    }
    Ok(())
}

/// The values at keys below a node. A child is entered once for all neighbouring keys that belong to it, so rising keys enter each
/// node once. A value is borrowed unless an upsert changes it.
pub(crate) fn tree_values<'a, 'k, V: Merge>(
    alloc: Global,
    node: &'a Node<V>,
    keys: &'k [&'k Key],
) -> Result<Vec<ValueSoFar<'a, V>>, AllocError>
    requires { IsInOrder node.now }
    ensures { IfOk result (λ values. map option_of values.items ≡ tree_values (effect_of V.terms.merged) (map (λ k. k.now) keys.now) node.now) }
{
    match node.kind() {
        NodeKind::Leaf(rows) => found_at(alloc, rows, keys),
        NodeKind::Inner { children, bins } => {
            let pivots = children.pivots();
            let mut values = Vec::with_capacity(alloc, keys.len())?;
            let mut done = 0;
            while done < keys.len() {
                let (place, own) = first_run(pivots, later_keys(keys, done));
                let below = tree_values(alloc, &children.nodes()[place], own)?;
                add_after(alloc, &mut values, bins, place, own, below)?;
                done += own.len();
            }
            Ok(values)
        }
    }
}

/// The values as owned ones: borrowed values are copied.
pub(crate) fn into_values<V: Merge>(
    alloc: Global,
    values: Vec<ValueSoFar<'_, V>>,
) -> Result<Vec<Option<V>>, AllocError>
    ensures { IfOk result (λ copies. copies.items ≡ map option_of values.entry.items) }
{
    let mut copies = Vec::with_capacity(alloc, values.len())?;
    for value in values {
        copies.push_reserved(value.into_value(alloc)?);
    }
    Ok(copies)
}
