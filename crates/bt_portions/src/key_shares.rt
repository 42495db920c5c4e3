//! Divides keys among the portions of a tree. Each portion that owns one of them has its share.
ghost use Rattle.std.specs.Prelude.{◌≡◌, ◌+◌, ◌≤◌, ◌<◌, ◌++◌, IfOk, None, OnOk, Option, drop, length, map, take};
ghost use Rattle.std.specs.FinMap.{find};
ghost use Rattle.std.specs.List.{All, flat_map};
ghost use Rattle.bt_keycode.specs.Keys.{Key, key_cmp};
ghost use Rattle.bt_message.specs.Effects.{effect_of};
ghost use Rattle.bt_form.specs.Flushes.{holds};
ghost use Rattle.bt_form.specs.Parts.{AreRising};
ghost use Rattle.bt_form.specs.Portions.{Chained, HaveThere, value_in};
ghost use Rattle.bt_portions.specs.KeyShares.{HasRisingKeys, HasValues};
ghost use Rattle.bt_portions.specs.inside.OwnedKeys.{owned_count};

use bt_keycode::Key;
use bt_messages::Merge;
use bt_node::{Portion, Tree};
use std::alloc::{AllocError, Global};

// The number of keys at the front that a portion owns.
fn owned_count<V: Merge>(portion: &Portion<'_, V>, keys: &[&Key]) -> usize
    ensures count { result ≡ owned_count portion.now (map (λ k. k.now) keys.now) }
    ensures bound { result ≤ length keys.now }
{
    for (place, key) in keys.iter().enumerate() {
        if !portion.owns(key) {
            return place;
        }
    }
    keys.len()
}

// The keys from a place on.
fn later_keys<'k>(keys: &'k [&'k Key], place: usize) -> &'k [&'k Key]
    requires { place ≤ length keys.now }
    ensures { result.now ≡ drop place keys.now }
{
    &keys[place..]
}

// The keys from a place on that a portion owns, up to the first one that it doesn't own, and their number.
fn owned_from<'k, V: Merge>(
    portion: &Portion<'_, V>,
    keys: &'k [&'k Key],
    place: usize,
) -> (&'k [&'k Key], usize)
    requires { place ≤ length keys.now }
    ensures keys { result.0.now ≡ take result.1 (drop place keys.now) }
    ensures count { result.1 ≡ owned_count portion.now (map (λ k. k.now) (drop place keys.now)) }
    ensures bound { place + result.1 ≤ length keys.now }
{
    let rest = later_keys(keys, place);
    let count = owned_count(portion, rest);
    (&rest[..count], count)
}

// Adds a share, unless it has no keys.
fn add_share<'k, V: Merge>(
    shares: &mut Vec<(Portion<'k, V>, &'k [&'k Key])>,
    portion: Portion<'k, V>,
    keys: &'k [&'k Key],
) -> Result<(), AllocError>
    requires { AreRising (map (λ k. k.now) keys.now) }
    ensures keys { OnOk result (flat_map (λ share. share.1.now) shares.new.items ≡ flat_map (λ share. share.1.now) shares.old.items ++ keys.now) }
    ensures values { (value : Key → Option V) → map (λ k. value_in (effect_of V.terms.merged) k.now portion.entry) keys.now ≡ map (λ k. value k.now) keys.now →
        All (HasValues (effect_of V.terms.merged) value) shares.old.items → OnOk result (All (HasValues (effect_of V.terms.merged) value) shares.new.items) }
    ensures rising { All HasRisingKeys shares.old.items → OnOk result (All HasRisingKeys shares.new.items) }
{
    if keys.is_empty() {
        return Ok(());
    }
    shares.push((portion, keys))?;
    Ok(())
}

// Divides keys among portions that are side by side.
fn shared_keys<'k, V: Merge>(
    alloc: Global,
    portions: Vec<Portion<'k, V>>,
    keys: &'k [&'k Key],
) -> Result<Vec<(Portion<'k, V>, &'k [&'k Key])>, AllocError>
    requires rising { AreRising (map (λ k. k.now) keys.now) }
    requires some { 0 < length portions.items }
    requires chained { Chained None portions.items None }
    ensures keys { IfOk result (λ shares. flat_map (λ share. share.1.now) shares.items ≡ keys.now) }
    ensures values { IfOk result (λ shares. (value : Key → Option V) → ((key : Key) → HaveThere (effect_of V.terms.merged) key (value key) portions.entry.items) →
        All (HasValues (effect_of V.terms.merged) value) shares.items) }
    ensures rising { IfOk result (λ shares. All HasRisingKeys shares.items) }
{
    let mut shares = Vec::new(alloc);
    let mut done = 0;
    for portion in portions {
        let (own, count) = owned_from(&portion, keys, done);
        add_share(&mut shares, portion, own)?;
        done += count;
    }
    Ok(shares)
}

/// Divides rising keys among the portions of a tree at a depth: each portion that owns one of them, with those that it owns. The
/// shares follow each other as the keys do. The values of a portion at its keys are those of the tree. Nothing is copied.
pub fn owned_keys<'k, V: Merge>(
    alloc: Global,
    tree: &'k Tree<V>,
    depth: usize,
    keys: &'k [&'k Key],
) -> Result<Vec<(Portion<'k, V>, &'k [&'k Key])>, AllocError>
    requires rising { AreRising (map (λ k. k.now) keys.now) }
    ensures keys { IfOk result (λ shares. flat_map (λ share. share.1.now) shares.items ≡ keys.now) }
    ensures values { IfOk result (λ shares. All (HasValues (effect_of V.terms.merged) (λ key. find key_cmp key (holds (effect_of V.terms.merged) tree.now.1))) shares.items) }
    ensures rising { IfOk result (λ shares. All HasRisingKeys shares.items) }
{
    let portions = tree.walk().portions(alloc, depth, None, None)?;
    shared_keys(alloc, portions, keys)
}
