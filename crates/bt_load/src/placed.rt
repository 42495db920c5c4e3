//! The keys of rows, with the places of the rows.
ghost use Rattle.std.specs.List.{AllAdjacentBelow};
ghost use Rattle.std.specs.List.Sorted.{IsPermutation};
ghost use Rattle.std.specs.Prelude.{◌≡◌, ◌≢◌, ◌<◌, ◌≤◌, ◌+◌, Err, IfErr, IfOk, length, map, true};
ghost use Rattle.bt_keycode.specs.Occurrences.{AreDistinctBelow};
ghost use Rattle.bt_load.specs.Maps.{map_of};
ghost use Rattle.bt_load.specs.Steps.{AreKeysOrNone, IsKeyOrNone, placed_cmp};
ghost use Rattle.bt_load.specs.inside.Sorts.{HaveKeys, IsFirstRepeat, IsKeyBelow, lower_of, pair_at, placed_from, places_of, repeats_at};

use crate::loading::Loading;
use bt_keycode::{Key, encode_row};
use bt_row::Row;
use bt_value::Refusal;
use std::alloc::{AllocError, Global};
use std::cmp::Ordering;
use std::mem;

/// The key of a row, and the place of the row, counted from 0.
pub type Placed = (Key, usize);

const _: () = prove!(size_of::<Placed>() == 32);

// A list of this many empty keys.
fn no_keys(alloc: Global, count: usize) -> Result<Vec<Placed>, AllocError>
    ensures { IfOk result (λ placed. length placed.items ≡ count) }
{
    let mut placed = Vec::new(alloc);
    placed.resize_with(count, || (Key::new(), 0))?;
    Ok(placed)
}

// The key of the row at a place, or the empty key if an allocation fails.
fn key_or_none(alloc: Global, row: &Row, keys: usize, place: usize) -> Placed
    ensures { IsKeyOrNone keys row.now place result }
{
    match encode_row(alloc, row, keys) {
        Ok(key) => (key, place),
        Err(_) => (Key::new(), place),
    }
}

// Writes the keys of the rows from `start` on to a piece, or empty ones.
pub(crate) fn encode_piece(
    alloc: Global,
    rows: &[Row],
    keys: usize,
    start: usize,
    piece: &mut [Placed],
)
    requires { start + length piece.old ≤ length rows.now }
    ensures long { length piece.new ≡ length piece.old }
    ensures encoded { AreKeysOrNone keys start rows.now piece.new }
{
    for offset in 0..piece.len() {
        let place = start + offset;
        piece[offset] = key_or_none(alloc, &rows[place], keys, place);
    }
}

// The keys of rows, or empty ones, with the places of the rows.
fn keys_or_none<L: Loading>(
    loading: &L,
    alloc: Global,
    rows: &[Row],
    keys: usize,
) -> Result<Vec<Placed>, AllocError>
    requires ready { L.accepts loading.now }
    ensures long { IfOk result (λ placed. length placed.items ≡ length rows.now) }
    ensures encoded { IfOk result (λ placed. AreKeysOrNone keys 0 rows.now placed.items) }
{
    let mut placed = no_keys(alloc, rows.len())?;
    loading.encode_keys(alloc, rows, keys, placed.as_mut_slice());
    Ok(placed)
}

// Whether no key is empty.
fn all_have_keys(placed: &[Placed]) -> bool
    ensures { result ≡ true → HaveKeys placed.now }
{
    placed.iter().all(|one| one.0.len() != 0)
}

// The keys of rows with their places, encoded one after the other.
fn encode_in_turn(alloc: Global, rows: &[Row], keys: usize) -> Result<Vec<Placed>, AllocError>
    ensures { IfOk result (λ placed. placed.items ≡ placed_from keys 0 rows.now) }
{
    let mut placed = Vec::with_capacity(alloc, rows.len())?;
    for (place, row) in rows.iter().enumerate() {
        let key = encode_row(alloc, row, keys)?;
        placed.push((key, place))?;
    }
    Ok(placed)
}

// The keys of rows with their places. A key is the code of the first `keys` values.
fn placed_keys<L: Loading>(
    loading: &L,
    alloc: Global,
    rows: &[Row],
    keys: usize,
) -> Result<Vec<Placed>, AllocError>
    requires ready { L.accepts loading.now }
    ensures { IfOk result (λ placed. placed.items ≡ placed_from keys 0 rows.now) }
{
    let placed = keys_or_none(loading, alloc, rows, keys)?;
    if all_have_keys(placed.as_slice()) {
        return Ok(placed);
    }
    // A key of one value or more is never empty. So an allocation failed, which may succeed now.
    encode_in_turn(alloc, rows, keys)
}

// Whether the keys strictly rise.
fn rise(placed: &[Placed]) -> bool
    ensures { result ≡ true → AllAdjacentBelow IsKeyBelow placed.now (length placed.now) }
{
    for place in 1..placed.len() {
        if placed[place - 1].0.compare(&placed[place].0) != Ordering::Less {
            return false;
        }
    }
    true
}

// The order of keys, and for equal keys that of their places.
pub(crate) fn placed_order(left: &Placed, right: &Placed) -> Ordering
    ensures { result ≡ placed_cmp left.now right.now }
{
    left.0.compare(&right.0).then(left.1.cmp(&right.1))
}

// Whether the key at a place equals the one before it.
fn repeats(placed: &[Placed], next: usize) -> bool
    requires some { 1 ≤ next }
    requires within { next < length placed.now }
    ensures { result ≡ repeats_at placed.now next }
{
    placed[next - 1].0.compare(&placed[next].0) == Ordering::Equal
}

// The smaller of a place that was found, if one was, and another place.
fn lower(found: Option<usize>, place: usize) -> usize
    ensures { result ≡ lower_of found place }
{
    match found {
        Some(other) => other.min(place),
        None => place,
    }
}

// The smallest place of a row whose key, in sorted keys, equals the one before it.
fn first_repeat(placed: &[Placed]) -> Option<usize>
    ensures { IsFirstRepeat placed.now (length placed.now) result }
{
    let mut first: Option<usize> = None;
    for next in 1..placed.len() {
        if repeats(placed, next) {
            first = Some(lower(first, placed[next].1));
        }
    }
    first
}

// The keys of rows in strictly rising order. `DuplicateKey` has the number of the first row, counted from 1, whose key an earlier
// row has.
pub(crate) fn ordered_keys<L: Loading>(
    loading: &L,
    alloc: Global,
    rows: &[Row],
    keys: usize,
) -> Result<Vec<Placed>, Refusal>
    requires ready { L.accepts loading.now }
    ensures permutation { IfOk result (λ placed. IsPermutation (placed_from keys 0 rows.now) placed.items) }
    ensures rising { IfOk result (λ placed. AllAdjacentBelow IsKeyBelow placed.items (length placed.items)) }
    ensures refused { IfErr result (λ e. e ≢ Refusal.OutOfMemory → map_of keys rows.now ≡ Err e) }
{
    let mut placed = placed_keys(loading, alloc, rows, keys)?;
    if rise(placed.as_slice()) {
        return Ok(placed);
    }
    loading.sort(alloc, &mut placed);
    match first_repeat(placed.as_slice()) {
        Some(place) => Err(Refusal::DuplicateKey(place as u64 + 1)),
        None => Ok(placed),
    }
}

// The keys with the rows at their places.
pub(crate) fn with_rows(
    alloc: Global,
    placed: Vec<Placed>,
    rows: Vec<Row>,
) -> Result<Vec<(Key, Row)>, AllocError>
    requires { AreDistinctBelow (length rows.items) (places_of placed.items) }
    ensures { IfOk result (λ pairs. pairs.items ≡ map (pair_at rows.items) placed.items) }
{
    let mut rows = rows;
    let mut pairs = Vec::with_capacity(alloc, placed.len())?;
    for one in placed {
        let (key, place) = one;
        pairs.push((key, mem::replace(&mut rows[place], Row::new())))?;
    }
    Ok(pairs)
}
