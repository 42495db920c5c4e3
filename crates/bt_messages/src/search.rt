//! Sorted entries searched for a key, from a place that is probably near it.
ghost use Rattle.std.specs.Prelude.{◌≡◌, ◌≤◌, drop, length, take};
ghost use Rattle.bt_keycode.specs.Keys.{IsSorted};
ghost use Rattle.bt_message.specs.Messages.{messages_before, messages_from};
ghost use Rattle.bt_messages.specs.inside.Brackets.{IsBracket};

use bt_keycode::Key;
use std::cmp::Ordering;

// Among fewer entries than these a search begins at the first one.
const FEW: usize = 8;

// The first step from a likely place, which is mostly within a few entries of the key's.
const FIRST_STEP: usize = 4;

// A number of 16 bits: the largest one if `number` has more.
fn sixteen_bits(number: u64) -> u32 {
    number.min(0xffff) as u32
}

// A place among `count` entries, as far along as `number` is between the numbers of the first and the last entry.
fn place_along(first: u64, last: u64, number: u64, count: usize) -> usize {
    if number <= first {
        return 0;
    }
    if last <= number {
        return count.saturating_sub(1);
    }
    // 16 bits of each distance are enough for a guess, and the product fits in 32 bits.
    let spare = 48u32.saturating_sub((last - first).leading_zeros());
    let whole = sixteen_bits((last - first) >> spare);
    let part = sixteen_bits((number - first) >> spare);
    (part.wrapping_mul(sixteen_bits(count as u64)) / whole.max(1)) as usize
}

/// A place to begin the search for a key at, and the first step from there. The place is where the key would be if the first eight
/// bytes of the keys rose evenly. A search finds the key from any place, so nothing is promised of this one.
pub(crate) fn likely_start<X>(entries: &[(Key, X)], key: &Key) -> (usize, usize)
    ensures { 1 ≤ result.1 }
{
    let count = entries.len();
    if count < FEW {
        return (0, FIRST_STEP);
    }
    let first = entries[0].0.first_number();
    let last = entries[count - 1].0.first_number();
    let number = key.first_number();
    if number == first || number == last {
        // Keys that have these bytes in common may be many. With a step as long as the entries, the search is a binary one.
        return (count / 2, count);
    }
    (place_along(first, last, number, count), FIRST_STEP)
}

// A bracket of a key that begins at `place` or later. Its upper end is found by steps that double.
fn bracket_above<X>(entries: &[(Key, X)], place: usize, step: usize, key: &Key) -> (usize, usize)
    requires sorted { IsSorted entries.now }
    requires bracket { IsBracket key.now place (length entries.now) entries.now }
    ensures { IsBracket key.now result.0 result.1 entries.now }
{
    let (mut low, mut step) = (place, step);
    while step < entries.len() - low && entries[low + step].0.compare(key) == Ordering::Less {
        low += step + 1;
        step = step.saturating_mul(2);
    }
    (low, low + step.min(entries.len() - low))
}

// A bracket of a key that ends at `place` or earlier. Its lower end is found by steps that double.
fn bracket_below<X>(entries: &[(Key, X)], place: usize, step: usize, key: &Key) -> (usize, usize)
    requires sorted { IsSorted entries.now }
    requires step { 1 ≤ step }
    requires bracket { IsBracket key.now 0 place entries.now }
    ensures { IsBracket key.now result.0 result.1 entries.now }
{
    let (mut high, mut step) = (place, step);
    while step <= high && entries[high - step].0.compare(key) != Ordering::Less {
        high -= step;
        step = step.saturating_mul(2);
    }
    (high.saturating_sub(step), high)
}

/// The number of entries with a key before `key`.
///
/// The search begins at `place` and goes up or down by steps, the first of length `step` and each twice as long as the last, until
/// the key is within the last step. A binary search of that step ends it. The result doesn't depend on `place` and `step`.
pub fn count_before_near<X>(entries: &[(Key, X)], place: usize, step: usize, key: &Key) -> usize
    requires sorted { IsSorted entries.now }
    requires step { 1 ≤ step }
    ensures bound { result ≤ length entries.now }
    ensures before { take result entries.now ≡ messages_before key.now entries.now }
    ensures from { drop result entries.now ≡ messages_from key.now entries.now }
{
    let (low, high) = if place < entries.len() && entries[place].0.compare(key) == Ordering::Less {
        bracket_above(entries, place + 1, step, key)
    } else {
        bracket_below(entries, place.min(entries.len()), step, key)
    };
    let between = &entries[low..high];
    low + between.partition_point(|entry| entry.0.compare(key) == Ordering::Less)
}
