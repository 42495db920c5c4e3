//! Searches sorted entries for keys that mostly rise.
ghost use Rattle.std.specs.Prelude.{◌≡◌, ◌-◌, ◌≤◌, length};
ghost use Rattle.bt_keycode.specs.Keys.{IsSorted};
ghost use Rattle.bt_form.specs.Messages.{from};

use bt_keycode::Key;
use bt_messages::count_before_near;

/// The mean number of entries for each key, and at least 1: the first step of a search from one key to the next.
pub fn mean_step(entries: usize, keys: usize) -> usize
    ensures { 1 ≤ result }
{
    (entries / keys.max(1)).max(1)
}

/// The sorted entries from a key on. Also returns the place of the last entry before them, or 0: the start for a search of the next
/// key, if that is larger.
///
/// The search begins at `place`, and its first step is of length `step`.
pub fn part_from<'e, X>(
    entries: &'e [(Key, X)],
    place: usize,
    step: usize,
    key: &Key,
) -> (usize, &'e [(Key, X)])
    requires sorted { IsSorted entries.now }
    requires step { 1 ≤ step }
    ensures place { result.0 ≡ length entries.now - length result.1.now - 1 }
    ensures from { result.1.now ≡ from key.now entries.now }
    ensures sorted { IsSorted result.1.now }
{
    let before = count_before_near(entries, place, step, key);
    (before.saturating_sub(1), &entries[before..])
}
