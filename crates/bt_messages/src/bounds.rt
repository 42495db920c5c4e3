//! Sorted messages cut at keys and at bounds.
ghost use Rattle.std.specs.Prelude.{◌≡◌, ◌+◌, ◌≤◌, ◌++◌, IfOk, MatchOption, OnOk, OnErr, drop, length, take, vec_len, vec_capacity};
ghost use Rattle.bt_keycode.specs.Keys.{IsSorted};
ghost use Rattle.bt_message.specs.Messages.{messages_before, messages_between, messages_from, messages_outside, messages_past, messages_up_to};
ghost use Rattle.std.specs.Option.{option_copied};

use crate::search::{count_before_near, likely_start};
use bt_keycode::Key;
use bt_message::{Merge, Message};
use std::alloc::{AllocError, Global};
use std::cmp::Ordering;
use std::collections::VecDeque;

/// The number of entries with a key before `key`, searched from a likely place.
pub fn count_before<X>(messages: &[(Key, X)], key: &Key) -> usize
    requires { IsSorted messages.now }
    ensures bound { result ≤ length messages.now }
    ensures before { take result messages.now ≡ messages_before key.now messages.now }
    ensures from { drop result messages.now ≡ messages_from key.now messages.now }
{
    let (place, step) = likely_start(messages, key);
    count_before_near(messages, place, step, key)
}

/// The number of messages with a key at or before `key`.
pub(crate) fn count_up_to<X>(messages: &[(Key, X)], key: &Key) -> usize
    requires { IsSorted messages.now }
    ensures bound { result ≤ length messages.now }
    ensures up_to { take result messages.now ≡ messages_up_to key.now messages.now }
    ensures past { drop result messages.now ≡ messages_past key.now messages.now }
{
    messages.partition_point(|entry| key.compare(&entry.0) != Ordering::Less)
}

/// Moves the messages at the front with a key at or before `key`.
pub(crate) fn move_up_to<V: Merge>(
    merged: &mut Vec<(Key, Message<V>)>,
    older: &mut VecDeque<(Key, Message<V>)>,
    key: &Key,
)
    requires { vec_len merged.old + length older.old.items ≤ vec_capacity merged.old }
    ensures moved { merged.new.items ≡ merged.old.items ++ messages_up_to key.now older.old.items }
    ensures left { older.new.items ≡ messages_past key.now older.old.items }
    ensures len { vec_len merged.new + length older.new.items ≡ vec_len merged.old + length older.old.items }
    ensures capacity { vec_capacity merged.new ≡ vec_capacity merged.old }
{
    while let Some(first) = older.front() {
        if key.compare(&first.0) == Ordering::Less {
            break;
        }
        if let Some(entry) = older.pop_front() {
            merged.push_reserved(entry);
        }
    }
}

// The number of messages with a key before a bound, or `absent` if there is no bound.
fn count_before_bound<X>(messages: &[(Key, X)], bound: Option<&Key>, absent: usize) -> usize
    requires sorted { IsSorted messages.now }
    requires within { absent ≤ length messages.now }
    ensures within { result ≤ length messages.now }
    ensures cut { MatchOption (option_copied bound.entry) (result ≡ absent) (λ key. (take result messages.now ≡ messages_before key messages.now) × (drop result messages.now ≡ messages_from key messages.now)) }
{
    match bound {
        Some(key) => count_before(messages, key),
        None => absent,
    }
}

/// The entries with a key at or past `from` and before `to`. An absent bound doesn't limit.
pub fn between<'a, X>(
    entries: &'a [(Key, X)],
    from: Option<&Key>,
    to: Option<&Key>,
) -> &'a [(Key, X)]
    requires { IsSorted entries.now }
    ensures between { result.now ≡ messages_between (option_copied from.entry) (option_copied to.entry) entries.now }
    ensures sorted { IsSorted result.now }
{
    let before = &entries[..count_before_bound(entries, to, entries.len())];
    &before[count_before_bound(before, from, 0)..]
}

/// Takes out the messages with a key at or past `from` and before `to`.
pub(crate) fn take_between<V: Merge>(
    messages: &mut Vec<(Key, Message<V>)>,
    from: Option<&Key>,
    to: Option<&Key>,
) -> Result<Vec<(Key, Message<V>)>, AllocError>
    requires { IsSorted messages.old.items }
    ensures kept { OnOk result (messages.new.items ≡ messages_outside (option_copied from.entry) (option_copied to.entry) messages.old.items) }
    ensures kept_sorted { IsSorted messages.new.items }
    ensures taken { IfOk result (λ taken. taken.items ≡ messages_between (option_copied from.entry) (option_copied to.entry) messages.old.items) }
    ensures taken_sorted { IfOk result (λ taken. IsSorted taken.items) }
    ensures err { OnErr result (messages.new.items ≡ messages.old.items) }
{
    let end = count_before_bound(messages.as_slice(), to, messages.len());
    let mut later = messages.split_off(end)?;
    let start = count_before_bound(messages.as_slice(), from, 0);
    match messages.split_off(start) {
        Ok(taken) => {
            messages.append(&mut later)?;
            Ok(taken)
        }
        Err(error) => {
            messages.append(&mut later)?;
            Err(error)
        }
    }
}
