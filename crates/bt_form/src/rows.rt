//! Rows: the entries of a map, in order.
ghost use Rattle.std.specs.Prelude.{◌≡◌, ◌+◌, ◌<◌, ◌≤◌, ◌++◌, [], IfOk, IsTrue, OnOk, Some, None, drop, length, take, option_map, slice_get, vec_len, vec_capacity};
ghost use Rattle.std.specs.FinMap.{find, is_sorted};
ghost use Rattle.std.specs.Option.{option_copied, option_to_list};
ghost use Rattle.bt_message.specs.Effects.{effect_of};
ghost use Rattle.bt_form.specs.Deals.{deal};
ghost use Rattle.bt_keycode.specs.Keys.{key_cmp};
ghost use Rattle.bt_form.specs.Messages.{before, between, from, rows_after, with_value};

use crate::deal;
use crate::search::part_from;
use bt_keycode::Key;
use bt_messages::{Merge, Stream, between, count_before, effect};
use std::alloc::{AllocError, Global};
use std::cmp::Ordering;
use std::collections::VecDeque;
use std::marker::Model;

/// Rows sorted by key. No two have the same key.
#[derive(Drop)]
pub struct Rows<V: Merge> {
    rows: Vec<(Key, V)>,
}

impl<V: Merge> Model for Rows<V> {
    ghost use Rattle.std.specs.Prelude.{IsTrue, List, ℕ};
    ghost use Rattle.std.specs.FinMap.{is_sorted};
    ghost use Rattle.bt_keycode.specs.Keys.{key_cmp};

    ghost Value = { List (List ℕ × V) };

    ghost view = { λ r. r.rows.items };

    ghost invariant = { λ r. IsTrue (is_sorted key_cmp r.rows.items) };
}

// Moves the rows at the front with a key before `key`.
fn move_before<V: Merge>(moved: &mut Vec<(Key, V)>, older: &mut VecDeque<(Key, V)>, key: &Key)
    requires sorted { IsTrue (is_sorted key_cmp older.old.items) }
    requires room { vec_len moved.old + length older.old.items ≤ vec_capacity moved.old }
    ensures moved { moved.new.items ≡ moved.old.items ++ before key.now older.old.items }
    ensures left { older.new.items ≡ from key.now older.old.items }
    ensures len { vec_len moved.new + length older.new.items ≡ vec_len moved.old + length older.old.items }
    ensures capacity { vec_capacity moved.new ≡ vec_capacity moved.old }
{
    while let Some(first) = older.front() {
        if first.0.compare(key) != Ordering::Less {
            break;
        }
        if let Some(row) = older.pop_front() {
            moved.push_reserved(row);
        }
    }
}

// Takes out the first row if it has this key. Returns its value.
fn take_first<V: Merge>(rows: &mut VecDeque<(Key, V)>, key: &Key) -> Option<V>
    requires sorted { IsTrue (is_sorted key_cmp rows.old.items) }
    requires none_before { before key.now rows.old.items ≡ [] }
    ensures value { result ≡ find key_cmp key.now rows.old.items }
    ensures others { rows.new.items ≡ with_value key.now None rows.old.items }
    ensures len { length rows.new.items ≤ length rows.old.items }
{
    let first = rows.front()?;
    if first.0.compare(key) != Ordering::Equal {
        return None;
    }
    let (_, value) = rows.pop_front()?;
    Some(value)
}

// Puts a row in front of the others, if there is a value.
fn put_front<V: Merge>(
    rows: &mut VecDeque<(Key, V)>,
    key: Key,
    value: Option<V>,
) -> Result<(), AllocError>
    ensures row { OnOk result (rows.new.items ≡ option_to_list (option_map (λ v. (key, v)) value) ++ rows.old.items) }
    ensures len { OnOk result (length rows.new.items ≤ length rows.old.items + 1) }
{
    if let Some(value) = value {
        rows.push_front((key, value))?;
    }
    Ok(())
}

/// The value of the first row, if it has this key, and the rows at other keys.
pub fn split_first<'a, V: Merge>(rows: &'a [(Key, V)], key: &Key) -> (Option<&'a V>, &'a [(Key, V)])
    requires sorted { IsTrue (is_sorted key_cmp rows.now) }
    requires none_before { before key.now rows.now ≡ [] }
    ensures value { option_copied result.0 ≡ find key_cmp key.now rows.now }
    ensures others { result.1.now ≡ with_value key.now None rows.now }
{
    let [first, others @ ..] = rows else {
        return (None, rows);
    };
    if first.0.compare(key) != Ordering::Equal {
        return (None, rows);
    }
    (Some(&first.1), others)
}

impl<V: Merge> Rows<V> {
    /// An empty list of rows.
    pub fn new(alloc: Global) -> Self
        ensures { result ≡ [] }
    {
        Rows {
            rows: Vec::new(alloc),
        }
    }

    /// Pairs of a key and a value, in strictly rising order of keys.
    pub fn from_sorted(rows: Vec<(Key, V)>) -> Self
        requires { IsTrue (is_sorted key_cmp rows.items) }
        ensures { result ≡ rows.items }
    {
        Rows { rows }
    }

    /// The rows with a key at or past `from` and before `to`, in rising order. An absent bound doesn't limit.
    pub fn between(&self, from: Option<&Key>, to: Option<&Key>) -> &[(Key, V)]
        ensures rows { result.now ≡ between (option_copied from.entry) (option_copied to.entry) self.now }
        ensures sorted { IsTrue (is_sorted key_cmp result.now) }
    {
        between(self.rows.as_slice(), from, to)
    }

    /// The number of rows.
    pub fn len(&self) -> usize
        ensures { result ≡ length self.now }
    {
        self.rows.len()
    }

    /// The row at a place, counted from 0: its key and its value.
    pub fn get(&self, place: usize) -> (&Key, &V)
        requires { place < length self.now }
        ensures { slice_get self.now place ≡ Some (result.0.now, result.1.now) }
    {
        let row = &self.rows[place];
        (&row.0, &row.1)
    }

    /// The value at a key.
    pub fn find(&self, key: &Key) -> Option<&V>
        ensures { option_copied result ≡ find key_cmp key.now self.now }
    {
        let rows = self.rows.as_slice();
        let later = &rows[count_before(rows, key)..];
        split_first(later, key).0
    }

    /// The value at a key, and a place at which to start the search for the next key. The search is fastest if the row at `place`
    /// is before the key and near it. The result doesn't depend on `place` and `step`.
    pub fn find_near(&self, place: usize, step: usize, key: &Key) -> (usize, Option<&V>)
        requires { 1 ≤ step }
        ensures { option_copied result.1 ≡ find key_cmp key.now self.now }
    {
        let (next, later) = part_from(self.rows.as_slice(), place, step, key);
        (next, split_first(later, key).0)
    }

    /// The rows after the first messages of a stream, which are taken off it, in one merge. Capacity of more than an eighth over
    /// the rows is freed.
    pub fn after(
        self,
        alloc: Global,
        stream: &mut Stream<V>,
        count: usize,
    ) -> Result<Self, AllocError>
        requires { count ≤ length stream.old }
        ensures rows { IfOk result (λ rows. rows ≡ rows_after (effect_of V.terms.merged) (take count stream.old) self) }
        ensures left { OnOk result (stream.new ≡ drop count stream.old) }
    {
        if count == 0 {
            return Ok(self);
        }
        // Called for its contract: a stream has fewer than 2^63 messages, so the capacity fits in a `usize`.
        let _bound = stream.len();
        let Rows { rows } = self;
        let mut changed = Vec::with_capacity(alloc, rows.len() + count)?;
        let mut older = VecDeque::from(rows);
        for _ in 0..count {
            let Some((key, message)) = stream.pop() else {
                unreachable!()
            };
            move_before(&mut changed, &mut older, &key);
            let old = take_first(&mut older, &key);
            let new = effect(alloc, old, message)?;
            put_front(&mut older, key, new)?;
        }
        for row in older {
            changed.push_reserved(row);
        }
        changed.shrink_to(changed.len() + changed.len() / 8);
        Ok(Rows { rows: changed })
    }

    /// The rows in parts of at most `most`.
    pub fn deal(self, alloc: Global, most: usize) -> Result<Vec<Rows<V>>, AllocError>
        requires { 0 < most }
        ensures { IfOk result (λ parts. parts.items ≡ deal most self) }
    {
        let Rows { rows } = self;
        let dealt = deal::deal(alloc, rows, most)?;
        let mut parts = Vec::with_capacity(alloc, dealt.len())?;
        for rows in dealt {
            parts.push_reserved(Rows { rows });
        }
        Ok(parts)
    }
}
