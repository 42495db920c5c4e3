//! Groups of the rows that entries of an index show.
//!
//! The code of a group's columns is the front of the key of each of its entries. So an entry whose key begins with the front of the last group is of that
//! group, and only what follows the front is read.
ghost use Rattle.std.specs.Prelude.{◌≡◌, ◌≢◌, ◌≤◌, ◌++◌, [], IfOk, IfSome, List, MatchOption, Some, drop, length, option_map, take, ℕ};
ghost use Rattle.bt_keycode.specs.Codes.{code_of};
ghost use Rattle.bt_value.specs.declared.value.Value.{Value as value};
ghost use Rattle.bt_show.specs.Groups.{number_in};
ghost use Rattle.bt_show.specs.inside.Entries.{after_entry, row_of_entry};
ghost use Rattle.bt_show.specs.inside.EntryParts.{entries_as_one};
ghost use Rattle.bt_show.specs.inside.Fronts.{IsLastOf};
ghost use Rattle.bt_show.specs.inside.GroupParts.{groups_as_one};
ghost use Rattle.bt_show.specs.inside.Neighbours.{joined_with, after_row};

use crate::entry_rows::row_of_entry;
use crate::groups::{Grouping, number_in};
use bt_keycode::{Key, encode_row, is_code};
use bt_messages::Entry;
use bt_node::{ForkVisitor, Visitor};
use bt_row::Row;
use bt_value::Kind;
use std::alloc::{AllocError, Global};
use std::marker::Model;

/// Entries of an index that are grouped as they come, by the kinds of the columns of the index's key. A contract sees the kinds and the groups.
#[derive(Drop)]
pub struct EntryGroups<'a> {
    kinds: &'a [Kind],
    groups: Grouping,
    // the front of the keys of the last group, where it serves
    front: Option<Key>,
}

impl<'a> Model for EntryGroups<'a> {
    ghost use Rattle.std.specs.Prelude.{List, ℕ};
    ghost use Rattle.bt_value.specs.declared.value.Kind.{Kind as kind};
    ghost use Rattle.bt_show.specs.inside.Fronts.{IsFrontWhereKept};
    ghost use Rattle.bt_show.specs.inside.Neighbours.{Groups};

    ghost Value = { List kind × (ℕ × ℕ × Groups) };

    ghost view = { λ e. (e.kinds.now, e.groups) };

    ghost invariant = { λ e. IsFrontWhereKept e.kinds.now e.groups e.front };
}

// The part of a key after its front.
fn following_front<'k>(front: &Key, key: &'k Key) -> Option<&'k [u8]>
    ensures { MatchOption result ((rest : List ℕ) → key.now ≢ front.now ++ rest) (λ rest. key.now ≡ front.now ++ rest.now) }
{
    key.as_slice().strip_prefix(front.as_slice())
}

// The number at a place of the row of an entry, if its key is a code of values of these kinds. The number of a column that the index includes is read from the
// entry, and the key is not decoded.
fn number_of_entry(
    alloc: Global,
    kinds: &[Kind],
    key: &[u8],
    entry: &Entry,
    place: usize,
) -> Result<Option<i64>, AllocError>
    ensures { IfOk result (λ number. number ≡ option_map (λ row. number_in row place) (row_of_entry kinds.now (key.now, entry.now))) }
{
    let Some(included) = place.checked_sub(kinds.len()) else {
        return match row_of_entry(alloc, kinds, key, entry)? {
            Some(row) => Ok(Some(number_in(&row, place))),
            None => Ok(None),
        };
    };
    if is_code(kinds, key) {
        Ok(Some(number_in(entry.as_row(), included)))
    } else {
        Ok(None)
    }
}

// The kinds after the first `columns` ones.
fn after_columns(kinds: &[Kind], columns: usize) -> &[Kind]
    requires { columns ≤ length kinds.now }
    ensures { result.now ≡ drop columns kinds.now }
{
    &kinds[columns..]
}

// The front of the keys of a row's group. It is used if keys have more columns than a group, so that other keys may belong to the group,
// and if the summed column is after those of a group.
fn front_of(
    alloc: Global,
    kinds: &[Kind],
    groups: &Grouping,
    row: &Row,
) -> Result<Option<Key>, AllocError>
    ensures few { IfOk result (λ front. IfSome front (λ _. groups.now.0 ≤ length kinds.now)) }
    ensures following { IfOk result (λ front. IfSome front (λ _. groups.now.0 ≤ groups.now.1)) }
    ensures code { IfOk result (λ front. IfSome front (λ front. front ≡ code_of (take groups.now.0 row.now))) }
{
    let columns = groups.columns();
    if columns < kinds.len() && columns <= groups.place() {
        Ok(Some(encode_row(alloc, row, columns)?))
    } else {
        Ok(None)
    }
}

impl<'a> EntryGroups<'a> {
    /// Groups to which entries will be added, by the kinds of the columns of their keys.
    pub fn new(kinds: &'a [Kind], groups: Grouping) -> Self
        ensures { result ≡ (kinds.now, groups) }
    {
        EntryGroups {
            kinds,
            groups,
            front: None,
        }
    }

    /// The groups.
    pub fn into_groups(self) -> Grouping
        ensures { result ≡ self.entry.1 }
    {
        let EntryGroups { groups, .. } = self;
        groups
    }

    // The number that is summed of an entry whose key has the front of the last group.
    fn number_in_last(
        &self,
        alloc: Global,
        key: &Key,
        entry: &Entry,
    ) -> Result<Option<i64>, AllocError>
        ensures { IfOk result (λ number. IfSome number (λ number. (row : List value) × (
            (row_of_entry self.now.0 (key.now, entry.now) ≡ Some row)
            × IsLastOf (take self.now.1.0 row) self.now.1.2 × (number_in row self.now.1.1 ≡ number)))) }
    {
        let Some(front) = &self.front else {
            return Ok(None);
        };
        let Some(rest) = following_front(front, key) else {
            return Ok(None);
        };
        let columns = self.groups.columns();
        let kinds = after_columns(self.kinds, columns);
        number_of_entry(alloc, kinds, rest, entry, self.groups.place() - columns)
    }
}

impl<'a> Visitor<Entry> for EntryGroups<'a> {
    ghost visited = { after_entry after_row };

    fn visit(&mut self, alloc: Global, key: &Key, entry: &Entry) -> Result<(), AllocError> {
        if let Some(number) = self.number_in_last(alloc, key, entry)? {
            self.groups.add_to_last(number);
            return Ok(());
        }
        let Some(row) = row_of_entry(alloc, self.kinds, key.as_slice(), entry)? else {
            return Ok(());
        };
        self.front = None;
        self.groups.visit(alloc, key, &row)?;
        self.front = front_of(alloc, self.kinds, &self.groups, &row)?;
        Ok(())
    }
}

impl<'a> ForkVisitor<Entry> for EntryGroups<'a> {
    ghost forked = { λ e. (e.0, (e.1.0, e.1.1, Some [])) };

    ghost joined = { λ e following. (e.0, joined_with e.1 following.1) };

    fn fork(&self, alloc: Global) -> Self {
        EntryGroups::new(self.kinds, self.groups.fork(alloc))
    }

    fn join(&mut self, alloc: Global, following: Self) -> Result<(), AllocError> {
        let EntryGroups { groups, .. } = following;
        self.front = None;
        self.groups.join(alloc, groups)
    }

    ghost as_one = { λ e entries following. entries_as_one after_row (λ g. (g.0, g.1, Some [])) joined_with groups_as_one e entries following };
}
