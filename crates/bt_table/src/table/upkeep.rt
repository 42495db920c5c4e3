//! Upkeep of the trees of a table: flushing their buffers, or rebuilding them from their contents.
#![tactic(auto, using(crate::proofs::offered::Steps::is_consistent))]

ghost use Rattle.std.specs.Prelude.{◌≡◌, ◌<◌, IfErr, IfNone, IfOk, IfSome, IsErrOf, None, OnErr, Some, false, length, slice_get, true};
ghost use Rattle.bt_table.specs.Calls.{Drain, IsCertain, IsRefused, IsStep, Rebuild, StaysOrIsLost, is_primary};
ghost use Rattle.bt_table.specs.Indexes.{index_named, index_of_ref, indexes_of};
ghost use Rattle.bt_table.specs.Standing.{IsConsistent};
ghost use Rattle.bt_table.specs.Tables.{Lost};

use crate::index::{IndexHead, IndexRef, find_index, put_tree, take_tree};
use crate::reply::Reply;
use crate::table::{Table, is_name_of_rows};
use crate::trees::{Trees, put_trees, take_trees};
use crate::workforce::Workforce;
use bt_messages::Entry;
use bt_node::Tree;
use bt_value::{Refusal, Text};
use std::alloc::Global;

/// The tree that has a name: that of the rows, or that of an index, with its place.
pub(crate) fn find_tree<'a>(
    heads: &'a [IndexHead],
    entries: &'a [Tree<Entry>],
    name: &Text,
) -> Result<Option<(usize, IndexRef<'a>)>, Refusal>
    requires { length entries.now ≡ length heads.now }
    ensures rows { IfOk result (λ found. IfNone found (is_primary name.now ≡ true)) }
    ensures index { IfOk result (λ found. IfSome found (λ f. (is_primary name.now ≡ false) × (index_named name.now (indexes_of heads.now entries.now) ≡ Some (f.0, index_of_ref f.1)))) }
    ensures there { IfOk result (λ found. IfSome found (λ f. (slice_get heads.now f.0 ≡ Some f.1.head.now) × (slice_get entries.now f.0 ≡ Some f.1.tree.now))) }
    ensures within { IfOk result (λ found. IfSome found (λ f. f.0 < length heads.now)) }
    ensures none { IfErr result (λ refusal. (refusal ≡ Refusal.NoSuchTree) × (is_primary name.now ≡ false) × (index_named name.now (indexes_of heads.now entries.now) ≡ None)) }
{
    if is_name_of_rows(name) {
        return Ok(None);
    }
    match find_index(heads, entries, name) {
        Some(found) => Ok(Some(found)),
        None => Err(Refusal::NoSuchTree),
    }
}

impl Table {
    /// Flushes every buffer of the tree of this name. `NoSuchTree` if there is none. After `OutOfMemory` the table is as it was, or lost.
    pub fn drain<T, W: Workforce<T>>(
        &mut self,
        rt: &T,
        alloc: Global,
        name: &Text,
        crew: &W,
    ) -> Result<Reply, Refusal>
        requires ready { W.accepts crew.now }
        ensures done { IfOk result (IsStep self.old self.new (Drain name.now)) }
        ensures refused { IfErr result (IsRefused self.old self.new (Drain name.now)) }
        ensures certain { IsCertain self.old (Drain name.now) result }
        ensures memory { IsErrOf result Refusal.OutOfMemory → StaysOrIsLost self.old self.new }
        ensures failed { self.old ≡ Lost → IsErrOf result Refusal.Failed }
        ensures consistent { IsConsistent self.new }
    {
        let Some(trees) = &self.trees else {
            return Err(Refusal::Failed);
        };
        let found = find_tree(self.heads.as_slice(), trees.entries.as_slice(), name)?;
        let drained = name.copy(alloc)?;
        match found {
            None => {
                let Trees { rows, entries } = take_trees(&mut self.trees);
                let rows = crew.drain_rows(rt, alloc, rows)?;
                put_trees(&mut self.trees, Trees { rows, entries });
            }
            Some((place, _index)) => {
                let Trees { rows, mut entries } = take_trees(&mut self.trees);
                let taken = take_tree(alloc, &mut entries, place);
                let tree = crew.drain_entries(rt, alloc, taken)?;
                put_tree(&mut entries, place, tree);
                put_trees(&mut self.trees, Trees { rows, entries });
            }
        }
        self.soundness();
        Ok(Reply::Drained(drained))
    }

    /// Rebuilds the tree of this name from its contents while the old one stays. `NoSuchTree` if there is none. An `Err` changes nothing.
    pub fn rebuild<T, W: Workforce<T>>(
        &mut self,
        rt: &T,
        alloc: Global,
        name: &Text,
        crew: &W,
    ) -> Result<Reply, Refusal>
        requires ready { W.accepts crew.now }
        ensures done { IfOk result (IsStep self.old self.new (Rebuild name.now)) }
        ensures refused { IfErr result (IsRefused self.old self.new (Rebuild name.now)) }
        ensures certain { IsCertain self.old (Rebuild name.now) result }
        ensures unchanged { OnErr result (self.new ≡ self.old) }
        ensures failed { self.old ≡ Lost → IsErrOf result Refusal.Failed }
        ensures consistent { IsConsistent self.new }
    {
        let Some(trees) = &self.trees else {
            return Err(Refusal::Failed);
        };
        let found = find_tree(self.heads.as_slice(), trees.entries.as_slice(), name)?;
        let rebuilt = name.copy(alloc)?;
        match found {
            None => {
                let tree = crew.rebuild_rows(rt, alloc, &trees.rows)?;
                let Trees { rows, entries } = take_trees(&mut self.trees);
                drop(rows);
                put_trees(
                    &mut self.trees,
                    Trees {
                        rows: tree,
                        entries,
                    },
                );
            }
            Some((place, index)) => {
                let tree = crew.rebuild_entries(rt, alloc, index.tree)?;
                let Trees { rows, mut entries } = take_trees(&mut self.trees);
                put_tree(&mut entries, place, tree);
                put_trees(&mut self.trees, Trees { rows, entries });
            }
        }
        self.soundness();
        Ok(Reply::Rebuilt(rebuilt))
    }
}
