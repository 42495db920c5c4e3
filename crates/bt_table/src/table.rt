//! Tables and their calls.
#![tactic(auto, using(crate::proofs::offered::Steps::is_consistent))]

ghost use Rattle.std.specs.Prelude.{◌≡◌, Err, IfErr, IfOk, IsErrOf, None, OnErr, OnOk, Some};
ghost use Rattle.bt_value.specs.Refusals.{lowest};
ghost use Rattle.bt_table.specs.Calls as spec;
ghost use Rattle.bt_table.specs.Calls.{Apply, ApplyMessages, CreateIndex, DropIndex, Get, GetAt, IsCertain, IsRefused, IsStep, IsTextOfMessages, Shows, StaysOrIsLost, index_refusals, is_primary, step, tree_named};
ghost use Rattle.bt_table.specs.Standing.{HasSchema, IsConsistent, SuitMessages, Suits};
ghost use Rattle.bt_table.specs.Indexes.{indexes_of_refs};
ghost use Rattle.bt_table.specs.Tables.{Intact, Lost, empty_table, held_by};

mod checks;
mod load;
mod upkeep;

use crate::index::{
    FanOut, IndexHead, IndexRef, IndexRefs, add_index, fan_out, find_index, is_whole, put_cover,
    put_tree, take_tree,
};
use crate::reply::Reply;
use crate::trees::{TreeRoom, Trees, put_trees, sunk_all, sunk_one, take_trees};
use crate::workforce::Workforce;
use bt_fanout::{BuildStep, IndexDef};
use bt_gang::Context;
use bt_keycode::{Key, encode_row};
use bt_messages::Packet;
use bt_node::{Shape, Tree};
use bt_record::RecordLine;
use bt_row::{Row, Schema};
use bt_rowtype::{Item, RecordReader};
use bt_value::{Refusal, Text};
use std::alloc::Global;
use std::marker::Model;

/// The largest number of indexes of a table.
pub const MOST_INDEXES: usize = 16;

/// Rows of a schema in a tree, under the codes of their keys, and secondary indexes on them. A table has no trees if they were lost when memory ran out.
#[derive(Drop)]
pub struct Table {
    schema: Schema,
    // the heads of the indexes, in order of creation
    heads: Vec<IndexHead>,
    trees: Option<Trees>,
}

impl Model for Table {
    ghost use Rattle.bt_table.specs.Tables.{TableState, state_of};
    ghost use Rattle.bt_table.specs.inside.Parts.{AreSoundParts};
    ghost use Rattle.std.specs.Coded.{codes};
    ghost use Rattle.bt_form.specs.Stored.{message_code, tree_code};

    ghost Value = { TableState };

    ghost coded = { Prim.hlevel (codes, tree_code, message_code) };

    ghost view = { λ a. state_of a.schema a.heads.items a.trees };

    ghost invariant = { λ a. AreSoundParts a.schema a.heads.items a.trees };
}

/// A borrowed tree of a table.
#[derive(Clone, Copy)]
pub enum TreeRef<'a> {
    /// The tree of the rows.
    Rows {
        schema: &'a Schema,
        tree: &'a Tree<Row>,
    },
    /// An index.
    Index {
        schema: &'a Schema,
        index: IndexRef<'a>,
    },
}

/// The borrowed trees of a table: that of its rows, and those of its indexes.
#[derive(Clone, Copy)]
pub struct TreeRefs<'a> {
    pub schema: &'a Schema,
    pub rows: &'a Tree<Row>,
    pub indexes: IndexRefs<'a>,
}

/// The name of the tree of the rows.
pub fn name_of_rows() -> &'static [u8]
    ensures { result.now ≡ spec.primary }
{
    b"primary"
}

fn is_name_of_rows(name: &Text) -> bool
    ensures { result ≡ is_primary name.now }
{
    name.as_bytes() == name_of_rows()
}

impl Table {
    // What is true of a table between any two calls. It does nothing: a call that changes the trees ends with it, so that its contract states this.
    fn soundness(&self)
        ensures consistent { IsConsistent self.now }
    {
        let _trees = &self.trees;
    }

    /// A table with no rows and no indexes.
    pub fn new(alloc: Global, schema: Schema, shape: Shape) -> Self
        ensures empty { result ≡ Intact (empty_table schema shape) }
        ensures consistent { IsConsistent result }
    {
        let rows = Tree::empty(alloc, shape);
        // An empty tree fits its shape, which a walk states for every tree; and the key columns of a schema are columns of it.
        let _root = rows.walk();
        let _keys = schema.keys();
        let entries = Vec::new(alloc);
        Table {
            schema,
            heads: Vec::new(alloc),
            trees: Some(Trees { rows, entries }),
        }
    }

    /// The columns of the rows.
    pub fn schema(&self) -> Result<&Schema, Refusal>
        ensures schema { IfOk result (λ schema. HasSchema self.now schema.now) }
        ensures refused { IfErr result (λ refusal. (self.now ≡ Lost) × (refusal ≡ Refusal.Failed)) }
        ensures consistent { IsConsistent self.now }
    {
        if self.trees.is_none() {
            return Err(Refusal::Failed);
        }
        Ok(&self.schema)
    }

    /// Applies the messages of a batch in order, to the rows and to each index, and returns their numbers. A lost table returns `Failed`. Otherwise the
    /// lowest refusal that applies is returned, and the table does not change. After `OutOfMemory` the table is as it was, or lost.
    #[tactic(auto, using(crate::proofs::offered::Steps::is_consistent, crate::proofs::Steps::is_text_of_messages))]
    pub fn apply<T, W: Workforce<T>>(
        &mut self,
        rt: &T,
        alloc: Global,
        items: &[Item<'_>],
        crew: &W,
    ) -> Result<Reply, Refusal>
        requires ready { W.accepts crew.now }
        ensures done { IfOk result (IsStep self.old self.new (Apply items.now)) }
        ensures refused { IfErr result (IsRefused self.old self.new (Apply items.now)) }
        ensures memory { IsErrOf result Refusal.OutOfMemory → StaysOrIsLost self.old self.new }
        ensures kept { IfErr (step self.old (Apply items.now)) (λ _. self.new ≡ self.old) }
        ensures failed { self.old ≡ Lost → IsErrOf result Refusal.Failed }
        ensures text { IsTextOfMessages self.old items.now }
        ensures consistent { IsConsistent self.new }
    {
        let Some(_trees) = &self.trees else {
            return Err(Refusal::Failed);
        };
        let packet = crew.read_packet(rt, alloc, &self.schema, items)?;
        self.apply_messages(rt, alloc, packet, crew)
    }

    /// Applies the messages of a packet in order, to the rows and to each index, and returns their numbers. Each message has to be of the schema of the table.
    /// Those of [`Changes`](bt_batch::Changes) are, if they were checked by this schema. A lost table returns `Failed`, and there is no other refusal than
    /// `OutOfMemory`, after which the table is as it was, or lost.
    pub fn apply_messages<T, W: Workforce<T>>(
        &mut self,
        rt: &T,
        alloc: Global,
        packet: Packet<Row>,
        crew: &W,
    ) -> Result<Reply, Refusal>
        requires ready { W.accepts crew.now }
        requires suits { SuitMessages self.old packet }
        ensures done { IfOk result (IsStep self.old self.new (ApplyMessages packet)) }
        ensures refused { IfErr result (IsRefused self.old self.new (ApplyMessages packet)) }
        ensures certain { IsCertain self.old (ApplyMessages packet) result }
        ensures memory { IsErrOf result Refusal.OutOfMemory → StaysOrIsLost self.old self.new }
        ensures kept { IfErr (step self.old (ApplyMessages packet)) (λ _. self.new ≡ self.old) }
        ensures failed { self.old ≡ Lost → IsErrOf result Refusal.Failed }
        ensures consistent { IsConsistent self.new }
    {
        let Some(trees) = &self.trees else {
            drop(packet);
            return Err(Refusal::Failed);
        };
        let _sorted = packet.iter();
        let count = packet.len();
        let context = Context { rt, alloc, crew };
        let FanOut { packets, sent } = fan_out(
            &context,
            &trees.rows,
            &packet,
            self.heads.as_slice(),
        )?;
        let room = TreeRoom::new(alloc, 1, packets.len())?;
        let trees = take_trees(&mut self.trees);
        let after = sunk_all(&context, room, trees, packet, packets)?;
        put_trees(&mut self.trees, after);
        self.soundness();
        Ok(Reply::Batch { count, sent })
    }

    /// Whether an index of this name can be created: `NameTaken` if the tree of rows or an index has this name, `TooMany` if the table already has as many
    /// indexes as it can have. Allocates nothing.
    pub fn check_index(&self, name: &Text) -> Result<(), Refusal>
        ensures free { OnOk result (lowest (index_refusals self.now name.now) ≡ None) }
        ensures refused { IfErr result (λ refusal. lowest (index_refusals self.now name.now) ≡ Some refusal) }
        ensures consistent { IsConsistent self.now }
    {
        let Some(trees) = &self.trees else {
            return Err(Refusal::Failed);
        };
        let found = find_index(self.heads.as_slice(), trees.entries.as_slice(), name);
        if is_name_of_rows(name) || found.is_some() {
            return Err(Refusal::NameTaken);
        }
        let is_full = self.heads.len() >= MOST_INDEXES;
        if is_full {
            return Err(Refusal::TooMany);
        }
        Ok(())
    }

    /// Creates an index of a definition after the others. It covers no row yet. The refusals are those of `check_index`. An `Err` changes nothing.
    pub fn create_index(
        &mut self,
        alloc: Global,
        name: Text,
        def: IndexDef,
    ) -> Result<Reply, Refusal>
        requires { Suits self.old def }
        ensures done { IfOk result (IsStep self.old self.new (CreateIndex name def)) }
        ensures refused { IfErr result (IsRefused self.old self.new (CreateIndex name def)) }
        ensures certain { IsCertain self.old (CreateIndex name def) result }
        ensures unchanged { OnErr result (self.new ≡ self.old) }
        ensures failed { self.old ≡ Lost → IsErrOf result Refusal.Failed }
        ensures consistent { IsConsistent self.new }
    {
        if let Err(refusal) = self.check_index(&name) {
            drop((name, def));
            return Err(refusal);
        }
        let Ok(created) = name.copy(alloc) else {
            drop((name, def));
            return Err(Refusal::OutOfMemory);
        };
        let Trees { rows, mut entries } = take_trees(&mut self.trees);
        let shape = rows.shape();
        let added = add_index(alloc, &mut self.heads, &mut entries, shape, name, def);
        put_trees(&mut self.trees, Trees { rows, entries });
        self.soundness();
        added?;
        Ok(Reply::Created(created))
    }

    /// One step of building an index. It reads the first `count` rows that the index does not cover, or all of them if they are fewer, and sends the index
    /// their entries; from then on the index covers these rows too, and the batches on them. If they were fewer, the index is complete. `NoSuchTree` if there
    /// is no index of this name, `AlreadyComplete` if it is complete. After `OutOfMemory` the table is as it was, or lost.
    pub fn build_step<T, W: Workforce<T>>(
        &mut self,
        rt: &T,
        alloc: Global,
        name: &Text,
        count: usize,
        crew: &W,
    ) -> Result<Reply, Refusal>
        requires ready { W.accepts crew.now }
        ensures done { IfOk result (IsStep self.old self.new (spec.BuildStep name.now count)) }
        ensures refused { IfErr result (IsRefused self.old self.new (spec.BuildStep name.now count)) }
        ensures certain { IsCertain self.old (spec.BuildStep name.now count) result }
        ensures memory { IsErrOf result Refusal.OutOfMemory → StaysOrIsLost self.old self.new }
        ensures failed { self.old ≡ Lost → IsErrOf result Refusal.Failed }
        ensures consistent { IsConsistent self.new }
    {
        let Some(trees) = &self.trees else {
            return Err(Refusal::Failed);
        };
        let Some((place, index)) = find_index(self.heads.as_slice(), trees.entries.as_slice(), name)
        else {
            return Err(Refusal::NoSuchTree);
        };
        let head = index.head;
        if is_whole(&head.cover) {
            return Err(Refusal::AlreadyComplete);
        }
        let name = name.copy(alloc)?;
        let BuildStep {
            packet,
            cover,
            read,
        } = crew.build_step(rt, alloc, &head.def, &head.cover, &trees.rows, count)?;
        let complete = is_whole(&cover);
        let room = TreeRoom::new(alloc, 0, 1)?;
        let Trees { rows, mut entries } = take_trees(&mut self.trees);
        let taken = take_tree(alloc, &mut entries, place);
        let tree = sunk_one(&Context { rt, alloc, crew }, room, taken, packet)?;
        put_tree(&mut entries, place, tree);
        put_cover(&mut self.heads, place, cover);
        put_trees(&mut self.trees, Trees { rows, entries });
        self.soundness();
        Ok(Reply::Built {
            name,
            read,
            complete,
        })
    }

    /// Removes an index from the table. `NoSuchTree` if there is none of this name. Allocates nothing.
    pub fn drop_index(&mut self, name: &Text) -> Result<Reply, Refusal>
        ensures done { IfOk result (IsStep self.old self.new (DropIndex name.now)) }
        ensures refused { IfErr result (λ refusal. (step self.old (DropIndex name.now) ≡ Err refusal) × (self.new ≡ self.old)) }
        ensures consistent { IsConsistent self.new }
    {
        let Some(trees) = &self.trees else {
            return Err(Refusal::Failed);
        };
        let Some((place, _index)) = find_index(
            self.heads.as_slice(),
            trees.entries.as_slice(),
            name,
        ) else {
            return Err(Refusal::NoSuchTree);
        };
        let Trees { rows, mut entries } = take_trees(&mut self.trees);
        drop(entries.remove(place));
        put_trees(&mut self.trees, Trees { rows, entries });
        let IndexHead { name, def, cover } = self.heads.remove(place);
        drop((def, cover));
        self.soundness();
        Ok(Reply::Dropped(name))
    }

    /// The row whose key these fields encode, if there is one.
    pub fn get(&self, alloc: Global, fields: &RecordLine<'_>) -> Result<Reply, Refusal>
        ensures done { IfOk result (IsStep self.now self.now (Get fields.now)) }
        ensures refused { IfErr result (IsRefused self.now self.now (Get fields.now)) }
        ensures failed { self.now ≡ Lost → IsErrOf result Refusal.Failed }
        ensures consistent { IsConsistent self.now }
    {
        let Some(_trees) = &self.trees else {
            return Err(Refusal::Failed);
        };
        let mut reader = RecordReader::new(alloc);
        let key = reader.read_key(alloc, &self.schema, 1, fields)?;
        let code = encode_row(alloc, &key, key.len())?;
        self.get_at(alloc, &code)
    }

    /// The row at a key, if there is one. The key of a row is the code of its key columns, as [`encode_row`] makes it. No other key has a row, so no key is
    /// refused.
    pub fn get_at(&self, alloc: Global, key: &Key) -> Result<Reply, Refusal>
        ensures done { IfOk result (IsStep self.now self.now (GetAt key.now)) }
        ensures refused { IfErr result (IsRefused self.now self.now (GetAt key.now)) }
        ensures failed { self.now ≡ Lost → IsErrOf result Refusal.Failed }
        ensures consistent { IsConsistent self.now }
    {
        let Some(trees) = &self.trees else {
            return Err(Refusal::Failed);
        };
        Ok(Reply::Row(trees.rows.get(alloc, key)?))
    }

    /// All trees. Allocates nothing.
    pub fn trees(&self) -> Result<TreeRefs<'_>, Refusal>
        ensures trees { IfOk result (λ trees. self.now ≡ Intact (held_by trees.schema.now trees.rows.now (indexes_of_refs trees.indexes))) }
        ensures refused { IfErr result (λ refusal. (self.now ≡ Lost) × (refusal ≡ Refusal.Failed)) }
    {
        let Some(trees) = &self.trees else {
            return Err(Refusal::Failed);
        };
        Ok(TreeRefs {
            schema: &self.schema,
            rows: &trees.rows,
            indexes: IndexRefs {
                heads: self.heads.as_slice(),
                trees: trees.entries.as_slice(),
            },
        })
    }

    /// The tree of this name: the tree of the rows is `primary`, and each index has its own name. Allocates nothing.
    pub fn tree(&self, name: &Text) -> Result<TreeRef<'_>, Refusal>
        ensures shown { IfOk result (λ shown. Shows self.now name.now shown) }
        ensures refused { IfErr result (λ refusal. tree_named self.now name.now ≡ Err refusal) }
        ensures consistent { IsConsistent self.now }
    {
        let Some(trees) = &self.trees else {
            return Err(Refusal::Failed);
        };
        if is_name_of_rows(name) {
            return Ok(TreeRef::Rows {
                schema: &self.schema,
                tree: &trees.rows,
            });
        }
        match find_index(self.heads.as_slice(), trees.entries.as_slice(), name) {
            Some((_place, index)) => Ok(TreeRef::Index {
                schema: &self.schema,
                index,
            }),
            None => Err(Refusal::NoSuchTree),
        }
    }
}
