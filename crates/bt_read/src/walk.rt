//! Reads a tree node by node.
ghost use Rattle.std.specs.Prelude.{◌≡◌, ◌<◌, cond, None, Some, fold, length, map, option_map, slice_get, take, true, IfOk, IsTrue, OnOk};
ghost use Rattle.std.specs.FinMap.{find, is_sorted};
ghost use Rattle.std.specs.Option.{option_copied};
ghost use Rattle.bt_keycode.specs.Keys.{Key, is_between, key_cmp};
ghost use Rattle.bt_message.specs.Effects.{effect_of};
ghost use Rattle.bt_form.specs.Fits.{IsInOrder};
ghost use Rattle.bt_form.specs.Flushes.{holds};
ghost use Rattle.bt_form.specs.Messages.{between};
ghost use Rattle.bt_form.specs.Portions.{Chained, HaveThere, all_rows, owners};
ghost use Rattle.bt_form.specs.Walks as walk;

use crate::joint_lookup::{into_values, tree_values};
use crate::lent_messages::is_empty_range;
use crate::lookup::tree_value;
use crate::portions::{Portion, portions_at};
use crate::row_limit::RowLimit;
use crate::visitor::{Copies, Visitor};
use crate::visits::visit_between;
use bt_form::{Node, NodeKind};
use bt_keycode::Key;
use bt_messages::{BufferMessages, Merge};
use std::alloc::{AllocError, Global};
use std::marker::Model;

/// A reference to a node, with everything below it.
#[derive(Drop)]
pub struct Walk<'a, V: Merge> {
    node: &'a Node<V>,
}

impl<'a, V: Merge> Model for Walk<'a, V> {
    ghost use Rattle.bt_message.specs.declared.message.Message.{Message};
    ghost use Rattle.bt_form.specs.Trees as trees;
    ghost use Rattle.bt_form.specs.Stored.{message_code, tree_code};

    ghost Value = { trees.Tree V (Message V V.Delta) };

    ghost coded = { tree_code V.code (message_code V.code V.Delta.code) };

    ghost view = { λ w. w.node.now };
}

impl<'a, V: Merge> Walk<'a, V> {
    pub fn new(node: &'a Node<V>) -> Self
        ensures { result ≡ node.now }
    {
        Walk { node }
    }

    /// Whether this is a leaf: it has rows, and no messages and no children.
    pub fn is_leaf(&self) -> bool
        ensures { result ≡ walk.is_leaf self.now }
    {
        match self.node.kind() {
            NodeKind::Leaf(_) => true,
            NodeKind::Inner { .. } => false,
        }
    }

    /// The number of rows of a leaf, or 0 for an inner node.
    pub fn row_count(&self) -> usize
        ensures { result ≡ length (walk.rows_of self.now) }
    {
        match self.node.kind() {
            NodeKind::Leaf(rows) => rows.len(),
            NodeKind::Inner { .. } => 0,
        }
    }

    /// The key and the value of a row of a leaf, counted from 0.
    pub fn row(&self, place: usize) -> (&'a Key, &'a V)
        requires { place < length (walk.rows_of self.now) }
        ensures { slice_get (walk.rows_of self.now) place ≡ Some (result.0.now, result.1.now) }
    {
        match self.node.kind() {
            NodeKind::Leaf(rows) => rows.get(place),
            NodeKind::Inner { .. } => unreachable!(),
        }
    }

    /// The number of messages in the buffer of an inner node, or 0 for a leaf.
    pub fn message_count(&self) -> u128
        ensures { result ≡ length (walk.messages_of self.now) }
    {
        match self.node.kind() {
            NodeKind::Leaf(_) => 0,
            NodeKind::Inner { bins, .. } => bins.total(),
        }
    }

    /// The messages in the buffer of an inner node with their keys, in order. A leaf has none.
    pub fn messages(&self) -> BufferMessages<'a, V>
        ensures { result ≡ walk.messages_of self.now }
    {
        let NodeKind::Inner { bins, .. } = self.node.kind() else {
            return BufferMessages::none();
        };
        bins.iter()
    }

    /// The number of children of an inner node, or 0 for a leaf.
    pub fn child_count(&self) -> usize
        ensures { result ≡ length (walk.children_of self.now) }
    {
        match self.node.kind() {
            NodeKind::Leaf(_) => 0,
            NodeKind::Inner { children, .. } => children.len(),
        }
    }

    /// A child, counted from 0.
    pub fn child(&self, place: usize) -> Walk<'a, V>
        requires { place < length (walk.children_of self.now) }
        ensures { option_map (λ x. x.1) (slice_get (walk.children_of self.now) place) ≡ Some result }
    {
        match self.node.kind() {
            NodeKind::Leaf(_) => unreachable!(),
            NodeKind::Inner { children, .. } => { Walk::new(&children.nodes()[place]) }
        }
    }

    /// The pivot before a child, counted from 0. The child isn't the first.
    pub fn pivot(&self, place: usize) -> &'a Key
        requires not_first { 0 < place }
        requires within { place < length (walk.children_of self.now) }
        ensures { option_map (λ x. x.0) (slice_get (walk.children_of self.now) place) ≡ Some result.now }
    {
        match self.node.kind() {
            NodeKind::Leaf(_) => unreachable!(),
            NodeKind::Inner { children, .. } => &children.pivots()[place - 1],
        }
    }

    /// The value at a key, when all messages in this node and below have had their effect. It is found along one path.
    pub fn get(&self, alloc: Global, key: &Key) -> Result<Option<V>, AllocError>
        requires { IsInOrder self.now }
        ensures { IfOk result (λ value. value ≡ find key_cmp key.now (holds (effect_of V.terms.merged) self.now)) }
    {
        tree_value(alloc, self.node, key)?.into_value(alloc)
    }

    /// The values at keys, when all messages in this node and below have had their effect. Neighbouring keys that belong to one
    /// child go down together, so rising keys enter each node on the way once.
    pub fn values<'k>(
        &self,
        alloc: Global,
        keys: &'k [&'k Key],
    ) -> Result<Vec<Option<V>>, AllocError>
        requires { IsInOrder self.now }
        ensures { IfOk result (λ values. values.items ≡ map (λ k. find key_cmp k.now (holds (effect_of V.terms.merged) self.now)) keys.now) }
    {
        into_values(alloc, tree_values(alloc, self.node, keys)?)
    }

    /// Shows a visitor the rows with a key at or past `from` and before `to`, when all messages in this node and below have had
    /// their effect, in rising order. An absent bound doesn't limit. Values are borrowed, or copied if an upsert changes them.
    /// Subtrees outside the bounds aren't entered. An `Err` comes from the visitor or from a failed allocation.
    pub fn visit<S: Visitor<V>>(
        &self,
        alloc: Global,
        from: Option<&Key>,
        to: Option<&Key>,
        visitor: &mut S,
    ) -> Result<(), AllocError>
        requires { IsInOrder self.now }
        ensures { OnOk result (visitor.new ≡ fold S.visited visitor.old (between (option_copied from.entry) (option_copied to.entry) (holds (effect_of V.terms.merged) self.now))) }
    {
        visit_between(alloc, self.node, from, to, visitor, RowLimit::none())
    }

    /// Shows a visitor the first rows, at most `count`, with a key at or past `from`, when all messages in this node and below have
    /// had their effect, in rising order. An absent bound doesn't limit. Values are borrowed or copied as in `visit`. Subtrees
    /// after the last row shown aren't entered. An `Err` comes from the visitor or from a failed allocation.
    pub fn visit_first<S: Visitor<V>>(
        &self,
        alloc: Global,
        from: Option<&Key>,
        count: usize,
        visitor: &mut S,
    ) -> Result<(), AllocError>
        requires { IsInOrder self.now }
        ensures { OnOk result (visitor.new ≡ fold S.visited visitor.old (take count (between (option_copied from.entry) None (holds (effect_of V.terms.merged) self.now)))) }
    {
        visit_between(alloc, self.node, from, None, visitor, RowLimit::rows(count))
    }

    /// Shows a visitor the first rows, at most `count`, with a key at or past `from` and before `to`, as `visit` shows them. Subtrees
    /// after the last row shown aren't entered. An `Err` comes from the visitor or from a failed allocation.
    pub fn visit_page<S: Visitor<V>>(
        &self,
        alloc: Global,
        from: Option<&Key>,
        to: Option<&Key>,
        count: usize,
        visitor: &mut S,
    ) -> Result<(), AllocError>
        requires { IsInOrder self.now }
        ensures { OnOk result (visitor.new ≡ fold S.visited visitor.old (take count (between (option_copied from.entry) (option_copied to.entry) (holds (effect_of V.terms.merged) self.now)))) }
    {
        visit_between(alloc, self.node, from, to, visitor, RowLimit::rows(count))
    }

    /// Copies of the rows with a key at or past `from` and before `to`, when all messages in this node and below have had their
    /// effect, in rising order. An absent bound doesn't limit. Nothing outside the bounds is copied.
    pub fn rows(
        &self,
        alloc: Global,
        from: Option<&Key>,
        to: Option<&Key>,
    ) -> Result<Vec<(Key, V)>, AllocError>
        requires { IsInOrder self.now }
        ensures rows { IfOk result (λ rows. rows.items ≡ between (option_copied from.entry) (option_copied to.entry) (holds (effect_of V.terms.merged) self.now)) }
        ensures sorted { IfOk result (λ rows. IsTrue (is_sorted key_cmp rows.items)) }
    {
        let mut copies = Copies::new(alloc);
        self.visit(alloc, from, to, &mut copies)?;
        Ok(copies.into_rows())
    }

    /// The tree in portions, which threads can read side by side: the subtrees at a depth, and leaves at a smaller depth, that
    /// overlap the bounds. Each has the messages to it from above. An absent bound doesn't limit. Nothing is copied. There are no
    /// portions if `to` is at or before `from`.
    pub fn portions(
        &self,
        alloc: Global,
        depth: usize,
        from: Option<&'a Key>,
        to: Option<&'a Key>,
    ) -> Result<Vec<Portion<'a, V>>, AllocError>
        requires { IsInOrder self.now }
        ensures rows { IfOk result (λ parts. all_rows (effect_of V.terms.merged) parts.items ≡ between (option_copied from.entry) (option_copied to.entry) (holds (effect_of V.terms.merged) self.now)) }
        ensures owners { IfOk result (λ parts. (key : Key) → owners key parts.items ≡ cond (is_between (option_copied from.entry) (option_copied to.entry) key) 1 0) }
        ensures chained { IfOk result (λ parts. (key : Key) → is_between (option_copied from.entry) (option_copied to.entry) key ≡ true → Chained (option_copied from.entry) parts.items (option_copied to.entry)) }
        ensures values { IfOk result (λ parts. (key : Key) → HaveThere (effect_of V.terms.merged) key (find key_cmp key (holds (effect_of V.terms.merged) self.now)) parts.items) }
    {
        if is_empty_range(from, to) {
            return Ok(Vec::new(alloc));
        }
        portions_at(alloc, self.node, depth, from, to)
    }
}
