//! Nodes, and nodes side by side.
//!
//! ```text
//!                  bins:   5 put |       | 9 del, 9 ups
//!     inner        pivots:       6       9
//!                  nodes:    a   |   b   |   c
//!                            /        |        \
//!     leaves             1 3 5       6 8       9 12
//! ```
//!
//! A key belongs to the node after the last pivot that is at most the key, or to the first node if there is none. Siblings are one node or
//! more, with one pivot fewer than nodes. An inner node holds its children as siblings, and a bin for each: the messages that are pending
//! for that child. A contract sees siblings as a list of nodes, each with the pivot before it and the first with the empty key. It sees the
//! bins, one after the other, as the buffer of the node.
ghost use Rattle.std.specs.Prelude.{◌≡◌, ◌∷◌, ◌++◌, ◌+◌, ◌≤◌, [], IfOk, OnOk, MatchOption, length, map, drop};
ghost use Rattle.bt_form.specs.Fits.{IsLed};
ghost use Rattle.bt_form.specs.Flushes.{pivot_first};
ghost use Rattle.bt_form.specs.Parts.{AreRising, IsApart};
ghost use Rattle.bt_form.specs.Trees.{pivots_of, with_pivots};
ghost use Rattle.bt_form.specs.Trees as trees;
ghost use Rattle.bt_form.specs.inside.NodeKinds.{HasBins, HasFew, tree_of};
ghost use Rattle.bt_value.specs.Lists.{concatenation};
ghost use Rattle.bt_messages.specs.Bins.{LieBetween};

use crate::rows::Rows;
use crate::shape::LARGEST_FANOUT;
use bt_keycode::Key;
use bt_messages::{Bins, Buffer, Merge};
use std::alloc::{AllocError, Global};
use std::marker::Model;
use std::mem;
use std::vec::IntoIter;

/// A node with everything below it. A contract sees the tree that it represents.
#[cycle(nodes)]
#[derive(Drop)]
pub struct Node<V: Merge> {
    kind: NodeKind<V>,
}

/// The content of a node: rows, or children with a bin of pending messages for each.
#[cycle(nodes)]
#[derive(Drop)]
pub enum NodeKind<V: Merge> {
    Leaf(Rows<V>),
    Inner {
        children: Siblings<V>,
        bins: Bins<V>,
    },
}

/// Nodes side by side, with a pivot between neighbours.
#[cycle(nodes)]
#[derive(Drop)]
pub struct Siblings<V: Merge> {
    nodes: Vec<Node<V>>,
    pivots: Vec<Key>,
}

/// The parts of a node: a leaf is one part, an inner node has its children and their bins.
#[derive(Drop)]
pub enum Parts<V: Merge> {
    Leaf(Node<V>),
    Inner {
        children: Siblings<V>,
        bins: Bins<V>,
    },
}

impl<V: Merge> Model for Node<V> {
    ghost use Rattle.std.specs.Prelude.{◌*◌};
    ghost use Rattle.bt_message.specs.declared.message.Message.{Message};
    ghost use Rattle.bt_form.specs.Trees as trees;
    ghost use Rattle.bt_form.specs.Stored.{message_code, tree_code};

    ghost Value = { trees.Tree V (Message V V.Delta) };

    ghost coded = { tree_code V.code (message_code V.code V.Delta.code) };

    ghost use Rattle.bt_form.specs.inside.NodeKinds.{tree_of};

    ghost view = { λ n. tree_of n.kind };

    ghost use Rattle.bt_form.specs.inside.NodeKinds.{HasBins, HasFew};

    ghost invariant = { λ n. HasBins n.kind × HasFew n.kind };

    ghost size = { λ t. 2 * trees.height t };

    ghost use Rattle.bt_form.specs.inside.Falls.{below_node};

    ghost size_decreases = { λ n h. below_node V.Merge n.kind };
}

impl<V: Merge> Model for Siblings<V> {
    ghost use Rattle.std.specs.Prelude.{◌*◌, ◌+◌, ◌≡◌, length};
    ghost use Rattle.std.specs.Coded.{coded×, coded_list, coded_ℕ};
    ghost use Rattle.bt_message.specs.declared.message.Message.{Message};
    ghost use Rattle.bt_form.specs.Trees as trees;
    ghost use Rattle.bt_form.specs.Trees.{with_pivots};
    ghost use Rattle.bt_form.specs.Stored.{message_code, tree_code};

    ghost Value = { trees.Siblings V (Message V V.Delta) };

    ghost coded = { coded_list (coded× (coded_list coded_ℕ) (tree_code V.code (message_code V.code V.Delta.code))) };

    ghost view = { λ s. with_pivots s.pivots.items s.nodes.items };

    ghost invariant = { λ s. length s.nodes.items ≡ length s.pivots.items + 1 };

    ghost size = { λ xs. 2 * trees.height_below (trees.nodes xs) + 1 };

    ghost use Rattle.bt_form.specs.inside.Falls.{below_siblings};

    ghost size_decreases = { λ s h. below_siblings s.pivots.items s.nodes.items h };
}

impl<V: Merge> Node<V> {
    pub fn leaf(rows: Rows<V>) -> Self
        ensures { result ≡ trees.leaf rows }
    {
        Node {
            kind: NodeKind::Leaf(rows),
        }
    }

    pub fn inner(children: Siblings<V>, bins: Bins<V>) -> Self
        requires divided { LieBetween (pivots_of children) bins }
        requires few { length children ≤ LARGEST_FANOUT }
        ensures { result ≡ trees.inner (trees.nodes children) (concatenation bins) }
    {
        Node {
            kind: NodeKind::Inner { children, bins },
        }
    }

    pub fn kind(&self) -> &NodeKind<V>
        ensures tree { self.now ≡ tree_of result.now }
        ensures divided { HasBins result.now }
    {
        &self.kind
    }

    pub fn into_kind(self) -> NodeKind<V>
        ensures tree { self ≡ tree_of result }
        ensures divided { HasBins result }
        ensures few { HasFew result }
    {
        let Node { kind } = self;
        kind
    }

    /// The children of an inner node and their bins. A leaf is returned as it is.
    pub fn apart(self) -> Parts<V>
        ensures { IsApart self result }
    {
        match self.into_kind() {
            NodeKind::Leaf(rows) => Parts::Leaf(Node::leaf(rows)),
            NodeKind::Inner { children, bins } => Parts::Inner { children, bins },
        }
    }
}

impl<V: Merge> Siblings<V> {
    pub fn from_parts(nodes: Vec<Node<V>>, pivots: Vec<Key>) -> Self
        requires { length nodes.items ≡ length pivots.items + 1 }
        ensures { result ≡ with_pivots pivots.items nodes.items }
    {
        Siblings { nodes, pivots }
    }

    /// Nodes with a pivot between neighbours.
    pub fn new(nodes: Vec<Node<V>>, pivots: Vec<Key>) -> Self
        requires one_fewer { length nodes.items ≡ length pivots.items + 1 }
        requires rising { AreRising pivots.items }
        ensures { result ≡ with_pivots pivots.items nodes.items }
    {
        Siblings::from_parts(nodes, pivots)
    }

    /// The nodes, and the pivots between them.
    pub fn apart(self) -> (Vec<Node<V>>, Vec<Key>)
        ensures parts { self ≡ with_pivots result.1.items result.0.items }
        ensures one_fewer { length result.0.items ≡ length result.1.items + 1 }
    {
        let Siblings { nodes, pivots } = self;
        (nodes, pivots)
    }

    /// One node, with capacity for `count` nodes in all.
    pub fn with_capacity(alloc: Global, node: Node<V>, count: usize) -> Result<Self, AllocError>
        ensures { IfOk result (λ siblings. siblings ≡ ([], node) ∷ []) }
    {
        let mut nodes = Vec::with_capacity(alloc, count)?;
        nodes.push(node)?;
        let pivots = Vec::with_capacity(alloc, count.saturating_sub(1))?;
        Ok(Siblings { nodes, pivots })
    }

    /// Adds a node with the pivot before it.
    pub fn push(&mut self, pivot: Key, node: Node<V>) -> Result<(), AllocError>
        ensures { OnOk result (self.new ≡ self.old ++ (pivot, node) ∷ []) }
    {
        self.nodes.reserve(1)?;
        self.pivots.reserve(1)?;
        self.nodes.push_reserved(node);
        self.pivots.push_reserved(pivot);
        Ok(())
    }

    pub fn len(&self) -> usize
        ensures count { result ≡ length self.now }
        ensures some { 1 ≤ result }
        ensures led { IsLed self.now }
    {
        self.nodes.len()
    }

    pub fn nodes(&self) -> &[Node<V>]
        ensures { result.now ≡ map (λ x. x.1) self.now }
    {
        self.nodes.as_slice()
    }

    /// The pivots between the nodes.
    pub fn pivots(&self) -> &[Key]
        ensures pivots { result.now ≡ map (λ x. x.0) (drop 1 self.now) }
        ensures some { 1 ≤ length self.now }
    {
        self.pivots.as_slice()
    }

    /// The only node.
    pub fn into_only(self) -> Node<V>
        requires { length self ≡ 1 }
        ensures { self ≡ ([], result) ∷ [] }
    {
        let Siblings {
            mut nodes,
            pivots: _pivots,
        } = self;
        match nodes.pop() {
            Some(node) => node,
            None => unreachable!(),
        }
    }
}
