//! The children of a node during a flush, side by side with their bins.
ghost use Rattle.std.specs.Prelude.{◌≡◌, ◌+◌, ◌-◌, ◌<◌, ◌≤◌, ◌++◌, ◌∷◌, [], IfOk, MatchOption, OnOk, drop, false, length, map, replicate, true, vec_capacity, vec_len};
ghost use Rattle.bt_form.specs.Children.{AreDivided, after_pivot, with_pending};
ghost use Rattle.bt_form.specs.Flushes.{gathered};

use crate::node::{Node, Siblings};
use crate::shape::LARGEST_FANOUT;
use bt_keycode::Key;
use bt_messages::{Bins, Buffer, Merge};
use std::alloc::{AllocError, Global};
use std::marker::Model;
use std::mem;
use std::vec::IntoIter;

/// The children of a node during a flush, side by side. Each has the pivot before it and its pending messages.
#[derive(Drop)]
pub struct Children<V: Merge> {
    // The pivot before the first child.
    first: Key,
    nodes: Vec<Node<V>>,
    // The pivots between the children.
    pivots: Vec<Key>,
    bins: Vec<Buffer<V>>,
}

impl<V: Merge> Model for Children<V> {
    ghost use Rattle.std.specs.Prelude.{◌≡◌, ◌-◌, ◌∷◌, List, length};
    ghost use Rattle.std.specs.Coded.{coded_list};
    ghost use Rattle.std.specs.List.{zip};
    ghost use Rattle.bt_message.specs.declared.message.Message.{Message};
    ghost use Rattle.bt_form.specs.Children.{with_pending};
    ghost use Rattle.bt_form.specs.Flushes.{Child};
    ghost use Rattle.bt_form.specs.Stored.{child_code, message_code};

    ghost Value = { List (Child V (Message V V.Delta)) };

    ghost coded = { coded_list (child_code V.code (message_code V.code V.Delta.code)) };

    ghost view = { λ c. with_pending (zip (c.first ∷ c.pivots.items) c.nodes.items) c.bins.items };

    ghost invariant = { λ c. (length c.bins.items ≡ length c.nodes.items) × (length c.pivots.items ≡ length c.nodes.items - 1) };
}

// Reserves capacity for `count` more children.
fn make_room<V: Merge>(
    nodes: &mut Vec<Node<V>>,
    pivots: &mut Vec<Key>,
    bins: &mut Vec<Buffer<V>>,
    count: usize,
) -> Result<(), AllocError>
    ensures nodes { nodes.new.items ≡ nodes.old.items }
    ensures pivots { pivots.new.items ≡ pivots.old.items }
    ensures bins { bins.new.items ≡ bins.old.items }
    ensures room_for_nodes { OnOk result (vec_len nodes.new + count ≤ vec_capacity nodes.new) }
    ensures room_for_pivots { OnOk result (vec_len pivots.new + count ≤ vec_capacity pivots.new) }
    ensures room_for_bins { OnOk result (vec_len bins.new + count ≤ vec_capacity bins.new) }
{
    nodes.reserve(count)?;
    pivots.reserve(count)?;
    bins.reserve(count)
}

// Sets the pivot before the next child, which may be the first one.
fn add_pivot(first: &mut Key, pivots: &mut Vec<Key>, begins: bool, pivot: Key)
    requires { vec_len pivots.old < vec_capacity pivots.old }
    ensures first { begins ≡ true → (first.new ≡ pivot) × (pivots.new.items ≡ pivots.old.items) }
    ensures between { begins ≡ false → (first.new ≡ first.old) × (pivots.new.items ≡ pivots.old.items ++ pivot ∷ []) }
    ensures len { vec_len pivots.new ≤ vec_len pivots.old + 1 }
    ensures capacity { vec_capacity pivots.new ≡ vec_capacity pivots.old }
{
    if begins {
        *first = pivot;
        return;
    }
    pivots.push_reserved(pivot);
}

// Appends items. The capacity suffices.
fn append_items<T: Drop>(items: Vec<T>, into: &mut Vec<T>)
    requires { vec_len into.old + length items.items ≤ vec_capacity into.old }
    ensures { into.new.items ≡ into.old.items ++ items.items }
{
    for item in items {
        into.push_reserved(item);
    }
}

// Pushes `count` buffers: `pending`, then empty ones. The capacity suffices.
fn push_bins<V: Merge>(alloc: Global, bins: &mut Vec<Buffer<V>>, pending: Buffer<V>, count: usize)
    requires some { 1 ≤ count }
    requires room { vec_len bins.old + count ≤ vec_capacity bins.old }
    ensures { bins.new.items ≡ bins.old.items ++ pending ∷ replicate (count - 1) [] }
{
    bins.push_reserved(pending);
    for _ in 1..count {
        bins.push_reserved(Buffer::new(alloc));
    }
}

impl<V: Merge> Children<V> {
    /// No children, with capacity for this many.
    pub fn with_capacity(alloc: Global, count: usize) -> Result<Self, AllocError>
        ensures { IfOk result (λ children. children ≡ []) }
    {
        let nodes = Vec::with_capacity(alloc, count)?;
        let pivots = Vec::with_capacity(alloc, count.saturating_sub(1))?;
        let bins = Vec::with_capacity(alloc, count)?;
        Ok(Children {
            first: Key::new(),
            nodes,
            pivots,
            bins,
        })
    }

    /// Siblings with their bins. Allocates nothing.
    pub fn with_pending(siblings: Siblings<V>, bins: Bins<V>) -> Self
        requires { length bins ≡ length siblings }
        ensures { result ≡ with_pending siblings bins }
    {
        let (nodes, pivots) = siblings.apart();
        Children {
            first: Key::new(),
            nodes,
            pivots,
            bins: bins.into_buffers(),
        }
    }

    /// The number of children.
    pub fn len(&self) -> usize
        ensures { result ≡ length self.now }
    {
        self.nodes.len()
    }

    /// Adds a child with its pivot and its pending messages.
    pub fn push(&mut self, pivot: Key, node: Node<V>, pending: Buffer<V>) -> Result<(), AllocError>
        ensures { OnOk result (self.new ≡ self.old ++ record { pivot = pivot; tree = node; pending = pending } ∷ []) }
    {
        make_room(&mut self.nodes, &mut self.pivots, &mut self.bins, 1)?;
        let begins = self.nodes.is_empty();
        add_pivot(&mut self.first, &mut self.pivots, begins, pivot);
        self.nodes.push_reserved(node);
        self.bins.push_reserved(pending);
        Ok(())
    }

    /// Adds the siblings that replace a child. The first of them gets the pivot of the child and its pending messages.
    pub fn append(
        &mut self,
        alloc: Global,
        pivot: Key,
        siblings: Siblings<V>,
        pending: Buffer<V>,
    ) -> Result<(), AllocError>
        ensures { OnOk result (self.new ≡ self.old ++ after_pivot pivot pending siblings) }
    {
        let (nodes, pivots) = siblings.apart();
        let count = nodes.len();
        make_room(&mut self.nodes, &mut self.pivots, &mut self.bins, count)?;
        let begins = self.nodes.is_empty();
        add_pivot(&mut self.first, &mut self.pivots, begins, pivot);
        append_items(nodes, &mut self.nodes);
        append_items(pivots, &mut self.pivots);
        push_bins(alloc, &mut self.bins, pending, count);
        Ok(())
    }

    /// One inner node over all children, and the pivot before the first of them. Allocates nothing.
    pub fn into_node(self) -> (Key, Node<V>)
        requires some { 1 ≤ length self }
        requires few { length self ≤ LARGEST_FANOUT }
        requires divided { AreDivided self }
        ensures { (result.0, result.1) ≡ gathered self }
    {
        let Children {
            first,
            nodes,
            pivots,
            bins,
        } = self;
        let children = Siblings::from_parts(nodes, pivots);
        (first, Node::inner(children, Bins::from_buffers(bins)))
    }

    /// The nodes, the pivots between them, and the pending messages of each.
    pub fn apart(self) -> (Vec<Node<V>>, Vec<Key>, Vec<Buffer<V>>)
        ensures nodes { result.0.items ≡ map (λ c. c.tree) self }
        ensures pivots { result.1.items ≡ map (λ c. c.pivot) (drop 1 self) }
        ensures bins { result.2.items ≡ map (λ c. c.pending) self }
    {
        let Children {
            first: _first,
            nodes,
            pivots,
            bins,
        } = self;
        (nodes, pivots, bins)
    }

    /// An iterator over the children.
    pub fn into_iter(self) -> ChildIterator<V>
        ensures { result ≡ self }
    {
        let Children {
            first,
            nodes,
            pivots,
            bins,
        } = self;
        ChildIterator {
            pivot: first,
            nodes: nodes.into_iter(),
            pivots: pivots.into_iter(),
            bins: bins.into_iter(),
        }
    }
}

/// Children taken one by one, each with the pivot before it and its pending messages.
#[derive(Drop)]
pub struct ChildIterator<V: Merge> {
    // The pivot before the next child.
    pivot: Key,
    nodes: IntoIter<Node<V>>,
    pivots: IntoIter<Key>,
    bins: IntoIter<Buffer<V>>,
}

impl<V: Merge> Model for ChildIterator<V> {
    ghost use Rattle.std.specs.Prelude.{◌≡◌, ◌+◌, ◌≤◌, ◌∷◌, List, length};
    ghost use Rattle.std.specs.Coded.{coded_list};
    ghost use Rattle.std.specs.List.{zip};
    ghost use Rattle.std.specs.Vec.Iter.{into_iter_items};
    ghost use Rattle.bt_message.specs.declared.message.Message.{Message};
    ghost use Rattle.bt_form.specs.Children.{with_pending};
    ghost use Rattle.bt_form.specs.Flushes.{Child};
    ghost use Rattle.bt_form.specs.Stored.{child_code, message_code};

    ghost Value = { List (Child V (Message V V.Delta)) };

    ghost coded = { coded_list (child_code V.code (message_code V.code V.Delta.code)) };

    ghost view = { λ c. with_pending (zip (c.pivot ∷ into_iter_items c.pivots) (into_iter_items c.nodes)) (into_iter_items c.bins) };

    ghost invariant = { λ c. (length (into_iter_items c.bins) ≡ length (into_iter_items c.nodes)) × (length (into_iter_items c.nodes) ≤ length (into_iter_items c.pivots) + 1) };
}

impl<V: Merge> ChildIterator<V> {
    /// The next child, with the pivot before it and its pending messages.
    pub fn next(&mut self) -> Option<(Key, Node<V>, Buffer<V>)>
        ensures { MatchOption result (self.old ≡ []) (λ c. self.old ≡ record { pivot = c.0; tree = c.1; pending = c.2 } ∷ self.new) }
    {
        let node = self.nodes.next()?;
        // Each node has a bin, so the bins don't end before the nodes.
        let Some(pending) = self.bins.next() else {
            unreachable!()
        };
        let following = match self.pivots.next() {
            Some(key) => key,
            None => Key::new(),
        };
        let pivot = mem::replace(&mut self.pivot, following);
        Some((pivot, node, pending))
    }
}
