//! Trees in pieces.
//!
//! ```text
//!                  bins:     -   | 9 put |   -
//!     opened       pivots:       6       9
//!                  children: a   |   b   |   c
//!                            /       |       \
//!                        hole at   whole   hole at
//!                          [0]               [2]
//! ```
//!
//! A node is whole if no message went down to it, or if it had room for all its messages. If a node was moved out, a hole gives its place. An
//! inner node with holes below it is opened: it keeps its children, the pivots between them, and the messages that are left in their bins. A
//! contract sees the bins, one after the other, as the buffer of the node.
ghost use Rattle.std.specs.Prelude.{◌≡◌, ◌+◌, length};
ghost use Rattle.bt_value.specs.Lists.{concatenation};
ghost use Rattle.bt_messages.specs.Bins.{LieBetween};
ghost use Rattle.bt_form.specs.Trees.{with_pivots};
ghost use Rattle.bt_plan.specs.Pieces as pieces;
ghost use Rattle.bt_plan.specs.Views.{HasPivotsAndBins, holed_of, node_place};

use crate::job::Place;
use bt_keycode::Key;
use bt_messages::{Bins, Merge};
use bt_node::{Node, Shape};
use std::marker::Model;

/// A node of a tree in pieces, with everything below it. A contract sees the tree in pieces that it represents.
#[cycle(pieces)]
#[derive(Drop)]
pub struct HoledNode<V: Merge> {
    parts: HoledParts<V>,
}

/// The parts of a node of a tree in pieces.
#[cycle(pieces)]
#[derive(Drop)]
pub enum HoledParts<V: Merge> {
    /// A node that stays, with everything below it.
    Whole(Node<V>),
    /// The place of a node that was moved out.
    Hole(Place),
    /// An inner node that stays, with holes below it.
    Opened {
        children: Vec<HoledNode<V>>,
        pivots: Vec<Key>,
        bins: Bins<V>,
    },
}

impl<V: Merge> Model for HoledNode<V> {
    ghost use Rattle.bt_message.specs.declared.message.Message.{Message};
    ghost use Rattle.bt_plan.specs.Pieces as pieces;
    ghost use Rattle.bt_plan.specs.inside.Stored.{holed_code};

    ghost Value = { pieces.Holed V (Message V V.Delta) pieces.Place };

    ghost coded = { holed_code V.code V.Delta.code };

    ghost use Rattle.bt_plan.specs.Views.{holed_of};

    ghost view = { λ n. holed_of n.parts };

    ghost use Rattle.bt_plan.specs.Views.{HasPivotsAndBins};

    ghost invariant = { λ n. HasPivotsAndBins n.parts };

    ghost use Rattle.bt_plan.specs.DepthBounds.{depth_bound};

    ghost size = { depth_bound };

    ghost use Rattle.bt_plan.specs.inside.Falls.{below_node};

    ghost size_decreases = { λ n h. below_node V.Merge n.parts h };
}

impl<V: Merge> HoledNode<V> {
    /// A node that stays, with everything below it.
    pub(crate) fn whole(node: Node<V>) -> Self
        ensures { result ≡ pieces.whole node }
    {
        HoledNode {
            parts: HoledParts::Whole(node),
        }
    }

    /// A hole in the place of a node.
    pub(crate) fn hole(place: Place) -> Self
        ensures { result ≡ pieces.hole (node_place place) }
    {
        HoledNode {
            parts: HoledParts::Hole(place),
        }
    }

    /// An inner node that stays, with holes below it.
    pub(crate) fn opened(children: Vec<HoledNode<V>>, pivots: Vec<Key>, bins: Bins<V>) -> Self
        requires one_fewer { length children.items ≡ length pivots.items + 1 }
        requires divided { LieBetween pivots.items bins }
        ensures { result ≡ pieces.opened (pieces.holed_nodes (with_pivots pivots.items children.items)) (concatenation bins) }
    {
        HoledNode {
            parts: HoledParts::Opened {
                children,
                pivots,
                bins,
            },
        }
    }

    /// A reference to the parts of the node.
    pub fn parts(&self) -> &HoledParts<V>
        ensures parts { self.now ≡ holed_of result.now }
        ensures divided { HasPivotsAndBins result.now }
    {
        &self.parts
    }

    /// The parts of the node.
    pub fn into_parts(self) -> HoledParts<V>
        ensures parts { self ≡ holed_of result }
        ensures divided { HasPivotsAndBins result }
    {
        let HoledNode { parts } = self;
        parts
    }
}

/// A tree in pieces, with its shape. A contract sees both.
#[derive(Drop)]
pub struct Holed<V: Merge> {
    shape: Shape,
    root: HoledNode<V>,
}

impl<V: Merge> Model for Holed<V> {
    ghost use Rattle.bt_message.specs.declared.message.Message.{Message};
    ghost use Rattle.bt_form.specs.Trees as trees;
    ghost use Rattle.bt_plan.specs.Pieces as pieces;
    ghost use Rattle.bt_plan.specs.inside.Stored.{shaped_holed_code};

    ghost Value = { trees.Shape × pieces.Holed V (Message V V.Delta) pieces.Place };

    ghost coded = { shaped_holed_code V.code V.Delta.code };

    ghost view = { λ h. (h.shape, h.root) };
}

impl<V: Merge> Holed<V> {
    pub(crate) fn new(shape: Shape, root: HoledNode<V>) -> Self
        ensures { result ≡ (shape, root) }
    {
        Holed { shape, root }
    }

    /// The sizes that its nodes may have.
    pub fn shape(&self) -> Shape
        ensures { result ≡ self.now.0 }
    {
        self.shape
    }

    /// A reference to the root.
    pub fn root(&self) -> &HoledNode<V>
        ensures { result.now ≡ self.now.1 }
    {
        &self.root
    }

    /// The shape and the root.
    pub fn apart(self) -> (Shape, HoledNode<V>)
        ensures shape { result.0 ≡ self.0 }
        ensures root { result.1 ≡ self.1 }
    {
        let Holed { shape, root } = self;
        (shape, root)
    }
}
