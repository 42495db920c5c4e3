//! The nodes that are moved out of a tree, with the messages that go down to them.
ghost use Rattle.std.specs.Prelude.{◌≡◌, ◌<◌, length};
ghost use Rattle.bt_plan.specs.Cuts.{child_place, root_place};
ghost use Rattle.bt_plan.specs.Pieces.{node_place_cmp};
ghost use Rattle.bt_plan.specs.Views.{node_place};

use arrayvec::ArrayVec;
use bt_gang::DEEPEST_CUT;
use bt_messages::{Merge, Packet};
use bt_node::{Mode, Node};
use std::cmp::Ordering;

/// The place of a node: the number of its tree, and the numbers of the children on the path from the root, before any change.
#[derive(Drop)]
pub struct Place {
    pub tree: u16,
    pub path: ArrayVec<u16, DEEPEST_CUT>,
}

impl Place {
    // The place of the root of a tree.
    pub(crate) fn root(tree: u16) -> Self
        ensures { node_place result ≡ root_place tree }
    {
        Place {
            tree,
            path: ArrayVec::new(),
        }
    }

    /// A copy of the place.
    pub fn copy(&self) -> Self
        ensures { node_place result ≡ node_place self.now }
    {
        let mut path = ArrayVec::new();
        if path.try_extend_from_slice(self.path.as_slice()).is_err() {
            unreachable!()
        }
        Place {
            tree: self.tree,
            path,
        }
    }

    /// The order of two places: by tree, and within a tree from left to right.
    pub fn compare(&self, other: &Place) -> Ordering
        ensures { result ≡ node_place_cmp (node_place self.now) (node_place other.now) }
    {
        let by_path = self.path.as_slice().cmp(other.path.as_slice());
        self.tree.cmp(&other.tree).then(by_path)
    }

    // The place of the child with this number.
    pub(crate) fn child(&self, number: u16) -> Self
        requires { length self.now.path.items < DEEPEST_CUT }
        ensures { node_place result ≡ child_place (node_place self.now) number }
    {
        let mut place = self.copy();
        place.path.push(number);
        place
    }
}

/// A node that was moved out of a tree, with the messages for it.
#[derive(Drop)]
pub struct Job<V: Merge> {
    pub place: Place,
    pub node: Node<V>,
    pub packet: Packet<V>,
    pub mode: Mode,
}
