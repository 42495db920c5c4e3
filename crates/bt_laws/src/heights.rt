//! The height of trees.
ghost use Rattle.bt_message.specs.Weights.{weigh_of};
ghost use Rattle.bt_message.specs.declared.message.Message.{Message};
ghost use Rattle.bt_form.specs.Fits.{HasShape};
ghost use Rattle.bt_form.specs.Trees.{Shape, Tree};
ghost use Rattle.bt_laws.specs.Heights.{HasFewLevels, HasManyLeaves};

use bt_messages::Merge;

/// A tree that fits its shape, as each `Tree` does, has few levels for its number of leaves: each inner node has two or more children, and all leaves are at
/// the same depth.
///
/// A leaf takes at least two bytes of memory, so there are fewer than 2^63 leaves in the 2^64 bytes of a 64-bit address space. Such a tree has at most 63
/// levels.
pub fn tree_height<V: Merge>()
    ensures leaves { (shape : Shape) (tree : Tree V (Message V V.Delta)) → HasShape (weigh_of V.terms) shape tree → HasManyLeaves tree }
    ensures levels { (shape : Shape) (tree : Tree V (Message V V.Delta)) → HasShape (weigh_of V.terms) shape tree → HasFewLevels tree }
{}
