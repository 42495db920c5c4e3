//! Trees, and how they take packets.
ghost use Rattle.std.specs.Prelude.{◌≡◌, [], IfOk, IsTrue, length};
ghost use Rattle.std.specs.FinMap.{find, is_sorted};
ghost use Rattle.bt_keycode.specs.Keys.{key_cmp};
ghost use Rattle.bt_message.specs.Effects.{effect_of};
ghost use Rattle.bt_message.specs.Meanings.{meaning_of};
ghost use Rattle.bt_message.specs.Weights.{weigh_of};
ghost use Rattle.bt_message.specs.declared.message.Message.{Message};
ghost use Rattle.bt_flush.specs.Drains.{AreDry, IsDry, drain, drained, packed, rebuilt};
ghost use Rattle.bt_form.specs.Fits.{AreFit, HasShape, IsInOrder};
ghost use Rattle.bt_form.specs.Flushes.{absorb, crown, flush_in, holds, sunk};
ghost use Rattle.bt_flush.specs.Laws.{ChosenArePlanned, ComeByOneRule, FitThere, FlushesInTurn, HoldRowsAfter, HoldsAfter, HoldsAll, HoldsTheSame, KeepHeight, StandsAbove, StayWithoutPacket};
ghost use Rattle.bt_form.specs.Messages.{Rows as RowsOf};
ghost use Rattle.bt_form.specs.Trees.{leaf, nodes};
ghost use Rattle.bt_form.specs.inside.Flushing.{IsReady};

use bt_flush::{crown_node, flush, leaves, source_leaves};
use bt_form::{Mode, Node, RowSource, Rows, Shape, Siblings};
use bt_keycode::Key;
use bt_messages::{Merge, Packet};
use bt_read::Walk;
use std::alloc::{AllocError, Global};
use std::marker::Model;

/// A tree with its shape. A contract sees the shape and the tree that the root represents, which fits the shape.
#[derive(Drop)]
pub struct Tree<V: Merge> {
    shape: Shape,
    root: Node<V>,
}

impl<V: Merge> Model for Tree<V> {
    ghost use Rattle.bt_message.specs.Weights.{weigh_of};
    ghost use Rattle.bt_message.specs.declared.message.Message.{Message};
    ghost use Rattle.bt_form.specs.Trees as trees;
    ghost use Rattle.bt_form.specs.Fits.{HasShape};
    ghost use Rattle.bt_form.specs.Stored.{message_code, shaped_tree_code};

    ghost Value = { trees.Shape × trees.Tree V (Message V V.Delta) };

    ghost coded = { shaped_tree_code V.code (message_code V.code V.Delta.code) };

    ghost view = { λ t. (t.shape, t.root) };

    ghost invariant = { λ t. HasShape (weigh_of V.terms) t.shape t.root };
}

// Flushes a packet into a node in a mode, on the caller's thread.
fn flush_packet<V: Merge>(
    alloc: Global,
    shape: Shape,
    mode: Mode,
    node: Node<V>,
    packet: Packet<V>,
) -> Result<Siblings<V>, AllocError>
    requires ready { IsReady mode node }
    ensures siblings { IfOk result (λ siblings. siblings ≡ flush_in (meaning_of V.terms) mode shape node packet) }
    ensures fits { IfOk result (FitThere (weigh_of V.terms) shape node packet) }
    ensures height { IfOk result (KeepHeight (weigh_of V.terms) shape node packet) }
    ensures rows { IfOk result (HoldRowsAfter (meaning_of V.terms) shape node packet) }
    ensures one_rule { IfOk result (ComeByOneRule (meaning_of V.terms) shape node packet mode) }
{
    let mut stream = packet.into_stream();
    let count = stream.len();
    let nodes = flush(alloc, shape, mode, node, &mut stream, count)?;
    Ok(nodes)
}

/// Flushes a packet into a node whose keys are in order, on the caller's thread. Returns the nodes that replace it. An `Err` drops
/// both.
pub fn absorb_alone<V: Merge>(
    alloc: Global,
    shape: Shape,
    node: Node<V>,
    packet: Packet<V>,
) -> Result<Siblings<V>, AllocError>
    requires in_order { IsInOrder node }
    ensures siblings { IfOk result (λ siblings. siblings ≡ absorb (meaning_of V.terms) shape node packet) }
    ensures fits { IfOk result (FitThere (weigh_of V.terms) shape node packet) }
    ensures height { IfOk result (KeepHeight (weigh_of V.terms) shape node packet) }
    ensures rows { IfOk result (HoldRowsAfter (meaning_of V.terms) shape node packet) }
    ensures unchanged { IfOk result (StayWithoutPacket (weigh_of V.terms) shape node packet) }
    ensures one_rule { IfOk result (ComeByOneRule (meaning_of V.terms) shape node packet Mode.Absorb) }
    ensures in_turn { FlushesInTurn V (weigh_of V.terms) }
    ensures planned { ChosenArePlanned V (weigh_of V.terms) }
{
    let nodes = flush_packet(alloc, shape, Mode::Absorb, node, packet)?;
    Ok(nodes)
}

/// Flushes a packet into a node, and all messages down to the leaves, on the caller's thread. Returns the nodes that replace it.
/// Leaves without rows stay. An `Err` drops both.
pub fn drain_alone<V: Merge>(
    alloc: Global,
    shape: Shape,
    node: Node<V>,
    packet: Packet<V>,
) -> Result<Siblings<V>, AllocError>
    ensures siblings { IfOk result (λ siblings. siblings ≡ drain (meaning_of V.terms) shape node packet) }
    ensures fits { IfOk result (FitThere (weigh_of V.terms) shape node packet) }
    ensures height { IfOk result (KeepHeight (weigh_of V.terms) shape node packet) }
    ensures rows { IfOk result (HoldRowsAfter (meaning_of V.terms) shape node packet) }
    ensures dry { IfOk result (λ siblings. AreDry (nodes siblings)) }
    ensures one_rule { IfOk result (ComeByOneRule (meaning_of V.terms) shape node packet Mode.Drain) }
{
    let nodes = flush_packet(alloc, shape, Mode::Drain, node, packet)?;
    Ok(nodes)
}

/// The tree whose root is the crown of these siblings, with the same rows. An `Err` drops the siblings.
#[tactic(auto, using(crate::proofs::lemmas::crowns::ShapedTrees::crown_has_shape))]
pub fn crown<V: Merge>(
    alloc: Global,
    shape: Shape,
    siblings: Siblings<V>,
) -> Result<Tree<V>, AllocError>
    requires { AreFit (weigh_of V.terms) shape siblings }
    ensures tree { IfOk result (λ tree. tree ≡ (shape, crown shape siblings)) }
    ensures fits { IfOk result (λ tree. HasShape (weigh_of V.terms) tree.0 tree.1) }
    ensures rows { IfOk result (λ tree. HoldsAll (effect_of V.terms.merged) siblings tree.1) }
    ensures stands { IfOk result (λ tree. StandsAbove shape siblings tree.1) }
{
    let root = crown_node(alloc, shape, siblings)?;
    Ok(Tree { shape, root })
}

/// A tree of these rows, without messages. They are dealt into leaves, and the leaves under inner nodes, in time linear in the
/// number of rows. Rows are moved, never copied, except the smallest key of a leaf, which is copied for its pivot. An `Err` drops
/// the rows.
pub fn pack<V: Merge>(
    alloc: Global,
    shape: Shape,
    rows: Vec<(Key, V)>,
) -> Result<Tree<V>, AllocError>
    requires { IsTrue (is_sorted key_cmp rows.items) }
    ensures tree { IfOk result (λ tree. tree ≡ (shape, packed shape rows.items)) }
    ensures fits { IfOk result (λ tree. HasShape (weigh_of V.terms) tree.0 tree.1) }
    ensures rows { IfOk result (λ tree. holds (effect_of V.terms.merged) tree.1 ≡ rows.items) }
    ensures dry { IfOk result (λ tree. IsDry tree.1) }
{
    let siblings = leaves(alloc, shape, Rows::from_sorted(rows))?;
    Ok(crown(alloc, shape, siblings)?)
}

/// The tree that [`pack`] builds, from `count` rows that come one at a time. Each row moves into its leaf at once, so there is no list of all
/// rows.
pub fn pack_source<V: Merge, S: RowSource<V>>(
    alloc: Global,
    shape: Shape,
    count: usize,
    rows: S,
) -> Result<Tree<V>, AllocError>
    requires counted { count ≡ length (S.left rows) }
    requires sorted { IsTrue (is_sorted key_cmp (S.left rows)) }
    ensures tree { IfOk result (λ tree. tree ≡ (shape, packed shape (S.left rows))) }
    ensures fits { IfOk result (λ tree. HasShape (weigh_of V.terms) tree.0 tree.1) }
    ensures rows { IfOk result (λ tree. holds (effect_of V.terms.merged) tree.1 ≡ S.left rows) }
    ensures dry { IfOk result (λ tree. IsDry tree.1) }
{
    let siblings = source_leaves(alloc, shape, count, rows)?;
    Ok(crown(alloc, shape, siblings)?)
}

impl<V: Merge> Tree<V> {
    /// A tree of one leaf without rows.
    pub fn empty(alloc: Global, shape: Shape) -> Self
        ensures { result ≡ (shape, leaf []) }
    {
        Tree {
            shape,
            root: Node::leaf(Rows::new(alloc)),
        }
    }

    /// The sizes that its nodes may have.
    pub fn shape(&self) -> Shape
        ensures { result ≡ self.now.0 }
    {
        self.shape
    }

    /// The value at a key when all messages have had their effect.
    pub fn get(&self, alloc: Global, key: &Key) -> Result<Option<V>, AllocError>
        ensures { IfOk result (λ value. value ≡ find key_cmp key.now (holds (effect_of V.terms.merged) self.now.1)) }
    {
        self.walk().get(alloc, key)
    }

    /// The pairs of a key and a value, when all messages have had their effect, in rising order.
    pub fn rows(&self, alloc: Global) -> Result<Vec<(Key, V)>, AllocError>
        ensures held { IfOk result (λ rows. rows.items ≡ holds (effect_of V.terms.merged) self.now.1) }
        ensures sorted { IfOk result (λ rows. IsTrue (is_sorted key_cmp rows.items)) }
    {
        self.walk().rows(alloc, None, None)
    }

    /// The shape and the root.
    pub fn apart(self) -> (Shape, Node<V>)
        ensures shape { result.0 ≡ self.0 }
        ensures root { result.1 ≡ self.1 }
        ensures fits { HasShape (weigh_of V.terms) result.0 result.1 }
    {
        let Tree { shape, root } = self;
        (shape, root)
    }

    /// The tree after a packet, on the caller's thread. An `Err` drops both.
    pub fn sink(self, alloc: Global, packet: Packet<V>) -> Result<Self, AllocError>
        ensures tree { IfOk result (λ tree. tree ≡ (self.0, sunk (meaning_of V.terms) self.0 self.1 packet)) }
        ensures fits { IfOk result (λ tree. HasShape (weigh_of V.terms) tree.0 tree.1) }
        ensures rows { IfOk result (λ tree. HoldsAfter (effect_of V.terms.merged) self.1 packet tree.1) }
        ensures unchanged { packet ≡ [] → IfOk result (λ tree. tree ≡ self) }
    {
        let (shape, root) = self.apart();
        let siblings = absorb_alone(alloc, shape, root, packet)?;
        Ok(crown(alloc, shape, siblings)?)
    }

    /// The tree after all its messages have gone down to the leaves, on the caller's thread. Leaves without rows stay. An `Err`
    /// drops the tree.
    pub fn drain(self, alloc: Global) -> Result<Self, AllocError>
        ensures tree { IfOk result (λ tree. tree ≡ (self.0, drained (meaning_of V.terms) self.0 self.1)) }
        ensures fits { IfOk result (λ tree. HasShape (weigh_of V.terms) tree.0 tree.1) }
        ensures rows { IfOk result (λ tree. HoldsTheSame (effect_of V.terms.merged) self.1 tree.1) }
        ensures dry { IfOk result (λ tree. IsDry tree.1) }
    {
        let (shape, root) = self.apart();
        let siblings = drain_alone(alloc, shape, root, Packet::new(alloc))?;
        Ok(crown(alloc, shape, siblings)?)
    }

    /// A new tree, packed from copies of the rows of this one, on the caller's thread. This tree stays as it is, also after an
    /// `Err`.
    pub fn rebuild(&self, alloc: Global) -> Result<Self, AllocError>
        ensures tree { IfOk result (λ tree. tree ≡ (self.now.0, rebuilt (effect_of V.terms.merged) self.now.0 self.now.1)) }
        ensures fits { IfOk result (λ tree. HasShape (weigh_of V.terms) tree.0 tree.1) }
        ensures rows { IfOk result (λ tree. HoldsTheSame (effect_of V.terms.merged) self.now.1 tree.1) }
        ensures dry { IfOk result (λ tree. IsDry tree.1) }
    {
        let rows = self.rows(alloc)?;
        Ok(pack(alloc, self.shape(), rows)?)
    }

    /// A reference to the root, through which the tree is read.
    pub fn walk(&self) -> Walk<'_, V>
        ensures root { result ≡ self.now.1 }
        ensures fits { HasShape (weigh_of V.terms) self.now.0 self.now.1 }
    {
        Walk::new(&self.root)
    }
}
