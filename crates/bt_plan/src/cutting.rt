//! Cuts a tree: moves its flushes out of it as jobs.
ghost use Rattle.std.specs.Prelude.{◌≡◌, ◌≤◌, ◌<◌, ◌+◌, ◌++◌, ◌∷◌, [], IfOk, OnOk, cond, drop, length, map, suc, take};
ghost use Rattle.std.specs.List.{flat_map};
ghost use Rattle.bt_value.specs.Lists.{concatenation};
ghost use Rattle.bt_messages.specs.Bins.{LieBetween, each_with};
ghost use Rattle.bt_messages.specs.Parts.{parted, total};
ghost use Rattle.bt_message.specs.Meanings.{meaning_of};
ghost use Rattle.bt_messages.specs.Shares.{AreShares, IsShare, counts};
ghost use Rattle.bt_message.specs.Weights.{weigh_of};
ghost use Rattle.bt_message.specs.declared.message.Message.{Message};
ghost use Rattle.bt_form.specs.Fits.{IsSized};
ghost use Rattle.bt_form.specs.Messages.{with_messages};
ghost use Rattle.bt_form.specs.Trees.{inner, nodes, pivots_of};
ghost use Rattle.bt_plan.specs.Cuts.{cut, hole_of};
ghost use Rattle.bt_plan.specs.Laws.{FillsUp, PlacesRise, StandInHoles};
ghost use Rattle.bt_plan.specs.Pieces.{holes, with_holes};
ghost use Rattle.bt_plan.specs.Pieces as pieces;
ghost use Rattle.bt_plan.specs.Views.{IsCut, job_of, node_place};
ghost use Rattle.bt_plan.specs.inside.Cutting.{AreSizedNodes, cut_job, cut_marked, job_with, kept_bins};
ghost use Rattle.bt_plan.specs.inside.CutNodes.{cut_above, cut_loaded, job_at};

use crate::holed::{Holed, HoledNode};
use crate::job::{Job, Place};
use bt_gang::DEEPEST_CUT;
use bt_messages::{Bins, Buffer, Merge, Packet, Share, Stream};
use bt_node::{LARGEST_FANOUT, Mode, Node, Opened, Parts, Shape, Siblings, Step, Tree, open};
use std::alloc::{AllocError, Global};

// How a node or its children are cut: in which mode, how many levels above the cut, and at which place.
#[derive(Drop)]
struct Cutting {
    alloc: Global,
    shape: Shape,
    mode: Mode,
    depth: usize,
    place: Place,
}

// A packet of pending messages and the first ones of a stream, each after those of its key. If none is pending, whole runs of the
// stream go into the packet.
fn packet_of<V: Merge>(
    alloc: Global,
    pending: Buffer<V>,
    stream: &mut Stream<V>,
    count: usize,
) -> Result<Packet<V>, AllocError>
    requires { count ≤ length stream.old }
    ensures packet { IfOk result (λ packet. packet ≡ with_messages (take count stream.old) pending) }
    ensures left { OnOk result (stream.new ≡ drop count stream.old) }
{
    let _in_order = stream.len();
    if pending.is_empty() {
        return stream.take_front(alloc, count);
    }
    let mut all = pending;
    all.add_front(alloc, stream, Share::new(count))?;
    Ok(Packet::from_buffer(alloc, all))
}

// Moves a node out of its tree as a job and leaves a hole. The job has the pending messages of the node and, after those of their
// keys, the first ones of a stream.
fn move_out<V: Merge>(
    at: Cutting,
    node: Node<V>,
    pending: Buffer<V>,
    stream: &mut Stream<V>,
    count: usize,
    jobs: &mut Vec<Job<V>>,
) -> Result<HoledNode<V>, AllocError>
    requires enough { count ≤ length stream.old }
    ensures hole { IfOk result (λ hole. hole ≡ pieces.hole (node_place at.place)) }
    ensures job { OnOk result (map job_of jobs.new.items ≡ map job_of jobs.old.items ++ job_with (take count stream.old) (job_at at node pending) ∷ []) }
    ensures left { OnOk result (stream.new ≡ drop count stream.old) }
{
    let Cutting {
        alloc,
        shape: _shape,
        mode,
        depth: _depth,
        place,
    } = at;
    let packet = packet_of(alloc, pending, stream, count)?;
    let hole = HoledNode::hole(place.copy());
    jobs.push(Job {
        place,
        node,
        packet,
        mode,
    })?;
    Ok(hole)
}

// A child that isn't flushed, and its bin with its share added.
fn keep<V: Merge>(
    alloc: Global,
    node: Node<V>,
    pending: Buffer<V>,
    stream: &mut Stream<V>,
    share: Share,
) -> Result<(HoledNode<V>, Buffer<V>), AllocError>
    requires share { IsShare (weigh_of V.terms) stream.old share }
    ensures node { IfOk result (λ kept. kept.0 ≡ pieces.whole node) }
    ensures bin { IfOk result (λ kept. kept.1 ≡ with_messages (take share.count stream.old) pending) }
    ensures left { OnOk result (stream.new ≡ drop share.count stream.old) }
{
    let mut bin = pending;
    bin.add_front(alloc, stream, share)?;
    Ok((HoledNode::whole(node), bin))
}

// A child of an opened node, and the messages that are left in its bin. If it is marked, it is cut with all its pending messages.
#[cycle(cuts)]
fn cut_child<V: Merge>(
    at: Cutting,
    node: Node<V>,
    pending: Buffer<V>,
    marked: bool,
    stream: &mut Stream<V>,
    share: Share,
    jobs: &mut Vec<Job<V>>,
) -> Result<(HoledNode<V>, Buffer<V>), AllocError>
    requires sized { IsSized (weigh_of V.terms) at.shape node }
    requires path { length at.place.path.items + at.depth ≤ DEEPEST_CUT }
    requires share { IsShare (weigh_of V.terms) stream.old share }
    ensures child { IfOk result (λ cut. cut.0 ≡ with_holes hole_of (cut_marked (weigh_of V.terms) at.depth at.shape marked (job_with (take share.count stream.old) (job_at at node pending)))) }
    ensures kept { IfOk result (λ cut. cut.1 ≡ cond marked [] (with_messages (take share.count stream.old) pending)) }
    ensures jobs { OnOk result (map job_of jobs.new.items ≡ map job_of jobs.old.items ++ holes (cut_marked (weigh_of V.terms) at.depth at.shape marked (job_with (take share.count stream.old) (job_at at node pending)))) }
    ensures left { OnOk result (stream.new ≡ drop share.count stream.old) }
{
    if !marked {
        return keep(at.alloc, node, pending, stream, share);
    }
    let alloc = at.alloc;
    let node = cut_node(at, node, pending, stream, share.count, jobs)?;
    Ok((node, Buffer::new(alloc)))
}

// The children of an opened node, cut one by one, and the messages that are left in their bins.
#[cycle(cuts)]
fn cut_children<V: Merge>(
    at: &Cutting,
    nodes: Vec<Node<V>>,
    buffers: Vec<Buffer<V>>,
    marks: &[bool],
    stream: &mut Stream<V>,
    shares: &[Share],
    jobs: &mut Vec<Job<V>>,
) -> Result<(Vec<HoledNode<V>>, Bins<V>), AllocError>
    requires sized { AreSizedNodes (weigh_of V.terms) at.now.shape nodes.items }
    requires few { length nodes.items ≤ LARGEST_FANOUT }
    requires buffers { length buffers.items ≡ length nodes.items }
    requires marks { length marks.now ≡ length nodes.items }
    requires shares { length shares.now ≡ length nodes.items }
    requires weighed { AreShares (weigh_of V.terms) stream.old shares.now }
    requires path { length at.now.place.path.items + at.now.depth < DEEPEST_CUT }
    ensures children { IfOk result (λ cut. cut.0.items ≡ map (with_holes hole_of) (cut_loaded (weigh_of V.terms) at.now nodes.items buffers.items stream.old shares.now marks.now)) }
    ensures bins { IfOk result (λ cut. cut.1 ≡ kept_bins (each_with (parted (counts shares.now) stream.old) buffers.items) marks.now) }
    ensures jobs { OnOk result (map job_of jobs.new.items ≡ map job_of jobs.old.items ++ flat_map holes (cut_loaded (weigh_of V.terms) at.now nodes.items buffers.items stream.old shares.now marks.now)) }
    ensures left { OnOk result (stream.new ≡ drop (total (counts shares.now)) stream.old) }
{
    let mut children = Vec::with_capacity(at.alloc, nodes.len())?;
    let mut kept = Vec::with_capacity(at.alloc, nodes.len())?;
    let mut buffers = buffers.into_iter();
    let mut number = 0;
    for node in nodes {
        let Some(pending) = buffers.next() else {
            unreachable!()
        };
        let below = Cutting {
            alloc: at.alloc,
            shape: at.shape,
            mode: at.mode,
            depth: at.depth,
            place: at.place.child(number as u16),
        };
        let (child, left) = cut_child(
            below,
            node,
            pending,
            marks[number],
            stream,
            shares[number],
            jobs,
        )?;
        children.push_reserved(child);
        kept.push_reserved(left);
        number += 1;
    }
    Ok((children, Bins::from_buffers(kept)))
}

// Takes the first messages of a stream into an inner node, and returns what is left of the node. If messages go down from it, its
// children are cut one by one, `at.depth` levels above the cut.
#[cycle(cuts)]
fn cut_inner<V: Merge>(
    at: &Cutting,
    children: Siblings<V>,
    bins: Bins<V>,
    stream: &mut Stream<V>,
    count: usize,
    jobs: &mut Vec<Job<V>>,
) -> Result<HoledNode<V>, AllocError>
    requires lie { LieBetween (pivots_of children) bins }
    requires sized { IsSized (weigh_of V.terms) at.now.shape (inner (nodes children) (concatenation bins)) }
    requires path { length at.now.place.path.items + at.now.depth < DEEPEST_CUT }
    requires enough { count ≤ length stream.old }
    ensures holed { IfOk result (λ holed. holed ≡ with_holes hole_of (cut_above (weigh_of V.terms) at.now (inner (nodes children) (concatenation bins)) (take count stream.old))) }
    ensures jobs { OnOk result (map job_of jobs.new.items ≡ map job_of jobs.old.items ++ holes (cut_above (weigh_of V.terms) at.now (inner (nodes children) (concatenation bins)) (take count stream.old))) }
    ensures left { OnOk result (stream.new ≡ drop count stream.old) }
{
    // Called for its contract: in any shape, the number of a child fits in a `u16`.
    let _most = at.shape.fanout();
    let opened = match open(at.alloc, at.shape, at.mode, children, bins, stream, count)? {
        Step::Stays(node) => return Ok(HoledNode::whole(node)),
        Step::Opens(opened) => opened,
    };
    let Opened {
        children,
        shares,
        marks,
    } = opened;
    let (nodes, pivots, buffers) = children.apart();
    let (children, bins) = cut_children(
        at,
        nodes,
        buffers,
        marks.as_slice(),
        stream,
        shares.as_slice(),
        jobs,
    )?;
    Ok(HoledNode::opened(children, pivots, bins))
}

// Cuts a node with its pending messages and, after those, the first ones of a stream. If none is pending, the messages go down in
// the stream as they are.
#[cycle(cuts)]
fn cut_node<V: Merge>(
    at: Cutting,
    node: Node<V>,
    pending: Buffer<V>,
    stream: &mut Stream<V>,
    count: usize,
    jobs: &mut Vec<Job<V>>,
) -> Result<HoledNode<V>, AllocError>
    requires sized { IsSized (weigh_of V.terms) at.shape node }
    requires path { length at.place.path.items + at.depth ≤ DEEPEST_CUT }
    requires enough { count ≤ length stream.old }
    ensures holed { IfOk result (λ holed. holed ≡ with_holes hole_of (cut_job (weigh_of V.terms) at.depth at.shape (job_with (take count stream.old) (job_at at node pending)))) }
    ensures jobs { OnOk result (map job_of jobs.new.items ≡ map job_of jobs.old.items ++ holes (cut_job (weigh_of V.terms) at.depth at.shape (job_with (take count stream.old) (job_at at node pending)))) }
    ensures left { OnOk result (stream.new ≡ drop count stream.old) }
{
    if at.depth == 0 {
        return move_out(at, node, pending, stream, count, jobs);
    }
    let _in_order = stream.len();
    match node.apart() {
        Parts::Leaf(node) => move_out(at, node, pending, stream, count, jobs),
        Parts::Inner { children, bins } => {
            let mut below = at;
            below.depth -= 1;
            if pending.is_empty() {
                return cut_inner(&below, children, bins, stream, count, jobs);
            }
            let mut own = packet_of(below.alloc, pending, stream, count)?.into_stream();
            let count = own.len();
            cut_inner(&below, children, bins, &mut own, count, jobs)
        }
    }
}

/// Cuts a tree and a packet into pieces. The packet enters at the root. A child that is to be flushed is moved out with its
/// messages, as a job, if it is `depth` levels below the root or a leaf. Otherwise it is cut in the same way. Jobs come in order
/// from left to right. Nodes and messages are moved, never copied. An `Err` drops the tree and the packet.
pub fn cut<V: Merge>(
    alloc: Global,
    tree_number: u16,
    tree: Tree<V>,
    packet: Packet<V>,
    depth: usize,
    mode: Mode,
) -> Result<(Holed<V>, Vec<Job<V>>), AllocError>
    requires { (1 ≤ depth) × (depth ≤ DEEPEST_CUT) }
    ensures pieces { IfOk result (λ cut. IsCut (weigh_of V.terms) cut.0 cut.1.items tree_number tree packet depth mode) }
    ensures stand { IfOk result (λ _. StandInHoles (weigh_of V.terms) tree.0 (cut (weigh_of V.terms) tree_number tree.0 tree.1 packet depth mode)) }
    ensures rise { IfOk result (λ _. PlacesRise (cut (weigh_of V.terms) tree_number tree.0 tree.1 packet depth mode)) }
    ensures fills { IfOk result (λ _. FillsUp (meaning_of V.terms) tree.0 tree.1 packet mode (cut (weigh_of V.terms) tree_number tree.0 tree.1 packet depth mode)) }
{
    let (shape, root) = tree.apart();
    let mut jobs = Vec::new(alloc);
    let at = Cutting {
        alloc,
        shape,
        mode,
        depth,
        place: Place::root(tree_number),
    };
    let mut stream = packet.into_stream();
    let count = stream.len();
    let root = cut_node(at, root, Buffer::new(alloc), &mut stream, count, &mut jobs)?;
    Ok((Holed::new(shape, root), jobs))
}
