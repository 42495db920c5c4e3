//! The first messages of a tree. If they put new rows, jobs make the leaves of the tree, each job those of some messages.
ghost use Rattle.std.specs.Prelude.{◌≡◌, ◌<◌, ◌≤◌, [], IfOk, OnOk, drop, length, take, true};
ghost use Rattle.std.specs.declared.option.Option.TheVariants.{None};
ghost use Rattle.std.specs.Option.{option_copied};
ghost use Rattle.bt_message.specs.Meanings.{meaning_of};
ghost use Rattle.bt_message.specs.Weights.{weigh_of};
ghost use Rattle.bt_form.specs.Fits.{HasShape};
ghost use Rattle.bt_form.specs.Flushes.{first_key, pivot_first};
ghost use Rattle.bt_gather.specs.Rounds.{sunk_tree};
ghost use Rattle.bt_gather.specs.Views.{pieces_of};
ghost use Rattle.bt_gather.specs.inside.NewLeaves.{are_new_rows, first_items, is_after, is_bare, is_new_row, is_put, led_pieces};
ghost use Rattle.bt_gather.specs.inside.RoundJobs.{IsLeafJob};
ghost use Rattle.bt_gather.specs.inside.RoundTrees.{AreJobsOf};

use crate::flush_work::ShapedJob;
use crate::round_tree::{RoundTree, has_shape};
use arrayvec::ArrayVec;
use bt_form::Rows;
use bt_keycode::Key;
use bt_messages::{Buffer, Merge, Message, Packet, Stream};
use bt_node::{Children, Mode, Node, Shape, Siblings, Tree};
use bt_plan::{Job, Place};
use std::alloc::{AllocError, Global};
use std::cmp::Ordering;

/// Whether a tree is one leaf without rows.
pub(crate) fn is_bare<V: Merge>(tree: &Tree<V>) -> bool
    ensures { result ≡ is_bare tree.now.1 }
{
    let root = tree.walk();
    root.is_leaf() && root.row_count() == 0
}

fn is_put<V: Merge>(message: &Message<V>) -> bool
    ensures { result ≡ is_put message.now }
{
    match message {
        Message::Put(_) => true,
        Message::Del => false,
        Message::Ups(_) => false,
    }
}

// Whether a key comes after another one, if there is one.
fn is_after(last: Option<&Key>, key: &Key) -> bool
    ensures { result ≡ is_after (option_copied last.entry) key.now }
{
    match last {
        Some(last) => last.compare(key) == Ordering::Less,
        None => true,
    }
}

// Whether a message is a put of a key after another one, if there is one.
fn is_new_row<V: Merge>(last: Option<&Key>, key: &Key, message: &Message<V>) -> bool
    ensures { result ≡ is_new_row (option_copied last.entry) (key.now, message.now) }
{
    is_put(message) && is_after(last, key)
}

/// Whether each message is a put, and no two are for the same key.
#[tactic(auto, using(crate::proofs::NewRows::new_next, crate::proofs::NewRows::not_new))]
pub(crate) fn are_new_rows<V: Merge>(packet: &Packet<V>) -> bool
    ensures { result ≡ are_new_rows None packet.now }
{
    let mut last: Option<&Key> = None;
    let mut messages = packet.iter();
    while let Some((key, message)) = messages.next() {
        if !is_new_row(last, key, message) {
            return false;
        }
        last = Some(key);
    }
    true
}

// A copy of the key of the first message, or the empty key if there is none.
fn first_key<V: Merge>(alloc: Global, packet: &Packet<V>) -> Result<Key, AllocError>
    ensures { IfOk result (λ key. key ≡ first_key (λ m. m.0) packet.now) }
{
    match packet.iter().next() {
        Some((key, _message)) => key.copy(alloc),
        None => Ok(Key::new()),
    }
}

// The number of rows in the first `count` leaves, if this many rows are dealt into this many leaves.
#[tactic(auto, using(crate::proofs::EvenParts::first_bound))]
fn first_items(rows: usize, leaves: usize, count: usize) -> usize
    requires some { 0 < leaves }
    requires few { count ≤ leaves }
    ensures items { result ≡ first_items rows leaves count }
    ensures most { result ≤ rows }
{
    count * (rows / leaves) + count.min(rows % leaves)
}

// The job that makes the leaves of some messages.
fn leaf_job<V: Merge>(alloc: Global, number: u16, shape: Shape, packet: Packet<V>) -> ShapedJob<V>
    ensures { IsLeafJob shape packet result }
{
    let place = Place {
        tree: number,
        path: ArrayVec::new(),
    };
    let node = Node::leaf(Rows::new(alloc));
    let mode = Mode::Absorb;
    ShapedJob {
        shape,
        job: Job {
            place,
            node,
            packet,
            mode,
        },
    }
}

// The job that makes the leaves of the first messages of a stream, and the first key of these.
fn next_part<V: Merge>(
    alloc: Global,
    number: u16,
    shape: Shape,
    stream: &mut Stream<V>,
    size: usize,
) -> Result<(Key, ShapedJob<V>), AllocError>
    requires { size ≤ length stream.old }
    ensures start { IfOk result (λ part. part.0 ≡ first_key (λ m. m.0) (take size stream.old)) }
    ensures job { IfOk result (λ part. IsLeafJob shape (take size stream.old) part.1) }
    ensures left { OnOk result (stream.new ≡ drop size stream.old) }
{
    let packet = stream.take_front(alloc, size)?;
    let start = first_key(alloc, &packet)?;
    let job = leaf_job(alloc, number, shape, packet);
    Ok((start, job))
}

/// Deals the packet of a tree without rows: the jobs that make its leaves, at most `parts` of them. Each makes the same number of
/// leaves, and the last one those that are left.
pub(crate) fn deal_packet<V: Merge>(
    alloc: Global,
    number: u16,
    tree: Tree<V>,
    packet: Packet<V>,
    parts: usize,
) -> Result<(RoundTree<V>, Vec<ShapedJob<V>>), AllocError>
    requires some { 1 ≤ parts }
    requires bare { is_bare tree.1 ≡ true }
    requires several { tree.0.leaf < length packet }
    requires new { are_new_rows None packet ≡ true }
    ensures jobs { IfOk result (λ cut. AreJobsOf (meaning_of V.terms) cut.0 cut.1.items (sunk_tree (meaning_of V.terms) (tree, packet))) }
    ensures fits { HasShape (weigh_of V.terms) tree.0 tree.1 }
{
    has_shape(&tree);
    let shape = tree.shape();
    let count = packet.len();
    let most = shape.leaf();
    let mut leaves = count.div_ceil(most);
    let each = leaves.div_ceil(parts).max(1);
    let mut starts = Vec::new(alloc);
    let mut jobs = Vec::new(alloc);
    let mut stream = packet.into_stream();
    // The label is the loop's name in its proof.
    'parts: while leaves > 0 {
        let next = each.min(leaves);
        let rows = stream.len();
        let size = first_items(rows, leaves, next);
        let (start, job) = next_part(alloc, number, shape, &mut stream, size)?;
        starts.push(start)?;
        jobs.push(job)?;
        leaves -= next;
    }
    let many = starts.len();
    let room = Vec::with_capacity(alloc, many)?;
    let dealt = RoundTree::Dealt {
        shape,
        starts,
        room,
    };
    Ok((dealt, jobs))
}

/// The leaves of the parts of a packet, side by side. The pivot of the first leaf of a part is the first key of the part, and the
/// empty key for the first part.
pub(crate) fn leaves_of_parts<V: Merge>(
    alloc: Global,
    starts: Vec<Key>,
    pieces: Vec<(Place, Siblings<V>)>,
) -> Result<Siblings<V>, AllocError>
    requires aligned { length starts.items ≡ length pieces.items }
    requires some { 1 ≤ length (led_pieces starts.items (pieces_of pieces.items)) }
    ensures { IfOk result (λ leaves. leaves ≡ pivot_first [] (led_pieces starts.items (pieces_of pieces.items))) }
{
    let mut leaves = Children::with_capacity(alloc, pieces.len())?;
    let mut starts = starts.into_iter();
    for piece in pieces {
        let (_place, siblings) = piece;
        let Some(start) = starts.next() else {
            unreachable!()
        };
        leaves.append(alloc, start, siblings, Buffer::new(alloc))?;
    }
    let (nodes, pivots, bins) = leaves.apart();
    drop(bins);
    Ok(Siblings::from_parts(nodes, pivots))
}
