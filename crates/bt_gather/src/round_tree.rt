//! The trees of a round. Each is sunk at once, cut into jobs, or made of leaves by jobs. A tree with jobs is put together from their results.
ghost use Rattle.std.specs.Prelude.{◌≡◌, ◌≤◌, ◌<◌, ◌+◌, ◌++◌, [], IfOk, OnOk, drop, length, map, take, vec_capacity, vec_len};
ghost use Rattle.std.specs.List.{All};
ghost use Rattle.std.specs.Vec.Iter.{into_iter_items};
ghost use Rattle.std.specs.declared.option.Option.TheVariants.{None};
ghost use Rattle.bt_message.specs.Meanings.{meaning_of};
ghost use Rattle.bt_message.specs.Weights.{weigh_of};
ghost use Rattle.bt_form.specs.Fits.{HasShape};
ghost use Rattle.bt_form.specs.Flushes.{crown, flush_in, pivot_first};
ghost use Rattle.bt_plan.specs.Pieces.{filled};
ghost use Rattle.bt_gather.specs.Laws.{IsFillable};
ghost use Rattle.bt_gather.specs.Misfits.{misfit};
ghost use Rattle.bt_gather.specs.Rounds.{all_sunk, sunk_tree};
ghost use Rattle.bt_gather.specs.Views.{pieces_of};
ghost use Rattle.bt_gather.specs.inside.NewLeaves.{led_pieces};
ghost use Rattle.bt_gather.specs.inside.RoundJobs.{shaped};
ghost use Rattle.bt_gather.specs.inside.RoundTrees.{AreFilledBy, AreJobsOf, AreJobsOfAll, IsDealtFilledBy, IsEmptyWithRoom, IsFilledBy, job_count, tree_with, trees_with};

use crate::filling::fill_at;
use crate::flush_work::ShapedJob;
use crate::hole_places::hole_places;
use crate::new_leaves::{are_new_rows, deal_packet, is_bare, leaves_of_parts};
use bt_gang::DEEPEST_CUT;
use bt_keycode::Key;
use bt_messages::{Merge, Packet};
use bt_node::{Mode, Shape, Siblings, Tree, crown};
use bt_plan::{Holed, Job, Place, cut};
use std::alloc::{AllocError, Global};
use std::vec::IntoIter;

/// The largest number of trees in a round. The number of a tree is a `u16` in each place.
pub const MOST_TREES: usize = 65_536;

/// A tree of a round, before its jobs are run.
#[derive(Drop)]
pub(crate) enum RoundTree<V: Merge> {
    /// A tree without jobs, which is already sunk.
    Whole(Tree<V>),
    /// A tree in pieces, with the number of its jobs and a list with capacity for their results.
    Cut {
        holed: Holed<V>,
        jobs: usize,
        room: Vec<(Place, Siblings<V>)>,
    },
    /// A tree whose leaves are made by jobs, with the first key of each job and a list with capacity for the results.
    Dealt {
        shape: Shape,
        starts: Vec<Key>,
        room: Vec<(Place, Siblings<V>)>,
    },
}

/// The trees of a round, and their jobs, tree by tree.
#[derive(Drop)]
pub(crate) struct RoundTrees<V: Merge> {
    pub(crate) trees: Vec<RoundTree<V>>,
    pub(crate) jobs: Vec<ShapedJob<V>>,
    /// The number of messages in the packets of the trees with jobs.
    pub(crate) messages: usize,
    /// An empty list with capacity for the resulting trees.
    pub(crate) room: Vec<Tree<V>>,
}

/// Gives the fact that a tree has its shape. It holds for each tree, but a contract gets it only from a call on the tree.
pub(crate) fn has_shape<V: Merge>(tree: &Tree<V>)
    ensures { HasShape (weigh_of V.terms) tree.now.0 tree.now.1 }
{
    let _root = tree.walk();
}

// The jobs with the shape of their tree.
fn shaped_jobs<V: Merge>(
    alloc: Global,
    shape: Shape,
    jobs: Vec<Job<V>>,
) -> Result<Vec<ShapedJob<V>>, AllocError>
    ensures { IfOk result (λ found. found.items ≡ map (shaped shape) jobs.items) }
{
    let mut found = Vec::with_capacity(alloc, jobs.len())?;
    for job in jobs {
        found.push_reserved(ShapedJob { shape, job });
    }
    Ok(found)
}

/// Cuts a tree. Returns the tree in pieces and its jobs.
pub(crate) fn cut_tree<V: Merge>(
    alloc: Global,
    number: u16,
    tree: Tree<V>,
    packet: Packet<V>,
    depth: usize,
    mode: Mode,
) -> Result<(RoundTree<V>, Vec<ShapedJob<V>>), AllocError>
    requires { (1 ≤ depth) × (depth ≤ DEEPEST_CUT) }
    ensures jobs { IfOk result (λ cut. AreJobsOf (meaning_of V.terms) cut.0 cut.1.items (tree.0, crown tree.0 (flush_in (meaning_of V.terms) mode tree.0 tree.1 packet))) }
    ensures fits { HasShape (weigh_of V.terms) tree.0 tree.1 }
{
    has_shape(&tree);
    let (holed, jobs) = cut(alloc, number, tree, packet, depth, mode)?;
    let shape = holed.shape();
    let count = jobs.len();
    let room = Vec::with_capacity(alloc, count)?;
    let jobs = shaped_jobs(alloc, shape, jobs)?;
    Ok((
        RoundTree::Cut {
            holed,
            jobs: count,
            room,
        },
        jobs,
    ))
}

// A tree of a round with its packet, and its jobs. If its packet is smaller than the grain, it is sunk at once and has no jobs. With
// more than one part, the first packet of a tree is dealt into at most this many, if it puts new rows.
fn round_tree<V: Merge>(
    alloc: Global,
    number: u16,
    tree: (Tree<V>, Packet<V>),
    depth: usize,
    grain: usize,
    parts: usize,
) -> Result<(RoundTree<V>, Vec<ShapedJob<V>>), AllocError>
    requires { (1 ≤ depth) × (depth ≤ DEEPEST_CUT) }
    ensures jobs { IfOk result (λ cut. AreJobsOf (meaning_of V.terms) cut.0 cut.1.items (sunk_tree (meaning_of V.terms) tree)) }
    ensures fits { HasShape (weigh_of V.terms) tree.0.0 tree.0.1 }
{
    let (tree, packet) = tree;
    if packet.len() < grain {
        has_shape(&tree);
        let tree = tree.sink(alloc, packet)?;
        return Ok((RoundTree::Whole(tree), Vec::new(alloc)));
    }
    let most = tree.shape().leaf();
    if 1 < parts && most < packet.len() && is_bare(&tree) && are_new_rows(&packet) {
        return deal_packet(alloc, number, tree, packet, parts);
    }
    cut_tree(alloc, number, tree, packet, depth, Mode::Absorb)
}

// The number of messages in the packet of a tree if the tree has jobs, or 0.
fn messages_to_cut<V: Merge>(tree: &RoundTree<V>, messages: usize) -> usize {
    match tree {
        RoundTree::Whole(_) => 0,
        RoundTree::Cut { .. } | RoundTree::Dealt { .. } => messages,
    }
}

/// The trees of a round with their packets, numbered from `first` on.
pub(crate) fn round_trees<V: Merge>(
    alloc: Global,
    first: usize,
    trees: Vec<(Tree<V>, Packet<V>)>,
    depth: usize,
    grain: usize,
    parts: usize,
) -> Result<RoundTrees<V>, AllocError>
    requires depth { (1 ≤ depth) × (depth ≤ DEEPEST_CUT) }
    requires few { first + length trees.items ≤ MOST_TREES }
    ensures jobs { IfOk result (λ round. AreJobsOfAll (meaning_of V.terms) round.trees.items round.jobs.items (all_sunk (meaning_of V.terms) trees.items)) }
    ensures fit { IfOk result (λ _. All (λ x. HasShape (weigh_of V.terms) x.0.0 x.0.1) trees.items) }
    ensures room { IfOk result (λ round. IsEmptyWithRoom round.room (vec_len round.trees)) }
{
    let room = Vec::with_capacity(alloc, trees.len())?;
    let mut list = Vec::with_capacity(alloc, trees.len())?;
    let mut jobs = Vec::new(alloc);
    let mut messages: usize = 0;
    let mut number = first;
    for tree in trees {
        let count = tree.1.len();
        let (next, mut more) = round_tree(alloc, number as u16, tree, depth, grain, parts)?;
        messages = messages.saturating_add(messages_to_cut(&next, count));
        list.push_reserved(next);
        jobs.append(&mut more)?;
        number += 1;
    }
    Ok(RoundTrees {
        trees: list,
        jobs,
        messages,
        room,
    })
}

// The next pieces, in an empty list whose capacity suffices.
fn next_pieces<V: Merge>(
    pieces: &mut IntoIter<(Place, Siblings<V>)>,
    count: usize,
    room: Vec<(Place, Siblings<V>)>,
) -> Vec<(Place, Siblings<V>)>
    requires room { IsEmptyWithRoom room count }
    requires enough { count ≤ length (into_iter_items pieces.old) }
    ensures next { result.items ≡ take count (into_iter_items pieces.old) }
    ensures left { into_iter_items pieces.new ≡ drop count (into_iter_items pieces.old) }
{
    let mut next = room;
    for _ in 0..count {
        let Some(piece) = pieces.next() else {
            unreachable!()
        };
        next.push_reserved(piece);
    }
    next
}

// The tree in pieces with each hole filled, as one tree.
fn filled_tree<V: Merge>(
    alloc: Global,
    holed: Holed<V>,
    pieces: Vec<(Place, Siblings<V>)>,
) -> Result<Tree<V>, AllocError>
    requires fillable { IsFillable (weigh_of V.terms) holed.0 holed.1 (pieces_of pieces.items) }
    requires fit { misfit holed.1 (pieces_of pieces.items) ≡ None }
    ensures { IfOk result (λ tree. tree ≡ (holed.0, crown holed.0 (filled holed.0 holed.1 (pieces_of pieces.items)))) }
{
    let shape = holed.shape();
    let places = hole_places(alloc, holed.root())?;
    let siblings = fill_at(alloc, holed, places.as_slice(), pieces)?;
    Ok(crown(alloc, shape, siblings)?)
}

// The tree over the leaves of the next pieces, one for each of these keys.
fn dealt_tree<V: Merge>(
    alloc: Global,
    shape: Shape,
    starts: Vec<Key>,
    pieces: &mut IntoIter<(Place, Siblings<V>)>,
    room: Vec<(Place, Siblings<V>)>,
) -> Result<Tree<V>, AllocError>
    requires room { IsEmptyWithRoom room (length starts.items) }
    requires fill { IsDealtFilledBy (weigh_of V.terms) shape starts.items (take (length starts.items) (pieces_of (into_iter_items pieces.old))) }
    ensures tree { IfOk result (λ tree. tree ≡ (shape, crown shape (pivot_first [] (led_pieces starts.items (take (length starts.items) (pieces_of (into_iter_items pieces.old))))))) }
    ensures left { OnOk result (into_iter_items pieces.new ≡ drop (length starts.items) (into_iter_items pieces.old)) }
{
    let count = starts.len();
    let own = next_pieces(pieces, count, room);
    let leaves = leaves_of_parts(alloc, starts, own)?;
    Ok(crown(alloc, shape, leaves)?)
}

/// A tree of a round, put together with the next pieces.
pub(crate) fn whole_tree<V: Merge>(
    alloc: Global,
    tree: RoundTree<V>,
    pieces: &mut IntoIter<(Place, Siblings<V>)>,
) -> Result<Tree<V>, AllocError>
    requires { IsFilledBy (weigh_of V.terms) tree (take (job_count tree) (pieces_of (into_iter_items pieces.old))) }
    ensures tree { IfOk result (λ whole. whole ≡ tree_with tree (take (job_count tree) (pieces_of (into_iter_items pieces.old)))) }
    ensures left { OnOk result (into_iter_items pieces.new ≡ drop (job_count tree) (into_iter_items pieces.old)) }
{
    match tree {
        RoundTree::Whole(tree) => Ok(tree),
        RoundTree::Cut { holed, jobs, room } => {
            let own = next_pieces(pieces, jobs, room);
            filled_tree(alloc, holed, own)
        }
        RoundTree::Dealt {
            shape,
            starts,
            room,
        } => dealt_tree(alloc, shape, starts, pieces, room),
    }
}

/// The trees of a round, put together with these pieces, tree by tree, in an empty list whose capacity suffices.
pub(crate) fn whole_trees<V: Merge>(
    alloc: Global,
    trees: Vec<RoundTree<V>>,
    pieces: Vec<(Place, Siblings<V>)>,
    room: Vec<Tree<V>>,
) -> Result<Vec<Tree<V>>, AllocError>
    requires pieces { AreFilledBy (weigh_of V.terms) trees.items (pieces_of pieces.items) }
    requires room { IsEmptyWithRoom room (vec_len trees) }
    ensures { IfOk result (λ whole. whole.items ≡ trees_with trees.items (pieces_of pieces.items)) }
{
    let mut whole = room;
    let mut pieces = pieces.into_iter();
    for tree in trees {
        whole.push_reserved(whole_tree(alloc, tree, &mut pieces)?);
    }
    Ok(whole)
}
