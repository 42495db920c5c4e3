//! One round over trees: the flushes of all of them are the jobs of one run.
ghost use Rattle.std.specs.Prelude.{◌≡◌, ◌≤◌, ◌+◌, IfOk, length};
ghost use Rattle.bt_message.specs.Effects.{effect_of};
ghost use Rattle.bt_message.specs.Meanings.{meaning_of};
ghost use Rattle.bt_message.specs.Weights.{weigh_of};
ghost use Rattle.bt_flush.specs.Drains.{IsDry, drained};
ghost use Rattle.bt_form.specs.Fits.{HasShape};
ghost use Rattle.bt_flush.specs.Laws.{HoldsTheSame};
ghost use Rattle.bt_gather.specs.Rounds.{AllHaveShape, AllHoldAfter, all_sunk};

use crate::flush_work::{FlushWork, ShapedJob};
use crate::round_tree::{MOST_TREES, cut_tree, round_trees, whole_tree, whole_trees};
use bt_gang::{Context, Crew, Gate, most_workers};
use bt_messages::{Merge, Packet};
use bt_node::{Mode, Tree};
use std::alloc::{AllocError, Global};
use std::sync::Wait;
use std::thread::Threads;

/// The most jobs, for each worker, that make the leaves of one tree.
const JOBS_PER_WORKER: usize = 4;

// The most jobs that make the leaves of one of these trees. It is one if the trees themselves are about as many jobs as there are
// workers, since the caller would look at all messages first.
fn parts_of<G>(crew: &Crew<G>, trees: usize) -> usize {
    if crew.workers / 2 < trees {
        return 1;
    }
    crew.workers * JOBS_PER_WORKER
}

/// Flushes a packet into each tree, in one round. If a packet has fewer messages than the crew's grain, the caller sinks it. The
/// other trees are cut at the crew's depth, and their flushes are the jobs of one run, tree by tree, those of the rows first. If a
/// tree has no rows and its packet puts new ones, several workers make its leaves instead. There is at most one worker for each job,
/// and at most one for every four grains of messages to the trees with jobs. With one worker, the caller works alone. After an `Err`
/// every worker has ended, and the trees are dropped.
pub fn sink<
    R: Merge + Send + Sync,
    E: Merge + Send + Sync,
    G: Gate + Sync,
    T: Threads + Wait + Sync,
>(
    rt: &T,
    alloc: Global,
    rows: Vec<(Tree<R>, Packet<R>)>,
    entries: Vec<(Tree<E>, Packet<E>)>,
    crew: &Crew<G>,
) -> Result<(Vec<Tree<R>>, Vec<Tree<E>>), AllocError>
where
    R::Delta: Send + Sync,
    E::Delta: Send + Sync,
    requires few { length rows.items + length entries.items ≤ MOST_TREES }
    ensures rows { IfOk result (λ trees. trees.0.items ≡ all_sunk (meaning_of R.terms) rows.items) }
    ensures entries { IfOk result (λ trees. trees.1.items ≡ all_sunk (meaning_of E.terms) entries.items) }
    ensures fit { IfOk result (λ trees. AllHaveShape (weigh_of R.terms) trees.0.items × AllHaveShape (weigh_of E.terms) trees.1.items) }
    ensures hold { IfOk result (λ trees. AllHoldAfter (effect_of R.terms.merged) rows.items trees.0.items × AllHoldAfter (effect_of E.terms.merged) entries.items trees.1.items) }
{
    let count = rows.len();
    let parts = parts_of(crew, count + entries.len());
    let rows = round_trees(alloc, 0, rows, crew.cut, crew.grain, parts)?;
    let entries = round_trees(alloc, count, entries, crew.cut, crew.grain, parts)?;
    let messages = rows.messages.saturating_add(entries.messages);
    let crew = crew.with_at_most(most_workers(crew, messages));
    let work = FlushWork::<R, E>::new();
    let context = Context {
        rt,
        alloc,
        crew: &crew,
    };
    let (row_pieces, entry_pieces) = work.pieces(&context, rows.jobs, entries.jobs)?;
    let rows = whole_trees(alloc, rows.trees, row_pieces, rows.room)?;
    let entries = whole_trees(alloc, entries.trees, entry_pieces, entries.room)?;
    Ok((rows, entries))
}

/// Flushes all messages of a tree down to the leaves. The tree is cut at the crew's depth, and each planned child is a job, with
/// any number of messages. There is at most one worker for each job. After an `Err` every worker has ended, and the tree is
/// dropped.
pub fn drain<V: Merge + Send + Sync, G: Gate + Sync, T: Threads + Wait + Sync>(
    rt: &T,
    alloc: Global,
    tree: Tree<V>,
    crew: &Crew<G>,
) -> Result<Tree<V>, AllocError>
where
    V::Delta: Send + Sync,
    ensures tree { IfOk result (λ dry. dry ≡ (tree.0, drained (meaning_of V.terms) tree.0 tree.1)) }
    ensures fits { IfOk result (λ dry. HasShape (weigh_of V.terms) dry.0 dry.1) }
    ensures rows { IfOk result (λ dry. HoldsTheSame (effect_of V.terms.merged) tree.1 dry.1) }
    ensures dry { IfOk result (λ dry. IsDry dry.1) }
{
    let (tree, jobs) = cut_tree(alloc, 0, tree, Packet::new(alloc), crew.cut, Mode::Drain)?;
    let none: Vec<ShapedJob<V>> = Vec::new(alloc);
    let work = FlushWork::<V, V>::new();
    let (pieces, others) = work.pieces(&Context { rt, alloc, crew }, jobs, none)?;
    drop(others);
    let mut pieces = pieces.into_iter();
    whole_tree(alloc, tree, &mut pieces)
}
