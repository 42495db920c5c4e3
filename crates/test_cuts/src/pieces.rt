//! Flushes in pieces: a tree is cut, its jobs are run one by one, and their results are filled in.
ghost use Rattle.std.specs.Prelude.{◌≡◌, ◌≤◌, IfOk, map, reverse};
ghost use Rattle.bt_gather.specs.Views.{pieces_of};
ghost use Rattle.bt_message.specs.Meanings.{meaning_of};
ghost use Rattle.bt_plan.specs.Cuts.{outcomes};
ghost use Rattle.bt_plan.specs.Views.{job_of};
ghost use Rattle.test_cuts.specs.Turns.{AreInOrder, AreTurned};

use bt_gang::DEEPEST_CUT;
use bt_gather::{FillError, fill, run_job};
use bt_messages::{Merge, Packet};
use bt_node::{Shape, Siblings, Tree, crown};
use bt_plan::{Job, Mode, Place, cut};
use std::alloc::{AllocError, Global};

/// The order in which jobs are run.
#[derive(Clone, Copy)]
pub(crate) enum Turn {
    Rising,
    Falling,
}

/// The results of jobs, each at its place. The jobs are run one by one.
pub(crate) fn run_all<V: Merge>(
    alloc: Global,
    shape: Shape,
    jobs: Vec<Job<V>>,
) -> Result<Vec<(Place, Siblings<V>)>, AllocError>
    requires { AreInOrder jobs.items }
    ensures { IfOk result (λ pieces. pieces_of pieces.items ≡ outcomes (meaning_of V.terms) shape (map job_of jobs.items)) }
{
    let mut pieces = Vec::with_capacity(alloc, jobs.len())?;
    for job in jobs {
        pieces.push(run_job(alloc, shape, job)?)?;
    }
    Ok(pieces)
}

// The jobs from the last to the first.
fn reversed<V: Merge>(jobs: Vec<Job<V>>) -> Vec<Job<V>>
    ensures { result.items ≡ reverse jobs.items }
{
    let mut jobs = jobs;
    jobs.as_mut_slice().reverse();
    jobs
}

// The jobs from the first to the last, or from the last to the first.
fn turned<V: Merge>(jobs: Vec<Job<V>>, turn: Turn) -> Vec<Job<V>>
    ensures { AreTurned jobs.items result.items }
{
    match turn {
        Turn::Rising => jobs,
        Turn::Falling => reversed(jobs),
    }
}

/// The tree after a flush in pieces, or drained in pieces.
pub(crate) fn in_pieces<V: Merge>(
    alloc: Global,
    tree: Tree<V>,
    packet: Packet<V>,
    depth: usize,
    mode: Mode,
    turn: Turn,
) -> Result<Tree<V>, FillError<V>>
    requires { (1 ≤ depth) × (depth ≤ DEEPEST_CUT) }
{
    let shape = tree.shape();
    let (holed, jobs) = cut(alloc, 0, tree, packet, depth, mode)?;
    let Ok(pieces) = run_all(alloc, shape, turned(jobs, turn)) else {
        drop(holed);
        return Err(FillError::OutOfMemory);
    };
    let siblings = fill(alloc, holed, pieces)?;
    Ok(crown(alloc, shape, siblings)?)
}
