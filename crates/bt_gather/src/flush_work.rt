//! The jobs of a round, and the work on each.
ghost use Rattle.std.specs.Prelude.{◌≡◌, IfOk, map};
ghost use Rattle.bt_message.specs.Meanings.{meaning_of};
ghost use Rattle.bt_form.specs.Fits.{IsInOrder};
ghost use Rattle.bt_plan.specs.Cuts.{outcome};
ghost use Rattle.bt_plan.specs.Views.{job_of};
ghost use Rattle.bt_gather.specs.inside.RoundJobs.{AreRunnable, piece_of};

use crate::either::{Either, one_list, two_lists};
use bt_gang::{Context, Crew, Gate, Work, job_values};
use bt_messages::Merge;
use bt_node::{Mode, Shape, Siblings, absorb_alone, drain_alone};
use bt_plan::{Job, Place};
use std::alloc::{AllocError, Global};
use std::marker::PhantomData;
use std::sync::Wait;
use std::thread::Threads;

/// Runs a job: flushes its packet into its node. Returns the resulting siblings and the place of the job. An `Err` drops both.
pub fn run_job<V: Merge>(
    alloc: Global,
    shape: Shape,
    job: Job<V>,
) -> Result<(Place, Siblings<V>), AllocError>
    requires { IsInOrder job.node }
    ensures { IfOk result (λ piece. piece ≡ (job.place, outcome (meaning_of V.terms) shape (job_of job))) }
{
    let Job {
        place,
        node,
        packet,
        mode,
    } = job;
    let siblings = match mode {
        Mode::Absorb => absorb_alone(alloc, shape, node, packet)?,
        Mode::Drain => drain_alone(alloc, shape, node, packet)?,
    };
    Ok((place, siblings))
}

/// A job with the shape of its tree.
#[derive(Drop)]
pub(crate) struct ShapedJob<V: Merge> {
    pub(crate) shape: Shape,
    pub(crate) job: Job<V>,
}

/// Runs the jobs of a round with [`run_job`].
#[derive(Drop)]
pub(crate) struct FlushWork<R, E> {
    rows: PhantomData<R>,
    entries: PhantomData<E>,
}

impl<R: Merge + Send, E: Merge + Send> Work for FlushWork<R, E>
where
    R::Delta: Send,
    E::Delta: Send,
{
    type Job = Either<ShapedJob<R>, ShapedJob<E>>;

    type Done = Either<(Place, Siblings<R>), (Place, Siblings<E>)>;

    type Fault = AllocError;

    ghost use Rattle.std.specs.Prelude.{◌≡◌, MatchResult, ⊤};
    ghost use Rattle.std.proofs.Common.{sym, ◌∙◌};
    ghost use Rattle.bt_message.specs.Meanings.{meaning_of};
    ghost use Rattle.bt_gather.specs.inside.Eithers.{HoldsOfEither, either_map};
    ghost use Rattle.bt_gather.specs.inside.RoundJobs.{IsRunnable, piece_of};

    ghost accepts = { λ _ job. HoldsOfEither IsRunnable IsRunnable job };

    ghost allows = { λ _ job answer. MatchResult answer (λ piece. piece ≡ either_map (piece_of (meaning_of R.terms)) (piece_of (meaning_of E.terms)) job) (λ _. ⊤) };

    fn run(
        &self,
        alloc: Global,
        job: Either<ShapedJob<R>, ShapedJob<E>>,
    ) -> Result<Either<(Place, Siblings<R>), (Place, Siblings<E>)>, AllocError> {
        match job {
            Either::Rows(ShapedJob { shape, job }) => {
                Ok(Either::Rows(run_job(alloc, shape, job)?))
            }
            Either::Entries(ShapedJob { shape, job }) => {
                Ok(Either::Entries(run_job(alloc, shape, job)?))
            }
        }
    }

    ghost one_value = { λ _ _ _ _ e f. e ∙ sym f };
}

impl<R: Merge + Send + Sync, E: Merge + Send + Sync> FlushWork<R, E>
where
    R::Delta: Send + Sync,
    E::Delta: Send + Sync,
{
    pub(crate) fn new() -> Self {
        FlushWork {
            rows: PhantomData,
            entries: PhantomData,
        }
    }

    /// The results of jobs, each run once by a crew with at most as many workers as jobs.
    pub(crate) fn pieces<G: Gate + Sync, T: Threads + Wait + Sync>(
        &self,
        context: &Context<'_, T, Crew<G>>,
        rows: Vec<ShapedJob<R>>,
        entries: Vec<ShapedJob<E>>,
    ) -> Result<(Vec<(Place, Siblings<R>)>, Vec<(Place, Siblings<E>)>), AllocError>
        requires rows { AreRunnable rows.items }
        requires entries { AreRunnable entries.items }
        ensures rows { IfOk result (λ pieces. pieces.0.items ≡ map (piece_of (meaning_of R.terms)) rows.items) }
        ensures entries { IfOk result (λ pieces. pieces.1.items ≡ map (piece_of (meaning_of E.terms)) entries.items) }
    {
        let Context { rt, alloc, crew } = *context;
        let row_room = Vec::with_capacity(alloc, rows.len())?;
        let entry_room = Vec::with_capacity(alloc, entries.len())?;
        let jobs = one_list(alloc, rows, entries)?;
        let pieces = job_values(rt, alloc, self, jobs, crew)?;
        Ok(two_lists(pieces, row_room, entry_room))
    }
}
