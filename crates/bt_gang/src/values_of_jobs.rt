//! The values of jobs, and the number of workers that is worth starting.
ghost use Rattle.std.specs.Prelude.{◌≡◌, ◌*◌, ◌/◌, All, IfOk};
ghost use Rattle.bt_gang.specs.Run.{Answered, AreValues};

use crate::crew::{Crew, Gate};
use crate::job_runs::{Ran, run_jobs};
use crate::work::Work;
use std::alloc::{AllocError, Global};
use std::sync::Wait;
use std::thread::Threads;

/// One worker is started for each group of this many grains of messages or keys: for 256 messages at the default grain of 64. Starting a thread
/// takes about 30 µs, and flushing a hundred messages 36 µs, so a worker has about three times as much to do as its start takes.
const GRAINS_PER_WORKER: usize = 4;

/// The number of workers that is worth starting for this many messages or keys.
pub fn most_workers<G>(crew: &Crew<G>, count: usize) -> usize
    ensures { result ≡ count / (GRAINS_PER_WORKER * crew.now.grain) }
{
    count / (GRAINS_PER_WORKER * crew.grain)
}

/// The values of jobs, in order. Each job is run once, by a crew with at most as many workers as there are jobs. After an `Err` all workers
/// have ended.
pub fn job_values<W: Work<Fault = AllocError> + Sync, G: Gate + Sync, R: Threads + Wait + Sync>(
    rt: &R,
    alloc: Global,
    work: &W,
    jobs: Vec<W::Job>,
    crew: &Crew<G>,
) -> Result<Vec<W::Done>, AllocError>
    requires accepts { All (λ job. W.accepts work.now job) jobs.items }
    ensures values { IfOk result (λ done. AreValues (W.allows work.now) jobs.items done.items) }
    ensures answered { IfOk result (λ done. Answered (W.allows work.now) jobs.items done.items) }
{
    let crew = crew.with_at_most(jobs.len());
    match run_jobs(rt, alloc, work, jobs, &crew) {
        Ok(Ran { done, taken }) => {
            drop(taken);
            Ok(done)
        }
        Err(_) => Err(AllocError),
    }
}
