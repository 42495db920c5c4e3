//! The jobs of a call, in their queue.
ghost use Rattle.std.specs.Prelude.{◌≡◌, ◌<◌, IfOk, vec_len};
ghost use Rattle.crossbeam_queue.specs.Passes.{view};
ghost use Rattle.bt_gang.specs.declared.crew.TheConstants.{MOST_WORKERS};
ghost use Rattle.bt_gang.specs.Queue.{known, no_lists};

use crate::answers::{AnswerRoom, answer_rooms};
use crate::rule::{JobQueue, Known, NumberedJob, Push};
use crossbeam_queue::Pass;
use std::alloc::{AllocError, Global};
use std::sync::Wait;

/// The right to push to, or to pop from, the queue of a call. It has no bytes at run time, and one thread holds it.
pub type JobPass<J, D, F> = Pass<NumberedJob<J, AnswerRoom<D, F>>, Known<J>>;

/// The jobs of a call in one queue, each with its number, from 0 on, and with room for its answer.
#[derive(Drop)]
pub struct Jobs<J: Drop, D: Drop, F: Drop> {
    pub(crate) queue: JobQueue<J, AnswerRoom<D, F>>,
}

impl<J: Drop, D: Drop, F: Drop> Jobs<J, D, F> {
    ghost use Rattle.bt_gang.specs.Jobs.{IsJobPass};

    /// The queue with all jobs waiting in it, and the pass that pushed them, which has the lists of all workers. All memory, including
    /// that for the answers, is allocated before the first push.
    pub fn new<R: Wait>(
        rt: &R,
        alloc: Global,
        jobs: Vec<J>,
    ) -> Result<(Jobs<J, D, F>, JobPass<J, D, F>), AllocError>
        requires { 0 < vec_len jobs }
        ensures { IfOk result (λ q. IsJobPass q.0 q.1 × (view q.1 ≡ known jobs.items (no_lists MOST_WORKERS))) }
    {
        let rooms = answer_rooms(alloc, jobs.len())?;
        let (queue, mut pass) = JobQueue::<J, AnswerRoom<D, F>>::ruled(alloc, jobs.len())?;
        let mut rooms = rooms.into_iter();
        let mut number = 0;
        for job in jobs {
            let Some(room) = rooms.next() else {
                unreachable!()
            };
            match queue.push_as::<Push, R>(rt, &mut pass, NumberedJob { number, job, room }) {
                Ok(()) => number += 1,
                Err(_) => unreachable!(),
            }
        }
        Ok((Jobs { queue }, pass))
    }
}
