//! The loop of one worker.
ghost use Rattle.std.specs.Prelude.{◌+◌, ◌≤◌, All, length};
ghost use Rattle.crossbeam_queue.specs.Passes.{view};
ghost use Rattle.bt_gang.specs.Jobs.{IsJobPass};
ghost use Rattle.bt_gang.specs.Queue.{HasList, NothingWaits, numbers_of};
ghost use Rattle.bt_gang.specs.Answers.{FoundNothing, Gains};

use crate::answers::Answers;
use crate::crew::{Crew, Gate};
use crate::jobs::{JobPass, Jobs};
use crate::rule::{NumberedJob, Pop};
use crate::work::Work;
use std::alloc::Global;
use std::sync::Wait;

/// Pops jobs with this pass until none waits. Runs each, and adds its number and its answer, in the room that came with the job. Only
/// the runs take memory. If a run faults, the fault is the job's answer.
pub fn serve<W: Work, G: Gate, R: Wait>(
    rt: &R,
    alloc: Global,
    work: &W,
    jobs: &Jobs<W::Job, W::Done, W::Fault>,
    pass: &mut JobPass<W::Job, W::Done, W::Fault>,
    crew: &Crew<G>,
    out: &mut Answers<W::Done, W::Fault>,
)
    requires pass { IsJobPass jobs.now pass.old × HasList (view pass.old) }
    requires accepts { All (λ job. W.accepts work.now job) (view pass.old).jobs }
    requires spare { length (view pass.old).jobs ≤ out.old.spare + length (numbers_of (view pass.old).lists) }
    ensures pass { IsJobPass jobs.now pass.new }
    ensures gains { Gains (W.allows work.now) (view pass.old) (view pass.new) out.old out.new }
    ensures settled { NothingWaits (view pass.new) }
    ensures last { FoundNothing (view pass.new) }
{
    for _ in rt.forever() {
        match jobs.queue.pop_as::<Pop, R>(rt, pass) {
            Some(item) => {
                let NumberedJob { number, job, room } = item;
                crew.gate.enter(number);
                let value = work.run(alloc, job);
                crew.gate.leave(number);
                out.add(room, number, value);
            }
            None => return,
        }
    }
    unreachable!()
}
