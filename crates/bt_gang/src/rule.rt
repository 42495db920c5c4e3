//! The rule of the queue of jobs, and what a pass knows. Only the contracts of this crate use these types: callers neither create nor call them.
use crossbeam_queue::RuledArrayQueue;
use crossbeam_queue::protocol::{Join, Lesson, Outcome, Protocol, Split};
use std::collections::LinkedList;

/// A job with its number, and room for its answer. The rule does not depend on the room.
#[derive(Drop)]
pub struct NumberedJob<J, P> {
    pub number: usize,
    pub job: J,
    pub room: P,
}

/// The numbers that a worker took, in order. It exists in contracts only.
pub struct TakenList {
    pub worker: usize,
    pub numbers: LinkedList<usize>,
}

/// What a pass knows: the jobs that were pushed, and the lists that it has. The first list is that of the worker that holds the
/// pass. The others are those that it has not given away yet, or has taken in. It exists in contracts only.
pub struct Known<J> {
    pub jobs: LinkedList<J>,
    pub lists: LinkedList<TakenList>,
}

/// The queue and the passes are in a state of the board. The first pass has the lists of all workers.
pub struct JobRule;

impl<J, P> Protocol<NumberedJob<J, P>, Known<J>> for JobRule {
    ghost use Rattle.std.specs.Prelude.{[]};
    ghost use Rattle.bt_gang.specs.declared.crew.TheConstants.{MOST_WORKERS};
    ghost use Rattle.bt_gang.specs.Queue.{IsQueue, known, no_lists};

    ghost holds = { IsQueue };

    ghost first = { known [] (no_lists MOST_WORKERS) };
}

/// How a pass is split off for a worker, and taken in later. The new pass gets the list of that worker, and brings it back.
pub struct WorkerPass;

impl<J> Split<Known<J>> for WorkerPass {
    ghost use Rattle.bt_gang.specs.Queue.{known, list_given, lists_kept};

    ghost left = { λ v. known v.jobs (lists_kept v.lists) };

    ghost right = { λ v. known v.jobs (list_given v.lists) };
}

impl<J> Join<Known<J>> for WorkerPass {
    ghost use Rattle.std.specs.Prelude.{[], ◌++◌};
    ghost use Rattle.bt_gang.specs.Queue.{known};

    ghost both = { λ v w. known v.jobs (v.lists ++ w.lists) };

    ghost spent = { known [] [] };
}

/// A push by the caller. The queue's trait also asks what a pass learns from a full queue, which does not occur here.
pub struct Push;

impl<J, P> Outcome<NumberedJob<J, P>, Known<J>> for Push {
    ghost use Rattle.bt_gang.specs.Queue.{Pushed};

    ghost then = { Pushed };
}

impl<J, P> Lesson<NumberedJob<J, P>, Known<J>> for Push {
    ghost use Rattle.bt_gang.specs.declared.crew.TheConstants.{MOST_WORKERS};
    ghost use Rattle.bt_gang.specs.Queue.{IsBoardOf, queued};

    ghost fact = { λ v items. IsBoardOf MOST_WORKERS v (queued items) };
}

/// A pop that takes the first job, or finds nothing. In the second case the pass learns that no job waits.
pub struct Pop;

impl<J, P> Outcome<NumberedJob<J, P>, Known<J>> for Pop {
    ghost use Rattle.bt_gang.specs.Queue.{Popped};

    ghost then = { Popped };
}

impl<J, P> Lesson<NumberedJob<J, P>, Known<J>> for Pop {
    ghost use Rattle.bt_gang.specs.declared.crew.TheConstants.{MOST_WORKERS};
    ghost use Rattle.bt_gang.specs.Queue.{IsBoardOf, queued};

    ghost fact = { λ v items. IsBoardOf MOST_WORKERS v (queued items) };
}

pub type JobQueue<J, P> = RuledArrayQueue<NumberedJob<J, P>, Known<J>, JobRule>;
