//! The caller and the other workers of a run: before their loops, after them, and with their answers.
ghost use Rattle.std.specs.Prelude.{◌≡◌, ◌≤◌, [], All, map, vec_capacity, vec_len};
ghost use Rattle.crossbeam_queue.specs.Passes.{IsPassOf, view};
ghost use Rattle.bt_gang.specs.Numbered.{present};
ghost use Rattle.bt_gang.specs.inside.Teams.{AreReady, HaveCome, HaveServed};
ghost use Rattle.bt_gang.specs.inside.Workers.{out_of};

use crate::answers::Answers;
use crate::crew::Gate;
use crate::jobs::JobPass;
use crate::shift::Shift;
use crate::work::Work;
use crate::worker_loop::serve;
use crate::workers::{Child, Worker, WorkerOf, join_all, start, take_in};
use std::alloc::Global;
use std::snapshot::Snapshot;
use std::sync::Wait;
use std::thread;
use std::thread::{Scope, Threads};

/// The caller and the other workers before their loops, with room for the threads of the others and for what they give back.
#[derive(Drop)]
pub(crate) struct Team<W: Work> {
    pub mine: WorkerOf<W>,
    pub workers: Vec<WorkerOf<W>>,
    pub children: Vec<Child<W>>,
    pub back: Vec<Option<WorkerOf<W>>>,
}

/// The caller and the other workers after their loops. A worker that was not started is `None`.
#[derive(Drop)]
pub(crate) struct Served<J: Drop, D: Drop, F: Drop> {
    pub mine: Worker<J, D, F>,
    pub others: Vec<Option<Worker<J, D, F>>>,
}

/// The answers of the caller and of the others, and the caller's pass, which has the lists of the workers that came back.
#[derive(Drop)]
pub(crate) struct AllAnswers<J: Drop, D: Drop, F: Drop> {
    pub pass: JobPass<J, D, F>,
    pub mine: Answers<D, F>,
    pub others: Vec<Option<Answers<D, F>>>,
}

// Starts the workers, serves as worker 0, and joins the others.
fn serve_all<'s, E, W: Work + Sync, G: Gate + Sync, R: Threads + Wait + Sync>(
    scope: &'s Scope<'s, E>,
    rt: &'s R,
    alloc: Global,
    shift: &'s Shift<'s, W, G>,
    all: &'s Snapshot<Vec<W::Job>>,
    team: Team<W>,
) -> Served<W::Job, W::Done, W::Fault>
    requires ready { AreReady shift.now.jobs.now all.now.value.items team }
    requires accepts { All (λ job. W.accepts shift.now.work.now job) all.now.value.items }
    ensures { HaveServed (W.allows shift.now.work.now) shift.now.jobs.now all.now.value.items (vec_len team.workers) result }
{
    let Team {
        mut mine,
        workers,
        children,
        back,
    } = team;
    let children = start(scope, rt, alloc, shift, all, workers, children);
    serve(
        rt,
        alloc,
        shift.work,
        shift.jobs,
        &mut mine.pass,
        shift.crew,
        &mut mine.out,
    );
    let others = join_all(rt, shift, all, children, back);
    Served { mine, others }
}

/// Runs all threads of a run, including the caller's, until the last one has ended.
pub(crate) fn serve_threads<W: Work + Sync, G: Gate + Sync, R: Threads + Wait + Sync>(
    rt: &R,
    alloc: Global,
    shift: &Shift<'_, W, G>,
    all: &Snapshot<Vec<W::Job>>,
    team: Team<W>,
) -> Served<W::Job, W::Done, W::Fault>
    requires ready { AreReady shift.now.jobs.now all.now.value.items team }
    requires accepts { All (λ job. W.accepts shift.now.work.now job) all.now.value.items }
    ensures { HaveServed (W.allows shift.now.work.now) shift.now.jobs.now all.now.value.items (vec_len team.workers) result }
{
    thread::scope(
        thread::scope_env(),
        rt,
        move |scope| -> Served<W::Job, W::Done, W::Fault>
            requires { AreReady shift.now.jobs.now all.now.value.items team × All (λ job. W.accepts shift.now.work.now job) all.now.value.items }
            ensures { HaveServed (W.allows shift.entry.now.work.now) shift.entry.now.jobs.now all.entry.now.value.items (vec_len team.workers) result }
        { serve_all(scope, rt, alloc, shift, all, team) },
    )
}

/// Takes in the passes, and runs the jobs that are left. After that, a job has no answer only if a worker was not started.
pub(crate) fn all_answers<W: Work, G: Gate, R: Wait>(
    rt: &R,
    alloc: Global,
    shift: &Shift<'_, W, G>,
    all: &Snapshot<Vec<W::Job>>,
    served: Served<W::Job, W::Done, W::Fault>,
    room: Vec<Option<Answers<W::Done, W::Fault>>>,
) -> AllAnswers<W::Job, W::Done, W::Fault>
    requires served { HaveServed (W.allows shift.now.work.now) shift.now.jobs.now all.now.value.items (vec_len served.others) served }
    requires room { (room.items ≡ []) × (vec_len served.others ≤ vec_capacity room) }
    requires accepts { All (λ job. W.accepts shift.now.work.now job) all.now.value.items }
    ensures pass { IsPassOf shift.now.jobs.now.queue result.pass }
    ensures come { HaveCome (W.allows shift.now.work.now) all.now.value.items (view result.pass) (present result.mine.list) result.others.items }
    ensures others { result.others.items ≡ map out_of served.others.items }
    ensures len { vec_len result.others ≡ vec_len served.others }
{
    let Served {
        mine,
        others: workers,
    } = served;
    let Worker {
        number: _number,
        mut pass,
        out: mut mine,
    } = mine;
    let others = take_in(shift, all, &mut pass, workers, room);
    serve(
        rt, alloc, shift.work, shift.jobs, &mut pass, shift.crew, &mut mine,
    );
    AllAnswers { pass, mine, others }
}
