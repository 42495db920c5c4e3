//! The workers of a call: splitting off passes, starting and joining threads, and taking the passes in again.
ghost use Rattle.std.specs.Prelude.{◌≡◌, ◌+◌, ◌<◌, ◌≤◌, ℕ, List, [], ◌∷◌, All, IfSome, length, map, vec_capacity, vec_len};
ghost use Rattle.crossbeam_queue.specs.Passes.{IsPassOf, view};
ghost use Rattle.bt_gang.specs.declared.crew.TheConstants.{MOST_WORKERS};
ghost use Rattle.bt_gang.specs.Numbered.{present};
ghost use Rattle.bt_gang.specs.Queue.{HasList, known, no_lists};
ghost use Rattle.bt_gang.specs.inside.Workers.{AllByNumber, HasServed, HasServedIfStarted, IsCaller, IsChild, IsReady, TookIn, TookInFrom, out_of};

use crate::answers::Answers;
use crate::crew::Gate;
use crate::jobs::{JobPass, Jobs};
use crate::rule::WorkerPass;
use crate::shift::Shift;
use crate::work::Work;
use crate::worker_loop::serve;
use core::thread::Stack;
use std::alloc::Global;
use std::snapshot::Snapshot;
use std::sync::Wait;
use std::thread::{Promise, PromisedHandle, Scope, Threads};

/// The stack of a worker's thread in bytes. It does not depend on the system's limit for the caller's stack, and is more than a job takes
/// on a tree of the largest height.
const WORKER_STACK: usize = 1 << 20;

/// A worker's number, its pass and its answers. The caller is worker 0.
#[derive(Drop)]
pub(crate) struct Worker<J: Drop, D: Drop, F: Drop> {
    pub number: usize,
    pub pass: JobPass<J, D, F>,
    pub out: Answers<D, F>,
}

/// A worker of this work.
pub(crate) type WorkerOf<W> = Worker<<W as Work>::Job, <W as Work>::Done, <W as Work>::Fault>;

/// The promise that the thread of the worker with this number gives back its pass, with an answer for each job that it took.
#[derive(Drop)]
pub(crate) struct GivesBack<W: Work> {
    number: usize,
    work: Snapshot<W>,
    jobs: Snapshot<Jobs<W::Job, W::Done, W::Fault>>,
    all: Snapshot<Snapshot<Vec<W::Job>>>,
}

impl<W: Work> Promise<WorkerOf<W>> for GivesBack<W> {
    ghost kept_by = { λ p r. HasServed (W.allows p.work.value) p.jobs.value p.all.value.value.items [] p.number r };
}

/// The thread of a worker, or `None` if it could not be started.
pub(crate) type Child<W> = Option<PromisedHandle<WorkerOf<W>, GivesBack<W>>>;

/// A worker for each list of answers, numbered from 1 on. The pass of each gets the list of the worker with its number.
pub(crate) fn split<J: Drop, D: Drop, F: Drop>(
    jobs: &Jobs<J, D, F>,
    all: &Snapshot<Vec<J>>,
    pass: &mut JobPass<J, D, F>,
    outs: Vec<Answers<D, F>>,
    mut workers: Vec<Worker<J, D, F>>,
) -> Vec<Worker<J, D, F>>
    requires pass { IsPassOf jobs.now.queue pass.old × (view pass.old ≡ known all.now.value.items (no_lists MOST_WORKERS)) }
    requires outs { All (λ a. (present a.list ≡ []) × (a.spare ≡ length all.now.value.items)) outs.items }
    requires room { (workers.items ≡ []) × (vec_len outs < MOST_WORKERS) × (vec_len outs ≤ vec_capacity workers) }
    ensures pass { IsPassOf jobs.now.queue pass.new × IsCaller all.now.value.items (vec_len outs) (view pass.new) }
    ensures each { AllByNumber (IsReady jobs.now all.now.value.items []) 1 result.items }
    ensures len { vec_len result ≡ vec_len outs }
{
    for out in outs {
        let number = workers.len() + 1;
        let theirs = jobs.queue.another::<WorkerPass>(pass);
        workers.push_reserved(Worker {
            number,
            pass: theirs,
            out,
        });
    }
    workers
}

// One worker, from its first job to the pop that finds nothing.
fn worker_at_end<W: Work, G: Gate, R: Wait>(
    rt: &R,
    alloc: Global,
    shift: &Shift<'_, W, G>,
    all: &Snapshot<Vec<W::Job>>,
    worker: WorkerOf<W>,
) -> WorkerOf<W>
    requires worker { IsReady shift.now.jobs.now all.now.value.items [] worker.number worker }
    requires accepts { All (λ job. W.accepts shift.now.work.now job) all.now.value.items }
    ensures { HasServed (W.allows shift.now.work.now) shift.now.jobs.now all.now.value.items [] worker.number result }
{
    let Worker {
        number,
        mut pass,
        mut out,
    } = worker;
    serve(
        rt, alloc, shift.work, shift.jobs, &mut pass, shift.crew, &mut out,
    );
    Worker { number, pass, out }
}

// The thread of a worker, or `None` if it could not be started. Its jobs are then left to the others.
fn child<'s, E, W: Work + Sync, G: Gate + Sync, R: Threads + Wait + Sync>(
    scope: &'s Scope<'s, E>,
    rt: &'s R,
    alloc: Global,
    shift: &'s Shift<'s, W, G>,
    all: &'s Snapshot<Vec<W::Job>>,
    worker: WorkerOf<W>,
) -> Child<W>
    requires worker { IsReady shift.now.jobs.now all.now.value.items [] worker.number worker }
    requires accepts { All (λ job. W.accepts shift.now.work.now job) all.now.value.items }
    ensures { IsChild shift.now.work.now shift.now.jobs.now all.now.value.items worker.number result }
{
    let promise = GivesBack {
        number: worker.number,
        work: Snapshot::of(shift.work),
        jobs: Snapshot::of(shift.jobs),
        all: Snapshot::of(all),
    };
    let task = move || -> WorkerOf<W>
        requires { IsReady shift.now.jobs.now all.now.value.items [] worker.number worker × All (λ job. W.accepts shift.now.work.now job) all.now.value.items }
        ensures { HasServed (W.allows shift.entry.now.work.now) shift.entry.now.jobs.now all.entry.now.value.items [] worker.number result }
    { worker_at_end(rt, alloc, shift, all, worker) };
    let stack = Stack::new().stack_size(WORKER_STACK);
    match stack.spawn_scoped_with(scope, promise, task) {
        Ok(child) => Some(child),
        Err(_refused) => None,
    }
}

/// Starts the threads of the workers.
pub(crate) fn start<'s, E, W: Work + Sync, G: Gate + Sync, R: Threads + Wait + Sync>(
    scope: &'s Scope<'s, E>,
    rt: &'s R,
    alloc: Global,
    shift: &'s Shift<'s, W, G>,
    all: &'s Snapshot<Vec<W::Job>>,
    workers: Vec<WorkerOf<W>>,
    mut children: Vec<Child<W>>,
) -> Vec<Child<W>>
    requires workers { AllByNumber (IsReady shift.now.jobs.now all.now.value.items []) 1 workers.items }
    requires room { (children.items ≡ []) × (vec_len workers ≤ vec_capacity children) }
    requires accepts { All (λ job. W.accepts shift.now.work.now job) all.now.value.items }
    ensures each { AllByNumber (IsChild shift.now.work.now shift.now.jobs.now all.now.value.items) 1 result.items }
    ensures len { vec_len result ≡ vec_len workers }
{
    for worker in workers {
        children.push_reserved(child(scope, rt, alloc, shift, all, worker));
    }
    children
}

// What a worker gives back when it is joined, or `None` if it was not started.
fn join<W: Work, G, R: Threads>(
    rt: &R,
    shift: &Shift<'_, W, G>,
    all: &Snapshot<Vec<W::Job>>,
    child: Child<W>,
) -> Option<WorkerOf<W>>
    ensures { (number : ℕ) → IsChild shift.now.work.now shift.now.jobs.now all.now.value.items number child → HasServedIfStarted (W.allows shift.now.work.now) shift.now.jobs.now all.now.value.items number result }
{
    match child {
        Some(child) => Some(child.join(rt)),
        None => None,
    }
}

/// What each worker gives back when it is joined, in the order of the workers.
pub(crate) fn join_all<W: Work, G, R: Threads>(
    rt: &R,
    shift: &Shift<'_, W, G>,
    all: &Snapshot<Vec<W::Job>>,
    children: Vec<Child<W>>,
    mut back: Vec<Option<WorkerOf<W>>>,
) -> Vec<Option<WorkerOf<W>>>
    requires children { AllByNumber (IsChild shift.now.work.now shift.now.jobs.now all.now.value.items) 1 children.items }
    requires room { (back.items ≡ []) × (vec_len children ≤ vec_capacity back) }
    ensures each { AllByNumber (HasServedIfStarted (W.allows shift.now.work.now) shift.now.jobs.now all.now.value.items) 1 result.items }
    ensures len { vec_len result ≡ vec_len children }
{
    for child in children {
        back.push_reserved(join(rt, shift, all, child));
    }
    back
}

// Takes in the pass of a worker that was started, and returns its answers.
fn take_one<W: Work, G>(
    shift: &Shift<'_, W, G>,
    all: &Snapshot<Vec<W::Job>>,
    pass: &mut JobPass<W::Job, W::Done, W::Fault>,
    worker: Option<WorkerOf<W>>,
) -> Option<Answers<W::Done, W::Fault>>
    requires pass { IsPassOf shift.now.jobs.now.queue pass.old × HasList (view pass.old) }
    requires worker { IfSome worker (λ w. IsPassOf shift.now.jobs.now.queue w.pass) }
    ensures pass { IsPassOf shift.now.jobs.now.queue pass.new }
    ensures took { (number : ℕ) → HasServedIfStarted (W.allows shift.now.work.now) shift.now.jobs.now all.now.value.items number worker → TookInFrom number (view pass.old) (view pass.new) (result ∷ []) }
    ensures out { result ≡ out_of worker }
{
    let Some(
        Worker {
            number: _number,
            pass: theirs,
            out,
        },
    ) = worker
    else {
        return None;
    };
    shift.jobs.queue.absorb::<WorkerPass>(pass, theirs);
    Some(out)
}

/// Takes in the passes of the workers that were started, and returns the answers of each worker.
pub(crate) fn take_in<W: Work, G>(
    shift: &Shift<'_, W, G>,
    all: &Snapshot<Vec<W::Job>>,
    pass: &mut JobPass<W::Job, W::Done, W::Fault>,
    workers: Vec<Option<WorkerOf<W>>>,
    mut outs: Vec<Option<Answers<W::Done, W::Fault>>>,
) -> Vec<Option<Answers<W::Done, W::Fault>>>
    requires pass { IsPassOf shift.now.jobs.now.queue pass.old × HasList (view pass.old) }
    requires workers { AllByNumber (HasServedIfStarted (W.allows shift.now.work.now) shift.now.jobs.now all.now.value.items) 1 workers.items }
    requires room { (outs.items ≡ []) × (vec_len workers ≤ vec_capacity outs) }
    ensures pass { IsPassOf shift.now.jobs.now.queue pass.new × TookIn (view pass.old) (view pass.new) result.items }
    ensures outs { result.items ≡ map out_of workers.items }
    ensures len { vec_len result ≡ vec_len workers }
{
    for worker in workers {
        outs.push_reserved(take_one(shift, all, pass, worker));
    }
    outs
}
