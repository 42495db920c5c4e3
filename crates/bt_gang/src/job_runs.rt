//! Running all jobs of a call by a crew.
ghost use Rattle.std.specs.Prelude.{◌≡◌, ◌+◌, ◌≤◌, [], ◌++◌, ◌∷◌, All, IfErr, IfOk, IsSome, None, length, map, replicate, vec_capacity, vec_len};
ghost use Rattle.crossbeam_queue.specs.Passes.{view};
ghost use Rattle.bt_value.specs.Lists.{concatenation};
ghost use Rattle.bt_gang.specs.Numbered.{numbered, present};
ghost use Rattle.bt_gang.specs.Queue.{NothingWaits};
ghost use Rattle.bt_gang.specs.declared.job_runs.GangFault.TheVariants.{OutOfMemory};
ghost use Rattle.bt_gang.specs.Answers.{AllMay};
ghost use Rattle.bt_gang.specs.Run.{Answered, AreAllTaken, AreValues, EachOnce, IsLeast};
ghost use Rattle.bt_gang.specs.inside.Places.{AllBelow, AreEmptyPlaces, Filled, IsFaultAmong, answers_in, numbers_in, ok_slots, puts};
ghost use Rattle.bt_gang.specs.inside.Teams.{AreEmptyWhereAbsent, AreListsOf, HaveCome};

use crate::answers::Answers;
use crate::crew::{Crew, Gate};
use crate::jobs::{JobPass, Jobs};
use crate::run_room::{Places, RunRoom};
use crate::shift::Shift;
use crate::slots::{JobFault, Slots, is_full, place, values};
use crate::team::{AllAnswers, Team, all_answers, serve_threads};
use crate::work::Work;
use crate::workers::{Worker, split};
use std::alloc::Global;
use std::collections::LinkedList;
use std::snapshot::Snapshot;
use std::sync::Wait;
use std::thread::Threads;

/// The result of a run: the value of each job, and for each worker, with the caller first, the numbers of the jobs that it took. The
/// list of a worker that could not be started is empty.
#[derive(Drop)]
pub struct Ran<D> {
    pub done: Vec<D>,
    pub taken: Vec<LinkedList<usize>>,
}

/// Why a run returns no values: out of memory, or the fault of a job. If several jobs have a fault, it is that of the smallest number.
#[derive(Drop)]
pub enum GangFault<F> {
    OutOfMemory,
    Job { number: usize, fault: F },
}

// Puts the answers of one worker into their places. A worker that was not started has none.
fn place_some<D: Drop, F: Drop>(
    alloc: Global,
    out: Option<Answers<D, F>>,
    slots: &mut Slots<D, F>,
) -> LinkedList<usize>
    requires { AllBelow (length slots.old.items) (answers_in out) }
    ensures slots { slots.new.items ≡ puts slots.old.items (answers_in out) }
    ensures numbers { result ≡ numbers_in out }
{
    match out {
        Some(out) => place(out, slots),
        None => LinkedList::new(alloc),
    }
}

// Puts the answers of all workers into their places, in the order of the workers.
fn place_all<D: Drop, F: Drop>(
    alloc: Global,
    outs: Vec<Option<Answers<D, F>>>,
    slots: &mut Slots<D, F>,
    mut taken: Vec<LinkedList<usize>>,
) -> Vec<LinkedList<usize>>
    requires numbers { AllBelow (length slots.old.items) (concatenation (map answers_in outs.items)) }
    requires room { vec_len taken + vec_len outs ≤ vec_capacity taken }
    ensures slots { slots.new.items ≡ puts slots.old.items (concatenation (map answers_in outs.items)) }
    ensures numbers { result.items ≡ taken.items ++ map numbers_in outs.items }
    ensures len { vec_len result ≡ vec_len taken + vec_len outs }
{
    for out in outs {
        taken.push_reserved(place_some(alloc, out, slots));
    }
    taken
}

// The values, if there is one at each place, or else the first fault. An empty place means out of memory.
fn values_or_fault<D: Drop, F: Drop>(
    slots: Slots<D, F>,
    done: Vec<D>,
) -> Result<Vec<D>, GangFault<F>>
    requires { (done.items ≡ []) × (vec_len slots ≤ vec_capacity done) }
    ensures values { IfOk result (λ d. slots.items ≡ ok_slots d.items) }
    ensures fault { IfErr result (IsFaultAmong slots.items) }
{
    if !is_full(&slots) {
        return Err(GangFault::OutOfMemory);
    }
    match values(slots, done) {
        Ok(done) => Ok(done),
        Err(JobFault { number, fault }) => Err(GangFault::Job { number, fault }),
    }
}

// Puts the answers of the caller and of the others into empty places. Returns for each worker the numbers that it took.
fn place_answers<W: Work, G>(
    alloc: Global,
    shift: &Shift<'_, W, G>,
    all: &Snapshot<Vec<W::Job>>,
    mine: Answers<W::Done, W::Fault>,
    others: Vec<Option<Answers<W::Done, W::Fault>>>,
    slots: &mut Slots<W::Done, W::Fault>,
    mut taken: Vec<LinkedList<usize>>,
) -> Vec<LinkedList<usize>>
    requires may { AllMay (W.allows shift.now.work.now) all.now.value.items (present mine.list ++ concatenation (map answers_in others.items)) }
    requires slots { slots.old.items ≡ replicate (length all.now.value.items) None }
    requires room { (taken.items ≡ []) × (vec_len others + 1 ≤ vec_capacity taken) }
    ensures slots { Filled (W.allows shift.now.work.now) all.now.value.items slots.new.items (numbered (present mine.list ++ concatenation (map answers_in others.items))) }
    ensures numbers { result.items ≡ numbered (present mine.list) ∷ map numbers_in others.items }
    ensures len { vec_len result ≡ vec_len others + 1 }
{
    taken.push_reserved(place(mine, slots));
    place_all(alloc, others, slots, taken)
}

// The answers of all workers by the numbers of their jobs, and the caller's pass.
fn results<W: Work, G>(
    alloc: Global,
    shift: &Shift<'_, W, G>,
    all: &Snapshot<Vec<W::Job>>,
    answers: AllAnswers<W::Job, W::Done, W::Fault>,
    places: Places<W::Done, W::Fault>,
) -> Result<(Ran<W::Done>, JobPass<W::Job, W::Done, W::Fault>), GangFault<W::Fault>>
    requires come { HaveCome (W.allows shift.now.work.now) all.now.value.items (view answers.pass) (present answers.mine.list) answers.others.items }
    requires places { AreEmptyPlaces (vec_len answers.others + 1) (length all.now.value.items) places }
    ensures pass { IfOk result (λ r. r.1 ≡ answers.pass) }
    ensures lists { IfOk result (λ r. vec_len r.0.taken ≡ vec_len answers.others + 1) }
    ensures jobs { IfOk result (λ r. (view r.1).jobs ≡ all.now.value.items) }
    ensures taken { IfOk result (λ r. AreListsOf (view r.1) r.0.taken.items) }
    ensures absent { IfOk result (λ r. AreEmptyWhereAbsent answers.others.items r.0.taken.items) }
    ensures settled { IfOk result (λ r. NothingWaits (view r.1)) }
    ensures board { IfOk result (λ r. AreAllTaken (length all.now.value.items) r.0.taken.items) }
    ensures once { IfOk result (λ r. EachOnce (length all.now.value.items) r.0.taken.items) }
    ensures done { IfOk result (λ r. Answered (W.allows shift.now.work.now) all.now.value.items r.0.done.items) }
    ensures fault { IfErr result (IsLeast (W.allows shift.now.work.now) all.now.value.items) }
    ensures memory { IfErr result (λ fault. fault ≡ OutOfMemory → ¬ (All IsSome answers.others.items)) }
{
    let AllAnswers { pass, mine, others } = answers;
    let Places {
        mut slots,
        taken,
        done,
    } = places;
    let taken = place_answers(alloc, shift, all, mine, others, &mut slots, taken);
    match values_or_fault(slots, done) {
        Ok(done) => Ok((Ran { done, taken }, pass)),
        Err(fault) => Err(fault),
    }
}

// The result of a run without jobs: an empty list for each worker.
fn ran_nothing<D: Drop, F: Drop>(alloc: Global, workers: usize) -> Result<Ran<D>, GangFault<F>>
    ensures done { IfOk result (λ r. r.done.items ≡ []) }
    ensures len { IfOk result (λ r. vec_len r.taken ≡ workers) }
    ensures taken { IfOk result (λ r. r.taken.items ≡ replicate workers []) }
    ensures refused { IfErr result (λ fault. fault ≡ OutOfMemory) }
{
    let Ok(mut taken) = Vec::with_capacity(alloc, workers) else {
        return Err(GangFault::OutOfMemory);
    };
    for _ in 0..workers {
        taken.push_reserved(LinkedList::new(alloc));
    }
    Ok(Ran {
        done: Vec::new(alloc),
        taken,
    })
}

/// Runs all jobs by a crew. A fault does not stop the run. The values are in the order of the jobs. If there are no jobs, no thread is started.
pub fn run_jobs<W: Work + Sync, G: Gate + Sync, R: Threads + Wait + Sync>(
    rt: &R,
    alloc: Global,
    work: &W,
    jobs: Vec<W::Job>,
    crew: &Crew<G>,
) -> Result<Ran<W::Done>, GangFault<W::Fault>>
    requires accepts { All (λ job. W.accepts work.now job) jobs.items }
    ensures lists { IfOk result (λ r. vec_len r.taken ≡ crew.now.workers) }
    ensures taken { IfOk result (λ r. AreAllTaken (length jobs.items) r.taken.items) }
    ensures once { IfOk result (λ r. EachOnce (length jobs.items) r.taken.items) }
    ensures done { IfOk result (λ r. Answered (W.allows work.now) jobs.items r.done.items) }
    ensures values { IfOk result (λ r. AreValues (W.allows work.now) jobs.items r.done.items) }
    ensures fault { IfErr result (IsLeast (W.allows work.now) jobs.items) }
{
    let n = jobs.len();
    if n == 0 {
        return ran_nothing(alloc, crew.workers);
    }
    let Ok(room) = RunRoom::<W>::new(alloc, crew.workers, n) else {
        return Err(GangFault::OutOfMemory);
    };
    let all = Snapshot::of(&jobs);
    let Ok((jobs, mut pass)) = Jobs::new(rt, alloc, jobs) else {
        return Err(GangFault::OutOfMemory);
    };
    let workers = split(&jobs, &all, &mut pass, room.outs, room.workers);
    let team = Team {
        mine: Worker {
            number: 0,
            pass,
            out: room.out,
        },
        workers,
        children: room.children,
        back: room.back,
    };
    let shift = Shift {
        work,
        jobs: &jobs,
        crew,
    };
    let served = serve_threads(rt, alloc, &shift, &all, team);
    let answers = all_answers(rt, alloc, &shift, &all, served, room.answers);
    match results(alloc, &shift, &all, answers, room.places) {
        Ok((ran, _pass)) => Ok(ran),
        Err(fault) => Err(fault),
    }
}
