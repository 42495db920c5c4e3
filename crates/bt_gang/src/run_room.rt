//! The memory of a run.
ghost use Rattle.std.specs.Prelude.{◌≡◌, ◌+◌, ◌<◌, ◌≤◌, [], All, IfOk, vec_capacity, vec_len};
ghost use Rattle.bt_gang.specs.Numbered.{present};
ghost use Rattle.bt_gang.specs.inside.Places.{AreEmptyPlaces};

use crate::answers::Answers;
use crate::empty_places::empty_places;
use crate::slots::Slots;
use crate::work::Work;
use crate::workers::{Child, WorkerOf};
use std::alloc::{AllocError, Global};
use std::collections::LinkedList;

/// Room for the results of a run: a slot for the answer of each job, the values, and the list of numbers of each worker.
#[derive(Drop)]
pub(crate) struct Places<D, F> {
    pub slots: Slots<D, F>,
    pub taken: Vec<LinkedList<usize>>,
    pub done: Vec<D>,
}

/// All memory of a run, except the room of single answers, which goes with the jobs. It is allocated before the first push, and grows
/// with the jobs and with the workers, but not with their product.
#[derive(Drop)]
pub(crate) struct RunRoom<W: Work> {
    pub places: Places<W::Done, W::Fault>,
    pub out: Answers<W::Done, W::Fault>,
    pub outs: Vec<Answers<W::Done, W::Fault>>,
    pub workers: Vec<WorkerOf<W>>,
    pub children: Vec<Child<W>>,
    pub back: Vec<Option<WorkerOf<W>>>,
    pub answers: Vec<Option<Answers<W::Done, W::Fault>>>,
}

// Empty answers for each of k workers.
fn empty_answers<D: Drop, F: Drop>(
    alloc: Global,
    k: usize,
    n: usize,
) -> Result<Vec<Answers<D, F>>, AllocError>
    ensures each { IfOk result (λ v. All (λ a. (present a.list ≡ []) × (a.spare ≡ n)) v.items) }
    ensures len { IfOk result (λ v. vec_len v ≡ k) }
{
    let mut answers = Vec::with_capacity(alloc, k)?;
    for _ in 0..k {
        answers.push_reserved(Answers::new(alloc, n)?);
    }
    Ok(answers)
}

impl<D: Drop, F: Drop> Places<D, F> {
    fn new(alloc: Global, workers: usize, n: usize) -> Result<Places<D, F>, AllocError>
        ensures { IfOk result (AreEmptyPlaces workers n) }
    {
        Ok(Places {
            slots: empty_places(alloc, n)?,
            taken: Vec::with_capacity(alloc, workers)?,
            done: Vec::with_capacity(alloc, n)?,
        })
    }
}

impl<W: Work> RunRoom<W> {
    pub(crate) fn new(alloc: Global, workers: usize, n: usize) -> Result<RunRoom<W>, AllocError>
        requires { 0 < workers }
        ensures places { IfOk result (λ r. AreEmptyPlaces workers n r.places) }
        ensures out { IfOk result (λ r. (present r.out.list ≡ []) × (r.out.spare ≡ n)) }
        ensures outs { IfOk result (λ r. All (λ a. (present a.list ≡ []) × (a.spare ≡ n)) r.outs.items × (vec_len r.outs + 1 ≡ workers)) }
        ensures workers { IfOk result (λ r. (r.workers.items ≡ []) × (workers ≤ vec_capacity r.workers + 1)) }
        ensures children { IfOk result (λ r. (r.children.items ≡ []) × (workers ≤ vec_capacity r.children + 1)) }
        ensures back { IfOk result (λ r. (r.back.items ≡ []) × (workers ≤ vec_capacity r.back + 1)) }
        ensures answers { IfOk result (λ r. (r.answers.items ≡ []) × (workers ≤ vec_capacity r.answers + 1)) }
    {
        let others = workers - 1;
        Ok(RunRoom {
            places: Places::new(alloc, workers, n)?,
            out: Answers::new(alloc, n)?,
            outs: empty_answers(alloc, others, n)?,
            workers: Vec::with_capacity(alloc, others)?,
            children: Vec::with_capacity(alloc, others)?,
            back: Vec::with_capacity(alloc, others)?,
            answers: Vec::with_capacity(alloc, others)?,
        })
    }
}
