//! The board: the numbers of the jobs that wait, are held by workers, or were handed in.
ghost use Rattle.std.specs.Prelude.{◌≡◌, ◌≢◌, ◌<◌, [], ◌∷◌, IfNone, IfOk, IfSome, None, Some, length};
ghost use Rattle.bt_gang.specs.Board.{IsAccounted, after_hand, after_put, after_take, held_job, start};

use crate::empty_places::empty_places;
use std::alloc::{AllocError, Global};
use std::marker::Model;

/// Which jobs wait, which one each worker holds, which ones it took, and which ones were handed in. Jobs are taken in the order in which
/// they were put. Only `new` takes memory.
#[derive(Drop)]
pub struct Board {
    jobs: usize,
    put: usize,
    // the worker that took each job, in the order of the jobs
    takers: Vec<usize>,
    held: Vec<Option<usize>>,
    handed: Vec<usize>,
}

impl Model for Board {
    ghost use Rattle.std.specs.Prelude.{◌≤◌, length, vec_capacity};
    ghost use Rattle.bt_gang.specs.Board.{IsReached, Roomy};
    ghost use Rattle.bt_gang.specs.inside.Takers.{kept_state};

    ghost Value = { Roomy };

    ghost view = { λ b. record { jobs = b.jobs; state = kept_state b.put b.takers.items b.held.items b.handed.items } };

    ghost invariant = { λ b.
        IsReached (length b.held.items) (kept_state b.put b.takers.items b.held.items b.handed.items)
        × (b.put ≤ b.jobs) × (length b.takers.items ≤ b.put) × (b.jobs ≤ vec_capacity b.takers) × (b.jobs ≤ vec_capacity b.handed) };
}

impl Board {
    /// A board for this many workers, with room for this many jobs and with none on it.
    pub fn new(alloc: Global, workers: usize, jobs: usize) -> Result<Board, AllocError>
        ensures { IfOk result (λ b. (b.jobs ≡ jobs) × (b.state ≡ start workers)) }
    {
        let takers = Vec::with_capacity(alloc, jobs)?;
        let handed = Vec::with_capacity(alloc, jobs)?;
        let held = empty_places(alloc, workers)?;
        Ok(Board {
            jobs,
            put: 0,
            takers,
            held,
            handed,
        })
    }

    /// Adds the next job at the end, and returns its number. Jobs are numbered from 0.
    pub fn put(&mut self) -> usize
        requires { self.old.state.put < self.old.jobs }
        ensures number { result ≡ self.old.state.put }
        ensures put { self.new.state ≡ after_put self.old.state }
        ensures room { self.new.jobs ≡ self.old.jobs }
        ensures accounted { IsAccounted self.new.state }
    {
        let number = self.put;
        self.put += 1;
        number
    }

    /// Gives the first job that waits to a worker that holds none. Returns `None` only if no job waits.
    pub fn take(&mut self, worker: usize) -> Option<usize>
        requires worker { worker < length self.old.state.held }
        requires free { held_job worker self.old.state ≡ None }
        ensures front { IfSome result (λ front. self.old.state.waiting ≡ front ∷ self.new.state.waiting) }
        ensures taken { IfSome result (λ front. self.new.state ≡ after_take worker front self.new.state.waiting self.old.state) }
        ensures nothing { IfNone result ((self.old.state.waiting ≡ []) × (self.new.state ≡ self.old.state)) }
        ensures room { self.new.jobs ≡ self.old.jobs }
        ensures accounted { IsAccounted self.new.state }
    {
        let front = self.takers.len();
        if front == self.put {
            return None;
        }
        self.takers.push_reserved(worker);
        self.held[worker] = Some(front);
        Some(front)
    }

    /// Hands in the job that a worker holds, and returns its number.
    pub fn hand(&mut self, worker: usize) -> usize
        requires worker { worker < length self.old.state.held }
        requires holds { held_job worker self.old.state ≢ None }
        ensures job { held_job worker self.old.state ≡ Some result }
        ensures handed { self.new.state ≡ after_hand worker result self.old.state }
        ensures room { self.new.jobs ≡ self.old.jobs }
        ensures accounted { IsAccounted self.new.state }
    {
        let Some(job) = self.held[worker] else {
            unreachable!()
        };
        self.held[worker] = None;
        self.handed.push_reserved(job);
        job
    }
}
