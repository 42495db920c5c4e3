//! Runs jobs on several threads. The workers take the jobs from one queue, and each job is run once.
//!
//! [`run_jobs`] runs all jobs of a call by a [`Crew`] and returns their values in order. A [`Work`] says how a job is run. [`job_values`]
//! returns only the values, for work whose only fault is a failed allocation.
//!
//! The queue of a call ([`Jobs`]) follows a [`Board`], which has the numbers of the jobs that wait, are held by workers, or were handed in.
//! For any schedule of the threads, the jobs in the queue and those that the passes took are a state that a run of the board reaches. A
//! worker runs [`serve`] with its pass. It adds an answer for each job that it takes, and ends after a pop that finds nothing.
//!
//! Room for an answer goes with its job through the queue to the worker that runs it. The memory of a run therefore grows with the number
//! of jobs and with the number of workers, but not with their product.
//!
//! [`pieces_of`] cuts a slice into pieces ([`Piece`]) of nearly equal length, one for each job.
//!
//! ```text
//! let (jobs, mut pass) = Jobs::new(&rt, alloc, numbers)?;
//! let mut out = Answers::new(alloc, 3)?;
//! let crew = Crew::new(1, 1, 1, NoGate)?;
//! serve(&rt, alloc, &Doubling, &jobs, &mut pass, &crew, &mut out);    // of three jobs: out.numbers is 0, 1, 2
//! ```
#![tactic(auto)]

mod answers;
mod board;
mod context;
mod crew;
mod empty_places;
mod job_runs;
mod jobs;
mod piece;
mod pieces;
mod rule;
mod run_room;
mod shift;
mod slots;
mod team;
mod values_of_jobs;
mod work;
mod worker_loop;
mod workers;

pub use answers::{Answer, AnswerRoom, Answers};
pub use board::Board;
pub use context::Context;
pub use crew::{Crew, DEEPEST_CUT, Gate, LARGEST_GRAIN, MOST_WORKERS, NoGate};
pub use job_runs::{GangFault, Ran, run_jobs};
pub use jobs::{JobPass, Jobs};
pub use piece::Piece;
pub use pieces::pieces_of;
pub use values_of_jobs::{job_values, most_workers};
pub use work::Work;
pub use worker_loop::serve;
