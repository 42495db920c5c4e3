//! What is done with a job.
ghost use Rattle.std.specs.Prelude.{◌≡◌, Result, Ok};

use std::alloc::Global;

/// A kind of work. Its jobs are owned values, and each run of a job returns a value or a fault.
pub trait Work {
    type Job: Drop + Send;

    type Done: Drop + Send;

    type Fault: Drop + Send;

    /// The jobs that it can run.
    ghost accepts: { Self → Self.Job → Type 0 };

    /// The results that the run of a job may return.
    ghost allows: { Self → Self.Job → Result Self.Done Self.Fault → Type 0 };

    fn run(&self, alloc: Global, job: Self::Job) -> Result<Self::Done, Self::Fault>
        requires { accepts self.now job }
        ensures { allows self.now job result };

    /// At most one value is allowed for a job: the job's value.
    ghost one_value: { (work : Self) (job : Self.Job) (a b : Self.Done) → allows work job (Ok a) → allows work job (Ok b) → a ≡ b };
}
