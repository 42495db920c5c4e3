//! Crews: how many workers run jobs, how jobs are cut, and what is called around each job.
ghost use Rattle.std.specs.Prelude.{◌≡◌, ◌<◌, IfErr, IfOk, max, min};
ghost use Rattle.bt_value.specs.declared.refusal.Refusal.TheVariants.{BadCrew};
ghost use Rattle.bt_gang.specs.Crews.{IsCrew};

use bt_value::Refusal;

/// The most workers of a crew.
pub const MOST_WORKERS: usize = 64;
/// The largest depth at which a tree is cut into jobs.
pub const DEEPEST_CUT: usize = 6;
/// The largest grain of a crew.
pub const LARGEST_GRAIN: usize = 65_536;

/// What a worker calls before and after it runs a job, with the job's number. The worker holds no lock during the calls.
pub trait Gate {
    fn enter(&self, job: usize);

    fn leave(&self, job: usize);
}

/// Does nothing.
#[derive(Drop)]
pub struct NoGate;

impl Gate for NoGate {
    fn enter(&self, _job: usize) {}

    fn leave(&self, _job: usize) {}
}

impl<G: Gate> Gate for &G {
    fn enter(&self, job: usize) {
        (**self).enter(job);
    }

    fn leave(&self, job: usize) {
        (**self).leave(job);
    }
}

// Any gate that workers may share, for callers that need one type for all gates.
impl Gate for &(dyn Gate + Sync) {
    fn enter(&self, job: usize) {
        (**self).enter(job);
    }

    fn leave(&self, job: usize) {
        (**self).leave(job);
    }
}

/// The number of workers, including the caller; the depth at which trees are cut into jobs (`cut`); the smallest number of messages
/// for which a packet is cut into jobs (`grain`); and what is called around each job.
#[derive(Drop)]
pub struct Crew<G> {
    pub workers: usize,
    pub cut: usize,
    pub grain: usize,
    pub gate: G,
    pub ghost sizes: { IsCrew workers cut grain },
}

impl<G: Drop> Crew<G> {
    /// A crew of 1 to 64 workers, with a cut of 1 to 6 and a grain of 1 to 65,536, or `BadCrew`.
    pub fn new(workers: usize, cut: usize, grain: usize, gate: G) -> Result<Crew<G>, Refusal>
        ensures ok { IfOk result (λ crew. (crew.workers ≡ workers) × (crew.cut ≡ cut) × (crew.grain ≡ grain) × (crew.gate ≡ gate)) }
        ensures refused { IfErr result (λ e. (e ≡ BadCrew) × ¬ (IsCrew workers cut grain)) }
    {
        let few = 1 <= workers && workers <= MOST_WORKERS;
        let shallow = 1 <= cut && cut <= DEEPEST_CUT;
        let fine = 1 <= grain && grain <= LARGEST_GRAIN;
        if few && shallow && fine {
            return Ok(Crew {
                workers,
                cut,
                grain,
                gate,
            });
        }
        Err(Refusal::BadCrew)
    }
}

impl<G> Crew<G> {
    /// The same workers, cut and grain, without the gate. It is for jobs that are not subtrees, which a gate does not see.
    pub fn without_gate(&self) -> Crew<NoGate>
        ensures sizes { (result.workers ≡ self.now.workers) × (result.cut ≡ self.now.cut) × (result.grain ≡ self.now.grain) }
    {
        Crew {
            workers: self.workers,
            cut: self.cut,
            grain: self.grain,
            gate: NoGate,
        }
    }

    /// The same cut, grain and gate, with at most this many workers and at least one.
    pub fn with_at_most(&self, workers: usize) -> Crew<&G>
        ensures workers { result.workers ≡ max 1 (min self.now.workers workers) }
        ensures sizes { (result.cut ≡ self.now.cut) × (result.grain ≡ self.now.grain) }
        ensures gate { result.gate.now ≡ self.now.gate }
    {
        Crew {
            workers: self.workers.min(workers).max(1),
            cut: self.cut,
            grain: self.grain,
            gate: &self.gate,
        }
    }
}
