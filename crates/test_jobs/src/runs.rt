//! What a gate observes during a run.
use bt_gang::{Crew, Gate, Work, run_jobs};
use std::alloc::Global;
use std::sync::atomic::{AtomicBool, AtomicUsize, Ordering};
use std::test::Fail;

// The steps of one worker: the job whose number is at the gate, the job whose run is over, how many jobs left the gate, and whether any step came out of order.
#[derive(Drop)]
struct Turns {
    at_gate: AtomicUsize,
    over: AtomicUsize,
    left: AtomicUsize,
    out_of_turn: AtomicBool,
}

const NO_JOB: usize = usize::MAX;

impl Turns {
    fn new() -> Turns {
        Turns {
            at_gate: AtomicUsize::new(NO_JOB),
            over: AtomicUsize::new(NO_JOB),
            left: AtomicUsize::new(0),
            out_of_turn: AtomicBool::new(false),
        }
    }

    fn note(&self, in_turn: bool) {
        if !in_turn {
            self.out_of_turn.store(true, Ordering::SeqCst);
        }
    }
}

// The work and the gate of one worker. A job is its number.
#[derive(Drop)]
struct InTurn<'a> {
    turns: &'a Turns,
}

impl Work for InTurn<'_> {
    type Job = usize;

    type Done = ();

    type Fault = ();

    ghost use Rattle.std.specs.Prelude.{⊤, refl};

    ghost accepts = { λ _ _. ⊤ };

    ghost allows = { λ _ _ _. ⊤ };

    fn run(&self, _alloc: Global, job: usize) -> Result<(), ()> {
        self.turns
            .note(self.turns.at_gate.load(Ordering::SeqCst) == job);
        self.turns.over.store(job, Ordering::SeqCst);
        Ok(())
    }

    ghost one_value = { λ _ _ a b _ _. refl };
}

impl Gate for InTurn<'_> {
    fn enter(&self, job: usize) {
        self.turns
            .note(self.turns.at_gate.swap(job, Ordering::SeqCst) == NO_JOB);
    }

    fn leave(&self, job: usize) {
        self.turns
            .note(self.turns.over.load(Ordering::SeqCst) == job);
        self.turns
            .note(self.turns.at_gate.swap(NO_JOB, Ordering::SeqCst) == job);
        self.turns.left.fetch_add(1, Ordering::SeqCst);
    }
}

#[test]
fn each_run_is_between_enter_and_leave(rt: HostRuntime) -> Result<(), Fail> {
    let alloc = rt.alloc();
    let turns = Turns::new();
    let crew = Crew::new(1, 1, 1, InTurn { turns: &turns })?;
    let jobs = vec![in alloc; 0usize, 1, 2]?;
    let ran = run_jobs(&rt, alloc, &InTurn { turns: &turns }, jobs, &crew);
    assert!(&rt; ran.is_ok());
    assert!(&rt; !turns.out_of_turn.load(Ordering::SeqCst));
    assert_eq!(&rt; turns.left.load(Ordering::SeqCst), 3);
    Ok(())
}
