//! Jobs on threads: the board, crews, one worker's loop, and runs of all jobs.
use bt_gang::{Answers, Board, Crew, GangFault, Gate, Jobs, NoGate, Ran, Work, run_jobs, serve};
use bt_rowtype::Refusal;
use std::alloc::{AllocError, Global};
use std::collections::LinkedList;
use std::sync::Wait;
use std::sync::atomic::{AtomicBool, AtomicU64, Ordering};
use std::test::Fail;
use std::thread;
use std::thread::Threads;

// Doubles a number.
struct Doubling;

#[derive(Drop)]
struct NoFault;

impl Work for Doubling {
    type Job = u32;

    type Done = u64;

    type Fault = NoFault;

    ghost use Rattle.std.specs.Prelude.{◌≡◌, ◌*◌, MatchResult, ⊤};
    ghost use Rattle.std.proofs.Common.{sym, ◌∙◌};

    ghost accepts = { λ _ _. ⊤ };

    ghost allows = { λ _ job answer. MatchResult answer (λ d. d ≡ 2 * job) (λ _. ⊥) };

    fn run(&self, _alloc: Global, job: u32) -> Result<u64, NoFault> {
        Ok(2 * job as u64)
    }

    ghost one_value = { λ _ _ _ _ e f. e ∙ sym f };
}

// Allocates a number of bytes, and counts its runs.
#[derive(Drop)]
struct Asking {
    runs: AtomicU64,
}

// No system has this much memory.
const TOO_MUCH: usize = 1 << 62;

impl Work for Asking {
    type Job = usize;

    type Done = ();

    type Fault = AllocError;

    ghost use Rattle.std.specs.Prelude.{⊤, refl};

    ghost accepts = { λ _ _. ⊤ };

    ghost allows = { λ _ _ _. ⊤ };

    fn run(&self, alloc: Global, job: usize) -> Result<(), AllocError> {
        self.runs.fetch_add(1, Ordering::SeqCst);
        let _room: Vec<u8> = Vec::with_capacity(alloc, job)?;
        Ok(())
    }

    ghost one_value = { λ _ _ a b _ _. refl };
}

// What a job that is kept in `enter` waits for: that this job enters, or that it leaves.
#[derive(Drop)]
enum Until {
    Entered(usize),
    Left(usize),
}

// Keeps one job in `enter`, and gives up after `MOST_TURNS` attempts.
#[derive(Drop)]
struct Waits {
    kept: usize,
    until: Until,
    came: AtomicBool,
    gave_up: AtomicBool,
}

const MOST_TURNS: u64 = 10_000_000;

impl Waits {
    fn new(kept: usize, until: Until) -> Waits {
        Waits {
            kept,
            until,
            came: AtomicBool::new(false),
            gave_up: AtomicBool::new(false),
        }
    }

    fn wait(&self) {
        for _ in 0..MOST_TURNS {
            if self.came.load(Ordering::SeqCst) {
                return;
            }
            thread::yield_now();
        }
        self.gave_up.store(true, Ordering::SeqCst);
    }
}

impl Gate for Waits {
    fn enter(&self, job: usize) {
        if matches!(&self.until, Until::Entered(other) if *other == job) {
            self.came.store(true, Ordering::SeqCst);
        }
        if job == self.kept {
            self.wait();
        }
    }

    fn leave(&self, job: usize) {
        if matches!(&self.until, Until::Left(other) if *other == job) {
            self.came.store(true, Ordering::SeqCst);
        }
    }
}

#[test]
fn board_of_two_workers(rt: HostRuntime) -> Result<(), Fail> {
    let mut board = Board::new(rt.alloc(), 2, 2)?;
    assert_eq!(&rt; board.put(), 0);
    assert_eq!(&rt; board.put(), 1);
    assert_eq!(&rt; board.take(1), Some(0));
    assert_eq!(&rt; board.take(0), Some(1));
    assert_eq!(&rt; board.hand(0), 1);
    assert_eq!(&rt; board.take(0), None);
    assert_eq!(&rt; board.hand(1), 0);
    Ok(())
}

#[test]
fn crew_of_no_worker(rt: HostRuntime) {
    assert!(&rt; matches!(&Crew::new(0, 1, 1, NoGate), Err(Refusal::BadCrew)));
}

#[test]
fn deepest_cut(rt: HostRuntime) {
    assert!(&rt; Crew::new(1, 6, 1, NoGate).is_ok());
    assert!(&rt; matches!(&Crew::new(1, 7, 1, NoGate), Err(Refusal::BadCrew)));
}

#[test]
fn one_pass_over_three_jobs(rt: HostRuntime) -> Result<(), Fail> {
    let alloc = rt.alloc();
    let numbers = vec![in alloc; 5u32, 6, 7]?;
    let (jobs, mut pass) = Jobs::new(&rt, alloc, numbers)?;
    let mut out: Answers<u64, NoFault> = Answers::new(alloc, 3)?;
    let crew = Crew::new(1, 1, 1, NoGate)?;
    serve(&rt, alloc, &Doubling, &jobs, &mut pass, &crew, &mut out);
    let Answers {
        list,
        mut numbers,
        spare,
    } = out;
    assert_eq!(&rt; list.len(), 3);
    assert_eq!(&rt; spare, 0);
    for number in 0..3 {
        assert_eq!(&rt; numbers.pop_front(), Some(number));
    }
    assert!(&rt; numbers.is_empty());
    Ok(())
}

// Whether two lists together have the numbers 0, 1 and 2, each once, with 0 and 1 in different lists.
fn are_shared(taken: &[LinkedList<usize>]) -> bool {
    taken.len() == 2
        && taken[0].len() + taken[1].len() == 3
        && taken[0].contains(&0) != taken[0].contains(&1)
        && taken[1].contains(&0) != taken[1].contains(&1)
}

// Both workers run a job at the same time, and no lock is held while they do.
#[test]
fn two_jobs_at_once(rt: HostRuntime) -> Result<(), Fail> {
    let alloc = rt.alloc();
    let crew = Crew::new(2, 1, 1, Waits::new(0, Until::Entered(1)))?;
    let numbers = vec![in alloc; 5u32, 6, 7]?;
    let ran = run_jobs(&rt, alloc, &Doubling, numbers, &crew);
    assert!(&rt; !crew.gate.gave_up.load(Ordering::SeqCst));
    let Ok(Ran { done, taken }) = ran else {
        return Err(Fail::new("a fault"));
    };
    assert_eq!(&rt; done.as_slice(), [10u64, 12, 14].as_slice());
    assert!(&rt; are_shared(taken.as_slice()));
    Ok(())
}

// Five jobs on two workers. Job 1 stays in `enter` until job 3 has left. Returns the number of the faulty job, and how often any job was run; None if the gate
// gave up.
fn faulty<R: Threads + Wait + Sync>(
    rt: &R,
    alloc: Global,
    jobs: Vec<usize>,
) -> Result<Option<(usize, u64)>, Refusal> {
    let crew = Crew::new(2, 1, 1, Waits::new(1, Until::Left(3)))?;
    let work = Asking {
        runs: AtomicU64::new(0),
    };
    let ran = run_jobs(rt, alloc, &work, jobs, &crew);
    if crew.gate.gave_up.load(Ordering::SeqCst) {
        return Ok(None);
    }
    match ran {
        Err(GangFault::Job { number, .. }) => Ok(Some((number, work.runs.load(Ordering::SeqCst)))),
        _ => Ok(None),
    }
}

#[test]
fn faulty_jobs(rt: HostRuntime) -> Result<(), Fail> {
    let alloc = rt.alloc();
    let two = vec![in alloc; 1, TOO_MUCH, 1, TOO_MUCH, 1]?;
    assert_eq!(&rt; faulty(&rt, alloc, two)?, Some((1, 5)));
    let one = vec![in alloc; 1, 1, 1, TOO_MUCH, 1]?;
    assert_eq!(&rt; faulty(&rt, alloc, one)?, Some((3, 5)));
    Ok(())
}

#[test]
fn least_fault(rt: HostRuntime) -> Result<(), Fail> {
    let alloc = rt.alloc();
    let crew = Crew::new(2, 1, 1, NoGate)?;
    let work = Asking {
        runs: AtomicU64::new(0),
    };
    let jobs = vec![in alloc; 1, TOO_MUCH, TOO_MUCH]?;
    let ran = run_jobs(&rt, alloc, &work, jobs, &crew);
    assert!(&rt; matches!(&ran, Err(GangFault::Job { number: 1, .. })));
    Ok(())
}

#[test]
fn no_job(rt: HostRuntime) -> Result<(), Fail> {
    let alloc = rt.alloc();
    let crew = Crew::new(2, 1, 1, NoGate)?;
    let ran = run_jobs(&rt, alloc, &Doubling, Vec::new(alloc), &crew);
    assert!(&rt; matches!(&ran, Ok(ran) if ran.done.is_empty() && ran.taken.len() == 2));
    Ok(())
}
