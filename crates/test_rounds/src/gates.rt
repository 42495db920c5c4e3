//! Gates that observe which jobs are run.
use bt_gang::Gate;
use std::sync::atomic::{AtomicBool, AtomicUsize, Ordering};
use std::thread;

const TURNS: u64 = 10_000_000;

/// Counts the jobs that enter. It keeps job 0 until job 1 has entered, or until it gives up.
#[derive(Drop)]
pub(crate) struct Meeting {
    entered: AtomicUsize,
    met: AtomicBool,
    gave_up: AtomicBool,
}

impl Meeting {
    pub(crate) fn new() -> Meeting {
        Meeting {
            entered: AtomicUsize::new(0),
            met: AtomicBool::new(false),
            gave_up: AtomicBool::new(false),
        }
    }

    /// How many jobs have entered, if two of them were run at the same time.
    pub(crate) fn entered(&self) -> Option<usize> {
        if self.gave_up.load(Ordering::SeqCst) {
            return None;
        }
        Some(self.entered.load(Ordering::SeqCst))
    }
}

impl Gate for Meeting {
    fn enter(&self, job: usize) {
        self.entered.fetch_add(1, Ordering::SeqCst);
        if job == 1 {
            self.met.store(true, Ordering::SeqCst);
        }
        if job != 0 {
            return;
        }
        for _ in 0..TURNS {
            if self.met.load(Ordering::SeqCst) {
                return;
            }
            thread::yield_now();
        }
        self.gave_up.store(true, Ordering::SeqCst);
    }

    fn leave(&self, _job: usize) {}
}

/// Counts the jobs that enter.
#[derive(Drop)]
pub(crate) struct Counting {
    pub(crate) entered: AtomicUsize,
}

impl Gate for Counting {
    fn enter(&self, _job: usize) {
        self.entered.fetch_add(1, Ordering::SeqCst);
    }

    fn leave(&self, _job: usize) {}
}
