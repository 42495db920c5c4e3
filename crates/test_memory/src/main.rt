//! Takes the steps of a script on a table while a preloaded library refuses allocations in the calls, and goes on with the table. A call
//! that runs out of memory is made again with all memory. Either it returns what it returns without a refusal, or the table is lost, and
//! each call on it is tried.
//!
//!     test_memory WORD ..
//!
//! A word is the number of workers that take all steps, 1 or 2; `unaided` makes the calls that allocate nothing. The file `script` has the
//! steps. If no library is preloaded, no allocation is refused.
#![tactic(auto)]

mod answers;
mod attempt;
mod lost;
mod marks;
mod steps;
mod unaided;

use anyhow::{Context, Result, bail};
use bt_gang::{Crew, NoGate};
use std::rt::{Env, Files};
use std::sync::Wait;
use std::thread::Threads;
use std::{env, fs};
use steps::{Stage, go_through};
use unaided::need_no_memory;

// The cut and the grain of a crew.
const CUT: usize = 2;

const GRAIN: usize = 1;

fn crew_of(workers: usize) -> Result<Crew<NoGate>> {
    match Crew::new(workers, CUT, GRAIN, NoGate) {
        Ok(crew) => Ok(crew),
        Err(_) => bail!("no such crew"),
    }
}

// Takes all steps with this many workers. They are rehearsed before that, because the C library allocates memory that it keeps when the first thread starts.
fn run_by<R: Print + AllocGlobal + Threads + Wait + Sync>(
    rt: &R,
    script: &[u8],
    workers: usize,
) -> Result<()> {
    let crew = crew_of(workers)?;
    for is_rehearsal in [true, false] {
        let stage = Stage {
            rt,
            crew: &crew,
            script,
            is_rehearsal,
        };
        go_through(&stage)?;
    }
    Ok(())
}

fn run<R: Env + Files + Print + AllocGlobal + Threads + Wait + Sync>(rt: &R) -> Result<()> {
    let script = fs::read(rt, "script").context("reading the script")?;
    let mut arguments = env::args(rt).context("reading the arguments")?;
    let _program = arguments.next();
    for word in arguments {
        match word.as_str() {
            "1" => run_by(rt, script.as_slice(), 1)?,
            "2" => run_by(rt, script.as_slice(), 2)?,
            "unaided" => need_no_memory(rt)?,
            other => bail!("{other} is none of 1, 2 and unaided"),
        }
    }
    Ok(())
}

fn main(rt: HostRuntime) -> Result<()> {
    run(&rt)
}
