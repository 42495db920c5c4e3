//! Replays worked scripts, each by several crews over streams in memory, and compares every byte of their replies.
//!
//! The file `scripts` names them, one a line. A script is the file NAME, and its replies are in NAME.stdout.
#![tactic(auto)]

use anyhow::{Context, Result, bail};
use bt_shell::{Alone, Crew, NoGate, replies_to};
use std::fs;
use std::rt::Files;
use std::sync::Wait;
use std::thread::Threads;

// The workers, the cut and the grain of each crew. The first one runs packets of a batch without jobs, the others divide each packet into jobs.
const CREWS: [[usize; 3]; 5] = [[1, 1, 65_536], [1, 3, 1], [2, 2, 1], [7, 1, 1], [7, 6, 1]];

fn crew_of([workers, cut, grain]: [usize; 3]) -> Result<Crew<NoGate>> {
    match Crew::new(workers, cut, grain, NoGate) {
        Ok(crew) => Ok(crew),
        Err(_) => bail!("no crew of {workers} workers, a cut of {cut} and a grain of {grain}"),
    }
}

// Replays one script by the caller alone and by each crew, and returns the number of bytes of its replies.
fn replay<R: Files + AllocGlobal + Threads + Wait + Sync>(rt: &R, name: &str) -> Result<usize> {
    let alloc = rt.alloc();
    let script = fs::read(rt, name).context(format_args!("reading {name}"))?;
    let expected = fs::read(rt, format!(in alloc; "{name}.stdout")?.as_str()).context(format_args!(
        "reading {name}.stdout"
    ))?;
    let text = replies_to(rt, alloc, script.as_slice(), &Alone).context(format_args!(
        "running {name}"
    ))?;
    if text.as_slice() != expected.as_slice() {
        bail!("{name}: its replies differ");
    }
    for sizes in CREWS {
        let crew = crew_of(sizes)?;
        let text = replies_to(rt, alloc, script.as_slice(), &crew).context(format_args!(
            "running {name}"
        ))?;
        if text.as_slice() != expected.as_slice() {
            bail!("{name}: its replies differ with {sizes:?}");
        }
    }
    Ok(expected.len())
}

fn replay_all<R: Files + Print + AllocGlobal + Threads + Wait + Sync>(rt: &R) -> Result<()> {
    let names = fs::read_to_string(rt, "scripts").context("reading the names of the scripts")?;
    for name in names.as_str().lines() {
        let count = replay(rt, name)?;
        println!(rt; "{name}: {count} bytes")?;
    }
    Ok(())
}

fn main(rt: HostRuntime) -> Result<()> {
    replay_all(&rt)
}
