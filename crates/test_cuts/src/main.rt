//! Replays the batches of scripts on trees in pieces. Each flush is cut into jobs; these are run one by one, in ascending or descending order, and their
//! results are filled in. Each flush is also run by crews. Every resulting tree is compared with the tree after the flush as a whole.
//!
//! The file `scripts` names the scripts, one a line; only their `table` and `batch` commands are used. If words are given, they name the scripts instead. With
//! the word `time` before them, flushes are timed instead.
#![tactic(auto)]

mod batches;
mod crews;
mod odd;
mod pieces;
mod replays;
mod timing;
mod tree_text;

use anyhow::{Context, Result};
use replays::replay;
use std::rt::{Clock, Env, Files};
use std::sync::Wait;
use std::thread::Threads;
use std::{env, fs};
use timing::time;

// Replays a script.
fn replay_file<R: Files + Print + AllocGlobal + Threads + Wait + Sync>(
    rt: &R,
    name: &str,
) -> Result<()> {
    let script = fs::read(rt, name).context(format_args!("reading {name}"))?;
    replay(rt, name, script.as_slice()).context(format_args!("replaying {name}"))
}

// Replays the scripts that the file `scripts` names.
fn replay_all<R: Files + Print + AllocGlobal + Threads + Wait + Sync>(rt: &R) -> Result<()> {
    let names = fs::read_to_string(rt, "scripts").context("reading the names of the scripts")?;
    for name in names.as_str().lines() {
        replay_file(rt, name)?;
    }
    Ok(())
}

// Times the flushes of a script.
fn time_file<R: Clock + Files + Print + AllocGlobal>(rt: &R, name: &str) -> Result<()> {
    let script = fs::read(rt, name).context(format_args!("reading {name}"))?;
    println!(rt; "{name}")?;
    time(rt, script.as_slice()).context(format_args!("timing {name}"))
}

fn run<R: Clock + Env + Files + Print + AllocGlobal + Threads + Wait + Sync>(rt: &R) -> Result<()> {
    let mut words = env::args(rt).context("reading the words")?;
    let _program = words.next();
    let Some(first) = words.next() else {
        return replay_all(rt);
    };
    if first.as_str() != "time" {
        replay_file(rt, first.as_str())?;
        for name in words {
            replay_file(rt, name.as_str())?;
        }
        return Ok(());
    }
    for name in words {
        time_file(rt, name.as_str())?;
    }
    Ok(())
}

fn main(rt: HostRuntime) -> Result<()> {
    run(&rt)
}
