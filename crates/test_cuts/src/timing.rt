//! Timing the flushes of a script, as a whole and in pieces.
ghost use Rattle.std.specs.Prelude.{◌≤◌};

use crate::batches::Batches;
use crate::pieces::Turn;
use crate::replays::divided;
use anyhow::Result;
use bt_gang::DEEPEST_CUT;
use bt_messages::Packet;
use bt_node::Tree;
use bt_plan::Mode;
use bt_rowtype::Row;
use std::alloc::Global;
use std::rt::Clock;
use std::time::{Duration, Instant};

/// The number of times that each way is timed.
const ROUNDS: usize = 9;

// A tree after a flush: as a whole at depth 0, otherwise in pieces.
fn flushed(alloc: Global, tree: Tree<Row>, packet: Packet<Row>, depth: usize) -> Result<Tree<Row>>
    requires { depth ≤ DEEPEST_CUT }
{
    if depth == 0 {
        return Ok(tree.sink(alloc, packet)?);
    }
    divided(alloc, tree, packet, depth, Mode::Absorb, Turn::Rising)
}

// The same, and the time that it takes.
fn timed<R: Clock + AllocGlobal>(
    rt: &R,
    tree: Tree<Row>,
    packet: Packet<Row>,
    depth: usize,
) -> Result<(Tree<Row>, Duration)>
    requires { depth ≤ DEEPEST_CUT }
{
    let start = match Instant::now(rt) {
        Ok(start) => start,
        Err(error) => {
            drop(tree);
            drop(packet);
            return Err(error.into());
        }
    };
    let tree = flushed(rt.alloc(), tree, packet, depth)?;
    match start.elapsed(rt) {
        Ok(time) => Ok((tree, time)),
        Err(error) => {
            drop(tree);
            Err(error.into())
        }
    }
}

// The time of all flushes of a script.
fn time_once<R: Clock + AllocGlobal>(rt: &R, table: &Batches<'_>, depth: usize) -> Result<Duration>
    requires { depth ≤ DEEPEST_CUT }
{
    let alloc = rt.alloc();
    let mut tree = Tree::empty(alloc, table.shape());
    let mut time = Duration::ZERO;
    for items in table.items() {
        if let Some(packet) = table.packet(alloc, items)? {
            let (after, taken) = timed(rt, tree, packet, depth)?;
            tree = after;
            time = time.saturating_add(taken);
        }
    }
    drop(tree);
    Ok(time)
}

// The shortest time of all flushes of a script at each depth up to 3, of several rounds; each round times all depths.
fn least_times<R: Clock + AllocGlobal>(rt: &R, table: &Batches<'_>) -> Result<[Duration; 4]> {
    let mut least = [Duration::MAX; 4];
    for _ in 0..ROUNDS {
        for depth in 0..4usize {
            least[depth] = least[depth].min(time_once(rt, table, depth)?);
        }
    }
    Ok(least)
}

/// Prints the time of all flushes of a script, as a whole, which is depth 0, and at each depth up to 3.
pub(crate) fn time<R: Clock + Print + AllocGlobal>(rt: &R, script: &[u8]) -> Result<()> {
    let table = Batches::read(rt.alloc(), script)?;
    let least = least_times(rt, &table);
    drop(table);
    let least = least?;
    for depth in 0..4usize {
        println!(rt; "  depth {depth}: {} us", least[depth].as_micros())?;
    }
    Ok(())
}
