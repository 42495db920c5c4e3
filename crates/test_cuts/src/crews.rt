//! Flushes in rounds of a crew.
use anyhow::{Result, bail};
use bt_gang::{Crew, NoGate};
use bt_gather::{drain, sink};
use bt_messages::{Entry, Packet};
use bt_node::Tree;
use bt_plan::Mode;
use bt_rowtype::Row;
use std::alloc::{AllocError, Global};
use std::sync::Wait;
use std::thread::Threads;

/// A crew of `workers` workers that cuts every tree, even for a small packet.
pub(crate) fn crew_of(workers: usize, cut: usize) -> Result<Crew<NoGate>> {
    match Crew::new(workers, cut, 1, NoGate) {
        Ok(crew) => Ok(crew),
        Err(_) => bail!("no such crew"),
    }
}

// The tree after a packet, in a round of one tree.
fn after_round<R: Threads + Wait + Sync>(
    rt: &R,
    alloc: Global,
    tree: Tree<Row>,
    packet: Packet<Row>,
    crew: &Crew<NoGate>,
) -> Result<Tree<Row>, AllocError> {
    let rows = vec![in alloc; (tree, packet)]?;
    let none: Vec<(Tree<Entry>, Packet<Entry>)> = Vec::new(alloc);
    let (mut rows, entries) = sink(rt, alloc, rows, none, crew)?;
    drop(entries);
    match rows.pop() {
        Some(tree) => Ok(tree),
        None => unreachable!(),
    }
}

/// The tree after a flush by a crew, or drained by it.
pub(crate) fn by_crew<R: Threads + Wait + Sync>(
    rt: &R,
    alloc: Global,
    tree: Tree<Row>,
    packet: Packet<Row>,
    crew: &Crew<NoGate>,
    mode: Mode,
) -> Result<Tree<Row>, AllocError> {
    match mode {
        Mode::Absorb => after_round(rt, alloc, tree, packet, crew),
        Mode::Drain => {
            drop(packet);
            drain(rt, alloc, tree, crew)
        }
    }
}
