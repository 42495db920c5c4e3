//! Replaying scripts in every way that a flush can be divided.
ghost use Rattle.std.specs.Prelude.{◌≤◌};

use crate::batches::Batches;
use crate::crews::{by_crew, crew_of};
use crate::odd::{Odd, misfit_of};
use crate::pieces::{Turn, in_pieces};
use crate::tree_text::{height, tree_text};
use anyhow::{Result, bail};
use bt_gang::DEEPEST_CUT;
use bt_gather::{FillError, Misfit};
use bt_messages::Packet;
use bt_node::{Siblings, Tree};
use bt_plan::{Job, Mode, Place, cut};
use bt_rowtype::Row;
use bt_script::Items;
use std::alloc::Global;
use std::sync::Wait;
use std::thread::Threads;

/// The largest number of jobs that are named.
const MOST_NAMED: usize = 4;

/// The numbers of workers of the crews.
const CREWS: [usize; 3] = [1, 2, 4];

/// Pieces of the last batch, each with a different fault.
const ODD: [Odd; 4] = [
    Odd {
        tree: 0,
        children: &[0, 2, 0],
    },
    Odd {
        tree: 0,
        children: &[1, 1, 3],
    },
    Odd {
        tree: 0,
        children: &[1],
    },
    Odd {
        tree: 1,
        children: &[0],
    },
];

/// Who runs the jobs of a flush.
#[derive(Clone, Copy)]
enum Way {
    /// The caller, one by one.
    Alone(Turn),
    /// A crew of this many workers.
    Crew(usize),
}

// The name of a fault of a flush in pieces that gives no tree.
fn fault_text(fault: FillError<Row>) -> &'static str {
    let is_memory = matches!(fault, FillError::OutOfMemory);
    drop(fault);
    if is_memory {
        return "out of memory";
    }
    "its pieces do not fill it"
}

/// A tree after a flush, or drained, in pieces.
pub(crate) fn divided(
    alloc: Global,
    tree: Tree<Row>,
    packet: Packet<Row>,
    depth: usize,
    mode: Mode,
    turn: Turn,
) -> Result<Tree<Row>>
    requires { (1 ≤ depth) × (depth ≤ DEEPEST_CUT) }
{
    match in_pieces(alloc, tree, packet, depth, mode, turn) {
        Ok(tree) => Ok(tree),
        Err(fault) => bail!("{}", fault_text(fault)),
    }
}

// A tree after a flush, or drained, in one of the ways.
fn flushed<R: AllocGlobal + Threads + Wait + Sync>(
    rt: &R,
    tree: Tree<Row>,
    packet: Packet<Row>,
    depth: usize,
    mode: Mode,
    way: Way,
) -> Result<Tree<Row>>
    requires { (1 ≤ depth) × (depth ≤ DEEPEST_CUT) }
{
    let alloc = rt.alloc();
    match way {
        Way::Alone(turn) => divided(alloc, tree, packet, depth, mode, turn),
        Way::Crew(workers) => {
            let crew = crew_of(workers, depth)?;
            Ok(by_crew(rt, alloc, tree, packet, &crew, mode)?)
        }
    }
}

// Refuses two trees that differ, and gives the height of both.
fn same_height(alloc: Global, whole: &Tree<Row>, divided: &Tree<Row>) -> Result<u64> {
    let expected = tree_text(alloc, whole)?;
    let found = tree_text(alloc, divided)?;
    if found.as_slice() != expected.as_slice() {
        bail!("its trees differ");
    }
    Ok(height(divided))
}

// A tree after flushes as a whole, the tree after the same flushes in pieces, and the largest height so far.
#[derive(Drop)]
struct Compared {
    whole: Tree<Row>,
    pieces: Tree<Row>,
    highest: u64,
}

// The same trees with their height, if they are equal.
fn alike(alloc: Global, trees: Compared) -> Result<Compared> {
    let mut trees = trees;
    match same_height(alloc, &trees.whole, &trees.pieces) {
        Ok(height) => {
            trees.highest = trees.highest.max(height);
            Ok(trees)
        }
        Err(error) => {
            drop(trees);
            Err(error)
        }
    }
}

// The packet of a batch, twice, or none if one of its lines is refused.
fn two_packets(
    alloc: Global,
    table: &Batches<'_>,
    items: &Items<'_>,
) -> Result<Option<(Packet<Row>, Packet<Row>)>> {
    let Some(packet) = table.packet(alloc, items)? else {
        return Ok(None);
    };
    let Some(same) = table.packet(alloc, items)? else {
        return Ok(None);
    };
    Ok(Some((packet, same)))
}

// Compares the trees after a packet, or after they are drained.
fn after<R: AllocGlobal + Threads + Wait + Sync>(
    rt: &R,
    trees: Compared,
    packets: (Packet<Row>, Packet<Row>),
    depth: usize,
    mode: Mode,
    way: Way,
) -> Result<Compared>
    requires { (1 ≤ depth) × (depth ≤ DEEPEST_CUT) }
{
    let alloc = rt.alloc();
    let Compared {
        whole,
        pieces,
        highest,
    } = trees;
    let (packet, same) = packets;
    let expected = match mode {
        Mode::Absorb => whole.sink(alloc, packet),
        Mode::Drain => whole.drain(alloc),
    };
    let found = flushed(rt, pieces, same, depth, mode, way);
    let whole = expected?;
    match found {
        Ok(pieces) => alike(
            alloc,
            Compared {
                whole,
                pieces,
                highest,
            },
        ),
        Err(error) => {
            drop(whole);
            Err(error)
        }
    }
}

// Compares the trees after a batch. A batch that is refused changes neither.
fn after_batch<R: AllocGlobal + Threads + Wait + Sync>(
    rt: &R,
    table: &Batches<'_>,
    items: &Items<'_>,
    trees: Compared,
    depth: usize,
    way: Way,
) -> Result<Compared>
    requires { (1 ≤ depth) × (depth ≤ DEEPEST_CUT) }
{
    match two_packets(rt.alloc(), table, items) {
        Ok(Some(packets)) => after(rt, trees, packets, depth, Mode::Absorb, way),
        Ok(None) => Ok(trees),
        Err(error) => {
            drop(trees);
            Err(error)
        }
    }
}

// The larger height of two trees that are drained.
fn drained_height<R: AllocGlobal + Threads + Wait + Sync>(
    rt: &R,
    trees: Compared,
    depth: usize,
    way: Way,
) -> Result<u64>
    requires { (1 ≤ depth) × (depth ≤ DEEPEST_CUT) }
{
    let alloc = rt.alloc();
    let none = (Packet::new(alloc), Packet::new(alloc));
    let trees = after(rt, trees, none, depth, Mode::Drain, way)?;
    let highest = trees.highest;
    drop(trees);
    Ok(highest)
}

// Compares the trees after each batch of a script, and at the end after they are drained. Returns the largest height.
fn compare<R: AllocGlobal + Threads + Wait + Sync>(
    rt: &R,
    table: &Batches<'_>,
    depth: usize,
    way: Way,
) -> Result<u64>
    requires { (1 ≤ depth) × (depth ≤ DEEPEST_CUT) }
{
    let alloc = rt.alloc();
    let mut trees = Compared {
        whole: Tree::empty(alloc, table.shape()),
        pieces: Tree::empty(alloc, table.shape()),
        highest: 1,
    };
    for items in table.items() {
        trees = after_batch(rt, table, items, trees, depth, way)?;
    }
    drained_height(rt, trees, depth, way)
}

// The tree before the last batch of a script, and the packet of that batch.
fn before_last(alloc: Global, table: &Batches<'_>) -> Result<(Tree<Row>, Packet<Row>)> {
    let mut tree = Tree::empty(alloc, table.shape());
    let mut last = Packet::new(alloc);
    for items in table.items() {
        if let Some(packet) = table.packet(alloc, items)? {
            tree = tree.sink(alloc, last)?;
            last = packet;
        }
    }
    Ok((tree, last))
}

fn path_text(alloc: Global, place: &Place) -> Result<String> {
    let mut text = String::new(alloc);
    for number in place.path.as_slice() {
        text.push_str(format!(in alloc; "/{number}")?.as_str())?;
    }
    Ok(text)
}

// If there are few jobs, each job with the path to its node and the number of its messages, and otherwise the number of jobs.
fn jobs_text(alloc: Global, jobs: &[Job<Row>]) -> Result<String> {
    if jobs.len() > MOST_NAMED {
        return Ok(format!(in alloc; " {} jobs", jobs.len())?);
    }
    let mut text = String::new(alloc);
    for job in jobs {
        let path = path_text(alloc, &job.place)?;
        text.push_str(format!(in alloc; " {path} with {},", job.packet.len())?.as_str())?;
    }
    Ok(text)
}

// The jobs of the last batch.
fn last_jobs(alloc: Global, table: &Batches<'_>, depth: usize) -> Result<Vec<Job<Row>>>
    requires { (1 ≤ depth) × (depth ≤ DEEPEST_CUT) }
{
    let (tree, packet) = before_last(alloc, table)?;
    let (holed, jobs) = cut(alloc, 0, tree, packet, depth, Mode::Absorb)?;
    drop(holed);
    Ok(jobs)
}

// Prints the jobs of the last batch.
fn print_jobs<R: Print + AllocGlobal>(rt: &R, table: &Batches<'_>, depth: usize) -> Result<()>
    requires { (1 ≤ depth) × (depth ≤ DEEPEST_CUT) }
{
    let alloc = rt.alloc();
    let jobs = last_jobs(alloc, table, depth)?;
    let text = jobs_text(alloc, jobs.as_slice())?;
    println!(rt; "  cut at {depth}:{text}")?;
    Ok(())
}

// The number of the tree of a place, and the path to it.
fn place_text(alloc: Global, place: &Place) -> Result<String> {
    let path = path_text(alloc, place)?;
    Ok(format!(in alloc; " {}{path}", place.tree)?)
}

fn misfit_text(alloc: Global, misfit: &Misfit) -> Result<String> {
    let (name, place) = match misfit {
        Misfit::Stranger(place) => ("Stranger", place),
        Misfit::Double(place) => ("Double", place),
        Misfit::Missing(place) => ("Missing", place),
    };
    Ok(format!(in alloc; "{name}{}", place_text(alloc, place)?)?)
}

fn pieces_text(alloc: Global, pieces: &[(Place, Siblings<Row>)]) -> Result<String> {
    let mut text = String::new(alloc);
    for piece in pieces {
        text.push_str(place_text(alloc, &piece.0)?.as_str())?;
    }
    Ok(text)
}

// Prints the places of odd pieces in the last batch, cut at depth 1, and the misfit, if there are such pieces.
fn print_misfit<R: Print + AllocGlobal>(rt: &R, table: &Batches<'_>, odd: Odd) -> Result<()> {
    let alloc = rt.alloc();
    let (tree, packet) = before_last(alloc, table)?;
    let Some((misfit, pieces)) = misfit_of(alloc, tree, packet, 1, odd)? else {
        return Ok(());
    };
    let places = pieces_text(alloc, pieces.as_slice());
    drop(pieces);
    let said = misfit_text(alloc, &misfit)?;
    println!(rt; "  pieces at{}: {said}", places?)?;
    Ok(())
}

// Compares the trees after each batch of a script in all ways. Returns the largest height.
fn compare_all<R: AllocGlobal + Threads + Wait + Sync>(
    rt: &R,
    table: &Batches<'_>,
    depth: usize,
) -> Result<u64>
    requires { (1 ≤ depth) × (depth ≤ DEEPEST_CUT) }
{
    compare(rt, table, depth, Way::Alone(Turn::Rising))?;
    for workers in CREWS {
        compare(rt, table, depth, Way::Crew(workers))?;
    }
    compare(rt, table, depth, Way::Alone(Turn::Falling))
}

// Replays the batches of a script, cut at each depth, with the jobs in both orders and by crews.
fn replay_batches<R: Print + AllocGlobal + Threads + Wait + Sync>(
    rt: &R,
    name: &str,
    table: &Batches<'_>,
) -> Result<()> {
    let mut highest = 1;
    for depth in 1..DEEPEST_CUT + 1 {
        highest = compare_all(rt, table, depth)?;
    }
    println!(rt; "{name}: height {highest}")?;
    for depth in 1..DEEPEST_CUT + 1 {
        print_jobs(rt, table, depth)?;
    }
    for odd in ODD {
        print_misfit(rt, table, odd)?;
    }
    Ok(())
}

/// Replays a script, cut at each depth, with the jobs in both orders and by crews, and refuses it if a tree differs.
pub(crate) fn replay<R: Print + AllocGlobal + Threads + Wait + Sync>(
    rt: &R,
    name: &str,
    script: &[u8],
) -> Result<()> {
    let table = Batches::read(rt.alloc(), script)?;
    let replayed = replay_batches(rt, name, &table);
    drop(table);
    replayed
}
