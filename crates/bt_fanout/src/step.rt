//! A step of building an index over a tree of rows.
ghost use Rattle.std.specs.Prelude.{◌≡◌, IfOk, OnOk, fold, length};
ghost use Rattle.std.specs.List.{All};
ghost use Rattle.bt_form.specs.Flushes.{holds};
ghost use Rattle.bt_fanout.specs.Covers.{next_rows};
ghost use Rattle.bt_fanout.specs.Effects.{row_effect};
ghost use Rattle.bt_fanout.specs.Entries.{IsWithin};
ghost use Rattle.bt_fanout.specs.Promises.{IsBuildStep};
ghost use Rattle.bt_fanout.specs.inside.Readings as spec;

use crate::cover::{Cover, copy_cover, next_key};
use crate::definition::IndexDef;
use crate::puts::{EntryPuts, portion_puts};
use bt_batch::sorted_messages;
use bt_gang::{Context, Crew, Gate};
use bt_keycode::Key;
use bt_messages::{Entry, Message, Packet};
use bt_node::{Tree, Visitor};
use bt_row::Row;
use std::alloc::{AllocError, Global};
use std::marker::Model;
use std::sync::Wait;
use std::thread::Threads;

/// The messages that a step of building sends to an index, the cover of the index after it, and the number of rows that it read.
#[derive(Drop)]
pub struct BuildStep {
    pub packet: Packet<Entry>,
    pub cover: Cover,
    pub read: usize,
}

// The rows that a step has read: the messages for the index in the order of the rows, the cover after them, and their number.
#[derive(Drop)]
struct StepRead {
    messages: Vec<(Key, Message<Entry>)>,
    cover: Cover,
    read: usize,
}

// How many more rows are to be read, and the key of the last row, which is copied when no more rows are to be read.
#[derive(Drop)]
struct RowCounter {
    left: usize,
    last: Option<Key>,
}

impl Model for RowCounter {
    ghost use Rattle.bt_fanout.specs.inside.Readings.{RowsRead};

    ghost Value = { RowsRead };

    ghost view = { λ counter. record { left = counter.left; last = counter.last } };
}

impl RowCounter {
    // Before the first of `count` rows.
    fn new(count: usize) -> Self
        ensures { result ≡ spec.none_read count }
    {
        RowCounter {
            left: count,
            last: None,
        }
    }
}

impl Visitor<Row> for RowCounter {
    ghost visited = { spec.after_row };

    fn visit(&mut self, alloc: Global, key: &Key, _row: &Row) -> Result<(), AllocError> {
        if self.left == 1 {
            self.last = Some(key.copy(alloc)?);
        }
        self.left = self.left.saturating_sub(1);
        Ok(())
    }
}

// Counts rows and makes their entries in one pass. A contract sees both.
#[derive(Drop)]
struct Builder<'a> {
    counter: RowCounter,
    puts: EntryPuts<'a>,
}

impl<'a> Model for Builder<'a> {
    ghost use Rattle.bt_fanout.specs.inside.Portions.{Puts};
    ghost use Rattle.bt_fanout.specs.inside.Readings.{RowsRead};

    ghost Value = { RowsRead × Puts };

    ghost view = { λ b. (b.counter, b.puts) };
}

impl<'a> Visitor<Row> for Builder<'a> {
    ghost visited = { spec.read_row };

    fn visit(&mut self, alloc: Global, key: &Key, row: &Row) -> Result<(), AllocError> {
        self.puts.visit(alloc, key, row)?;
        self.counter.visit(alloc, key, row)
    }
}

// The cover after the rows that were counted.
fn moved_cover(alloc: Global, cover: &Cover, counter: RowCounter) -> Result<Cover, AllocError>
    ensures { IfOk result (λ moved. moved ≡ spec.moved_cover cover.now counter) }
{
    let RowCounter { left, last } = counter;
    if left > 0 {
        return Ok(Cover::Whole);
    }
    match last {
        Some(last) => Ok(Cover::UpTo(last)),
        None => copy_cover(alloc, cover),
    }
}

// Reads at most `count` rows of a tree: the first that are not covered. They begin at the smallest key after the last one that is covered.
fn read_next<S: Visitor<Row>>(
    alloc: Global,
    cover: &Cover,
    tree: &Tree<Row>,
    count: usize,
    visitor: &mut S,
) -> Result<(), AllocError>
    ensures { OnOk result (visitor.new ≡ fold S.visited visitor.old (next_rows count cover.now (holds row_effect tree.now.1))) }
{
    match cover {
        Cover::Nothing => tree.walk().visit_first(alloc, None, count, visitor),
        Cover::UpTo(last) => {
            let from = next_key(alloc, last)?;
            tree.walk().visit_first(alloc, Some(&from), count, visitor)
        }
        Cover::Whole => Ok(()),
    }
}

// Reads the first `count` rows of a tree that an index does not cover yet, and makes their entries.
fn read_step(
    alloc: Global,
    def: &IndexDef,
    cover: &Cover,
    tree: &Tree<Row>,
    count: usize,
) -> Result<StepRead, AllocError>
    requires { All (λ row. IsWithin def.now (length row.1)) (holds row_effect tree.now.1) }
    ensures { IfOk result (spec.IsStepRead def.now count cover.now (holds row_effect tree.now.1)) }
{
    let mut builder = Builder {
        counter: RowCounter::new(count),
        puts: EntryPuts::new(alloc, def),
    };
    read_next(alloc, cover, tree, count, &mut builder)?;
    let Builder { counter, puts } = builder;
    let EntryPuts { messages, .. } = puts;
    let read = count - counter.left;
    let cover = moved_cover(alloc, cover, counter)?;
    Ok(StepRead {
        messages,
        cover,
        read,
    })
}

/// A step of building that is to read `count` rows of a tree: the first that the index does not cover yet. If fewer are left, it reads these, and the index
/// then covers all keys. Otherwise the index covers the keys up to the last row that was read, whether that row has an entry or not. So a step that reads
/// exactly the rows that are left does not complete the index. A step of 0 rows leaves the cover as it is, and so does each step of an index that covers all.
///
/// The step enters the tree after the last row that was read before, and leaves it after its own last row. Rows are borrowed, not copied. An `Err` means out
/// of memory. No thread starts.
pub fn build_step_alone(
    alloc: Global,
    def: &IndexDef,
    cover: &Cover,
    tree: &Tree<Row>,
    count: usize,
) -> Result<BuildStep, AllocError>
    requires { All (λ row. IsWithin def.now (length row.1)) (holds row_effect tree.now.1) }
    ensures { IfOk result (IsBuildStep def.now count cover.now (holds row_effect tree.now.1)) }
{
    let StepRead {
        messages,
        cover,
        read,
    } = read_step(alloc, def, cover, tree, count)?;
    let packet = Packet::from_batch(alloc, messages)?;
    Ok(BuildStep {
        packet,
        cover,
        read,
    })
}

// Reads the same rows as [`read_step`]. The caller counts them; then the workers of a crew make their entries, in portions of the tree.
fn read_by_crew<G: Gate + Sync, T: Threads + Wait + Sync>(
    context: &Context<'_, T, Crew<G>>,
    def: &IndexDef,
    cover: &Cover,
    tree: &Tree<Row>,
    count: usize,
) -> Result<StepRead, AllocError>
    requires { All (λ row. IsWithin def.now (length row.1)) (holds row_effect tree.now.1) }
    ensures { IfOk result (spec.IsStepRead def.now count cover.now (holds row_effect tree.now.1)) }
{
    let alloc = context.alloc;
    if context.crew.workers == 1 {
        return read_step(alloc, def, cover, tree, count);
    }
    // Called for its contract: the keys of the tree rise.
    let _root = tree.walk();
    let mut counter = RowCounter::new(count);
    read_next(alloc, cover, tree, count, &mut counter)?;
    let read = count - counter.left;
    let later = moved_cover(alloc, cover, counter)?;
    let EntryPuts { messages, .. } = portion_puts(context, def, cover, &later, tree)?;
    Ok(StepRead {
        messages,
        cover: later,
        read,
    })
}

/// A step of building as returned by [`build_step_alone`]. The caller counts the rows, and the workers of a crew read them in portions of the tree and sort
/// the messages in pieces. There is at most one worker for every four grains of messages. After an `Err` every worker has ended.
pub fn build_step<G: Gate + Sync, T: Threads + Wait + Sync>(
    context: &Context<'_, T, Crew<G>>,
    def: &IndexDef,
    cover: &Cover,
    tree: &Tree<Row>,
    count: usize,
) -> Result<BuildStep, AllocError>
    requires { All (λ row. IsWithin def.now (length row.1)) (holds row_effect tree.now.1) }
    ensures { IfOk result (IsBuildStep def.now count cover.now (holds row_effect tree.now.1)) }
{
    let StepRead {
        messages,
        cover,
        read,
    } = read_by_crew(context, def, cover, tree, count)?;
    let Context { rt, alloc, crew } = *context;
    let packet = sorted_messages(rt, alloc, messages, crew)?;
    Ok(BuildStep {
        packet,
        cover,
        read,
    })
}
