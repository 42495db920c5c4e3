//! Who works on the calls of a table: the caller alone, or a crew.
ghost use Rattle.std.specs.Prelude.{◌≡◌, ◌≢◌, ◌≤◌, ◌+◌, ◌++◌, IfErr, IfOk, IsErrOf, None, OnErr, OnOk, Some, length, map};
ghost use Rattle.std.specs.List.{All};
ghost use Rattle.bt_message.specs.Messages.{sorted_batch};
ghost use Rattle.bt_flush.specs.Drains.{drained, rebuilt};
ghost use Rattle.bt_form.specs.Flushes.{holds};
ghost use Rattle.bt_batch.specs.Batches.{batch_refusals, messages_of};
ghost use Rattle.bt_fanout.specs.Effects.{effects_within, entry_effect, entry_meaning, row_effect, row_meaning};
ghost use Rattle.bt_fanout.specs.Entries.{IsWithin};
ghost use Rattle.bt_fanout.specs.Promises.{IsBuildStep};
ghost use Rattle.bt_fanout.specs.Targets.{SuitAll, packet_of};
ghost use Rattle.bt_gather.specs.Rounds.{all_sunk};
ghost use Rattle.bt_value.specs.Refusals.{lowest};
ghost use Rattle.bt_value.specs.declared.refusal.Refusal.TheVariants as refusal;
ghost use Rattle.bt_table.specs.Calls.{IsRefused, IsStep, Load};
ghost use Rattle.bt_table.specs.Standing.{IsConsistent};
ghost use Rattle.bt_table.specs.Tables.{Lost};

use crate::reply::Reply;
use crate::table::Table;
use bt_batch::read_packet;
use bt_fanout::{
    BuildStep, Cover, IndexDef, IndexTarget, build_step, build_step_alone, index_packets,
};
use bt_gang::{Context, Crew, Gate, NoGate};
use bt_gather::{MOST_TREES, drain, sink};
use bt_load::{InThreads, InTurn};
use bt_messages::{Entry, Packet};
use bt_node::Tree;
use bt_portions::rebuild;
use bt_row::{Row, Schema};
use bt_rowtype::Item;
use bt_value::Refusal;
use std::alloc::{AllocError, Global};
use std::sync::Wait;
use std::thread::Threads;

/// Who works on the calls of a table. A library for C may not start threads, and a program has a crew. Code that is generic in a workforce is written once for
/// both, and starts threads and waits only if its workforce does. The calls have the same clauses for either.
///
/// There are two implementations: [`Alone`](crate::Alone), and [`Crew`], if the runtime has threads. A crew has no gate, or a borrowed one of type
/// `&(dyn Gate + Sync)`. Inside an `impl` it is not known that all workers may call the methods of a type parameter, so the type of the gate has to be named.
pub trait Workforce<T> {
    /// What is required of a workforce: of a crew, that its workers may share the runtime.
    ghost accepts: { Self → Type 0 };

    /// The packet of a batch: the messages that its records encode, or the lowest refusal that applies.
    fn read_packet(
        &self,
        rt: &T,
        alloc: Global,
        schema: &Schema,
        items: &[Item<'_>],
    ) -> Result<Packet<Row>, Refusal>
        requires ready { accepts self.now }
        ensures packet { IfOk result (λ packet. packet ≡ sorted_batch (messages_of schema.now items.now)) }
        ensures allowed { OnOk result (lowest (batch_refusals schema.now items.now) ≡ None) }
        ensures refused { IfErr result (λ r. r ≢ refusal.OutOfMemory → lowest (batch_refusals schema.now items.now) ≡ Some r) };

    /// The packets of indexes for a packet of rows, which the tree does not have yet. Keys that the cover does not cover are not looked up.
    fn index_packets(
        &self,
        rt: &T,
        alloc: Global,
        tree: &Tree<Row>,
        packet: &Packet<Row>,
        cover: &Cover,
        indexes: &[IndexTarget<'_>],
    ) -> Result<Vec<Packet<Entry>>, AllocError>
        requires ready { accepts self.now }
        requires suits { SuitAll indexes.now (effects_within cover.now packet.now (holds row_effect tree.now.1)) }
        ensures packets { IfOk result (λ packets. packets.items ≡ map (packet_of (effects_within cover.now packet.now (holds row_effect tree.now.1))) indexes.now) };

    /// A step of building an index, which reads at most `count` rows of a tree that the index does not cover yet.
    fn build_step(
        &self,
        rt: &T,
        alloc: Global,
        def: &IndexDef,
        cover: &Cover,
        tree: &Tree<Row>,
        count: usize,
    ) -> Result<BuildStep, AllocError>
        requires ready { accepts self.now }
        requires within { All (λ row. IsWithin def.now (length row.1)) (holds row_effect tree.now.1) }
        ensures step { IfOk result (IsBuildStep def.now count cover.now (holds row_effect tree.now.1)) };

    /// Each tree after its packet. An `Err` keeps nothing of them.
    fn sink(
        &self,
        rt: &T,
        alloc: Global,
        rows: Vec<(Tree<Row>, Packet<Row>)>,
        entries: Vec<(Tree<Entry>, Packet<Entry>)>,
    ) -> Result<(Vec<Tree<Row>>, Vec<Tree<Entry>>), AllocError>
        requires ready { accepts self.now }
        requires few { length rows.items + length entries.items ≤ MOST_TREES }
        ensures rows { IfOk result (λ trees. trees.0.items ≡ all_sunk row_meaning rows.items) }
        ensures entries { IfOk result (λ trees. trees.1.items ≡ all_sunk entry_meaning entries.items) };

    /// A tree of rows after all its messages have moved down to the leaves. An `Err` keeps nothing of it.
    fn drain_rows(&self, rt: &T, alloc: Global, tree: Tree<Row>) -> Result<Tree<Row>, AllocError>
        requires ready { accepts self.now }
        ensures tree { IfOk result (λ dry. dry ≡ (tree.0, drained row_meaning tree.0 tree.1)) };

    /// The tree of an index after all its messages have moved down to the leaves. An `Err` keeps nothing of it.
    fn drain_entries(
        &self,
        rt: &T,
        alloc: Global,
        tree: Tree<Entry>,
    ) -> Result<Tree<Entry>, AllocError>
        requires ready { accepts self.now }
        ensures tree { IfOk result (λ dry. dry ≡ (tree.0, drained entry_meaning tree.0 tree.1)) };

    /// A packed tree of the contents of a tree of rows.
    fn rebuild_rows(&self, rt: &T, alloc: Global, tree: &Tree<Row>) -> Result<Tree<Row>, AllocError>
        requires ready { accepts self.now }
        ensures tree { IfOk result (λ anew. anew ≡ (tree.now.0, rebuilt row_effect tree.now.0 tree.now.1)) };

    /// A packed tree of the contents of an index's tree.
    fn rebuild_entries(
        &self,
        rt: &T,
        alloc: Global,
        tree: &Tree<Entry>,
    ) -> Result<Tree<Entry>, AllocError>
        requires ready { accepts self.now }
        ensures tree { IfOk result (λ anew. anew ≡ (tree.now.0, rebuilt entry_effect tree.now.0 tree.now.1)) };

    /// Loads the rows of a CSV text into a table, as [`Table::load`] says.
    fn load(&self, rt: &T, alloc: Global, table: &mut Table, text: &[u8]) -> Result<Reply, Refusal>
        requires ready { accepts self.now }
        ensures done { IfOk result (IsStep table.old table.new (Load text.now)) }
        ensures refused { IfErr result (IsRefused table.old table.new (Load text.now)) }
        ensures unchanged { OnErr result (table.new ≡ table.old) }
        ensures failed { table.old ≡ Lost → IsErrOf result refusal.Failed }
        ensures consistent { IsConsistent table.new };
}

// A step of building for fewer rows is not divided, because starting threads would take longer than the workers gain.
const FEW_ROWS: usize = 16_384;

// A step of building by a crew, or by the caller alone if it is small.
fn crew_step<G: Gate + Sync, T: Threads + Wait + Sync>(
    context: &Context<'_, T, Crew<G>>,
    def: &IndexDef,
    cover: &Cover,
    tree: &Tree<Row>,
    count: usize,
) -> Result<BuildStep, AllocError>
    requires { All (λ row. IsWithin def.now (length row.1)) (holds row_effect tree.now.1) }
    ensures { IfOk result (IsBuildStep def.now count cover.now (holds row_effect tree.now.1)) }
{
    if count < FEW_ROWS {
        return build_step_alone(context.alloc, def, cover, tree, count);
    }
    build_step(context, def, cover, tree, count)
}

// Loads by at most this many threads of a runtime, or by the caller alone.
fn crew_load<T: Threads + Sync>(
    rt: &T,
    alloc: Global,
    table: &mut Table,
    text: &[u8],
    workers: usize,
) -> Result<Reply, Refusal>
    ensures done { IfOk result (IsStep table.old table.new (Load text.now)) }
    ensures refused { IfErr result (IsRefused table.old table.new (Load text.now)) }
    ensures unchanged { OnErr result (table.new ≡ table.old) }
    ensures failed { table.old ≡ Lost → IsErrOf result refusal.Failed }
    ensures consistent { IsConsistent table.new }
{
    if workers > 1 {
        return table.load(&InThreads { rt, workers }, alloc, text);
    }
    table.load(&InTurn, alloc, text)
}

impl<T: Threads + Wait + Sync> Workforce<T> for Crew<NoGate> {
    ghost use denote.Param.Send.{IsSync};

    ghost accepts = { λ _. IsSync T.row };

    fn read_packet(
        &self,
        rt: &T,
        alloc: Global,
        schema: &Schema,
        items: &[Item<'_>],
    ) -> Result<Packet<Row>, Refusal> {
        read_packet(rt, alloc, schema, items, self)
    }

    fn index_packets(
        &self,
        rt: &T,
        alloc: Global,
        tree: &Tree<Row>,
        packet: &Packet<Row>,
        cover: &Cover,
        indexes: &[IndexTarget<'_>],
    ) -> Result<Vec<Packet<Entry>>, AllocError> {
        let context = Context {
            rt,
            alloc,
            crew: self,
        };
        index_packets(&context, tree, packet, cover, indexes)
    }

    fn build_step(
        &self,
        rt: &T,
        alloc: Global,
        def: &IndexDef,
        cover: &Cover,
        tree: &Tree<Row>,
        count: usize,
    ) -> Result<BuildStep, AllocError> {
        let context = Context {
            rt,
            alloc,
            crew: self,
        };
        crew_step(&context, def, cover, tree, count)
    }

    fn sink(
        &self,
        rt: &T,
        alloc: Global,
        rows: Vec<(Tree<Row>, Packet<Row>)>,
        entries: Vec<(Tree<Entry>, Packet<Entry>)>,
    ) -> Result<(Vec<Tree<Row>>, Vec<Tree<Entry>>), AllocError> {
        sink(rt, alloc, rows, entries, self)
    }

    fn drain_rows(&self, rt: &T, alloc: Global, tree: Tree<Row>) -> Result<Tree<Row>, AllocError> {
        drain(rt, alloc, tree, self)
    }

    fn drain_entries(
        &self,
        rt: &T,
        alloc: Global,
        tree: Tree<Entry>,
    ) -> Result<Tree<Entry>, AllocError> {
        drain(rt, alloc, tree, self)
    }

    fn rebuild_rows(
        &self,
        rt: &T,
        alloc: Global,
        tree: &Tree<Row>,
    ) -> Result<Tree<Row>, AllocError> {
        rebuild(rt, alloc, tree, self)
    }

    fn rebuild_entries(
        &self,
        rt: &T,
        alloc: Global,
        tree: &Tree<Entry>,
    ) -> Result<Tree<Entry>, AllocError> {
        rebuild(rt, alloc, tree, self)
    }

    fn load(
        &self,
        rt: &T,
        alloc: Global,
        table: &mut Table,
        text: &[u8],
    ) -> Result<Reply, Refusal> {
        crew_load(rt, alloc, table, text, self.workers)
    }
}

impl<T: Threads + Wait + Sync> Workforce<T> for Crew<&(dyn Gate + Sync)> {
    ghost use denote.Param.Send.{IsSync};

    ghost accepts = { λ _. IsSync T.row };

    fn read_packet(
        &self,
        rt: &T,
        alloc: Global,
        schema: &Schema,
        items: &[Item<'_>],
    ) -> Result<Packet<Row>, Refusal> {
        read_packet(rt, alloc, schema, items, self)
    }

    fn index_packets(
        &self,
        rt: &T,
        alloc: Global,
        tree: &Tree<Row>,
        packet: &Packet<Row>,
        cover: &Cover,
        indexes: &[IndexTarget<'_>],
    ) -> Result<Vec<Packet<Entry>>, AllocError> {
        let context = Context {
            rt,
            alloc,
            crew: self,
        };
        index_packets(&context, tree, packet, cover, indexes)
    }

    fn build_step(
        &self,
        rt: &T,
        alloc: Global,
        def: &IndexDef,
        cover: &Cover,
        tree: &Tree<Row>,
        count: usize,
    ) -> Result<BuildStep, AllocError> {
        let context = Context {
            rt,
            alloc,
            crew: self,
        };
        crew_step(&context, def, cover, tree, count)
    }

    fn sink(
        &self,
        rt: &T,
        alloc: Global,
        rows: Vec<(Tree<Row>, Packet<Row>)>,
        entries: Vec<(Tree<Entry>, Packet<Entry>)>,
    ) -> Result<(Vec<Tree<Row>>, Vec<Tree<Entry>>), AllocError> {
        sink(rt, alloc, rows, entries, self)
    }

    fn drain_rows(&self, rt: &T, alloc: Global, tree: Tree<Row>) -> Result<Tree<Row>, AllocError> {
        drain(rt, alloc, tree, self)
    }

    fn drain_entries(
        &self,
        rt: &T,
        alloc: Global,
        tree: Tree<Entry>,
    ) -> Result<Tree<Entry>, AllocError> {
        drain(rt, alloc, tree, self)
    }

    fn rebuild_rows(
        &self,
        rt: &T,
        alloc: Global,
        tree: &Tree<Row>,
    ) -> Result<Tree<Row>, AllocError> {
        rebuild(rt, alloc, tree, self)
    }

    fn rebuild_entries(
        &self,
        rt: &T,
        alloc: Global,
        tree: &Tree<Entry>,
    ) -> Result<Tree<Entry>, AllocError> {
        rebuild(rt, alloc, tree, self)
    }

    fn load(
        &self,
        rt: &T,
        alloc: Global,
        table: &mut Table,
        text: &[u8],
    ) -> Result<Reply, Refusal> {
        crew_load(rt, alloc, table, text, self.workers)
    }
}
