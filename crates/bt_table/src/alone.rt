//! The caller alone: a workforce without threads.
ghost use Rattle.std.specs.Prelude.{◌≡◌, IfOk};
ghost use Rattle.bt_message.specs.Meanings.{meaning_of};
ghost use Rattle.bt_gather.specs.Rounds.{all_sunk};

use crate::reply::Reply;
use crate::table::Table;
use crate::workforce::Workforce;
use bt_batch::read_packet_alone;
use bt_fanout::{BuildStep, Cover, IndexDef, IndexTarget, build_step_alone, index_packets_alone};
use bt_load::InTurn;
use bt_messages::{Entry, Merge, Packet};
use bt_node::Tree;
use bt_row::{Row, Schema};
use bt_rowtype::Item;
use bt_value::Refusal;
use std::alloc::{AllocError, Global};

/// The caller alone: no thread is started, and nothing waits for one.
#[derive(Drop)]
pub struct Alone;

// Each tree after its packet.
fn sink_each<V: Merge>(
    alloc: Global,
    trees: Vec<(Tree<V>, Packet<V>)>,
) -> Result<Vec<Tree<V>>, AllocError>
    ensures { IfOk result (λ sunk. sunk.items ≡ all_sunk (meaning_of V.terms) trees.items) }
{
    let mut sunk = Vec::with_capacity(alloc, trees.len())?;
    for (tree, packet) in trees {
        sunk.push_reserved(tree.sink(alloc, packet)?);
    }
    Ok(sunk)
}

impl<T> Workforce<T> for Alone {
    ghost use Rattle.std.specs.Prelude.{⊤};

    ghost accepts = { λ _. ⊤ };

    fn read_packet(
        &self,
        _rt: &T,
        alloc: Global,
        schema: &Schema,
        items: &[Item<'_>],
    ) -> Result<Packet<Row>, Refusal> {
        read_packet_alone(alloc, schema, items)
    }

    fn index_packets(
        &self,
        _rt: &T,
        alloc: Global,
        tree: &Tree<Row>,
        packet: &Packet<Row>,
        cover: &Cover,
        indexes: &[IndexTarget<'_>],
    ) -> Result<Vec<Packet<Entry>>, AllocError> {
        index_packets_alone(alloc, tree, packet, cover, indexes)
    }

    fn build_step(
        &self,
        _rt: &T,
        alloc: Global,
        def: &IndexDef,
        cover: &Cover,
        tree: &Tree<Row>,
        count: usize,
    ) -> Result<BuildStep, AllocError> {
        build_step_alone(alloc, def, cover, tree, count)
    }

    fn sink(
        &self,
        _rt: &T,
        alloc: Global,
        rows: Vec<(Tree<Row>, Packet<Row>)>,
        entries: Vec<(Tree<Entry>, Packet<Entry>)>,
    ) -> Result<(Vec<Tree<Row>>, Vec<Tree<Entry>>), AllocError> {
        let rows = sink_each(alloc, rows)?;
        let entries = sink_each(alloc, entries)?;
        Ok((rows, entries))
    }

    fn drain_rows(&self, _rt: &T, alloc: Global, tree: Tree<Row>) -> Result<Tree<Row>, AllocError> {
        tree.drain(alloc)
    }

    fn drain_entries(
        &self,
        _rt: &T,
        alloc: Global,
        tree: Tree<Entry>,
    ) -> Result<Tree<Entry>, AllocError> {
        tree.drain(alloc)
    }

    fn rebuild_rows(
        &self,
        _rt: &T,
        alloc: Global,
        tree: &Tree<Row>,
    ) -> Result<Tree<Row>, AllocError> {
        tree.rebuild(alloc)
    }

    fn rebuild_entries(
        &self,
        _rt: &T,
        alloc: Global,
        tree: &Tree<Entry>,
    ) -> Result<Tree<Entry>, AllocError> {
        tree.rebuild(alloc)
    }

    fn load(
        &self,
        _rt: &T,
        alloc: Global,
        table: &mut Table,
        text: &[u8],
    ) -> Result<Reply, Refusal> {
        table.load(&InTurn, alloc, text)
    }
}
