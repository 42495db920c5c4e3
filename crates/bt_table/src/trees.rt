//! The trees of a table: how they leave it and come back, and how packets change them.
ghost use Rattle.std.specs.Prelude.{◌≡◌, ◌≤◌, [], IfOk, IsSome, None, Some, length, vec_capacity};
ghost use Rattle.std.specs.List.{zip};
ghost use Rattle.bt_form.specs.Flushes.{sunk};
ghost use Rattle.bt_fanout.specs.Effects.{row_meaning};
ghost use Rattle.bt_table.specs.Calls.{most_indexes};
ghost use Rattle.bt_table.specs.inside.IndexTrees.{sunk_tree, sunk_trees};

use crate::workforce::Workforce;
use bt_gang::Context;
use bt_messages::{Entry, Packet};
use bt_node::Tree;
use bt_row::Row;
use std::alloc::{AllocError, Global};

/// The trees of a table.
#[derive(Drop)]
pub(crate) struct Trees {
    pub(crate) rows: Tree<Row>,
    /// The trees of the indexes, in the order of the indexes.
    pub(crate) entries: Vec<Tree<Entry>>,
}

/// Takes the trees out of a table. The table is lost until they are put back, so an error in between loses it.
pub(crate) fn take_trees(trees: &mut Option<Trees>) -> Trees
    requires { IsSome trees.old }
    ensures taken { trees.old ≡ Some result }
    ensures none { trees.new ≡ None }
{
    trees.take().unwrap()
}

/// Puts trees into a table, in place of those that it has.
pub(crate) fn put_trees(trees: &mut Option<Trees>, put: Trees)
    ensures { trees.new ≡ Some put }
{
    drop(trees.replace(put));
}

/// Space for trees with their packets, allocated before the trees leave the table.
#[derive(Drop)]
pub(crate) struct TreeRoom {
    pub(crate) rows: Vec<(Tree<Row>, Packet<Row>)>,
    pub(crate) entries: Vec<(Tree<Entry>, Packet<Entry>)>,
}

impl TreeRoom {
    /// Space for this many trees of rows and of entries.
    pub(crate) fn new(alloc: Global, rows: usize, entries: usize) -> Result<Self, AllocError>
        ensures rows { IfOk result (λ room. (room.rows.items ≡ []) × (rows ≤ vec_capacity room.rows)) }
        ensures entries { IfOk result (λ room. (room.entries.items ≡ []) × (entries ≤ vec_capacity room.entries)) }
    {
        let rows = Vec::with_capacity(alloc, rows)?;
        let entries = Vec::with_capacity(alloc, entries)?;
        Ok(TreeRoom { rows, entries })
    }
}

// Each tree with its packet, in a list that has space for them.
fn with_packets(
    trees: Vec<Tree<Entry>>,
    packets: Vec<Packet<Entry>>,
    room: Vec<(Tree<Entry>, Packet<Entry>)>,
) -> Vec<(Tree<Entry>, Packet<Entry>)>
    requires same { length packets.items ≡ length trees.items }
    requires room { (room.items ≡ []) × (length trees.items ≤ vec_capacity room) }
    ensures { result.items ≡ zip trees.items packets.items }
{
    let mut pairs = room;
    let mut packets = packets.into_iter();
    for tree in trees {
        let packet = packets.next().unwrap();
        pairs.push_reserved((tree, packet));
    }
    pairs
}

/// The trees of a table after their packets, all of them in one round.
pub(crate) fn sunk_all<T, W: Workforce<T>>(
    context: &Context<'_, T, W>,
    room: TreeRoom,
    trees: Trees,
    packet: Packet<Row>,
    packets: Vec<Packet<Entry>>,
) -> Result<Trees, AllocError>
    requires ready { W.accepts context.now.crew.now }
    requires same { length packets.items ≡ length trees.entries.items }
    requires few { length trees.entries.items ≤ most_indexes }
    requires rows_room { (room.rows.items ≡ []) × (1 ≤ vec_capacity room.rows) }
    requires room { (room.entries.items ≡ []) × (length trees.entries.items ≤ vec_capacity room.entries) }
    ensures rows { IfOk result (λ after. after.rows ≡ (trees.rows.0, sunk row_meaning trees.rows.0 trees.rows.1 packet)) }
    ensures entries { IfOk result (λ after. after.entries.items ≡ sunk_trees trees.entries.items packets.items) }
{
    let TreeRoom {
        mut rows,
        entries: entry_room,
    } = room;
    let Trees {
        rows: tree,
        entries,
    } = trees;
    rows.push_reserved((tree, packet));
    let entries = with_packets(entries, packets, entry_room);
    let Context { rt, alloc, crew } = *context;
    let (mut rows, entries) = crew.sink(rt, alloc, rows, entries)?;
    let rows = rows.pop().unwrap();
    Ok(Trees { rows, entries })
}

/// A tree of entries after its packet.
pub(crate) fn sunk_one<T, W: Workforce<T>>(
    context: &Context<'_, T, W>,
    room: TreeRoom,
    tree: Tree<Entry>,
    packet: Packet<Entry>,
) -> Result<Tree<Entry>, AllocError>
    requires ready { W.accepts context.now.crew.now }
    requires no_rows { room.rows.items ≡ [] }
    requires room { (room.entries.items ≡ []) × (1 ≤ vec_capacity room.entries) }
    ensures tree { IfOk result (λ after. after ≡ sunk_tree tree packet) }
{
    let TreeRoom { rows, mut entries } = room;
    entries.push_reserved((tree, packet));
    let Context { rt, alloc, crew } = *context;
    let (rows, mut entries) = crew.sink(rt, alloc, rows, entries)?;
    drop(rows);
    Ok(entries.pop().unwrap())
}
