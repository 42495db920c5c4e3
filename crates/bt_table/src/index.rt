//! The indexes of a table: the head of each index, and beside it the tree of its entries.
ghost use Rattle.std.specs.Prelude.{◌≡◌, ◌<◌, ◌++◌, ◌∷◌, [], IfNone, IfOk, IfSome, List, Some, if◌then◌else◌, is_ok, length, map, option_map, set, slice_get};
ghost use Rattle.std.specs.List.{All, list_all};
ghost use Rattle.bt_form.specs.Flushes.{holds};
ghost use Rattle.bt_form.specs.Trees.{leaf};
ghost use Rattle.bt_fanout.specs.Effects.{SuitsEffect, effects_of, row_effect};
ghost use Rattle.bt_fanout.specs.declared.effect.Effect.{Effect};
ghost use Rattle.bt_fanout.specs.Covers.{is_whole};
ghost use Rattle.bt_fanout.specs.Promises.{SuitsRows};
ghost use Rattle.bt_table.specs.Indexes as spec;
ghost use Rattle.bt_table.specs.Indexes.{index_of_ref, indexes_of, indexes_of_refs};
ghost use Rattle.bt_table.specs.inside.IndexTrees.{covers_all, empty_head, entry_tree, packet_for, count_for, of_head, of_target, widest, with_cover};

use crate::reply::SentCount;
use crate::table_loading::TableLoading;
use crate::workforce::Workforce;
use bt_fanout::{Cover, IndexDef, IndexTarget, wider};
use bt_gang::Context;
use bt_keycode::Key;
use bt_messages::{Entry, Packet};
use bt_node::{Shape, Tree, pack};
use bt_row::Row;
use bt_value::{Sequence, Text};
use std::alloc::{AllocError, Global};
use std::mem;

/// An index of a table without the tree of its entries.
#[derive(Drop)]
pub struct IndexHead {
    pub name: Text,
    pub def: IndexDef,
    /// The keys whose rows it has.
    pub cover: Cover,
}

/// A borrowed index of a table.
#[derive(Clone, Copy)]
pub struct IndexRef<'a> {
    pub head: &'a IndexHead,
    /// Its entries.
    pub tree: &'a Tree<Entry>,
}

/// The borrowed indexes of a table, in order of creation.
#[derive(Clone, Copy)]
pub struct IndexRefs<'a> {
    pub(crate) heads: &'a [IndexHead],
    /// The trees of their entries.
    pub(crate) trees: &'a [Tree<Entry>],
}

impl<'a> IndexRefs<'a> {
    /// Takes the first of them, if there is one.
    pub fn next(&mut self) -> Option<IndexRef<'a>>
        ensures some { IfSome result (λ index. indexes_of_refs self.old ≡ index_of_ref index ∷ indexes_of_refs self.new) }
        ensures none { IfNone result (indexes_of_refs self.old ≡ []) }
    {
        let [head, heads @ ..] = self.heads else {
            return None;
        };
        let [tree, trees @ ..] = self.trees else {
            return None;
        };
        self.heads = heads;
        self.trees = trees;
        Some(IndexRef { head, tree })
    }
}

impl IndexRef<'_> {
    /// Whether it is complete: it has each row that its definition selects.
    pub fn is_complete(&self) -> bool
        ensures { result ≡ spec.is_complete (index_of_ref self.now) }
    {
        is_whole(&self.head.cover)
    }
}

/// Adds an index that covers no row yet after the others. An `Err` changes none.
pub(crate) fn add_index(
    alloc: Global,
    heads: &mut Vec<IndexHead>,
    entries: &mut Vec<Tree<Entry>>,
    shape: Shape,
    name: Text,
    def: IndexDef,
) -> Result<(), AllocError>
    ensures heads { heads.new.items ≡ (if is_ok result then heads.old.items ++ empty_head name def ∷ [] else heads.old.items) }
    ensures entries { entries.new.items ≡ (if is_ok result then entries.old.items ++ (shape, leaf []) ∷ [] else entries.old.items) }
{
    heads.reserve(1)?;
    entries.push(Tree::empty(alloc, shape))?;
    heads.push_reserved(IndexHead {
        name,
        def,
        cover: Cover::Nothing,
    });
    Ok(())
}

/// Whether an index with this cover is complete: it has each row.
pub(crate) fn is_whole(cover: &Cover) -> bool
    ensures { result ≡ is_whole cover.now }
{
    matches!(cover, Cover::Whole)
}

/// Whether all indexes are.
pub(crate) fn are_complete(heads: &[IndexHead]) -> bool
    ensures { result ≡ list_all covers_all heads.now }
{
    for head in heads {
        if !is_whole(&head.cover) {
            return false;
        }
    }
    true
}

/// The index of this name, and its place, counted from 0.
pub(crate) fn find_index<'a>(
    heads: &'a [IndexHead],
    entries: &'a [Tree<Entry>],
    name: &Text,
) -> Option<(usize, IndexRef<'a>)>
    requires { length entries.now ≡ length heads.now }
    ensures found { option_map (λ f. (f.0, index_of_ref f.1)) result ≡ spec.index_named name.now (indexes_of heads.now entries.now) }
    ensures within { IfSome result (λ f. f.0 < length heads.now) }
    ensures head { IfSome result (λ f. slice_get heads.now f.0 ≡ Some f.1.head.now) }
    ensures tree { IfSome result (λ f. slice_get entries.now f.0 ≡ Some f.1.tree.now) }
    ensures name { IfSome result (λ f. f.1.head.now.name ≡ name.now) }
{
    for (place, head) in heads.iter().enumerate() {
        let tree = &entries[place];
        if head.name.as_bytes() == name.as_bytes() {
            return Some((place, IndexRef { head, tree }));
        }
    }
    None
}

/// What a batch sends to the indexes: a packet for each, and the number of its messages.
pub(crate) struct FanOut {
    pub(crate) packets: Vec<Packet<Entry>>,
    pub(crate) sent: Sequence<SentCount>,
}

// The indexes, as a batch is sent to them.
fn targets_of<'a>(alloc: Global, heads: &'a [IndexHead]) -> Result<Vec<IndexTarget<'a>>, AllocError>
    ensures { IfOk result (λ targets. map of_target targets.items ≡ map of_head heads.now) }
{
    let mut targets = Vec::new(alloc);
    for head in heads {
        targets.push(IndexTarget {
            def: &head.def,
            cover: &head.cover,
        })?;
    }
    Ok(targets)
}

// The number of messages in the packet of each index.
fn sent_counts(
    alloc: Global,
    heads: &[IndexHead],
    packets: &[Packet<Entry>],
) -> Result<Sequence<SentCount>, AllocError>
    requires { length packets.now ≡ length heads.now }
    ensures { (effects : List Effect) → packets.now ≡ map (packet_for effects) heads.now → IfOk result (λ sent. sent ≡ map (count_for effects) heads.now) }
{
    let mut sent = Sequence::new(alloc);
    for (place, head) in heads.iter().enumerate() {
        let name = head.name.copy(alloc)?;
        let count = packets[place].len();
        sent.push(SentCount { name, count })?;
    }
    Ok(sent)
}

// The widest of a cover and those of indexes: it covers each key that one of them covers.
fn widest_cover<'a>(cover: &'a Cover, heads: &'a [IndexHead]) -> &'a Cover
    ensures { result.now ≡ widest cover.now heads.now }
{
    let mut widest = cover;
    for head in heads {
        widest = wider(widest, &head.cover);
    }
    widest
}

/// What a packet of rows sends to the indexes of a table with this tree of rows. A key that none of them covers is not looked up.
pub(crate) fn fan_out<T, W: Workforce<T>>(
    context: &Context<'_, T, W>,
    tree: &Tree<Row>,
    packet: &Packet<Row>,
    heads: &[IndexHead],
) -> Result<FanOut, AllocError>
    requires ready { W.accepts context.now.crew.now }
    requires suits { All (λ head. All (SuitsEffect head.def) (effects_of packet.now (holds row_effect tree.now.1))) heads.now }
    ensures packets { IfOk result (λ out. out.packets.items ≡ map (packet_for (effects_of packet.now (holds row_effect tree.now.1))) heads.now) }
    ensures sent { IfOk result (λ out. out.sent ≡ map (count_for (effects_of packet.now (holds row_effect tree.now.1))) heads.now) }
{
    let nothing = Cover::Nothing;
    let cover = widest_cover(&nothing, heads);
    let Context { rt, alloc, crew } = *context;
    let targets = targets_of(alloc, heads)?;
    let packets = crew.index_packets(rt, alloc, tree, packet, cover, targets.as_slice())?;
    let sent = sent_counts(alloc, heads, packets.as_slice())?;
    Ok(FanOut { packets, sent })
}

/// Takes out the tree at a place, and leaves an empty one there.
pub(crate) fn take_tree(alloc: Global, entries: &mut Vec<Tree<Entry>>, place: usize) -> Tree<Entry>
    requires { place < length entries.old.items }
    ensures taken { slice_get entries.old.items place ≡ Some result }
    ensures empty { entries.new.items ≡ set entries.old.items place (result.0, leaf []) }
{
    let empty = Tree::empty(alloc, entries[place].shape());
    mem::replace(&mut entries[place], empty)
}

/// Puts a tree in the place of another one.
pub(crate) fn put_tree(entries: &mut Vec<Tree<Entry>>, place: usize, tree: Tree<Entry>)
    requires { place < length entries.old.items }
    ensures { entries.new.items ≡ set entries.old.items place tree }
{
    drop(mem::replace(&mut entries[place], tree));
}

/// Replaces the cover of the index at a place.
pub(crate) fn put_cover(heads: &mut Vec<IndexHead>, place: usize, cover: Cover)
    requires { place < length heads.old.items }
    ensures { IfSome (slice_get heads.old.items place) (λ head. heads.new.items ≡ set heads.old.items place (with_cover head cover)) }
{
    drop(mem::replace(&mut heads[place].cover, cover));
}

// The tree of an index of these rows, built from their sorted entries.
fn packed_entries<L: TableLoading>(
    loading: &L,
    alloc: Global,
    shape: Shape,
    def: &IndexDef,
    rows: &[(Key, Row)],
) -> Result<Tree<Entry>, AllocError>
    requires ready { L.accepts loading.now }
    requires suits { SuitsRows def.now rows.now }
    ensures { IfOk result (λ tree. tree ≡ entry_tree shape rows.now def.now) }
{
    let entries = loading.sorted_entries(alloc, def, rows)?;
    pack(alloc, shape, entries)
}

/// For each index the tree of the entries of these rows.
pub(crate) fn pack_entries<L: TableLoading>(
    loading: &L,
    alloc: Global,
    shape: Shape,
    heads: &[IndexHead],
    rows: &[(Key, Row)],
) -> Result<Vec<Tree<Entry>>, AllocError>
    requires ready { L.accepts loading.now }
    requires suit { All (λ head. SuitsRows head.def rows.now) heads.now }
    ensures { IfOk result (λ entries. entries.items ≡ map (λ head. entry_tree shape rows.now head.def) heads.now) }
{
    let mut entries = Vec::new(alloc);
    for head in heads {
        entries.reserve(1)?;
        entries.push_reserved(packed_entries(loading, alloc, shape, &head.def, rows)?);
    }
    Ok(entries)
}
