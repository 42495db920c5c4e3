//! Loading rows into a table that has none.
#![tactic(auto, using(crate::proofs::offered::Steps::is_consistent))]

ghost use Rattle.std.specs.FinMap.{is_sorted};
ghost use Rattle.std.specs.Prelude.{◌≡◌, ◌≢◌, [], Err, IfErr, IfOk, IfSome, IsErrOf, IsTrue, None, Ok, OnErr, OnOk, Some, length};
ghost use Rattle.std.specs.List.{All};
ghost use Rattle.bt_value.specs.Refusals.{lowest};
ghost use Rattle.bt_keycode.specs.Keys.{key_cmp};
ghost use Rattle.bt_keycode.specs.Standing.{RowMap};
ghost use Rattle.bt_value.specs.Answers.{Answers};
ghost use Rattle.bt_load.specs.Maps.{map_of};
ghost use Rattle.bt_fanout.specs.Promises.{SuitsRows};
ghost use Rattle.bt_table.specs.inside.Loads.{AllSuitText, AreLoaded, ArePacked, ArePackedOf, IsLoadable, rows_to_load};
ghost use Rattle.bt_table.specs.Calls as spec;
ghost use Rattle.bt_table.specs.Indexes.{indexes_of};
ghost use Rattle.bt_table.specs.Calls.{IsRefused, IsStep, Load, permitted};
ghost use Rattle.bt_table.specs.Standing.{IsConsistent};
ghost use Rattle.bt_table.specs.Tables.{Lost};

use crate::index::{IndexHead, are_complete, pack_entries};
use crate::reply::Reply;
use crate::table::Table;
use crate::table_loading::TableLoading;
use crate::trees::{Trees, put_trees};
use bt_keycode::Key;
use bt_load::{SortedRows, load_rows_by, read_records_by, sorted_rows_by};
use bt_node::{RowSource, Shape, Tree, pack, pack_source};
use bt_row::{Row, Schema};
use bt_value::Refusal;
use std::alloc::{AllocError, Global};

fn is_bare(tree: &Tree<Row>) -> bool
    ensures { result ≡ spec.is_bare tree.now.1 }
{
    let root = tree.walk();
    root.is_leaf() && root.row_count() == 0
}

// Whether rows can be loaded into a table with these indexes and trees.
fn check_load(heads: &[IndexHead], trees: &Trees) -> Result<(), Refusal>
    requires { length trees.now.entries.items ≡ length heads.now }
    ensures free { OnOk result (lowest (spec.load_refusals (indexes_of heads.now trees.now.entries.items) trees.now.rows.1) ≡ None) }
    ensures refused { IfErr result (λ refusal. lowest (spec.load_refusals (indexes_of heads.now trees.now.entries.items) trees.now.rows.1) ≡ Some refusal) }
{
    if !are_complete(heads) {
        return Err(Refusal::Building);
    }
    if !is_bare(&trees.rows) {
        return Err(Refusal::NotEmpty);
    }
    Ok(())
}

// Rows in ascending order of their keys, from which a tree is packed.
#[derive(Drop)]
struct LoadedRows {
    rows: SortedRows,
}

impl RowSource<Row> for LoadedRows {
    ghost left = { λ loaded. loaded.rows };

    fn next_row(&mut self) -> Option<(Key, Row)> {
        self.rows.next_row()
    }
}

// The packed tree of rows of a table without indexes, and the number of rows.
fn packed_source<S: RowSource<Row>>(
    alloc: Global,
    shape: Shape,
    count: usize,
    rows: S,
) -> Result<(Trees, usize), AllocError>
    requires counted { count ≡ length (S.left rows) }
    requires sorted { IsTrue (is_sorted key_cmp (S.left rows)) }
    ensures { IfOk result (λ made. ArePacked shape (S.left rows) [] made.0 made.1) }
{
    let tree = pack_source(alloc, shape, count, rows)?;
    let trees = Trees {
        rows: tree,
        entries: Vec::new(alloc),
    };
    Ok((trees, count))
}

// The packed trees of rows and of their entries, and the number of rows.
fn packed_pairs<L: TableLoading>(
    loading: &L,
    alloc: Global,
    shape: Shape,
    heads: &[IndexHead],
    pairs: Vec<(Key, Row)>,
) -> Result<(Trees, usize), AllocError>
    requires ready { L.accepts loading.now }
    requires sorted { IsTrue (is_sorted key_cmp pairs.items) }
    requires suit { All (λ head. SuitsRows head.def pairs.items) heads.now }
    ensures { IfOk result (λ made. ArePacked shape pairs.items heads.now made.0 made.1) }
{
    let count = pairs.len();
    let entries = pack_entries(loading, alloc, shape, heads, pairs.as_slice())?;
    let tree = pack(alloc, shape, pairs)?;
    let trees = Trees {
        rows: tree,
        entries,
    };
    Ok((trees, count))
}

// The packed trees of typed rows and of their entries, and the number of rows.
fn packed_trees<L: TableLoading>(
    loading: &L,
    alloc: Global,
    shape: Shape,
    heads: &[IndexHead],
    rows: Vec<Row>,
    schema: &Schema,
) -> Result<(Trees, usize), Refusal>
    requires ready { L.accepts loading.now }
    requires suit { (pairs : RowMap) → map_of schema.now.keys rows.items ≡ Ok pairs → All (λ head. SuitsRows head.def pairs) heads.now }
    ensures packed { IfOk result (λ made. ArePackedOf shape schema.now rows.items heads.now made.0 made.1) }
    ensures refused { IfErr result (λ refusal. refusal ≢ Refusal.OutOfMemory → map_of schema.now.keys rows.items ≡ Err refusal) }
{
    if heads.is_empty() {
        let count = rows.len();
        let sorted = sorted_rows_by(loading, alloc, rows, schema)?;
        return Ok(packed_source(alloc, shape, count, LoadedRows { rows: sorted })?);
    }
    let pairs = load_rows_by(loading, alloc, rows, schema)?;
    Ok(packed_pairs(loading, alloc, shape, heads, pairs)?)
}

// The trees of a text that is loaded into a table with these indexes and trees, and the number of rows.
fn loaded_trees<L: TableLoading>(
    loading: &L,
    alloc: Global,
    schema: &Schema,
    heads: &[IndexHead],
    trees: &Trees,
    text: &[u8],
) -> Result<(Trees, usize), Refusal>
    requires ready { L.accepts loading.now }
    requires whole { length trees.now.entries.items ≡ length heads.now }
    requires suit { AllSuitText schema.now heads.now text.now }
    ensures loaded { IfOk result (λ made. AreLoaded schema.now heads.now trees.now text.now made.0 made.1) }
    ensures refused { IfErr result (λ refusal. refusal ≢ Refusal.OutOfMemory → rows_to_load schema.now heads.now trees.now text.now ≡ Err refusal) }
{
    let rows = read_records_by(loading, alloc, text, schema)?;
    check_load(heads, trees)?;
    packed_trees(loading, alloc, trees.rows.shape(), heads, rows, schema)
}

// Whether the rows of a text can be loaded into a table with these indexes and trees. No tree is made.
fn check_rows<L: TableLoading>(
    loading: &L,
    alloc: Global,
    schema: &Schema,
    heads: &[IndexHead],
    trees: &Trees,
    text: &[u8],
) -> Result<(), Refusal>
    requires ready { L.accepts loading.now }
    requires whole { length trees.now.entries.items ≡ length heads.now }
    ensures allowed { OnOk result (IsLoadable schema.now heads.now trees.now text.now) }
    ensures refused { IfErr result (λ refusal. refusal ≢ Refusal.OutOfMemory → rows_to_load schema.now heads.now trees.now text.now ≡ Err refusal) }
{
    let rows = read_records_by(loading, alloc, text, schema)?;
    check_load(heads, trees)?;
    drop(sorted_rows_by(loading, alloc, rows, schema)?);
    Ok(())
}

impl Table {
    /// Loads the rows of a CSV text into a table that has none, and their entries into each index. The header of the text names the columns in order.
    ///
    /// The lowest refusal that applies is returned, and an `Err` changes nothing: `BadSchema` if the header is another one, `BadField` and `BadLength` with
    /// the number of the record after the header, `Building` if an index is not complete, `NotEmpty` if the tree of the rows is more than one leaf without
    /// rows, `DuplicateKey` with the number of the first record whose key an earlier one has. The loading says whether records and
    /// entries are made and sorted in threads ([`InThreads`](bt_load::InThreads)) or by the caller alone ([`InTurn`](bt_load::InTurn)); the caller packs the trees.
    pub fn load<L: TableLoading>(
        &mut self,
        loading: &L,
        alloc: Global,
        text: &[u8],
    ) -> Result<Reply, Refusal>
        requires ready { L.accepts loading.now }
        ensures done { IfOk result (IsStep self.old self.new (Load text.now)) }
        ensures refused { IfErr result (IsRefused self.old self.new (Load text.now)) }
        ensures unchanged { OnErr result (self.new ≡ self.old) }
        ensures failed { self.old ≡ Lost → IsErrOf result Refusal.Failed }
        ensures consistent { IsConsistent self.new }
    {
        let Some(trees) = &self.trees else {
            return Err(Refusal::Failed);
        };
        let (loaded, count) = loaded_trees(
            loading,
            alloc,
            &self.schema,
            self.heads.as_slice(),
            trees,
            text,
        )?;
        put_trees(&mut self.trees, loaded);
        self.soundness();
        Ok(Reply::Loaded(count))
    }

    /// Whether [`Table::load`] would be refused, and as what. The rows of the text are read and sorted; no tree is made.
    pub fn check_load<L: TableLoading>(
        &self,
        loading: &L,
        alloc: Global,
        text: &[u8],
    ) -> Result<(), Refusal>
        requires ready { L.accepts loading.now }
        ensures answer { Answers (permitted self.now (Load text.now)) result }
        ensures failed { self.now ≡ Lost → IsErrOf result Refusal.Failed }
    {
        let Some(trees) = &self.trees else {
            return Err(Refusal::Failed);
        };
        check_rows(
            loading,
            alloc,
            &self.schema,
            self.heads.as_slice(),
            trees,
            text,
        )?;
        Ok(())
    }
}
