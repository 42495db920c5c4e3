//! Calls that allocate nothing: while every allocation is refused, each returns what it returns otherwise.
use crate::marks::{Mark, set_mark};
use crate::steps::{Stage, table_after};
use anyhow::{Result, bail};
use bt_fanout::{Cover, covers};
use bt_gang::{Board, Crew, Gate, NoGate};
use bt_keycode::{Key, cmp_rows, code_len, encode};
use bt_messages::{Bins, Buffer, Merge, Message, Packet};
use bt_node::{Node, Parts, Portion, Shape, Siblings, Tree, Walk};
use bt_plan::{Holed, Mode, cut, plan};
use bt_rowtype::{
    Change, Column, Columns, Fields, Kind, Op, Ops, Refusal, Row, Schema, Text, Texts, Value,
    ValueRef, check_ops,
};
use bt_script::Counted;
use bt_table::{Alone, Table, TreeRef};
use std::alloc::{AllocError, Global};
use std::slice;

// A table of three leaves with a message above them, and an index.
const SCRIPT: &str =
    "table 4 3 2 1 id:int qty:int\nload\nid,qty\n1,10\n2,20\n3,30\n4,40\n5,50\n.\nindex by_qty on qty\nbatch\nput 7,70\nend\n";

fn report<R: Print>(rt: &R, name: &str, is_same: bool) -> Result<()> {
    let said = if is_same {
        "the same without memory"
    } else {
        "differs without memory"
    };
    println!(rt; "{name}: {said}")?;
    Ok(())
}

// The result of comparing a call, if both marks were set.
fn compared<R: Print>(
    rt: &R,
    name: &str,
    is_same: bool,
    begun: Result<()>,
    ended: Result<()>,
) -> Result<()> {
    begun?;
    ended?;
    report(rt, name, is_same)
}

// Compares the results of a call with and without memory.
macro_rules! compare {
    ($rt:expr, $name:literal, $call:expr) => {{
        let with_memory = $call;
        let begun = set_mark($rt, Mark::RefuseAll);
        let without_memory = $call;
        let ended = set_mark($rt, Mark::End);
        compared($rt, $name, with_memory == without_memory, begun, ended)?;
    }};
}

// The same for a call that consumes a value, which is made twice.
macro_rules! compare_made {
    ($rt:expr, $name:literal, $made:expr, $value:ident => $call:expr) => {{
        let with_memory = {
            let $value = $made;
            $call
        };
        let $value = $made;
        let begun = set_mark($rt, Mark::RefuseAll);
        let without_memory = $call;
        let ended = set_mark($rt, Mark::End);
        compared($rt, $name, with_memory == without_memory, begun, ended)?;
    }};
}

fn columns(alloc: Global) -> Result<Columns, AllocError> {
    let mut columns = Columns::new(alloc);
    columns.push(Column {
        name: Text::new(alloc, "id")?,
        kind: Kind::Int,
    })?;
    columns.push(Column {
        name: Text::new(alloc, "qty")?,
        kind: Kind::Int,
    })?;
    Ok(columns)
}

fn row(alloc: Global) -> Result<Row, AllocError> {
    let mut row = Row::new();
    row.push(alloc, ValueRef::Int(1))?;
    row.push(alloc, ValueRef::Int(10))?;
    Ok(row)
}

fn key(alloc: Global, id: i64) -> Result<Key, AllocError> {
    encode(alloc, slice::from_ref(&Value::Int(id)))
}

fn primary(alloc: Global) -> Result<Text, AllocError> {
    Text::new(alloc, "primary")
}

fn compare_refusals<R: Print + AllocGlobal>(rt: &R) -> Result<()> {
    let refusal = Refusal::BadField(3);
    compare!(rt, "Refusal::number", refusal.number());
    compare!(rt, "Refusal::name", refusal.name() == "BadField");
    compare!(rt, "Refusal::item", refusal.item());
    Ok(())
}

fn int_schema(alloc: Global) -> Result<Schema> {
    match Schema::new(columns(alloc)?, 1) {
        Ok(schema) => Ok(schema),
        Err(_) => bail!("no schema"),
    }
}

fn compare_lists<R: Print + AllocGlobal>(rt: &R) -> Result<()> {
    let alloc = rt.alloc();
    compare!(rt, "Fields::new", Fields::new(alloc).len());
    compare!(rt, "Texts::new", Texts::new(alloc).as_slice().len());
    compare_made!(rt, "Schema::new", columns(alloc)?, made => Schema::new(made, 1).is_ok());
    Ok(())
}

fn compare_checks<R: Print + AllocGlobal>(
    rt: &R,
    schema: &Schema,
    row: &Row,
    short: &Row,
) -> Result<()> {
    compare!(rt, "Schema::check_row", schema.check_row(7, row).err());
    compare!(
        rt,
        "Schema::check_row, refused",
        schema.check_row(7, short).err()
    );
    Ok(())
}

fn compare_ops<R: Print + AllocGlobal>(rt: &R, schema: &Schema, ops: &[Op]) -> Result<()> {
    compare!(rt, "check_ops", check_ops(schema, 7, ops).err());
    compare!(rt, "check_ops, refused", check_ops(schema, 7, &[]).err());
    Ok(())
}

fn compare_values<R: Print + AllocGlobal>(rt: &R) -> Result<()> {
    let (less, more) = (Value::Int(1), Value::Int(2));
    compare!(
        rt,
        "cmp_rows",
        cmp_rows(slice::from_ref(&less), slice::from_ref(&more))
    );
    compare!(rt, "code_len", code_len(slice::from_ref(&less)));
    Ok(())
}

fn compare_rows<R: Print + AllocGlobal>(rt: &R) -> Result<()> {
    compare_lists(rt)?;
    compare_values(rt)?;
    let schema = int_schema(rt.alloc())?;
    compare_ops(rt, &schema, slice::from_ref(&Op::Add(1, 5)))?;
    let row = row(rt.alloc())?;
    compare_checks(rt, &schema, &row, &Row::new())
}

fn compare_counts<R: Print + AllocGlobal>(
    rt: &R,
    buffer: &Buffer<Row>,
    packet: &Packet<Row>,
) -> Result<()> {
    compare!(rt, "Buffer::count", buffer.count());
    compare!(rt, "Packet::len", packet.len());
    Ok(())
}

fn compare_covers<R: Print + AllocGlobal>(rt: &R, cover: &Cover, key: &Key) -> Result<()> {
    compare!(rt, "covers", covers(cover, key));
    Ok(())
}

// The change that adds to the quantity of a row.
fn change(alloc: Global) -> Result<Change, AllocError> {
    let mut ops = Ops::new(alloc);
    ops.push(Op::Add(1, 5))?;
    Change::new(alloc, row(alloc)?, ops)
}

// One bin with a put of the row.
fn one_bin(alloc: Global) -> Result<Bins<Row>, AllocError> {
    let batch = vec![in alloc; (key(alloc, 1)?, Message::Put(row(alloc)?))]?;
    let mut bins = Bins::new(alloc, 1)?;
    bins.add(alloc, &[], Packet::from_batch(alloc, batch)?)?;
    Ok(bins)
}

fn compare_bins<R: Print + AllocGlobal>(rt: &R, bins: &Bins<Row>) -> Result<()> {
    if bins.len() == 0 {
        bail!("there is no bin");
    }
    compare!(rt, "Bins::weight", bins.weight(0));
    compare!(rt, "Bins::count", bins.count(0));
    compare!(rt, "Bins::total", bins.total());
    Ok(())
}

// The number of messages that are taken from the bin, and of those that are left.
fn taken_counts(bins: Bins<Row>) -> (usize, u128) {
    let mut bins = bins;
    if bins.len() == 0 {
        return (0, 0);
    }
    let taken = bins.take(0);
    (taken.len(), bins.total())
}

fn compare_taken<R: Print + AllocGlobal>(rt: &R) -> Result<()> {
    compare_made!(rt, "Bins::take", one_bin(rt.alloc())?, made => taken_counts(made));
    Ok(())
}

fn compare_weights<R: Print + AllocGlobal>(rt: &R, row: &Row, change: &Change) -> Result<()> {
    compare!(rt, "Merge::weight", row.weight());
    compare!(rt, "Merge::delta_weight", Row::delta_weight(change));
    Ok(())
}

fn compare_weighed<R: Print + AllocGlobal>(
    rt: &R,
    key: &Key,
    message: &Message<Row>,
) -> Result<()> {
    compare!(rt, "Message::weight", message.weight(key));
    Ok(())
}

fn compare_all_weights<R: Print + AllocGlobal>(rt: &R) -> Result<()> {
    let alloc = rt.alloc();
    compare_weights(rt, &row(alloc)?, &change(alloc)?)?;
    compare_weighed(rt, &key(alloc, 1)?, &Message::Put(row(alloc)?))?;
    compare_bins(rt, &one_bin(alloc)?)?;
    compare_taken(rt)
}

fn compare_plans<R: Print + AllocGlobal>(rt: &R, loads: &[u128]) -> Result<()> {
    if loads.len() > 64 {
        bail!("no node has so many children");
    }
    compare!(rt, "plan", plan(loads, 9).len());
    Ok(())
}

fn compare_messages<R: Print + AllocGlobal>(rt: &R) -> Result<()> {
    let alloc = rt.alloc();
    compare_plans(rt, [5, 9, 9].as_slice())?;
    compare_all_weights(rt)?;
    compare_counts(rt, &Buffer::new(alloc), &Packet::new(alloc))?;
    let cover = Cover::UpTo(key(alloc, 5)?);
    let other = key(alloc, 6)?;
    compare_covers(rt, &cover, &other)
}

fn compare_crews<R: Print + AllocGlobal>(rt: &R) -> Result<()> {
    let alloc = rt.alloc();
    compare!(rt, "Crew::new", Crew::new(2, 2, 1, NoGate).is_ok());
    compare!(rt, "Crew::new, refused", Crew::new(0, 2, 1, NoGate).is_ok());
    compare!(
        rt,
        "NoGate",
        {
            NoGate.enter(0);
            NoGate.leave(0);
            true
        }
    );
    compare_made!(rt, "Board::put, take and hand", Board::new(alloc, 1, 1)?, made => {
        let mut board = made;
        let put = board.put();
        match board.take(0) {
            Some(taken) => (put, taken, board.hand(0)),
            None => (put, 1, 1),
        }
    });
    Ok(())
}

fn compare_streams<R: Print + AllocGlobal>(rt: &R) -> Result<()> {
    let stream = Counted::new(b"".as_slice());
    compare!(rt, "Counted::new", Counted::new(b"".as_slice()).count());
    compare!(rt, "Counted::has_failed", stream.has_failed());
    Ok(())
}

// An empty tree.
fn bare(alloc: Global) -> Result<Tree<Row>> {
    let Ok(shape) = Shape::new(4, 3, 2) else {
        bail!("no shape")
    };
    Ok(Tree::empty(alloc, shape))
}

fn bare_holed(alloc: Global) -> Result<Holed<Row>> {
    let (holed, jobs) = cut(alloc, 0, bare(alloc)?, Packet::new(alloc), 1, Mode::Absorb)?;
    drop(jobs);
    Ok(holed)
}

fn bare_node(alloc: Global) -> Result<Node<Row>> {
    let (_shape, node) = bare(alloc)?.apart();
    Ok(node)
}

fn one_node(alloc: Global) -> Result<Vec<Node<Row>>> {
    Ok(vec![in alloc; bare_node(alloc)?]?)
}

fn one_sibling(alloc: Global) -> Result<Siblings<Row>> {
    Ok(Siblings::new(vec![in alloc; bare_node(alloc)?]?, Vec::new(alloc)))
}

// The number of siblings that one node becomes.
fn sibling_count(alloc: Global, nodes: Vec<Node<Row>>) -> usize {
    if nodes.len() != 1 {
        return 0;
    }
    Siblings::new(nodes, Vec::new(alloc)).apart().0.len()
}

fn is_leaf(parts: Parts<Row>) -> bool {
    matches!(parts, Parts::Leaf(_))
}

fn compare_shape<R: Print + AllocGlobal>(rt: &R, tree: &Tree<Row>) -> Result<()> {
    compare!(rt, "Tree::shape", tree.shape().buffer());
    Ok(())
}

fn compare_shapes<R: Print + AllocGlobal>(rt: &R) -> Result<()> {
    compare!(rt, "Shape::new", Shape::new(4, 3, 2).is_ok());
    compare!(rt, "Shape::new, refused", Shape::new(3, 3, 2).is_ok());
    compare!(rt, "Shape::weighed", Shape::weighed(4, 60, 2).is_ok());
    compare!(
        rt,
        "Shape::weighed, refused",
        Shape::weighed(4, 0, 2).is_ok()
    );
    let tree = bare(rt.alloc())?;
    let compared = compare_shape(rt, &tree);
    drop(tree);
    compared
}

fn compare_trees_apart<R: Print + AllocGlobal>(rt: &R) -> Result<()> {
    let alloc = rt.alloc();
    compare_made!(rt, "Tree::apart", bare(alloc)?, made => made.apart().0.buffer());
    compare_made!(rt, "Holed::apart", bare_holed(alloc)?, made => made.apart().0.buffer());
    Ok(())
}

fn compare_nodes_apart<R: Print + AllocGlobal>(rt: &R) -> Result<()> {
    let alloc = rt.alloc();
    compare_made!(rt, "Node::apart", bare_node(alloc)?, made => is_leaf(made.apart()));
    compare_made!(rt, "Siblings::apart", one_sibling(alloc)?, made => made.apart().0.len());
    compare_made!(rt, "Siblings::new", one_node(alloc)?, made => sibling_count(alloc, made));
    Ok(())
}

fn compare_walks<R: Print + AllocGlobal>(rt: &R, root: &Walk<'_, Row>) -> Result<()> {
    compare!(rt, "Walk::is_leaf", root.is_leaf());
    compare!(rt, "Walk::message_count", root.message_count());
    compare!(rt, "Walk::messages", root.messages().next().is_some());
    compare!(rt, "Walk::child_count", root.child_count());
    if root.child_count() < 2 {
        bail!("the tree has no two children");
    }
    compare!(rt, "Walk::child", root.child(0).is_leaf());
    compare!(rt, "Walk::pivot", root.pivot(1).len());
    Ok(())
}

fn compare_leaves<R: Print + AllocGlobal>(rt: &R, leaf: &Walk<'_, Row>) -> Result<()> {
    compare!(rt, "Walk::row_count", leaf.row_count());
    if leaf.row_count() == 0 {
        bail!("the leaf has no row");
    }
    compare!(rt, "Walk::row", leaf.row(0).0.first_number());
    Ok(())
}

fn compare_portions<R: Print + AllocGlobal>(
    rt: &R,
    portions: &[Portion<'_, Row>],
    key: &Key,
) -> Result<()> {
    let Some(portion) = portions.first() else {
        bail!("the tree has no portion")
    };
    compare!(rt, "Portion::owns", portion.owns(key));
    Ok(())
}

fn compare_tree<R: Print + AllocGlobal>(rt: &R, tree: &Tree<Row>) -> Result<()> {
    let alloc = rt.alloc();
    let root = tree.walk();
    compare_walks(rt, &root)?;
    let portions = root.portions(alloc, 1, None, None)?;
    compare_portions(rt, portions.as_slice(), &key(alloc, 1)?)?;
    if root.child_count() == 0 {
        bail!("the tree has no child");
    }
    compare_leaves(rt, &root.child(0))
}

fn made_table<R: Print + AllocGlobal>(rt: &R) -> Result<Table> {
    table_after(&Stage {
        rt,
        crew: &Alone,
        script: SCRIPT.as_bytes(),
        is_rehearsal: true,
    })
}

fn compare_heads<R: Print + AllocGlobal>(
    rt: &R,
    table: &Table,
    name: &Text,
    other: &Text,
) -> Result<()> {
    compare!(rt, "Table::schema", table.schema().is_ok());
    compare!(rt, "Table::check_index", table.check_index(other).err());
    compare!(
        rt,
        "Table::check_index, refused",
        table.check_index(name).err()
    );
    compare!(rt, "Table::tree", table.tree(name).is_ok());
    compare!(rt, "Table::tree, refused", table.tree(other).is_ok());
    Ok(())
}

fn compare_drops<R: Print + AllocGlobal>(rt: &R, name: &Text) -> Result<()> {
    compare_made!(rt, "Table::drop_index", made_table(rt)?, made => {
        let mut table = made;
        table.drop_index(name).is_ok()
    });
    Ok(())
}

fn compare_table<R: Print + AllocGlobal>(rt: &R, table: &Table) -> Result<()> {
    let alloc = rt.alloc();
    let name = Text::new(alloc, "by_qty")?;
    compare_drops(rt, &name)?;
    let other = Text::new(alloc, "other")?;
    compare_heads(rt, table, &name, &other)
}

fn compare_tree_of_rows<R: Print + AllocGlobal>(rt: &R, table: &Table, name: &Text) -> Result<()> {
    match table.tree(name) {
        Ok(TreeRef::Rows { tree, .. }) => compare_tree(rt, tree),
        _ => bail!("the table has no tree of rows"),
    }
}

fn compare_tables<R: Print + AllocGlobal>(rt: &R) -> Result<()> {
    let name = primary(rt.alloc())?;
    let table = made_table(rt)?;
    let compared = compare_table(rt, &table);
    let compared = compared.and(compare_tree_of_rows(rt, &table, &name));
    drop((name, table));
    compared
}

/// Makes each call with all memory, and then while every allocation is refused.
pub(crate) fn need_no_memory<R: Print + AllocGlobal>(rt: &R) -> Result<()> {
    compare_refusals(rt)?;
    compare_rows(rt)?;
    compare_messages(rt)?;
    compare_crews(rt)?;
    compare_streams(rt)?;
    compare_shapes(rt)?;
    compare_trees_apart(rt)?;
    compare_nodes_apart(rt)?;
    compare_tables(rt)
}
