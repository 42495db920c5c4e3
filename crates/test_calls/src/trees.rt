//! Trees of rows, and of index values.
use crate::samples::{Sample, Sent, add_message, add_value, is_text, key, packet};
use bt_keycode::Key;
use bt_messages::{Bins, BufferMessages, Entry, Packet};
use bt_node::{
    Node, Parts, Portion, Shape, Siblings, Tree, Walk, absorb_alone, crown, pack, regroup,
};
use bt_plan::plan;
use bt_rowtype::{Refusal, Row};
use std::alloc::{AllocError, Global};

// A tree after a batch.
fn after<V: Sample>(
    alloc: Global,
    tree: Tree<V>,
    batch: &[(&str, Sent)],
) -> Result<Tree<V>, AllocError> {
    tree.sink(alloc, packet(alloc, batch)?)
}

// A tree of four puts: two leaves of two values each.
fn four_puts<V: Sample>(alloc: Global) -> Result<Tree<V>, Refusal> {
    let batch = [
        ("a", Sent::Put(10)),
        ("b", Sent::Put(20)),
        ("c", Sent::Put(30)),
        ("d", Sent::Put(40)),
    ];
    let tree = Tree::empty(alloc, Shape::new(4, 3, 2)?);
    Ok(after(alloc, tree, &batch)?)
}

// Keys with their values.
fn values_text<V: Sample>(alloc: Global, values: &[(Key, V)]) -> Result<Vec<u8>, AllocError> {
    let mut out = Vec::new(alloc);
    for (key, value) in values {
        add_value(alloc, &mut out, key, value)?;
    }
    Ok(out)
}

// The values that a tree holds.
fn rows_text<V: Sample>(alloc: Global, tree: &Tree<V>) -> Result<Vec<u8>, AllocError> {
    let rows = tree.rows(alloc)?;
    values_text(alloc, rows.as_slice())
}

// Appends the messages of a node.
fn add_messages<V: Sample>(
    alloc: Global,
    out: &mut Vec<u8>,
    messages: BufferMessages<'_, V>,
) -> Result<(), AllocError> {
    for (key, message) in messages {
        add_message(alloc, out, key, message)?;
    }
    Ok(())
}

// Appends the values of a leaf.
fn add_leaf<V: Sample>(
    alloc: Global,
    out: &mut Vec<u8>,
    walk: &Walk<'_, V>,
) -> Result<(), AllocError> {
    for place in 0..walk.row_count() {
        let (key, value) = walk.row(place);
        add_value(alloc, out, key, value)?;
    }
    Ok(())
}

// The messages of the root, and its children, each after its pivot and a bar, with the values of a leaf.
fn root_text<V: Sample>(alloc: Global, tree: &Tree<V>) -> Result<Vec<u8>, AllocError> {
    let mut out = Vec::new(alloc);
    let root = tree.walk();
    add_messages(alloc, &mut out, root.messages())?;
    for place in 0..root.child_count() {
        if place > 0 {
            out.extend_from_slice(root.pivot(place).as_slice())?;
        }
        out.extend_from_slice(b"|")?;
        add_leaf(alloc, &mut out, &root.child(place))?;
    }
    Ok(out)
}

// The tree of four puts after two upserts of one key and a put to another: three messages, the most that may be pending.
fn pending<V: Sample>(alloc: Global) -> Result<Tree<V>, Refusal> {
    let batch = [
        ("a", Sent::Ups(15)),
        ("d", Sent::Put(0)),
        ("a", Sent::Ups(5)),
    ];
    Ok(after(alloc, four_puts(alloc)?, &batch)?)
}

// A tree as it is, and its contents.
fn tree_text<V: Sample>(alloc: Global, tree: &Tree<V>) -> Result<Vec<u8>, AllocError> {
    let mut out = root_text(alloc, tree)?;
    out.extend_from_slice(b": ")?;
    let rows = rows_text(alloc, tree)?;
    out.extend_from_slice(rows.as_slice())?;
    Ok(out)
}

// The same of a tree that is dropped then.
fn text_of<V: Sample>(alloc: Global, tree: Tree<V>) -> Result<Vec<u8>, AllocError> {
    let text = tree_text(alloc, &tree);
    drop(tree);
    text
}

fn pending_text<V: Sample>(alloc: Global) -> Result<Vec<u8>, Refusal> {
    Ok(text_of(alloc, pending::<V>(alloc)?)?)
}

#[test]
fn messages_are_pending(rt: HostRuntime) {
    assert!(rt;
        is_text(
            pending_text::<Row>(rt.alloc()),
            "~a15 ~a5 +d0 |a10 b20 c|c30 d40 : a30 b20 c30 d0 "
        )
    );
    assert!(rt;
        is_text(
            pending_text::<Entry>(rt.alloc()),
            "~a15 ~a5 +d0 |a10 b20 c|c30 d40 : a5 b20 c30 d0 "
        )
    );
}

// A tree after a packet, by the two steps of a sink.
fn absorbed<V: Sample>(
    alloc: Global,
    tree: Tree<V>,
    packet: Packet<V>,
) -> Result<Tree<V>, AllocError> {
    let (shape, root) = tree.apart();
    let siblings = absorb_alone(alloc, shape, root, packet)?;
    crown(alloc, shape, siblings)
}

fn crowned_text(alloc: Global) -> Result<Vec<u8>, Refusal> {
    let batch = [
        ("e", Sent::Put(50)),
        ("f", Sent::Put(60)),
        ("g", Sent::Put(70)),
        ("a", Sent::Del),
    ];
    let packet = packet(alloc, &batch)?;
    let tree = absorbed(alloc, four_puts::<Row>(alloc)?, packet)?;
    Ok(text_of(alloc, tree)?)
}

#[test]
fn siblings_are_crowned(rt: HostRuntime) {
    assert!(rt;
        is_text(
            crowned_text(rt.alloc()),
            "-a0 |a10 b20 c|c30 d40 e|e50 f60 g|g70 : b20 c30 d40 e50 f60 g70 "
        )
    );
}

// Appends the messages of an inner node, its pivots and the number of its children.
fn add_inner<V: Sample>(
    alloc: Global,
    out: &mut Vec<u8>,
    children: Siblings<V>,
    bins: Bins<V>,
) -> Result<(), AllocError> {
    let added = add_messages(alloc, out, bins.iter());
    drop(bins);
    let (nodes, pivots) = children.apart();
    added?;
    for pivot in &pivots {
        out.extend_from_slice(pivot.as_slice())?;
    }
    let count = format!(in alloc; " {} ", nodes.len())?;
    out.extend_from_slice(count.as_bytes())
}

// Appends the parts of a node.
fn add_parts<V: Sample>(alloc: Global, out: &mut Vec<u8>, node: Node<V>) -> Result<(), AllocError> {
    match node.apart() {
        Parts::Leaf(_leaf) => out.extend_from_slice(b"leaf "),
        Parts::Inner { children, bins } => add_inner(alloc, out, children, bins),
    }
}

// The nodes that the parts of a root are divided into; a leaf gives no node.
fn regrouped<V: Sample>(alloc: Global, tree: Tree<V>) -> Result<Vec<Node<V>>, AllocError> {
    let (shape, root) = tree.apart();
    match root.apart() {
        Parts::Leaf(_leaf) => Ok(Vec::new(alloc)),
        Parts::Inner { children, bins } => {
            let (nodes, _pivots) = regroup(alloc, shape, children, bins)?.apart();
            Ok(nodes)
        }
    }
}

// The parts of the nodes that the parts of a root are divided into.
fn regrouped_text(alloc: Global) -> Result<Vec<u8>, Refusal> {
    let mut out = Vec::new(alloc);
    for node in regrouped(alloc, pending::<Entry>(alloc)?)? {
        add_parts(alloc, &mut out, node)?;
    }
    Ok(out)
}

#[test]
fn the_parts_of_a_root_give_that_root(rt: HostRuntime) {
    assert!(rt; is_text(regrouped_text(rt.alloc()), "~a15 ~a5 +d0 c 2 "));
}

// The rows of a tree, packed into a new tree.
fn packed(alloc: Global, tree: Tree<Row>) -> Result<Tree<Row>, AllocError> {
    let shape = tree.shape();
    let rows = tree.rows(alloc);
    drop(tree);
    pack(alloc, shape, rows?)
}

fn packed_text(alloc: Global) -> Result<Vec<u8>, Refusal> {
    let packed = packed(alloc, four_puts(alloc)?)?;
    Ok(text_of(alloc, packed)?)
}

#[test]
fn rows_are_packed(rt: HostRuntime) {
    assert!(rt;
        is_text(
            packed_text(rt.alloc()),
            "|a10 b20 c|c30 d40 : a10 b20 c30 d40 "
        )
    );
}

// A tree of three levels, with messages pending in its root and below. It has two children; the second one begins at the fifth put.
fn two_children<V: Sample>(alloc: Global) -> Result<Tree<V>, Refusal> {
    let four = [
        ("c", Sent::Put(10)),
        ("d", Sent::Put(20)),
        ("e", Sent::Put(30)),
        ("f", Sent::Put(40)),
    ];
    let pending = [
        ("g", Sent::Put(50)),
        ("h", Sent::Put(60)),
        ("c", Sent::Put(11)),
    ];
    let split = [
        ("j", Sent::Put(80)),
        ("b", Sent::Put(0)),
        ("a", Sent::Put(1)),
        ("f", Sent::Put(44)),
    ];
    let tree = after(alloc, Tree::empty(alloc, Shape::new(4, 3, 2)?), &four)?;
    let tree = after(alloc, tree, &pending)?;
    let tree = after(alloc, tree, &[("i", Sent::Put(70))])?;
    Ok(after(alloc, tree, &split)?)
}

// The contents of a portion between its bounds, and again the value at a key that it owns.
fn add_portion<V: Sample>(
    alloc: Global,
    out: &mut Vec<u8>,
    portion: &Portion<'_, V>,
    key: &Key,
) -> Result<(), AllocError> {
    let rows = portion.rows(alloc)?;
    let text = values_text(alloc, rows.as_slice())?;
    out.extend_from_slice(text.as_slice())?;
    if portion.owns(key)
        && let Some(value) = portion.get(alloc, key)?
    {
        out.extend_from_slice(b"here ")?;
        add_value(alloc, out, key, &value)?;
    }
    out.extend_from_slice(b"| ")
}

// The portions of the tree at a depth, between two bounds.
fn portions_text(alloc: Global, depth: usize, bounds: [&str; 2]) -> Result<Vec<u8>, Refusal> {
    let tree = two_children::<Row>(alloc)?;
    let [from, to] = bounds;
    let (from, to) = (key(alloc, from)?, key(alloc, to)?);
    let last = key(alloc, "j")?;
    let mut out = Vec::new(alloc);
    for portion in &tree.walk().portions(alloc, depth, Some(&from), Some(&to))? {
        add_portion(alloc, &mut out, portion, &last)?;
    }
    Ok(out)
}

#[test]
fn portions_of_a_tree(rt: HostRuntime) {
    let table = [
        (
            1,
            ["a", "z"],
            "a1 b0 c11 d20 e30 f44 | g50 h60 i70 j80 here j80 | ",
        ),
        (
            2,
            ["a", "z"],
            "a1 b0 | c11 d20 | e30 f44 | g50 h60 | i70 j80 here j80 | ",
        ),
        (1, ["c", "f"], "c11 d20 e30 | "),
        (0, ["b", "h"], "b0 c11 d20 e30 f44 g50 | "),
        (1, ["h", "c"], ""),
    ];
    for (depth, bounds, text) in table {
        assert!(rt; is_text(portions_text(rt.alloc(), depth, bounds), text));
    }
}

// The capacity of the buffers of a shape that is measured in bytes.
fn room_of(bytes: u32) -> Result<usize, Refusal> {
    Ok(Shape::weighed(4, bytes, 2)?.buffer())
}

#[test]
fn shapes_are_weighed(rt: HostRuntime) {
    for (bytes, expected) in [
        (0, Err(Refusal::BadShape)),
        (1_048_576, Ok(1_048_576)),
        (1_048_577, Err(Refusal::BadShape)),
    ] {
        assert!(rt; room_of(bytes) == expected);
    }
}

#[test]
fn plans(rt: HostRuntime) {
    let most = u128::from(u64::MAX);
    let table: [(&[u128], u64, &[u16]); 6] = [
        (&[4, 2, 2], 3, &[0, 1]),
        (&[1, 3, 3, 2], 4, &[1, 2]),
        (&[0, 0], 3, &[]),
        (&[1, 0, 2], 0, &[2, 0]),
        (&[most, most], u64::MAX, &[0]),
        (&[25, 44], 60, &[1]),
    ];
    for (loads, capacity, places) in table {
        assert!(rt; plan(loads, capacity).as_slice() == places);
    }
}
