//! Builds nodes from parts: deals rows into leaves and groups children under inner nodes.
ghost use Rattle.std.specs.Prelude.{◌≡◌, ◌≤◌, ◌*◌, [], IfOk, OnOk, drop, length, map, take};
ghost use Rattle.bt_form.specs.Children.{AreDivided};
ghost use Rattle.bt_form.specs.Deals.{even, parted};
ghost use Rattle.bt_form.specs.Flushes.{first_key, gathered, grouped, leaves, pivot_first};

use bt_form::{ChildIterator, Children, LARGEST_FANOUT, Node, Rows, Shape, Siblings, size_at};
use bt_keycode::Key;
use bt_messages::Merge;
use std::alloc::{AllocError, Global};

/// A copy of the smallest key of these rows, or the empty key if there are none.
pub fn least_key<V: Merge>(alloc: Global, rows: &Rows<V>) -> Result<Key, AllocError>
    ensures { IfOk result (λ key. key ≡ first_key (λ r. r.0) rows.now) }
{
    if rows.len() == 0 {
        return Ok(Key::new());
    }
    rows.get(0).0.copy(alloc)
}

/// Deals rows into leaves of at most the size of a leaf. The pivot of each leaf is its smallest key, and the empty key for the
/// first. If all rows fit in one leaf, none is moved.
pub fn leaves<V: Merge>(
    alloc: Global,
    shape: Shape,
    rows: Rows<V>,
) -> Result<Siblings<V>, AllocError>
    ensures { IfOk result (λ siblings. siblings ≡ leaves shape rows) }
{
    let most = shape.leaf();
    if rows.len() <= most {
        return Siblings::with_capacity(alloc, Node::leaf(rows), 1);
    }
    let dealt = rows.deal(alloc, most)?;
    let count = dealt.len();
    let mut parts = dealt.into_iter();
    let Some(first) = parts.next() else {
        unreachable!()
    };
    let mut siblings = Siblings::with_capacity(alloc, Node::leaf(first), count)?;
    for part in parts {
        let pivot = least_key(alloc, &part)?;
        siblings.push(pivot, Node::leaf(part))?;
    }
    Ok(siblings)
}

// Puts the next `size` children under one inner node with their bins. Returns the node with the pivot of the first child.
fn next_group<V: Merge>(
    alloc: Global,
    rest: &mut ChildIterator<V>,
    size: usize,
) -> Result<(Key, Node<V>), AllocError>
    requires some { 1 ≤ size }
    requires few { size ≤ LARGEST_FANOUT }
    requires enough { size ≤ length rest.old }
    requires divided { AreDivided rest.old }
    ensures node { IfOk result (λ node. (node.0, node.1) ≡ gathered (take size rest.old)) }
    ensures rest { OnOk result (rest.new ≡ drop size rest.old) }
{
    let mut part = Children::with_capacity(alloc, size)?;
    for _ in 0..size {
        let Some((pivot, node, pending)) = rest.next() else {
            unreachable!()
        };
        part.push(pivot, node, pending)?;
    }
    Ok(part.into_node())
}

// Deals children into `many` parts, each under an inner node.
fn groups<V: Merge>(
    alloc: Global,
    children: Children<V>,
    many: usize,
) -> Result<Siblings<V>, AllocError>
    requires some { 1 ≤ many }
    requires enough { many ≤ length children }
    requires few { length children ≤ many * LARGEST_FANOUT }
    requires divided { AreDivided children }
    ensures { IfOk result (λ siblings. siblings ≡ pivot_first [] (map gathered (parted (even (length children) many) children))) }
{
    let count = children.len();
    let mut rest = children.into_iter();
    let (_, first) = next_group(alloc, &mut rest, size_at(0, count, many))?;
    let mut siblings = Siblings::with_capacity(alloc, first, many)?;
    for place in 1..many {
        let (pivot, node) = next_group(alloc, &mut rest, size_at(place, count, many))?;
        siblings.push(pivot, node)?;
    }
    Ok(siblings)
}

/// The last step of a flush of an inner node: deals its children by the fanout, each part under an inner node. If all fit under one
/// node, none is moved. An `Err` drops the children.
pub fn close<V: Merge>(
    alloc: Global,
    shape: Shape,
    children: Children<V>,
) -> Result<Siblings<V>, AllocError>
    requires some { 1 ≤ length children }
    requires divided { AreDivided children }
    ensures { IfOk result (λ siblings. siblings ≡ grouped shape children) }
{
    let count = children.len();
    let most = shape.fanout();
    if count <= most {
        let (_, node) = children.into_node();
        return Siblings::with_capacity(alloc, node, 1);
    }
    groups(alloc, children, count.div_ceil(most))
}
