//! Leaves of rows that come one at a time.
ghost use Rattle.std.specs.Prelude.{◌≡◌, ◌≤◌, [], IfOk, IsTrue, OnOk, drop, length, take};
ghost use Rattle.std.specs.FinMap.{is_sorted};
ghost use Rattle.bt_keycode.specs.Keys.{key_cmp};
ghost use Rattle.bt_form.specs.Flushes.{leaves, pivot_first};
ghost use Rattle.bt_flush.specs.inside.KeyedLeaves.{leaf_count};

use crate::group::least_key;
use bt_form::{Node, RowSource, Rows, Shape, Siblings, size_at};
use bt_keycode::Key;
use bt_messages::Merge;
use std::alloc::{AllocError, Global};

// The number of leaves that `count` rows are dealt into, at least one.
fn leaf_count(shape: Shape, count: usize) -> usize
    ensures count { result ≡ leaf_count shape count }
    ensures some { 1 ≤ result }
{
    count.div_ceil(shape.leaf()).max(1)
}

// The next `size` rows of a source.
fn next_rows<V: Merge, S: RowSource<V>>(
    alloc: Global,
    source: &mut S,
    size: usize,
) -> Result<Rows<V>, AllocError>
    requires enough { size ≤ length (S.left source.old) }
    requires sorted { IsTrue (is_sorted key_cmp (take size (S.left source.old))) }
    ensures rows { IfOk result (λ rows. rows ≡ take size (S.left source.old)) }
    ensures rest { OnOk result (S.left source.new ≡ drop size (S.left source.old)) }
{
    let mut rows = Vec::with_capacity(alloc, size)?;
    for _ in 0..size {
        let Some(row) = source.next_row() else {
            unreachable!()
        };
        rows.push_reserved(row);
    }
    Ok(Rows::from_sorted(rows))
}

// Leaves side by side. The pivot of each leaf is its smallest key, and the empty key for the first.
fn side_by_side<V: Merge>(
    alloc: Global,
    leaves: Vec<(Key, Node<V>)>,
) -> Result<Siblings<V>, AllocError>
    requires { 1 ≤ length leaves.items }
    ensures { IfOk result (λ siblings. siblings ≡ pivot_first [] leaves.items) }
{
    let count = leaves.len();
    let mut rest = leaves.into_iter();
    let Some((_, first)) = rest.next() else {
        unreachable!()
    };
    let mut siblings = Siblings::with_capacity(alloc, first, count)?;
    for (pivot, node) in rest {
        siblings.push(pivot, node)?;
    }
    Ok(siblings)
}

/// Deals the rows of a source into leaves. Each row moves into its leaf as it comes. The leaves are those of [`leaves`](crate::group::leaves).
pub fn source_leaves<V: Merge, S: RowSource<V>>(
    alloc: Global,
    shape: Shape,
    count: usize,
    rows: S,
) -> Result<Siblings<V>, AllocError>
    requires counted { count ≡ length (S.left rows) }
    requires sorted { IsTrue (is_sorted key_cmp (S.left rows)) }
    ensures { IfOk result (λ siblings. siblings ≡ leaves shape (S.left rows)) }
{
    let mut source = rows;
    let many = leaf_count(shape, count);
    let mut leaves = Vec::with_capacity(alloc, many)?;
    for place in 0..many {
        let part = next_rows(alloc, &mut source, size_at(place, count, many))?;
        let key = least_key(alloc, &part)?;
        leaves.push((key, Node::leaf(part)))?;
    }
    side_by_side(alloc, leaves)
}
