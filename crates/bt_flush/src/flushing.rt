//! How messages go down a node. They are the first ones of a stream.
ghost use Rattle.std.specs.Prelude.{◌≡◌, ◌≤◌, ◌++◌, IfOk, OnOk, drop, length, take};
ghost use Rattle.std.specs.List.{zip};
ghost use Rattle.bt_messages.specs.Parts.{total};
ghost use Rattle.bt_messages.specs.Shares.{AreShares, IsShare, counts};
ghost use Rattle.bt_message.specs.Weights.{weigh_of};
ghost use Rattle.bt_message.specs.Meanings.{meaning_of};
ghost use Rattle.bt_form.specs.Flushes.{flush_in, flushed};
ghost use Rattle.bt_form.specs.Messages.{with_messages};
ghost use Rattle.bt_form.specs.inside.Flushing.{AreReady, IsReady, with_shares};
ghost use Rattle.bt_form.specs.Passes.{after_pass};

use crate::group::{close, leaves};
use crate::opening::{Opened, Step, open};
use bt_form::{Children, Mode, Node, NodeKind, Shape, Siblings};
use bt_messages::{Buffer, Merge, Share, Stream};
use std::alloc::{AllocError, Global};

// Flushes a child: its pending messages go down, and its share of the incoming ones. If none is pending, the share goes down in the
// stream as it is. Returns the nodes that replace the child.
#[cycle(flushes)]
fn flush_child<V: Merge>(
    alloc: Global,
    shape: Shape,
    mode: Mode,
    node: Node<V>,
    pending: Buffer<V>,
    stream: &mut Stream<V>,
    share: Share,
) -> Result<Siblings<V>, AllocError>
    requires share { IsShare (weigh_of V.terms) stream.old share }
    requires ready { IsReady mode node }
    ensures siblings { IfOk result (λ siblings. siblings ≡ flush_in (meaning_of V.terms) mode shape node (with_messages (take share.count stream.old) pending)) }
    ensures left { OnOk result (stream.new ≡ drop share.count stream.old) }
{
    // Called for its contract: a stream is sorted.
    let _in_order = stream.len();
    if pending.is_empty() {
        return flush(alloc, shape, mode, node, stream, share.count);
    }
    let mut all = pending;
    all.add_front(alloc, stream, share)?;
    let mut all = all.into_stream();
    let count = all.len();
    flush(alloc, shape, mode, node, &mut all, count)
}

// The children of an opened node after a flush. The pending messages of a marked child go down. The others keep their shares of the
// incoming messages.
#[cycle(flushes)]
fn flush_marked<V: Merge>(
    alloc: Global,
    shape: Shape,
    mode: Mode,
    opened: Opened<V>,
    stream: &mut Stream<V>,
) -> Result<Children<V>, AllocError>
    requires weighed { AreShares (weigh_of V.terms) stream.old opened.shares.items }
    requires ready { AreReady mode opened.children }
    requires shares { length opened.shares.items ≡ length opened.children }
    requires marks { length opened.marks.items ≡ length opened.children }
    ensures children { IfOk result (λ parts. parts ≡ after_pass (flushed (flush_in (meaning_of V.terms) mode shape)) (zip (with_shares opened.children (counts opened.shares.items) stream.old) opened.marks.items)) }
    ensures left { OnOk result (stream.new ≡ drop (total (counts opened.shares.items)) stream.old) }
{
    let Opened {
        children,
        shares,
        marks,
    } = opened;
    let mut parts = Children::with_capacity(alloc, children.len())?;
    let mut children = children.into_iter();
    let mut shares = shares.into_iter();
    let mut marks = marks.into_iter();
    while let Some((pivot, node, pending)) = children.next() {
        // Each child has a share and a mark, so neither list ends before the children do.
        let (Some(share), Some(marked)) = (shares.next(), marks.next()) else {
            unreachable!()
        };
        if marked {
            let siblings = flush_child(alloc, shape, mode, node, pending, stream, share)?;
            parts.append(alloc, pivot, siblings, Buffer::new(alloc))?;
        } else {
            let mut pending = pending;
            pending.add_front(alloc, stream, share)?;
            parts.push(pivot, node, pending)?;
        }
    }
    Ok(parts)
}

/// Takes the first messages of a stream into a node. Returns the nodes that replace it.
///
/// A leaf applies the messages to its rows and deals them into leaves. An inner node stays as it is if its buffer has room for all
/// messages. Otherwise it is opened: messages go down to some or all of its children, and the children are dealt under inner nodes,
/// each with its bin. Rows, keys and messages are moved, never copied, except the smallest key of a leaf, which is copied for its
/// pivot.
#[cycle(flushes)]
pub fn flush<V: Merge>(
    alloc: Global,
    shape: Shape,
    mode: Mode,
    node: Node<V>,
    stream: &mut Stream<V>,
    count: usize,
) -> Result<Siblings<V>, AllocError>
    requires enough { count ≤ length stream.old }
    requires ready { IsReady mode node }
    ensures siblings { IfOk result (λ siblings. siblings ≡ flush_in (meaning_of V.terms) mode shape node (take count stream.old)) }
    ensures left { OnOk result (stream.new ≡ drop count stream.old) }
{
    match node.into_kind() {
        NodeKind::Leaf(rows) => leaves(alloc, shape, rows.after(alloc, stream, count)?),
        NodeKind::Inner { children, bins } => {
            match open(alloc, shape, mode, children, bins, stream, count)? {
                Step::Stays(node) => Siblings::with_capacity(alloc, node, 1),
                Step::Opens(opened) => {
                    let parts = flush_marked(alloc, shape, mode, opened, stream)?;
                    close(alloc, shape, parts)
                }
            }
        }
    }
}
