//! One node above siblings.
ghost use Rattle.std.specs.Prelude.{◌≡◌, IfOk};
ghost use Rattle.bt_form.specs.Flushes.{crown, none_pending};

use crate::group::close;
use bt_form::{Children, Node, Shape, Siblings};
use bt_keycode::Key;
use bt_messages::{Buffer, Merge};
use std::alloc::{AllocError, Global};

// Siblings as children without pending messages.
fn none_pending<V: Merge>(alloc: Global, siblings: Siblings<V>) -> Result<Children<V>, AllocError>
    ensures { IfOk result (λ children. children ≡ none_pending siblings) }
{
    let mut children = Children::with_capacity(alloc, siblings.len())?;
    children.append(alloc, Key::new(), siblings, Buffer::new(alloc))?;
    Ok(children)
}

/// The crown of siblings. A single node is its own crown. Several nodes are dealt by the fanout under inner nodes with empty
/// buffers, level by level, until one is left.
pub fn crown_node<V: Merge>(
    alloc: Global,
    shape: Shape,
    siblings: Siblings<V>,
) -> Result<Node<V>, AllocError>
    ensures { IfOk result (λ node. node ≡ crown shape siblings) }
{
    let mut level = siblings;
    // The label is the loop's name in its proof.
    'levels: while level.len() > 1 {
        let children = none_pending(alloc, level)?;
        level = close(alloc, shape, children)?;
    }
    Ok(level.into_only())
}
