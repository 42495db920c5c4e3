//! Calls that the engine does not make, since a flush closes nodes by [`close`](crate::close). They are for callers in Rattle who divide a
//! flush themselves.
ghost use Rattle.std.specs.Prelude.{◌≡◌, ◌≤◌, IfOk, length};
ghost use Rattle.bt_value.specs.Lists.{concatenation};
ghost use Rattle.bt_messages.specs.Bins.{LieBetween};
ghost use Rattle.bt_message.specs.Meanings.{meaning_of};
ghost use Rattle.bt_message.specs.Weights.{load, weigh_of};
ghost use Rattle.bt_flush.specs.Laws.{FitAbove, HoldAllAfter};
ghost use Rattle.bt_form.specs.Flushes.{grouped, shared};
ghost use Rattle.bt_form.specs.Trees.{pivots_of};

use bt_flush::close;
use bt_form::{Children, Shape, Siblings};
use bt_messages::{Bins, Merge};
use std::alloc::{AllocError, Global};

/// Siblings as children of inner nodes, each with its bin: the last step of a flush of an inner node. If all fit under one node,
/// none is moved. An `Err` drops both.
pub fn regroup<V: Merge>(
    alloc: Global,
    shape: Shape,
    siblings: Siblings<V>,
    bins: Bins<V>,
) -> Result<Siblings<V>, AllocError>
    requires several { 2 ≤ length siblings }
    requires capacity { load (weigh_of V.terms) shape.measure (concatenation bins) ≤ shape.buffer }
    requires divided { LieBetween (pivots_of siblings) bins }
    ensures nodes { IfOk result (λ nodes. nodes ≡ grouped shape (shared siblings (concatenation bins))) }
    ensures fits { IfOk result (FitAbove (weigh_of V.terms) shape siblings (concatenation bins)) }
    ensures rows { IfOk result (HoldAllAfter (meaning_of V.terms) shape siblings (concatenation bins)) }
{
    close(alloc, shape, Children::with_pending(siblings, bins))
}
