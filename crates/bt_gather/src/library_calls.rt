//! Calls that the engine does not make, since the pieces of a round are in the order of the holes. They are for callers in Rattle who fill a
//! tree in pieces themselves.
ghost use Rattle.std.specs.Prelude.{◌≡◌, IfErr, IfOk};
ghost use Rattle.std.specs.declared.option.Option.TheVariants.{None};
ghost use Rattle.bt_message.specs.Weights.{weigh_of};
ghost use Rattle.bt_form.specs.Fits.{AreFit};
ghost use Rattle.bt_plan.specs.Pieces.{filled};
ghost use Rattle.bt_gather.specs.Laws.{IsFillable, IsRefusal};
ghost use Rattle.bt_gather.specs.Misfits.{misfit};
ghost use Rattle.bt_gather.specs.Views.{pieces_of};

use crate::filling::fill_at;
use crate::hole_places::{first_misfit, hole_places};
use crate::misfit::Misfit;
use bt_messages::Merge;
use bt_node::Siblings;
use bt_plan::{Holed, Place};
use std::alloc::{AllocError, Global};

/// Why a tree in pieces wasn't filled.
#[derive(Drop)]
pub enum FillError<V: Merge> {
    /// An allocation failed. Both arguments are dropped.
    OutOfMemory,
    /// The pieces don't fill the tree. Both arguments are returned unchanged.
    Misfit {
        misfit: Misfit,
        holed: Holed<V>,
        pieces: Vec<(Place, Siblings<V>)>,
    },
}

impl<V: Merge> From<AllocError> for FillError<V> {
    ghost use Rattle.std.specs.Prelude.{◌≡◌};
    ghost use Rattle.bt_gather.specs.declared.library_calls.FillError.TheVariants.{OutOfMemory};

    ghost from_gives = { λ _ e. e ≡ OutOfMemory };

    fn from(_error: AllocError) -> Self {
        FillError::OutOfMemory
    }
}

/// Fills each hole of a tree in pieces with the piece at its place. The pieces may come in any order. When the holes below an
/// opened node are filled, its children are dealt under inner nodes. Nodes and messages are moved, never copied.
///
/// A piece without a hole is refused, and so is a second piece for a hole. The error gives the first such piece, or else the first
/// hole without a piece, from left to right.
pub fn fill<V: Merge>(
    alloc: Global,
    holed: Holed<V>,
    pieces: Vec<(Place, Siblings<V>)>,
) -> Result<Siblings<V>, FillError<V>>
    requires { IsFillable (weigh_of V.terms) holed.0 holed.1 (pieces_of pieces.items) }
    ensures siblings { IfOk result (λ siblings. siblings ≡ filled holed.0 holed.1 (pieces_of pieces.items)) }
    ensures fits { IfOk result (AreFit (weigh_of V.terms) holed.0) }
    ensures fit { IfOk result (λ _. misfit holed.1 (pieces_of pieces.items) ≡ None) }
    ensures refused { IfErr result (IsRefusal holed pieces.items) }
{
    let places = hole_places(alloc, holed.root())?;
    if let Some(misfit) = first_misfit(alloc, places.as_slice(), pieces.as_slice())? {
        return Err(FillError::Misfit {
            misfit,
            holed,
            pieces,
        });
    }
    Ok(fill_at(alloc, holed, places.as_slice(), pieces)?)
}
