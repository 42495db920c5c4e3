//! Why the bounds of a range are refused.
ghost use Rattle.std.specs.Prelude.{◌≡◌, IfOk};
ghost use Rattle.std.specs.Option.{option_copied};
ghost use Rattle.bt_show.specs.Ranges.{range_as};
ghost use Rattle.bt_fault.specs.Calls as spec;
ghost use Rattle.bt_fault.specs.Reasons.{Explains};

use crate::reason::{Reason, lower_reason};
use crate::records::prefix_reason;
use bt_record::{RecordCutter, RecordLine};
use bt_row::Column;
use std::alloc::{AllocError, Global};

// Why a bound is refused, if it is given.
fn bound_reason(
    cutter: &mut RecordCutter,
    columns: &[Column],
    item: u64,
    bound: Option<&RecordLine<'_>>,
) -> Result<Option<Reason>, AllocError>
    ensures { IfOk result (λ reason. reason ≡ spec.bound_reason columns.now item (option_copied bound.entry)) }
{
    match bound {
        Some(line) => prefix_reason(cutter, columns, item, line),
        None => Ok(None),
    }
}

/// Why the bounds of a range of keys of these columns are refused. Item 1 is the lower bound, and item 2 the upper one.
#[tactic(auto, using(crate::proofs::ExplainedBounds::range_explained))]
pub fn range_reason(
    alloc: Global,
    columns: &[Column],
    from: Option<&RecordLine<'_>>,
    to: Option<&RecordLine<'_>>,
) -> Result<Option<Reason>, AllocError>
    ensures reason { IfOk result (λ reason. reason ≡ spec.range_reason columns.now (option_copied from.entry) (option_copied to.entry)) }
    ensures refusal { IfOk result (λ reason. Explains (range_as columns.now (option_copied from.entry) (option_copied to.entry)) reason) }
{
    let mut cutter = RecordCutter::new(alloc);
    let from = bound_reason(&mut cutter, columns, 1, from)?;
    let to = bound_reason(&mut cutter, columns, 2, to)?;
    Ok(lower_reason(from, to))
}
