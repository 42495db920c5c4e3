//! Groups with their sums, and how much a tree holds, as packed bytes.
ghost use Rattle.std.specs.Prelude.{◌≡◌, ◌++◌, IfOk, OnOk};
ghost use Rattle.bt_packed.specs.Calls as spec;

use crate::rows::{ReplyRoom, add_values, count_bytes};
use bt_view::{Sum, TreeUsage};
use std::alloc::AllocError;

// The sixteen bytes of a total.
#[tactic(auto, unfolding(crate::specs::Calls::total_bytes))]
fn total_bytes(total: i128) -> [u8; 16]
    ensures { result ≡ spec.total_bytes total }
{
    total.to_le_bytes()
}

// Adds a group.
fn add_sum(out: &mut Vec<u8>, sum: &Sum) -> Result<(), AllocError>
    ensures { OnOk result (out.new.items ≡ out.old.items ++ spec.sum_bytes sum.now) }
{
    add_values(out, sum.group.values())?;
    out.extend_from_slice(&count_bytes(sum.count))?;
    out.extend_from_slice(&total_bytes(sum.total))
}

// Adds groups.
fn add_sums(out: &mut Vec<u8>, sums: &[Sum]) -> Result<(), AllocError>
    ensures { OnOk result (out.new.items ≡ out.old.items ++ spec.sums_bytes sums.now) }
{
    for sum in sums {
        add_sum(out, sum)?;
    }
    Ok(())
}

/// The groups.
pub(crate) fn packed_sums(sums: &[Sum], room: ReplyRoom) -> Result<Vec<u8>, AllocError>
    ensures { IfOk result (λ bytes. bytes.items ≡ spec.packed_sums sums.now) }
{
    let mut out = room.begin()?;
    add_sums(&mut out, sums)?;
    Ok(out)
}

/// Adds how much a tree holds.
pub(crate) fn add_usage(out: &mut Vec<u8>, usage: TreeUsage) -> Result<(), AllocError>
    ensures { OnOk result (out.new.items ≡ out.old.items ++ spec.usage_bytes usage) }
{
    out.extend_from_slice(&count_bytes(usage.rows))?;
    out.extend_from_slice(&count_bytes(usage.messages))?;
    out.extend_from_slice(&count_bytes(usage.height))
}

/// How much a tree holds.
pub(crate) fn packed_usage(usage: TreeUsage, room: ReplyRoom) -> Result<Vec<u8>, AllocError>
    ensures { IfOk result (λ bytes. bytes.items ≡ spec.packed_usage usage) }
{
    let mut out = room.begin()?;
    add_usage(&mut out, usage)?;
    Ok(out)
}
