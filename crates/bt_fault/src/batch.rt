//! Why the lines of a batch are refused, and the key of a get.
ghost use Rattle.std.specs.Prelude.{◌≡◌, IfOk};
ghost use Rattle.bt_value.specs.Refusals.{lowest};
ghost use Rattle.bt_batch.specs.Batches.{batch_refusals, read_key};
ghost use Rattle.bt_fault.specs.Batches as batches;
ghost use Rattle.bt_fault.specs.Calls as spec;
ghost use Rattle.bt_fault.specs.Reasons.{Explains, lowest_reason, refusal_of};

use crate::problem::Problem;
use crate::reason::{Reason, lower_reason};
use crate::records::row_reason;
use crate::upsert::ups_reason;
use bt_batch::MOST_MESSAGES;
use bt_record::{RecordCutter, RecordLine};
use bt_row::Schema;
use bt_rowtype::Item;
use bt_value::Refusal;
use std::alloc::{AllocError, Global};

// Why the record of a line of a batch encodes no message.
fn line_reason(
    cutter: &mut RecordCutter,
    schema: &Schema,
    item: u64,
    line: &Item<'_>,
) -> Result<Option<Reason>, AllocError>
    ensures { IfOk result (λ reason. reason ≡ spec.line_reason schema.now item line.now) }
{
    match line {
        Item::Put(fields) => row_reason(cutter, schema.columns(), item, fields),
        Item::Del(fields) => row_reason(cutter, schema.key_columns(), item, fields),
        Item::Ups(fields) => ups_reason(cutter, schema, item, fields),
    }
}

// Why the lines of a batch are refused: the first of the lowest reasons.
fn lines_reason(
    alloc: Global,
    schema: &Schema,
    items: &[Item<'_>],
) -> Result<Option<Reason>, AllocError>
    ensures { IfOk result (λ reason. reason ≡ lowest_reason (spec.line_reasons schema.now 1 items.now)) }
{
    let mut cutter = RecordCutter::new(alloc);
    let mut found = None;
    for (place, line) in items.iter().enumerate() {
        let reason = line_reason(&mut cutter, schema, place as u64 + 1, line)?;
        found = lower_reason(found, reason);
    }
    Ok(found)
}

// The first message over the limit, if there is one.
fn many_reason(count: usize) -> Option<Reason>
    ensures { result ≡ batches.many_reason count }
{
    if count <= MOST_MESSAGES {
        return None;
    }
    let first = MOST_MESSAGES as u64 + 1;
    Some(Reason::at(Refusal::TooMany, first, 0, Problem::ManyMessages))
}

/// Why a batch is refused: the first of the lowest reasons of its lines, or the number of them.
#[tactic(auto, using(crate::proofs::ExplainedCalls::batch_explained))]
pub fn batch_reason(
    alloc: Global,
    schema: &Schema,
    items: &[Item<'_>],
) -> Result<Option<Reason>, AllocError>
    ensures reason { IfOk result (λ reason. reason ≡ batches.batch_reason schema.now items.now) }
    ensures refusal { IfOk result (λ reason. refusal_of reason ≡ lowest (batch_refusals schema.now items.now)) }
{
    let _within = schema.keys();
    let lines = lines_reason(alloc, schema, items)?;
    Ok(lower_reason(lines, many_reason(items.len())))
}

/// Why the record of a get is no key of a table.
#[tactic(auto, using(crate::proofs::Explained::row_explained))]
pub fn key_reason(
    alloc: Global,
    schema: &Schema,
    key: &RecordLine<'_>,
) -> Result<Option<Reason>, AllocError>
    ensures reason { IfOk result (λ reason. reason ≡ spec.key_reason schema.now 1 key.now) }
    ensures refusal { IfOk result (λ reason. Explains (read_key schema.now 1 key.now) reason) }
{
    let mut cutter = RecordCutter::new(alloc);
    row_reason(&mut cutter, schema.key_columns(), 1, key)
}
