//! The messages that the records of a batch encode.
ghost use Rattle.std.specs.Prelude.{◌≡◌, ◌+◌, ◌<◌, ◌^◌, ◌∷◌, [], Some, IfOk, length};
ghost use Rattle.std.specs.List.{filter_map};
ghost use Rattle.std.specs.Result.{result_err, result_ok};
ghost use Rattle.bt_value.specs.Answers.{Answers};
ghost use Rattle.bt_value.specs.Refusals.{lowest, lowest_from};
ghost use Rattle.bt_batch.specs.Batches as spec;

use bt_keycode::{Key, encode_row};
use bt_messages::Message;
use bt_row::{Row, Schema};
use bt_rowtype::{Item, RecordReader};
use bt_value::{Collected, Refusal, lowest_with};
use std::alloc::{AllocError, Global};

/// The largest number of messages in a batch.
pub const MOST_MESSAGES: usize = 65_536;

/// The message that a line encodes, or its refusal as this item.
pub(crate) fn read_message(
    alloc: Global,
    reader: &mut RecordReader,
    schema: &Schema,
    item: u64,
    line: &Item<'_>,
) -> Result<(Key, Message<Row>), Refusal>
    ensures { Answers (spec.read_message schema.now item line.now) result }
{
    match line {
        Item::Put(fields) => {
            let row = reader.read_row(alloc, schema, item, fields)?;
            let key = encode_row(alloc, &row, schema.keys())?;
            Ok((key, Message::Put(row)))
        }
        Item::Del(fields) => {
            let key = reader.read_key(alloc, schema, item, fields)?;
            Ok((encode_row(alloc, &key, key.len())?, Message::Del))
        }
        Item::Ups(fields) => {
            let change = reader.read_change(alloc, schema, item, fields)?;
            let key = encode_row(alloc, change.base(), schema.keys())?;
            Ok((key, Message::Ups(change)))
        }
    }
}

/// The messages of lines of a batch that follow `before` others, and the lowest refusal if a line is refused.
pub(crate) fn read_lines(
    alloc: Global,
    schema: &Schema,
    before: usize,
    lines: &[Item<'_>],
) -> Result<Collected<(Key, Message<Row>)>, AllocError>
    requires { before + length lines.now < 2 ^ 63 }
    ensures messages { IfOk result (λ read. read.values ≡ filter_map result_ok (spec.read_batch schema.now (before + 1) lines.now)) }
    ensures refusal { IfOk result (λ read. read.refusal ≡ lowest (filter_map result_err (spec.read_batch schema.now (before + 1) lines.now))) }
{
    let mut reader = RecordReader::new(alloc);
    let mut reading = Collected::with_capacity(alloc, lines.len())?;
    for (place, line) in lines.iter().enumerate() {
        let item = before as u64 + place as u64 + 1;
        reading.add(read_message(alloc, &mut reader, schema, item, line))?;
    }
    Ok(reading)
}

// The refusal of a line as this item, if it encodes no message.
fn refusal_of(
    alloc: Global,
    reader: &mut RecordReader,
    schema: &Schema,
    item: u64,
    line: &Item<'_>,
) -> Result<Option<Refusal>, AllocError>
    ensures { IfOk result (λ refusal. refusal ≡ result_err (spec.read_message schema.now item line.now)) }
{
    match read_message(alloc, reader, schema, item, line) {
        Ok(message) => {
            drop(message);
            Ok(None)
        }
        Err(Refusal::OutOfMemory) => Err(AllocError),
        Err(other) => Ok(Some(other)),
    }
}

/// The refusal of a batch with too many lines. It is the lowest of the refusals of the lines and of `TooMany`. No message is kept.
pub(crate) fn refuse_many(
    alloc: Global,
    schema: &Schema,
    items: &[Item<'_>],
) -> Result<Refusal, AllocError>
    ensures { IfOk result (λ refusal. lowest_from (lowest (filter_map result_err (spec.read_batch schema.now 1 items.now))) (Refusal.TooMany ∷ []) ≡ Some refusal) }
{
    let mut reader = RecordReader::new(alloc);
    let mut found = None;
    for (place, line) in items.iter().enumerate() {
        if let Some(refusal) = refusal_of(alloc, &mut reader, schema, place as u64 + 1, line)? {
            found = Some(lowest_with(found, refusal));
        }
    }
    Ok(lowest_with(found, Refusal::TooMany))
}
