//! Reading packed changes.
ghost use Rattle.std.specs.Prelude.{◌≡◌, ◌≢◌, Err, IfErr, IfOk, Ok};
ghost use Rattle.bt_batch.specs.Changes.{AreOfSchema};
ghost use Rattle.bt_packed.specs.Changes as spec;

use crate::fault::Fault;
use crate::operations::ops_at;
use crate::reading::{header_at, values_at};
use bt_batch::Changes;
use bt_messages::Packet;
use bt_row::{Row, Schema};
use bt_value::Refusal;
use std::alloc::Global;

/// The values of the key columns at the front of bytes, and the bytes after them.
pub(crate) fn key_at<'b>(
    alloc: Global,
    schema: &Schema,
    item: u64,
    bytes: &'b [u8],
) -> Result<(Row, &'b [u8]), Fault>
    ensures done { IfOk result (λ read. spec.key_at schema.now item bytes.now ≡ Ok (read.0, read.1.now)) }
    ensures fault { IfErr result (λ fault. fault.refusal ≢ Refusal.OutOfMemory → spec.key_at schema.now item bytes.now ≡ Err fault) }
{
    values_at(alloc, item, schema.key_columns(), bytes)
}

// Adds the put of the row at the front of bytes, and returns the bytes after it. An `Err` changes nothing.
fn put_at<'b>(alloc: Global, changes: &mut Changes<'_>, bytes: &'b [u8]) -> Result<&'b [u8], Fault>
    ensures done { IfOk result (λ rest. spec.put_at changes.old bytes.now ≡ Ok (changes.new, rest.now)) }
    ensures fault { IfErr result (λ fault. fault.refusal ≢ Refusal.OutOfMemory → spec.put_at changes.old bytes.now ≡ Err fault) }
    ensures same_schema { changes.new.schema ≡ changes.old.schema }
{
    let item = changes.next_item();
    let (row, rest) = values_at(alloc, item, changes.schema().columns(), bytes)?;
    match changes.put(alloc, row) {
        Ok(()) => Ok(rest),
        Err(refusal) => Err(Fault::at(refusal, item, 0)),
    }
}

// Adds the del of the key at the front of bytes, and returns the bytes after it. An `Err` changes nothing.
fn del_at<'b>(alloc: Global, changes: &mut Changes<'_>, bytes: &'b [u8]) -> Result<&'b [u8], Fault>
    ensures done { IfOk result (λ rest. spec.del_at changes.old bytes.now ≡ Ok (changes.new, rest.now)) }
    ensures fault { IfErr result (λ fault. fault.refusal ≢ Refusal.OutOfMemory → spec.del_at changes.old bytes.now ≡ Err fault) }
    ensures same_schema { changes.new.schema ≡ changes.old.schema }
{
    let item = changes.next_item();
    let (key, rest) = key_at(alloc, changes.schema(), item, bytes)?;
    match changes.del(alloc, &key) {
        Ok(()) => Ok(rest),
        Err(refusal) => Err(Fault::at(refusal, item, 0)),
    }
}

// Adds the upsert at the front of bytes, and returns the bytes after it. An `Err` changes nothing.
fn ups_at<'b>(alloc: Global, changes: &mut Changes<'_>, bytes: &'b [u8]) -> Result<&'b [u8], Fault>
    ensures done { IfOk result (λ rest. spec.ups_at changes.old bytes.now ≡ Ok (changes.new, rest.now)) }
    ensures fault { IfErr result (λ fault. fault.refusal ≢ Refusal.OutOfMemory → spec.ups_at changes.old bytes.now ≡ Err fault) }
    ensures same_schema { changes.new.schema ≡ changes.old.schema }
{
    let item = changes.next_item();
    let (key, rest) = key_at(alloc, changes.schema(), item, bytes)?;
    let (ops, rest) = ops_at(alloc, changes.schema(), item, rest)?;
    match changes.ups(alloc, key, ops) {
        Ok(()) => Ok(rest),
        Err(refusal) => Err(Fault::at(refusal, item, 0)),
    }
}

/// Adds the change at the front of bytes, and returns the bytes after it. An `Err` changes nothing.
pub(crate) fn change_at<'b>(
    alloc: Global,
    changes: &mut Changes<'_>,
    bytes: &'b [u8],
) -> Result<&'b [u8], Fault>
    ensures done { IfOk result (λ rest. spec.change_at changes.old bytes.now ≡ Ok (changes.new, rest.now)) }
    ensures fault { IfErr result (λ fault. fault.refusal ≢ Refusal.OutOfMemory → spec.change_at changes.old bytes.now ≡ Err fault) }
    ensures same_schema { changes.new.schema ≡ changes.old.schema }
{
    let [code, rest @ ..] = bytes else {
        return Err(Fault::bad_bytes(changes.next_item(), 0));
    };
    match *code {
        0 => put_at(alloc, changes, rest),
        1 => del_at(alloc, changes, rest),
        2 => ups_at(alloc, changes, rest),
        _ => Err(Fault::bad_bytes(changes.next_item(), 0)),
    }
}

// Adds this many changes, with nothing after them.
fn add_changes(
    alloc: Global,
    changes: &mut Changes<'_>,
    count: u32,
    bytes: &[u8],
) -> Result<(), Fault>
    ensures done { IfOk result (λ _. spec.changes_from count (changes.old, bytes.now) ≡ Ok changes.new) }
    ensures fault { IfErr result (λ fault. fault.refusal ≢ Refusal.OutOfMemory → spec.changes_from count (changes.old, bytes.now) ≡ Err fault) }
    ensures same_schema { changes.new.schema ≡ changes.old.schema }
{
    let mut rest = bytes;
    let mut left = count;
    while left > 0 {
        rest = change_at(alloc, changes, rest)?;
        left -= 1;
    }
    if rest.is_empty() {
        Ok(())
    } else {
        Err(Fault::bad_bytes(changes.next_item(), 0))
    }
}

/// The changes that packed bytes encode, checked by a schema. Refused with the first fault: no header, a change whose bytes are none of its layout, an
/// upsert whose operations the schema does not allow, or bytes after the last change.
pub fn read_changes<'s>(
    alloc: Global,
    schema: &'s Schema,
    bytes: &[u8],
) -> Result<Changes<'s>, Fault>
    ensures done { IfOk result (λ changes. spec.packed_changes schema.now bytes.now ≡ Ok changes) }
    ensures fault { IfErr result (λ fault. fault.refusal ≢ Refusal.OutOfMemory → spec.packed_changes schema.now bytes.now ≡ Err fault) }
    ensures schema { IfOk result (λ changes. changes.schema ≡ schema.now) }
{
    let Some((count, rest)) = header_at(bytes) else {
        return Err(Fault::no_header());
    };
    let mut changes = Changes::new(alloc, schema);
    add_changes(alloc, &mut changes, count, rest)?;
    Ok(changes)
}

/// The messages that packed bytes encode, as a packet. Refused like [`read_changes`].
pub(crate) fn read_messages(
    alloc: Global,
    schema: &Schema,
    bytes: &[u8],
) -> Result<Packet<Row>, Fault>
    ensures done { IfOk result (λ packet. spec.packed_messages schema.now bytes.now ≡ Ok packet) }
    ensures fault { IfErr result (λ fault. fault.refusal ≢ Refusal.OutOfMemory → spec.packed_messages schema.now bytes.now ≡ Err fault) }
    ensures of_schema { IfOk result (AreOfSchema schema.now) }
{
    let changes = read_changes(alloc, schema, bytes)?;
    Ok(changes.into_packet(alloc)?)
}
