//! Reads packed changes in pieces, by the workers of a crew.
ghost use Rattle.std.specs.Prelude.{◌≡◌, ◌≢◌, ◌<◌, ◌≤◌, Err, IfErr, IfOk, IfSome, Ok, Some, length, map};
ghost use Rattle.std.specs.List.{All};
ghost use Rattle.std.specs.Option.{MatchOption};
ghost use Rattle.bt_batch.specs.Changes.{AreOfSchema};
ghost use Rattle.bt_message.specs.Messages.{sorted_batch};
ghost use Rattle.bt_value.specs.Lists.{concatenation};
ghost use Rattle.bt_packed.specs.Changes.{packed_messages};
ghost use Rattle.bt_packed.specs.Pieces as spec;

use crate::changes::{change_at, read_messages};
use crate::fault::Fault;
use crate::reading::{content_at, header_at};
use bt_batch::{Changes, merged_groups};
use bt_gang::{Context, Crew, Gate, Work, job_values, most_workers};
use bt_messages::Packet;
use bt_row::{Column, Row, Schema};
use bt_value::{Form, Refusal};
use std::alloc::{AllocError, Global};
use std::sync::Wait;
use std::thread::Threads;

/// Some of the changes in some bytes: their number, and the places where their bytes begin and end.
#[derive(Clone, Copy, Drop)]
pub(crate) struct ChangePiece {
    pub(crate) count: u32,
    pub(crate) start: usize,
    pub(crate) end: usize,
}

// The bytes after values of columns. The values are not checked.
fn after_values<'b>(columns: &[Column], bytes: &'b [u8]) -> Option<&'b [u8]> {
    let mut rest = bytes;
    for column in columns {
        let (_content, others) = content_at(column.kind.form(), rest)?;
        rest = others;
    }
    Some(rest)
}

// The bytes after an operation. It is not checked.
fn after_op<'b>(schema: &Schema, bytes: &'b [u8]) -> Option<&'b [u8]> {
    let [code, place, rest @ ..] = bytes else {
        return None;
    };
    let form = if *code == 0 {
        schema.columns().get(*place as usize)?.kind.form()
    } else {
        Form::Number
    };
    let (_content, rest) = content_at(form, rest)?;
    Some(rest)
}

// The bytes after operations, which follow their number.
fn after_ops<'b>(schema: &Schema, bytes: &'b [u8]) -> Option<&'b [u8]> {
    let [count, rest @ ..] = bytes else {
        return None;
    };
    let mut rest = rest;
    for _ in 0..*count {
        rest = after_op(schema, rest)?;
    }
    Some(rest)
}

// The bytes after a change. It is not checked: what is found here only proposes where a piece ends, and whoever reads the piece sees whether it ends there.
fn after_change<'b>(schema: &Schema, bytes: &'b [u8]) -> Option<&'b [u8]> {
    let [code, rest @ ..] = bytes else {
        return None;
    };
    match *code {
        0 => after_values(schema.columns(), rest),
        1 => after_values(schema.key_columns(), rest),
        2 => after_ops(schema, after_values(schema.key_columns(), rest)?),
        _ => None,
    }
}

// The place after this many changes.
fn end_of(schema: &Schema, bytes: &[u8], start: usize, count: u32) -> Option<usize>
    requires { start ≤ length bytes.now }
    ensures { IfSome result (λ end. end ≤ length bytes.now) }
{
    let mut rest = &bytes[start..];
    for _ in 0..count {
        rest = after_change(schema, rest)?;
    }
    bytes.len().checked_sub(rest.len())
}

// Pieces of at most this many changes each, in a row, or `None` if the bytes seem to be no changes.
fn pieces_of(
    alloc: Global,
    schema: &Schema,
    bytes: &[u8],
    count: u32,
    most: u32,
) -> Result<Option<Vec<ChangePiece>>, AllocError>
    requires { 0 < most }
    ensures row { IfOk result (λ found. IfSome found (λ pieces. spec.AreInRow 0 count pieces.items (length bytes.now))) }
    ensures within { IfOk result (λ found. IfSome found (λ pieces. All (spec.IsWithin bytes.now) pieces.items)) }
{
    let mut pieces = Vec::new(alloc);
    let mut start = 0;
    let mut left = count;
    while left > 0 {
        let own = left.min(most);
        let Some(end) = end_of(schema, bytes, start, own) else {
            return Ok(None);
        };
        pieces.push(ChangePiece {
            count: own,
            start,
            end,
        })?;
        start = end;
        left -= own;
    }
    if start == bytes.len() {
        Ok(Some(pieces))
    } else {
        Ok(None)
    }
}

// Adds this many changes, and returns the bytes after them, or `None` if one is refused.
fn add_some<'b>(
    alloc: Global,
    changes: &mut Changes<'_>,
    count: u32,
    bytes: &'b [u8],
) -> Result<Option<&'b [u8]>, AllocError>
    ensures read { IfOk result (λ rest. MatchOption rest ((fault : Fault) × (spec.some_from count (changes.old, bytes.now) ≡ Err fault))
        (λ rest. spec.some_from count (changes.old, bytes.now) ≡ Ok (changes.new, rest.now))) }
    ensures same_schema { changes.new.schema ≡ changes.old.schema }
{
    let mut rest = bytes;
    let mut left = count;
    while left > 0 {
        match change_at(alloc, changes, rest) {
            Ok(others) => rest = others,
            Err(fault) => {
                return match fault.refusal {
                    Refusal::OutOfMemory => Err(AllocError),
                    _ => Ok(None),
                };
            }
        }
        left -= 1;
    }
    Ok(Some(rest))
}

// The messages of a piece as a packet, if none of its changes is refused and they end where the piece does.
fn read_piece(
    alloc: Global,
    schema: &Schema,
    bytes: &[u8],
    piece: ChangePiece,
) -> Result<Option<Packet<Row>>, AllocError>
    requires { spec.IsWithin bytes.now piece }
    ensures reading { IfOk result (λ reading. reading ≡ spec.reading_of schema.now bytes.now piece) }
    ensures of_schema { IfOk result (λ reading. IfSome reading (AreOfSchema schema.now)) }
{
    let mut changes = Changes::new(alloc, schema);
    let Some(rest) = add_some(alloc, &mut changes, piece.count, &bytes[piece.start..])? else {
        drop(changes);
        return Ok(None);
    };
    if rest != &bytes[piece.end..] {
        drop(changes);
        return Ok(None);
    }
    Ok(Some(changes.into_packet(alloc)?))
}

/// Reads pieces of bytes for a table with this schema. A job is a piece.
#[derive(Drop)]
struct PieceReadings<'s, 'b> {
    schema: &'s Schema,
    bytes: &'b [u8],
}

impl<'s, 'b> Work for PieceReadings<'s, 'b> {
    type Job = ChangePiece;

    type Done = Option<Packet<Row>>;

    type Fault = AllocError;

    ghost use Rattle.std.specs.Prelude.{◌≡◌, IfSome, MatchResult, ⊤};
    ghost use Rattle.std.proofs.Common.{sym, ◌∙◌};
    ghost use Rattle.bt_batch.specs.Changes.{AreOfSchema};
    ghost use Rattle.bt_packed.specs.Pieces.{IsWithin, reading_of};

    ghost accepts = { λ work piece. IsWithin work.bytes.now piece };

    ghost allows = { λ work piece answer. MatchResult answer
        (λ reading. (reading ≡ reading_of work.schema.now work.bytes.now piece) × IfSome reading (AreOfSchema work.schema.now)) (λ _. ⊤) };

    fn run(&self, alloc: Global, job: ChangePiece) -> Result<Option<Packet<Row>>, AllocError> {
        read_piece(alloc, self.schema, self.bytes, job)
    }

    ghost one_value = { λ _ _ _ _ e f. e.0 ∙ sym f.0 };
}

// The packets of all pieces, or `None` if there is a piece without one.
fn all_packets(
    alloc: Global,
    readings: Vec<Option<Packet<Row>>>,
) -> Result<Option<Vec<Packet<Row>>>, AllocError>
    ensures { IfOk result (λ all. IfSome all (λ packets. readings.items ≡ map Some packets.items)) }
{
    let mut packets = Vec::with_capacity(alloc, readings.len())?;
    for reading in readings {
        let Some(packet) = reading else {
            return Ok(None);
        };
        packets.push(packet)?;
    }
    Ok(Some(packets))
}

// Merges packets by a crew.
fn merged<G: Gate + Sync, T: Threads + Wait + Sync>(
    context: &Context<'_, T, Crew<G>>,
    packets: Vec<Packet<Row>>,
) -> Result<Packet<Row>, AllocError>
    ensures { IfOk result (λ packet. packet ≡ sorted_batch (concatenation packets.items)) }
{
    let Context { rt, alloc, crew } = *context;
    let mut groups = Vec::with_capacity(alloc, 1)?;
    groups.push_reserved(packets);
    let mut merged = merged_groups(rt, alloc, groups, crew)?;
    match merged.pop() {
        Some(packet) => Ok(packet),
        None => unreachable!(),
    }
}

// The messages of packed changes as a packet, read in pieces, or `None` if the changes are few or one of them is refused.
fn read_pieces<G: Gate + Sync, T: Threads + Wait + Sync>(
    context: &Context<'_, T, Crew<G>>,
    schema: &Schema,
    bytes: &[u8],
) -> Result<Option<Packet<Row>>, AllocError>
    ensures read { IfOk result (λ read. IfSome read (λ packet. packed_messages schema.now bytes.now ≡ Ok packet)) }
    ensures of_schema { IfOk result (λ read. IfSome read (AreOfSchema schema.now)) }
{
    let Context { rt, alloc, crew } = *context;
    let Some((count, changes)) = header_at(bytes) else {
        return Ok(None);
    };
    let workers = crew
        .with_at_most(most_workers(crew, count as usize))
        .workers;
    if workers == 1 {
        return Ok(None);
    }
    let most = count / workers as u32 + 1;
    let Some(pieces) = pieces_of(alloc, schema, changes, count, most)? else {
        return Ok(None);
    };
    let work = PieceReadings {
        schema,
        bytes: changes,
    };
    let readings = job_values(rt, alloc, &work, pieces, &crew.without_gate())?;
    match all_packets(alloc, readings)? {
        Some(packets) => Ok(Some(merged(context, packets)?)),
        None => Ok(None),
    }
}

/// The messages that packed bytes encode, as [`read_messages`] returns them, read by a crew. It reads many changes in pieces. If one of them is refused, the caller reads
/// all of them again, for the first fault.
pub(crate) fn read_messages_by_crew<G: Gate + Sync, T: Threads + Wait + Sync>(
    context: &Context<'_, T, Crew<G>>,
    schema: &Schema,
    bytes: &[u8],
) -> Result<Packet<Row>, Fault>
    ensures done { IfOk result (λ packet. packed_messages schema.now bytes.now ≡ Ok packet) }
    ensures fault { IfErr result (λ fault. fault.refusal ≢ Refusal.OutOfMemory → packed_messages schema.now bytes.now ≡ Err fault) }
    ensures of_schema { IfOk result (AreOfSchema schema.now) }
{
    match read_pieces(context, schema, bytes)? {
        Some(packet) => Ok(packet),
        None => read_messages(context.alloc, schema, bytes),
    }
}
