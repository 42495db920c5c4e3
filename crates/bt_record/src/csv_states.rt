//! Reading the first record of a text byte by byte, by the states that `csv` defines.
//!
//! The library's own reader has a buffer of 8 KiB, which makes it expensive for a single line. These are its states with its default
//! settings, without the buffer.
ghost use Rattle.std.specs.Prelude.{◌≡◌, ◌<◌, ◌≤◌, false, is_some, length, true, IfOk};
ghost use Rattle.csv.specs.Machine.{is_end, step as csv_step};
ghost use Rattle.csv.specs.Reading.{default_config};
ghost use Rattle.bt_record.specs.inside.Pieces.{LieWithin, pieces};
ghost use Rattle.bt_record.specs.inside.CsvStates.{csv_action, csv_state};
ghost use Rattle.bt_record.specs.Records.{csv_record, fields_in};
ghost use Rattle.bt_record.specs.inside.RecordParts.{EndsAt, begins_record};

use crate::fields::FieldSpan;
use std::alloc::AllocError;

// The place of the reader in a record.
#[derive(Clone, Copy)]
enum State {
    // before its first byte
    Record,
    // before the first byte of a field
    Field,
    // in a field, after a byte that is not a quote
    Plain,
    // between quotes
    Quoted,
    // after a quote that ends the quoted part, or is the first of two
    Quote,
}

// What is done with a byte.
#[derive(Clone, Copy)]
enum ByteAction {
    // it is skipped
    Skip,
    // it belongs to the field
    Copy,
    // the field ends before it
    EndField,
    // the record ends before it
    EndRecord,
}

// The action of a byte in a field, outside quotes, and the next state. After the end of a record nothing reads the state.
#[inline(always)]
fn in_field(byte: u8) -> (State, ByteAction)
    ensures action { csv_action result.1 ≡ (csv_step default_config (csv_state State.Plain) byte).1 }
    ensures state { is_end (csv_action result.1) ≡ false → csv_state result.0 ≡ (csv_step default_config (csv_state State.Plain) byte).0 }
{
    match byte {
        b',' => (State::Field, ByteAction::EndField),
        b'\r' | b'\n' => (State::Record, ByteAction::EndRecord),
        _ => (State::Plain, ByteAction::Copy),
    }
}

// The action of a byte at the start of a field, and the next state.
#[inline(always)]
fn start_field(byte: u8) -> (State, ByteAction)
    ensures action { csv_action result.1 ≡ (csv_step default_config (csv_state State.Field) byte).1 }
    ensures state { is_end (csv_action result.1) ≡ false → csv_state result.0 ≡ (csv_step default_config (csv_state State.Field) byte).0 }
{
    if byte == b'"' {
        (State::Quoted, ByteAction::Skip)
    } else {
        in_field(byte)
    }
}

// The action of a byte in a state, and the next state. After the end of a record nothing reads the state.
#[inline(always)]
fn step(state: State, byte: u8) -> (State, ByteAction)
    ensures action { csv_action result.1 ≡ (csv_step default_config (csv_state state) byte).1 }
    ensures state { is_end (csv_action result.1) ≡ false → csv_state result.0 ≡ (csv_step default_config (csv_state state) byte).0 }
{
    match (state, byte) {
        (State::Record, b'\r' | b'\n') => (State::Record, ByteAction::Skip),
        (State::Record | State::Field, _) => start_field(byte),
        (State::Plain, _) => in_field(byte),
        (State::Quoted, b'"') => (State::Quote, ByteAction::Skip),
        (State::Quoted, _) => (State::Quoted, ByteAction::Copy),
        (State::Quote, b'"') => (State::Quoted, ByteAction::Copy),
        (State::Quote, _) => in_field(byte),
    }
}

/// Unescapes the first record of a text, as `csv` reads it, into bytes and the spans of its fields. Returns `false` if it has more
/// fields than the limit.
pub(crate) fn cut_quoted(
    bytes: &mut Vec<u8>,
    spans: &mut Vec<FieldSpan>,
    text: &[u8],
    most: usize,
) -> Result<bool, AllocError>
    requires { is_some (csv_record text.now) ≡ true }
    ensures fields { IfOk result (λ whole. whole ≡ true → fields_in text.now ≡ pieces bytes.new.items spans.new.items) }
    ensures few { IfOk result (λ whole. whole ≡ true → length spans.new.items ≤ most) }
    ensures within { IfOk result (λ whole. whole ≡ true → LieWithin (length bytes.new.items) spans.new.items) }
    ensures many { IfOk result (λ whole. whole ≡ false → most < length (fields_in text.now)) }
    ensures full { IfOk result (λ whole. whole ≡ false → most ≤ length spans.new.items) }
{
    bytes.clear();
    spans.clear();
    let mut start = 0;
    let mut state = State::Record;
    for byte in text {
        if spans.len() >= most {
            return Ok(false);
        }
        let (next, action) = step(state, *byte);
        let end = bytes.len();
        match action {
            ByteAction::Skip => {}
            ByteAction::Copy => bytes.push(*byte)?,
            ByteAction::EndField => {
                spans.push(FieldSpan { start, end })?;
                start = end;
            }
            ByteAction::EndRecord => {
                spans.push(FieldSpan { start, end })?;
                return Ok(true);
            }
        }
        state = next;
    }
    if spans.len() >= most {
        return Ok(false);
    }
    let end = bytes.len();
    spans.push(FieldSpan { start, end })?;
    Ok(true)
}

/// The end of the first record of a text that begins with it: at its line end, or at the end of the text.
pub(crate) fn record_end(text: &[u8]) -> usize
    requires { begins_record text.now ≡ true }
    ensures within { result ≤ length text.now }
    ensures ends { EndsAt text.now result }
{
    let mut state = State::Field;
    for (place, byte) in text.iter().enumerate() {
        let (next, action) = step(state, *byte);
        if matches!(action, ByteAction::EndRecord) {
            return place;
        }
        state = next;
    }
    text.len()
}
