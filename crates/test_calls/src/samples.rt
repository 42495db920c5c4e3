//! Sample values for tests, and texts of results for comparing them.
use bt_keycode::Key;
use bt_messages::{Buffer, Entry, Merge, Message, Messages, Packet};
use bt_rowtype::{
    Change, Column, Columns, Fields, Kind, MOST_VALUE_BYTES, Op, Ops, RecordLine, Refusal, Row,
    Schema, Text, ValueRef, write_row,
};
use std::alloc::{AllocError, Global};

/// Whether there is a result, and it is this text.
pub(crate) fn is_text<E: Drop>(answer: Result<Vec<u8>, E>, text: &str) -> bool {
    match answer {
        Ok(answer) => answer.as_slice() == text.as_bytes(),
        Err(_) => false,
    }
}

/// A text, or the empty one if it is too long.
pub(crate) fn short_text(alloc: Global, text: &str) -> Result<Text, AllocError> {
    if text.len() > MOST_VALUE_BYTES {
        return Ok(Text::empty());
    }
    Text::new(alloc, text)
}

/// Shops by their id, which is the key.
pub(crate) fn shops(alloc: Global) -> Result<Schema, Refusal> {
    let mut columns = Columns::new(alloc);
    for (name, kind) in [
        ("id", Kind::Int),
        ("qty", Kind::Int),
        ("city", Kind::Text),
        ("open", Kind::Flag),
    ] {
        let name = short_text(alloc, name)?;
        columns.push(Column { name, kind })?;
    }
    Schema::new(columns, 1)
}

/// The fields of a line, and none if the line is not a record.
pub(crate) fn fields(alloc: Global, line: &str) -> Result<Fields, AllocError> {
    match RecordLine::new(line.as_bytes()) {
        Some(line) => line.fields(alloc),
        None => Ok(Fields::new(alloc)),
    }
}

/// A refusal: its name, and its item or 0.
pub(crate) fn refusal_text(alloc: Global, refusal: Refusal) -> Result<Vec<u8>, AllocError> {
    let item = refusal.item().unwrap_or(0);
    let text = format!(in alloc; "{} {item}", refusal.name())?;
    Ok(text.into_bytes())
}

/// The record of the values that were read, or why there are none.
pub(crate) fn row_text(alloc: Global, read: Result<Row, Refusal>) -> Result<Vec<u8>, AllocError> {
    match read {
        Ok(row) => {
            let mut out = Vec::new(alloc);
            write_row(&mut out, &row)?;
            Ok(out)
        }
        Err(refusal) => refusal_text(alloc, refusal),
    }
}

/// Values of a tree, each of which represents a number.
pub(crate) trait Sample: Merge {
    fn of(alloc: Global, number: u32) -> Result<Self, AllocError>;

    fn delta(alloc: Global, number: u32) -> Result<Self::Delta, AllocError>;

    /// The number that the value represents.
    fn number(&self) -> i64;

    /// The number that an upsert carries.
    fn delta_number(alloc: Global, delta: &Self::Delta) -> Result<i64, AllocError>;
}

impl Sample for Row {
    fn of(alloc: Global, number: u32) -> Result<Row, AllocError> {
        let mut row = Row::new();
        row.push(alloc, ValueRef::Int(i64::from(number)))?;
        Ok(row)
    }

    fn delta(alloc: Global, number: u32) -> Result<Change, AllocError> {
        let mut ops = Ops::new(alloc);
        ops.push(Op::Add(0, i64::from(number)))?;
        Change::new(alloc, Row::of(alloc, 0)?, ops)
    }

    fn number(&self) -> i64 {
        only_int(self)
    }

    fn delta_number(alloc: Global, delta: &Change) -> Result<i64, AllocError> {
        match delta.ops(alloc)?.as_slice() {
            [Op::Add(0, number)] => Ok(*number),
            _ => Ok(-1),
        }
    }
}

// The number of a row that is one int.
fn only_int(row: &Row) -> i64 {
    if row.len() != 1 {
        return -1;
    }
    match row.get(0) {
        ValueRef::Int(number) => number,
        _ => -1,
    }
}

impl Sample for Entry {
    fn of(alloc: Global, number: u32) -> Result<Entry, AllocError> {
        Ok(Entry::new(Row::of(alloc, number)?))
    }

    fn delta(alloc: Global, number: u32) -> Result<Entry, AllocError> {
        Entry::of(alloc, number)
    }

    fn number(&self) -> i64 {
        only_int(self.as_row())
    }

    fn delta_number(_alloc: Global, delta: &Entry) -> Result<i64, AllocError> {
        Ok(delta.number())
    }
}

/// A message to a key, with the number of its value or of its upsert.
#[derive(Clone, Copy)]
pub(crate) enum Sent {
    Put(u32),
    Del,
    Ups(u32),
}

/// The key of these letters.
pub(crate) fn key(alloc: Global, letters: &str) -> Result<Key, AllocError> {
    Key::from_bytes(alloc, letters.as_bytes())
}

/// The message.
pub(crate) fn message<V: Sample>(alloc: Global, sent: Sent) -> Result<Message<V>, AllocError> {
    match sent {
        Sent::Put(number) => Ok(Message::Put(V::of(alloc, number)?)),
        Sent::Del => Ok(Message::Del),
        Sent::Ups(number) => Ok(Message::Ups(V::delta(alloc, number)?)),
    }
}

/// The packet of a batch.
pub(crate) fn packet<V: Sample>(
    alloc: Global,
    batch: &[(&str, Sent)],
) -> Result<Packet<V>, AllocError> {
    let mut messages = Vec::new(alloc);
    for (letters, sent) in batch {
        let message = message::<V>(alloc, *sent)?;
        messages.push((key(alloc, letters)?, message))?;
    }
    Packet::from_batch(alloc, messages)
}

// Appends a sign, a key, a number and a space.
fn add_item(
    alloc: Global,
    out: &mut Vec<u8>,
    sign: &str,
    key: &Key,
    number: i64,
) -> Result<(), AllocError> {
    out.extend_from_slice(sign.as_bytes())?;
    out.extend_from_slice(key.as_slice())?;
    let text = format!(in alloc; "{number} ")?;
    out.extend_from_slice(text.as_bytes())
}

/// Appends a message: `+a1 ` for a put, `-a0 ` for a del, `~a1 ` for an upsert.
pub(crate) fn add_message<V: Sample>(
    alloc: Global,
    out: &mut Vec<u8>,
    key: &Key,
    message: &Message<V>,
) -> Result<(), AllocError> {
    match message {
        Message::Put(value) => add_item(alloc, out, "+", key, value.number()),
        Message::Del => add_item(alloc, out, "-", key, 0),
        Message::Ups(delta) => add_item(alloc, out, "~", key, V::delta_number(alloc, delta)?),
    }
}

/// The messages of a packet, in order.
pub(crate) fn packet_text<V: Sample>(
    alloc: Global,
    packet: Packet<V>,
) -> Result<Vec<u8>, AllocError> {
    let mut out = Vec::new(alloc);
    for (key, message) in packet.iter() {
        add_message(alloc, &mut out, key, message)?;
    }
    Ok(out)
}

/// The messages of an iterator, in order.
pub(crate) fn messages_text<V: Sample>(
    alloc: Global,
    messages: Messages<'_, V>,
) -> Result<Vec<u8>, AllocError> {
    let mut out = Vec::new(alloc);
    for (key, message) in messages {
        add_message(alloc, &mut out, key, message)?;
    }
    Ok(out)
}

/// The messages of a buffer, in order.
pub(crate) fn buffer_text<V: Sample>(
    alloc: Global,
    buffer: &Buffer<V>,
) -> Result<Vec<u8>, AllocError> {
    messages_text(alloc, buffer.iter())
}

/// Appends a value and its key: `a1 `.
pub(crate) fn add_value<V: Sample>(
    alloc: Global,
    out: &mut Vec<u8>,
    key: &Key,
    value: &V,
) -> Result<(), AllocError> {
    add_item(alloc, out, "", key, value.number())
}
