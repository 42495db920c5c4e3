//! Weights: of messages to rows and to index values, and of the bins that have them.
//!
//! The rows have two ints: an id, which is the key, and a quantity.
use crate::indexes::{key, row};
use crate::samples::is_text;
use bt_keycode::{Key, encode};
use bt_messages::{Bins, Entry, Measure, Merge, Message, Packet};
use bt_rowtype::{Change, Op, Ops, Row, Value};
use std::alloc::{AllocError, Global};

/// The largest weight of a message, in bytes.
const MOST: usize = 16_777_215;

// Appends a weight and a space.
fn add_weight(alloc: Global, out: &mut Vec<u8>, weight: u128) -> Result<(), AllocError> {
    let text = format!(in alloc; "{weight} ")?;
    out.extend_from_slice(text.as_bytes())
}

// The weights of messages with their keys.
fn weights_text<V: Merge>(
    alloc: Global,
    messages: &[(Key, Message<V>)],
) -> Result<Vec<u8>, AllocError> {
    let mut out = Vec::new(alloc);
    for (key, message) in messages {
        add_weight(alloc, &mut out, u128::from(message.weight(key)))?;
    }
    Ok(out)
}

// The change that adds to the quantity of an id.
fn addition(alloc: Global, id: i64, number: i64) -> Result<Change, AllocError> {
    let mut ops = Ops::new(alloc);
    ops.push(Op::Add(1, number))?;
    Change::new(alloc, row(alloc, id, 0)?, ops)
}

// A put of the id 1, a del of the id 2, an upsert of the id 1 and a put of the id 3.
fn four_messages(alloc: Global) -> Result<Vec<(Key, Message<Row>)>, AllocError> {
    let mut messages = Vec::new(alloc);
    messages.push((key(alloc, 1)?, Message::Put(row(alloc, 1, 10)?)))?;
    messages.push((key(alloc, 2)?, Message::Del))?;
    messages.push((key(alloc, 1)?, Message::Ups(addition(alloc, 1, 5)?)))?;
    messages.push((key(alloc, 3)?, Message::Put(row(alloc, 3, 30)?)))?;
    Ok(messages)
}

fn four_weights(alloc: Global) -> Result<Vec<u8>, AllocError> {
    let messages = four_messages(alloc)?;
    weights_text(alloc, messages.as_slice())
}

#[test]
fn messages_to_rows_are_weighed(rt: HostRuntime) {
    assert!(rt; is_text(four_weights(rt.alloc()), "25 9 19 25 "));
}

// A key of two ints.
fn long_key(alloc: Global) -> Result<Key, AllocError> {
    encode(alloc, &[Value::Int(10), Value::Int(1)])
}

// An index value that includes two ints.
fn included(alloc: Global) -> Result<Entry, AllocError> {
    Ok(Entry::new(row(alloc, 1, 10)?))
}

// The weights of a put and an upsert of such a value, of a put of one that includes nothing and of a del.
fn entry_weights(alloc: Global) -> Result<Vec<u8>, AllocError> {
    let mut messages = Vec::new(alloc);
    messages.push((long_key(alloc)?, Message::Put(included(alloc)?)))?;
    messages.push((long_key(alloc)?, Message::Ups(included(alloc)?)))?;
    messages.push((long_key(alloc)?, Message::Put(Entry::new(Row::new()))))?;
    messages.push((long_key(alloc)?, Message::Del))?;
    weights_text(alloc, messages.as_slice())
}

#[test]
fn messages_to_entries_are_weighed(rt: HostRuntime) {
    assert!(rt; is_text(entry_weights(rt.alloc()), "33 33 17 17 "));
}

// The weight of a del of a key of `length` bytes.
fn del_weight(alloc: Global, length: usize) -> Result<u64, AllocError> {
    let bytes = vec![in alloc; 7u8; length]?;
    let key = Key::from_bytes(alloc, bytes.as_slice())?;
    Ok(Message::<Row>::Del.weight(&key))
}

#[test]
fn no_message_weighs_more_than_the_most(rt: HostRuntime) {
    for (length, weight) in [(MOST - 2, 16_777_214), (MOST, 16_777_215)] {
        assert!(rt; matches!(del_weight(rt.alloc(), length), Ok(found) if found == weight));
    }
}

// Bins divided at the id 2 with the four messages, measured in this way.
fn divided(alloc: Global, measure: Measure) -> Result<Bins<Row>, AllocError> {
    let pivots = [key(alloc, 2)?];
    let mut bins = Bins::new(alloc, 2)?;
    let mut stream = Packet::from_batch(alloc, four_messages(alloc)?)?.into_stream();
    let count = stream.len();
    let shares = stream.shares(alloc, measure, count, &pivots)?;
    bins.add_shares(alloc, &mut stream, shares.as_slice())?;
    Ok(bins)
}

// Appends the weight of each bin, and a bar.
fn add_weights(alloc: Global, out: &mut Vec<u8>, bins: &Bins<Row>) -> Result<(), AllocError> {
    for child in 0..bins.len() {
        add_weight(alloc, out, bins.weight(child))?;
    }
    out.extend_from_slice(b"|")
}

// The weights of bins, and those after the first of them was taken.
fn bin_weights(alloc: Global, measure: Measure) -> Result<Vec<u8>, AllocError> {
    let mut out = Vec::new(alloc);
    let mut bins = divided(alloc, measure)?;
    add_weights(alloc, &mut out, &bins)?;
    if bins.len() > 0 {
        drop(bins.take(0));
    }
    add_weights(alloc, &mut out, &bins)?;
    Ok(out)
}

#[test]
fn bins_are_weighed(rt: HostRuntime) {
    for measure in [Measure::Messages, Measure::Bytes] {
        assert!(rt; is_text(bin_weights(rt.alloc(), measure), "44 34 |0 34 |"));
    }
}
