//! Packets, buffers and the effects of messages on values.
use crate::samples::{Sample, Sent, buffer_text, is_text, key, message, packet, packet_text};
use bt_keycode::Key;
use bt_messages::{Bins, Buffer, Entry, effect};
use bt_rowtype::Row;
use std::alloc::{AllocError, Global};

// Adds a batch to a buffer.
fn add_batch<V: Sample>(
    alloc: Global,
    buffer: &mut Buffer<V>,
    batch: &[(&str, Sent)],
) -> Result<(), AllocError> {
    buffer.add(packet(alloc, batch)?)
}

// The puts of a and c, and newer messages to a, b and c.
fn filled<V: Sample>(alloc: Global) -> Result<Buffer<V>, AllocError> {
    let mut buffer = Buffer::new(alloc);
    add_batch(
        alloc,
        &mut buffer,
        &[("c", Sent::Put(3)), ("a", Sent::Put(1))],
    )?;
    let newer = [
        ("c", Sent::Del),
        ("b", Sent::Put(2)),
        ("c", Sent::Ups(4)),
        ("a", Sent::Ups(5)),
    ];
    add_batch(alloc, &mut buffer, &newer)?;
    Ok(buffer)
}

// The messages of a batch, sorted.
fn sorted_text(alloc: Global, batch: &[(&str, Sent)]) -> Result<Vec<u8>, AllocError> {
    packet_text::<Row>(alloc, packet(alloc, batch)?)
}

#[test]
fn batches_are_sorted(rt: HostRuntime) {
    let batch = [("b", Sent::Put(2)), ("a", Sent::Del), ("b", Sent::Del)];
    assert!(rt; is_text(sorted_text(rt.alloc(), &batch), "-a0 +b2 -b0 "));
}

fn filled_text<V: Sample>(alloc: Global) -> Result<Vec<u8>, AllocError> {
    let buffer = filled::<V>(alloc)?;
    buffer_text(alloc, &buffer)
}

#[test]
fn newer_messages_come_after_older_ones(rt: HostRuntime) {
    let expected = "+a1 ~a5 +b2 +c3 -c0 ~c4 ";
    assert!(rt; is_text(filled_text::<Row>(rt.alloc()), expected));
    assert!(rt; is_text(filled_text::<Entry>(rt.alloc()), expected));
}

// Takes the messages of a range out of a buffer, and appends them and a bar.
fn add_taken(
    alloc: Global,
    out: &mut Vec<u8>,
    buffer: &mut Buffer<Row>,
    from: Option<&Key>,
    to: Option<&Key>,
) -> Result<(), AllocError> {
    let taken = packet_text(alloc, buffer.take_range(alloc, from, to)?)?;
    out.extend_from_slice(taken.as_slice())?;
    out.extend_from_slice(b"|")
}

// The messages taken out between the second and the first of two keys, between the first and the second, at and after the first, and then what is left.
fn taken_text(
    alloc: Global,
    buffer: &mut Buffer<Row>,
    first: &Key,
    second: &Key,
) -> Result<Vec<u8>, AllocError> {
    let mut out = Vec::new(alloc);
    add_taken(alloc, &mut out, buffer, Some(second), Some(first))?;
    add_taken(alloc, &mut out, buffer, Some(first), Some(second))?;
    add_taken(alloc, &mut out, buffer, Some(first), None)?;
    add_taken(alloc, &mut out, buffer, None, None)?;
    Ok(out)
}

fn ranges_text(alloc: Global, first: &str, second: &str) -> Result<Vec<u8>, AllocError> {
    let first = key(alloc, first)?;
    let second = key(alloc, second)?;
    let mut buffer = filled(alloc)?;
    taken_text(alloc, &mut buffer, &first, &second)
}

#[test]
fn ranges_are_taken_out(rt: HostRuntime) {
    assert!(rt;
        is_text(
            ranges_text(rt.alloc(), "b", "c"),
            "|+b2 |+c3 -c0 ~c4 |+a1 ~a5 |"
        )
    );
}

// Bins divided at c and e, with puts to a, d, d and i.
fn divided<V: Sample>(alloc: Global) -> Result<Bins<V>, AllocError> {
    let pivots = [key(alloc, "c")?, key(alloc, "e")?];
    let batch = [
        ("a", Sent::Put(10)),
        ("d", Sent::Put(40)),
        ("d", Sent::Put(41)),
        ("i", Sent::Put(90)),
    ];
    let mut bins = Bins::new(alloc, 3)?;
    bins.add(alloc, &pivots, packet(alloc, &batch)?)?;
    Ok(bins)
}

// Appends the number of messages of each bin and of all of them, and a bar.
fn add_counts<V: Sample>(
    alloc: Global,
    out: &mut Vec<u8>,
    bins: &Bins<V>,
) -> Result<(), AllocError> {
    for child in 0..bins.len() {
        let count = format!(in alloc; "{} ", bins.count(child))?;
        out.extend_from_slice(count.as_bytes())?;
    }
    let total = format!(in alloc; "of {}|", bins.total())?;
    out.extend_from_slice(total.as_bytes())
}

// Takes the messages of the second bin, and appends them and a bar.
fn add_second<V: Sample>(
    alloc: Global,
    out: &mut Vec<u8>,
    bins: &mut Bins<V>,
) -> Result<(), AllocError> {
    if bins.len() < 2 {
        return Ok(());
    }
    let taken = packet_text(alloc, bins.take(1))?;
    out.extend_from_slice(taken.as_slice())?;
    out.extend_from_slice(b"|")
}

// The counts of bins, the messages of the second one, and the counts without them.
fn taken_bin_text<V: Sample>(alloc: Global) -> Result<Vec<u8>, AllocError> {
    let mut out = Vec::new(alloc);
    let mut bins = divided::<V>(alloc)?;
    add_counts(alloc, &mut out, &bins)?;
    add_second(alloc, &mut out, &mut bins)?;
    add_counts(alloc, &mut out, &bins)?;
    Ok(out)
}

#[test]
fn a_bin_is_taken(rt: HostRuntime) {
    let expected = "1 2 1 of 4|+d40 +d41 |1 0 1 of 2|";
    assert!(rt; is_text(taken_bin_text::<Row>(rt.alloc()), expected));
    assert!(rt; is_text(taken_bin_text::<Entry>(rt.alloc()), expected));
}

// The counts of bins after the second one is taken and spread over two, of those from the fourth on, and of the others.
fn divided_bins_text(alloc: Global) -> Result<Vec<u8>, AllocError> {
    let mut out = Vec::new(alloc);
    let mut bins = divided::<Row>(alloc)?;
    add_second(alloc, &mut out, &mut bins)?;
    if bins.len() < 2 || bins.count(1) > 0 {
        return Ok(out);
    }
    bins.spread(alloc, 1, 2)?;
    add_counts(alloc, &mut out, &bins)?;
    if bins.len() < 3 {
        return Ok(out);
    }
    let others = bins.divide(3)?;
    add_counts(alloc, &mut out, &others)?;
    add_counts(alloc, &mut out, &bins)?;
    Ok(out)
}

#[test]
fn an_empty_bin_is_spread(rt: HostRuntime) {
    assert!(rt;
        is_text(
            divided_bins_text(rt.alloc()),
            "+d40 +d41 |1 0 0 1 of 2|1 of 1|1 0 0 of 1|"
        )
    );
}

// Appends the number of a value, or a bar if there is none.
fn add_number<V: Sample>(
    alloc: Global,
    out: &mut Vec<u8>,
    value: &Option<V>,
) -> Result<(), AllocError> {
    match value {
        Some(value) => {
            let text = format!(in alloc; "{} ", value.number())?;
            out.extend_from_slice(text.as_bytes())
        }
        None => out.extend_from_slice(b"| "),
    }
}

// A value after a message, and after the same message again.
fn effects_text<V: Sample>(
    alloc: Global,
    out: &mut Vec<u8>,
    old: Option<V>,
    sent: Sent,
) -> Result<(), AllocError> {
    let message = message::<V>(alloc, sent)?;
    let once = effect(alloc, old, message.copy(alloc)?)?;
    add_number(alloc, out, &once)?;
    let twice = effect(alloc, once, message)?;
    add_number(alloc, out, &twice)
}

// No value and a seven after a put, a del and an upsert, each of them applied twice.
fn all_effects<V: Sample>(alloc: Global) -> Result<Vec<u8>, AllocError> {
    let mut out = Vec::new(alloc);
    for sent in [Sent::Put(2), Sent::Del, Sent::Ups(5)] {
        effects_text::<V>(alloc, &mut out, None, sent)?;
        effects_text(alloc, &mut out, Some(V::of(alloc, 7)?), sent)?;
    }
    Ok(out)
}

#[test]
fn messages_have_their_effect(rt: HostRuntime) {
    assert!(rt;
        is_text(
            all_effects::<Row>(rt.alloc()),
            "2 2 2 2 | | | | 5 10 12 17 "
        )
    );
    assert!(rt; is_text(all_effects::<Entry>(rt.alloc()), "2 2 2 2 | | | | 5 5 5 5 "));
}
