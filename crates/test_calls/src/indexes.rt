//! Secondary indexes: definitions, entries, how a batch changes rows, and what a batch and a step of building send to an index.
//!
//! The rows have two ints: an id, which is the key, and a quantity.
ghost use Rattle.std.specs.Prelude.{◌≡◌, ◌++◌, ◌∷◌, [], IfOk};
ghost use Rattle.std.specs.List.{All};
ghost use Rattle.bt_message.specs.Effects.{rows_after};
ghost use Rattle.bt_form.specs.Flushes.{holds};
ghost use Rattle.bt_fanout.specs.Definitions.{kinds_of};
ghost use Rattle.bt_fanout.specs.Effects.{SuitsEffect, row_effect};
ghost use Rattle.bt_fanout.specs.Entries.{Definition, SuitsKinds};
ghost use Rattle.test_calls.specs.Quantities as spec;

use crate::samples::{is_text, short_text};
use bt_fanout::{Cover, Effect, IndexDef, covers, effects_alone, entry, index_packet};
use bt_keycode::{Key, encode};
use bt_messages::{Entry, Message, Packet};
use bt_node::{Shape, Tree};
use bt_rowtype::{
    Bytes, Column, Columns, Filter, Kind, Refusal, Row, Schema, Test, Texts, Value, ValueRef,
    write_row,
};
use std::alloc::{AllocError, Global};
use std::slice;

fn int_column(alloc: Global, name: &str) -> Result<Column, AllocError>
    ensures { IfOk result (λ column. column.kind ≡ Kind.Int) }
{
    let name = short_text(alloc, name)?;
    Ok(Column {
        name,
        kind: Kind::Int,
    })
}

fn quantities(alloc: Global) -> Result<Schema, Refusal>
    ensures kinds { IfOk result (λ schema. kinds_of schema.columns ≡ spec.kinds) }
    ensures keys { IfOk result (λ schema. schema.keys ≡ 1) }
{
    let mut columns = Columns::new(alloc);
    columns.push(int_column(alloc, "id")?)?;
    columns.push(int_column(alloc, "qty")?)?;
    Schema::new(columns, 1)
}

// The words of a line.
fn words(alloc: Global, line: &str) -> Result<Texts, AllocError> {
    let mut words = Texts::new(alloc);
    for word in line.split(' ') {
        if !word.is_empty() {
            words.push(word)?;
        }
    }
    Ok(words)
}

// The definition of an index on some columns that includes others.
fn index(
    alloc: Global,
    on: &str,
    include: &str,
    filter: Option<&Filter>,
) -> Result<IndexDef, Refusal>
    ensures suits { IfOk result (λ def. SuitsKinds def spec.kinds) }
    ensures keys { IfOk result (λ def. def.keys ≡ 1) }
{
    let schema = quantities(alloc)?;
    let on = words(alloc, on)?;
    let include = words(alloc, include)?;
    IndexDef::new(alloc, &schema, &on, &include, filter)
}

/// The row of an id and a quantity.
pub(crate) fn row(alloc: Global, id: i64, quantity: i64) -> Result<Row, AllocError>
    ensures { IfOk result (λ row. row ≡ spec.row_of id quantity) }
{
    let mut row = Row::new();
    row.push(alloc, ValueRef::Int(id))?;
    row.push(alloc, ValueRef::Int(quantity))?;
    Ok(row)
}

/// The key of an id.
pub(crate) fn key(alloc: Global, id: i64) -> Result<Key, AllocError>
    ensures { IfOk result (λ key. key ≡ spec.key_of id) }
{
    encode(alloc, slice::from_ref(&Value::Int(id)))
}

// The batch followed by a put of a row.
fn with_put(
    alloc: Global,
    batch: Vec<(Key, Message<Row>)>,
    id: i64,
    quantity: i64,
) -> Result<Vec<(Key, Message<Row>)>, AllocError>
    ensures { IfOk result (λ new. new.items ≡ batch.items ++ spec.put_of id quantity ∷ []) }
{
    let mut new = batch;
    new.push((key(alloc, id)?, Message::Put(row(alloc, id, quantity)?)))?;
    Ok(new)
}

// The batch followed by a del of an id.
fn with_del(
    alloc: Global,
    batch: Vec<(Key, Message<Row>)>,
    id: i64,
) -> Result<Vec<(Key, Message<Row>)>, AllocError>
    ensures { IfOk result (λ new. new.items ≡ batch.items ++ spec.del_of id ∷ []) }
{
    let mut new = batch;
    new.push((key(alloc, id)?, Message::Del))?;
    Ok(new)
}

// A tree after a batch.
fn tree_of(alloc: Global, batch: Vec<(Key, Message<Row>)>) -> Result<Tree<Row>, Refusal>
    ensures { IfOk result (λ tree. holds row_effect tree.1 ≡ rows_after row_effect batch.items []) }
{
    let packet = Packet::from_batch(alloc, batch)?;
    let tree = Tree::empty(alloc, Shape::new(4, 3, 2)?);
    Ok(tree.sink(alloc, packet)?)
}

fn three_puts(alloc: Global) -> Result<Vec<(Key, Message<Row>)>, AllocError>
    ensures { IfOk result (λ batch. batch.items ≡ spec.three_puts) }
{
    let first = with_put(alloc, Vec::new(alloc), 1, 10)?;
    let two = with_put(alloc, first, 2, 20)?;
    with_put(alloc, two, 3, 30)
}

fn three_rows(alloc: Global) -> Result<Tree<Row>, Refusal>
    ensures { IfOk result (λ tree. holds row_effect tree.1 ≡ spec.three_rows) }
{
    tree_of(alloc, three_puts(alloc)?)
}

// A batch on the three rows.
fn batch(alloc: Global) -> Result<Vec<(Key, Message<Row>)>, AllocError>
    ensures { IfOk result (λ batch. batch.items ≡ spec.batch) }
{
    let first = with_put(alloc, Vec::new(alloc), 1, 11)?;
    let two = with_del(alloc, first, 2)?;
    let three = with_put(alloc, two, 3, 30)?;
    with_put(alloc, three, 4, 40)
}

// The effects of the batch on the three rows.
fn batch_effects(alloc: Global) -> Result<Vec<Effect>, Refusal>
    ensures { IfOk result (λ effects. (def : Definition) → SuitsKinds def spec.kinds → def.keys ≡ 1 → All (SuitsEffect def) effects.items) }
{
    let batch = batch(alloc)?;
    let packet = Packet::from_batch(alloc, batch)?;
    let tree = three_rows(alloc)?;
    let found = effects_alone(alloc, &tree, &packet, &Cover::Whole);
    drop(tree);
    Ok(found?)
}

// Appends a sign and a row, or the sign alone.
fn add_row(out: &mut Vec<u8>, sign: &[u8], row: &Option<Row>) -> Result<(), AllocError> {
    out.extend_from_slice(sign)?;
    match row {
        Some(row) => write_row(out, row),
        None => Ok(()),
    }
}

// Appends an effect: its key, the row before and the row after, and a space.
fn add_effect(out: &mut Vec<u8>, effect: &Effect) -> Result<(), AllocError> {
    effect.key.write_hex(out)?;
    add_row(out, b" -", &effect.before)?;
    add_row(out, b" +", &effect.after)?;
    out.extend_from_slice(b" ")
}

fn effects_text(alloc: Global, effects: &[Effect]) -> Result<Vec<u8>, AllocError> {
    let mut out = Vec::new(alloc);
    for effect in effects {
        add_effect(&mut out, effect)?;
    }
    Ok(out)
}

fn batch_effects_text(alloc: Global) -> Result<Vec<u8>, Refusal> {
    let effects = batch_effects(alloc)?;
    Ok(effects_text(alloc, effects.as_slice())?)
}

#[test]
fn effects_of_a_batch(rt: HostRuntime) {
    assert!(rt;
        is_text(
            batch_effects_text(rt.alloc()),
            "8000000000000001 -1,10 +1,11 8000000000000002 -2,20 + 8000000000000003 -3,30 +3,30 8000000000000004 - +4,40 "
        )
    );
}

// Appends a sign, a key and a space.
fn add_key(out: &mut Vec<u8>, sign: &[u8], key: &Key) -> Result<(), AllocError> {
    out.extend_from_slice(sign)?;
    key.write_hex(out)?;
    out.extend_from_slice(b" ")
}

// Appends the same with the values that the index includes, and a space.
fn add_entry(out: &mut Vec<u8>, sign: &[u8], key: &Key, values: &Row) -> Result<(), AllocError> {
    add_key(out, sign, key)?;
    if values.len() > 0 {
        write_row(out, values)?;
        out.extend_from_slice(b" ")?;
    }
    Ok(())
}

fn add_message(out: &mut Vec<u8>, key: &Key, message: &Message<Entry>) -> Result<(), AllocError> {
    match message {
        Message::Put(entry) => add_entry(out, b"+", key, entry.as_row()),
        Message::Del => add_key(out, b"-", key),
        Message::Ups(_) => add_key(out, b"~", key),
    }
}

// The messages of a packet: a put with its values, and a del.
fn packet_text(alloc: Global, packet: &Packet<Entry>) -> Result<Vec<u8>, AllocError> {
    let mut out = Vec::new(alloc);
    for (key, message) in packet.iter() {
        add_message(&mut out, key, message)?;
    }
    Ok(out)
}

// What the batch sends to an index that covers some of the keys.
fn sent_text(alloc: Global, on: &str, include: &str, cover: &Cover) -> Result<Vec<u8>, Refusal> {
    let effects = batch_effects(alloc)?;
    let def = index(alloc, on, include, None)?;
    let packet = index_packet(alloc, &def, cover, effects.as_slice());
    drop(def);
    Ok(packet_text(alloc, &packet?)?)
}

#[test]
fn packets_of_a_whole_index(rt: HostRuntime) {
    assert!(rt;
        is_text(
            sent_text(rt.alloc(), "qty", "", &Cover::Whole),
            "-800000000000000a8000000000000001 +800000000000000b8000000000000001 -80000000000000148000000000000002 +80000000000000288000000000000004 "
        )
    );
    assert!(rt;
        is_text(
            sent_text(rt.alloc(), "id", "qty", &Cover::Whole),
            "+80000000000000018000000000000001 11 -80000000000000028000000000000002 +80000000000000048000000000000004 40 "
        )
    );
}

// What the batch sends to an index on the quantities that covers the ids up to this one.
fn sent_up_to(alloc: Global, id: i64) -> Result<Vec<u8>, Refusal> {
    sent_text(alloc, "qty", "", &Cover::UpTo(key(alloc, id)?))
}

#[test]
fn packets_of_a_building_index(rt: HostRuntime) {
    assert!(rt;
        is_text(
            sent_up_to(rt.alloc(), 2),
            "-800000000000000a8000000000000001 +800000000000000b8000000000000001 -80000000000000148000000000000002 "
        )
    );
    assert!(rt; is_text(sent_text(rt.alloc(), "qty", "", &Cover::Nothing), ""));
}

// Whether a cover up to one id covers another.
fn is_covered(alloc: Global, last: i64, id: i64) -> Result<bool, AllocError> {
    let cover = Cover::UpTo(key(alloc, last)?);
    Ok(covers(&cover, &key(alloc, id)?))
}

#[test]
fn keys_are_covered(rt: HostRuntime) {
    assert!(rt; matches!(is_covered(rt.alloc(), 2, 2), Ok(true)));
    assert!(rt; matches!(is_covered(rt.alloc(), 2, 3), Ok(false)));
}

// The filter that a value of a column is at least a constant.
fn at_least(alloc: Global, column: &str, constant: &str) -> Result<Filter, AllocError> {
    Ok(Filter {
        column: short_text(alloc, column)?,
        test: Test::AtLeast,
        constant: Bytes::from_slice(alloc, constant.as_bytes())?,
    })
}

// The definition of an index of the quantities of 15 and more that includes the id.
fn filtered(alloc: Global) -> Result<IndexDef, Refusal>
    ensures { IfOk result (λ def. SuitsKinds def spec.kinds) }
{
    let filter = at_least(alloc, "qty", "15")?;
    index(alloc, "qty", "id", Some(&filter))
}

// The entry in that index of a row with a quantity.
fn filtered_entry(alloc: Global, quantity: i64) -> Result<Option<(Key, Entry)>, Refusal> {
    let row = row(alloc, 3, quantity)?;
    let def = filtered(alloc)?;
    let found = entry(alloc, &def, &row);
    drop(def);
    Ok(found?)
}

// The key of that entry and its value, or nothing if there is no entry.
fn entry_text(alloc: Global, quantity: i64) -> Result<Vec<u8>, Refusal> {
    let mut out = Vec::new(alloc);
    if let Some((key, entry)) = filtered_entry(alloc, quantity)? {
        add_entry(&mut out, b"", &key, entry.as_row())?;
    }
    Ok(out)
}

#[test]
fn entries_pass_the_filter(rt: HostRuntime) {
    assert!(rt; is_text(entry_text(rt.alloc(), 14), ""));
    assert!(rt;
        is_text(
            entry_text(rt.alloc(), 15),
            "800000000000000f8000000000000003 3 "
        )
    );
}
