//! How messages change the rows of their keys.
ghost use Rattle.std.specs.Prelude.{◌≡◌, ◌+◌, ◌<◌, ◌^◌, IfOk, OnOk, drop, length, map, option_map};
ghost use Rattle.bt_keycode.specs.Keys.{IsSorted};
ghost use Rattle.bt_form.specs.Flushes.{holds};
ghost use Rattle.bt_fanout.specs.Effects.{effects_within, row_effect};
ghost use Rattle.bt_fanout.specs.inside.Groups.{after_group, effects_in, group_count, groups_within, value_after_first, with_next};

use crate::cover::{Cover, covers};
use crate::effect::Effect;
use bt_keycode::Key;
use bt_messages::{BufferMessages, Message, Packet, effect_borrowed};
use bt_node::Tree;
use bt_row::{Row, copy_row};
use std::alloc::{AllocError, Global};
use std::cmp::Ordering;

// ---- the keys

/// The keys that a packet names, each once and in order, and for each key the number of its messages after the first.
#[derive(Drop)]
pub(crate) struct NamedKeys<'a> {
    pub(crate) keys: Vec<&'a Key>,
    pub(crate) others: Vec<usize>,
}

// The number of messages to this key that come next, and the first message to another key, if there is one. That message is taken from the iterator too.
fn messages_following<'a>(
    key: &Key,
    messages: &mut BufferMessages<'a, Row>,
) -> (usize, Option<(&'a Key, &'a Message<Row>)>)
    requires { length messages.old < 2 ^ 63 }
    ensures count { result.0 ≡ group_count key.now messages.old }
    ensures rest { with_next (option_map (λ m. (m.0.now, m.1.now)) result.1) messages.new ≡ after_group key.now messages.old }
{
    let mut count = 0;
    while let Some((at, message)) = messages.next() {
        if key.compare(at) != Ordering::Equal {
            return (count, Some((at, message)));
        }
        count += 1;
    }
    (count, None)
}

/// The keys that a packet names and that a cover covers. Messages after the first key that is not covered are not looked at.
pub(crate) fn named_keys<'a>(
    alloc: Global,
    packet: &'a Packet<Row>,
    cover: &Cover,
) -> Result<NamedKeys<'a>, AllocError>
    ensures keys { IfOk result (λ named. map (λ k. k.now) named.keys.items ≡ map (λ g. g.0) (groups_within cover.now packet.now)) }
    ensures others { IfOk result (λ named. named.others.items ≡ map (λ g. g.1) (groups_within cover.now packet.now)) }
    ensures sorted { IsSorted packet.now }
{
    let mut keys = Vec::new(alloc);
    let mut others = Vec::new(alloc);
    let _bound = packet.len();
    let mut messages = packet.iter();
    let mut next = messages.next();
    while let Some((key, _message)) = next {
        if !covers(cover, key) {
            return Ok(NamedKeys { keys, others });
        }
        let (count, other) = messages_following(key, &mut messages);
        keys.push(key)?;
        others.push(count)?;
        next = other;
    }
    Ok(NamedKeys { keys, others })
}

// ---- the effects

// A copy of a row, if there is one.
fn copy_of(alloc: Global, row: &Option<Row>) -> Result<Option<Row>, AllocError>
    ensures { IfOk result (λ copy. copy ≡ row.now) }
{
    match row {
        Some(row) => Ok(Some(copy_row(alloc, row)?)),
        None => Ok(None),
    }
}

// A row, or none, after a message. The row that was there before stays; only an upsert reads it, so it is copied for an upsert alone.
fn effect_on(
    alloc: Global,
    before: &Option<Row>,
    message: &Message<Row>,
) -> Result<Option<Row>, AllocError>
    ensures { IfOk result (λ after. after ≡ row_effect before.now message.now) }
{
    match message {
        Message::Put(row) => Ok(Some(copy_row(alloc, row)?)),
        Message::Del => Ok(None),
        Message::Ups(_) => effect_borrowed(alloc, copy_of(alloc, before)?, message),
    }
}

// A row, or none, after the next message and that many others after it. The row that was there before stays.
fn row_after(
    alloc: Global,
    before: &Option<Row>,
    others: usize,
    messages: &mut BufferMessages<'_, Row>,
) -> Result<Option<Row>, AllocError>
    ensures value { IfOk result (λ after. after ≡ value_after_first row_effect (others + 1) messages.old before.now) }
    ensures rest { OnOk result (messages.new ≡ drop (others + 1) messages.old) }
{
    let Some((_key, first)) = messages.next() else {
        return copy_of(alloc, before);
    };
    let mut after = effect_on(alloc, before, first)?;
    for _ in 0..others {
        let Some((_key, message)) = messages.next() else {
            return Ok(after);
        };
        after = effect_borrowed(alloc, after, message)?;
    }
    Ok(after)
}

/// The effects of messages on their keys, which have these rows before them. No keys are compared.
pub(crate) fn effects_on(
    alloc: Global,
    messages: BufferMessages<'_, Row>,
    keys: &[&Key],
    others: &[usize],
    rows: Vec<Option<Row>>,
) -> Result<Vec<Effect>, AllocError>
    requires keys { length keys.now ≡ length rows.items }
    requires others { length others.now ≡ length rows.items }
    ensures { IfOk result (λ effects. effects.items ≡ effects_in (map (λ k. k.now) keys.now) others.now rows.items messages.entry) }
{
    let mut effects = Vec::with_capacity(alloc, rows.len())?;
    let mut messages = messages;
    for before in rows {
        let place = effects.len();
        let after = row_after(alloc, &before, others[place], &mut messages)?;
        let key = keys[place].copy(alloc)?;
        effects.push(Effect { key, before, after })?;
    }
    Ok(effects)
}

/// How the messages of a packet change the rows of a tree that does not have the messages yet: for each key that they name and that the cover covers, the row
/// before and the row after, in order of the keys. The caller looks the rows up, in one pass through the tree that reads only the nodes of these keys.
pub fn effects_alone(
    alloc: Global,
    tree: &Tree<Row>,
    packet: &Packet<Row>,
    cover: &Cover,
) -> Result<Vec<Effect>, AllocError>
    ensures { IfOk result (λ effects. effects.items ≡ effects_within cover.now packet.now (holds row_effect tree.now.1)) }
{
    let NamedKeys { keys, others } = named_keys(alloc, packet, cover)?;
    let rows = tree.walk().values(alloc, keys.as_slice())?;
    effects_on(
        alloc,
        packet.iter(),
        keys.as_slice(),
        others.as_slice(),
        rows,
    )
}
