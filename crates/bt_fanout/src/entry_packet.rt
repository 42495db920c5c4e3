//! The messages of an index for the effects of a batch on the rows.
ghost use Rattle.std.specs.Prelude.{◌≡◌, ◌++◌, ◌∷◌, [], IfOk, OnOk, Some};
ghost use Rattle.std.specs.List.{All};
ghost use Rattle.bt_value.specs.Views.{value_of_ref};
ghost use Rattle.bt_message.specs.Messages.{sorted_batch};
ghost use Rattle.bt_message.specs.declared.message.Message.TheVariants.{Del, Put};
ghost use Rattle.bt_fanout.specs.Effects.{SuitsEffect, SuitsIn, sent_for, sent_for_all};
ghost use Rattle.bt_fanout.specs.Entries as spec;
ghost use Rattle.bt_fanout.specs.Promises.{TurnsIndex};
ghost use Rattle.bt_fanout.specs.Selections.{between, entry_in};

use crate::building::add_put;
use crate::cover::{Cover, covers};
use crate::definition::IndexDef;
use crate::effect::Effect;
use crate::selecting::entry_at;
use bt_keycode::Key;
use bt_messages::{Entry, Message, Packet};
use bt_row::{Row, same_values};
use std::alloc::{AllocError, Global};
use std::cmp::Ordering;

// Adds a del of one key and a put of an entry with another key.
fn add_move(
    messages: &mut Vec<(Key, Message<Entry>)>,
    old: Key,
    new: (Key, Entry),
) -> Result<(), AllocError>
    ensures { OnOk result (messages.new.items ≡ messages.old.items ++ (old, Del) ∷ (new.0, Put new.1) ∷ []) }
{
    messages.reserve(2)?;
    messages.push_reserved((old, Message::Del));
    messages.push_reserved((new.0, Message::Put(new.1)));
    Ok(())
}

// Adds the messages that change one entry to another; both are present.
fn add_change(
    messages: &mut Vec<(Key, Message<Entry>)>,
    old: (Key, Entry),
    new: (Key, Entry),
) -> Result<(), AllocError>
    ensures { OnOk result (messages.new.items ≡ messages.old.items ++ between spec.same_values (Some old) (Some new)) }
{
    let (old_key, old_value) = old;
    if old_key.compare(&new.0) != Ordering::Equal {
        drop(old_value);
        return add_move(messages, old_key, new);
    }
    drop(old_key);
    let same = same_values(old_value.as_row().values(), new.1.as_row().values());
    drop(old_value);
    if same {
        drop(new);
        return Ok(());
    }
    add_put(messages, Some(new))
}

// Adds the messages that change one entry, or none, to another one, or none.
fn add_between(
    messages: &mut Vec<(Key, Message<Entry>)>,
    old: Option<(Key, Entry)>,
    new: Option<(Key, Entry)>,
) -> Result<(), AllocError>
    ensures { OnOk result (messages.new.items ≡ messages.old.items ++ between spec.same_values old new) }
{
    match (old, new) {
        (None, None) => Ok(()),
        (None, Some((key, value))) => {
            messages.push((key, Message::Put(value)))?;
            Ok(())
        }
        (Some((key, _value)), None) => {
            messages.push((key, Message::Del))?;
            Ok(())
        }
        (Some(old), Some(new)) => add_change(messages, old, new),
    }
}

// The entry of the row that a key has, if there is a row that has one.
fn entry_in(
    alloc: Global,
    def: &IndexDef,
    key: &Key,
    row: &Option<Row>,
) -> Result<Option<(Key, Entry)>, AllocError>
    requires { SuitsIn def.now row.now }
    ensures { IfOk result (λ entry. entry ≡ entry_in (spec.entry_of def.now) key.now row.now) }
{
    match row {
        None => Ok(None),
        Some(row) => entry_at(alloc, def, key, row),
    }
}

// Adds the messages for one effect.
fn add_effect(
    alloc: Global,
    messages: &mut Vec<(Key, Message<Entry>)>,
    def: &IndexDef,
    cover: &Cover,
    effect: &Effect,
) -> Result<(), AllocError>
    requires { SuitsEffect def.now effect.now }
    ensures { OnOk result (messages.new.items ≡ messages.old.items ++ sent_for def.now cover.now effect.now) }
{
    if !covers(cover, &effect.key) {
        return Ok(());
    }
    let old = entry_in(alloc, def, &effect.key, &effect.before)?;
    let new = entry_in(alloc, def, &effect.key, &effect.after)?;
    add_between(messages, old, new)
}

/// The packet of an index for the effects of a batch.
pub fn index_packet(
    alloc: Global,
    def: &IndexDef,
    cover: &Cover,
    effects: &[Effect],
) -> Result<Packet<Entry>, AllocError>
    requires { All (SuitsEffect def.now) effects.now }
    ensures packet { IfOk result (λ packet. packet ≡ sorted_batch (sent_for_all def.now cover.now effects.now)) }
    ensures turns { IfOk result (λ packet. TurnsIndex def.now cover.now effects.now packet) }
{
    let mut messages = Vec::new(alloc);
    for effect in effects {
        add_effect(alloc, &mut messages, def, cover, effect)?;
    }
    Packet::from_batch(alloc, messages)
}
