//! Works out the effects of a packet with a crew. A job is a portion of the tree of rows with the keys that it owns.
ghost use Rattle.std.specs.Prelude.{◌≡◌, ◌+◌, ◌<◌, ◌≤◌, ◌^◌, IfOk, drop, length, map, take};
ghost use Rattle.std.specs.FinMap.{find};
ghost use Rattle.std.specs.List.{All, flat_map};
ghost use Rattle.bt_keycode.specs.Keys.{key_cmp};
ghost use Rattle.bt_message.specs.Messages.{Messages};
ghost use Rattle.bt_form.specs.Flushes.{holds};
ghost use Rattle.bt_form.specs.Parts.{AreRising};
ghost use Rattle.bt_fanout.specs.Effects.{RowMessage, row_effect};
ghost use Rattle.bt_fanout.specs.inside.EffectJobs.{IsWhole, effects_there, message_total};
ghost use Rattle.bt_fanout.specs.inside.Groups.{effects_in};

use crate::effect::Effect;
use crate::row_effects::effects_on;
use bt_keycode::Key;
use bt_messages::{BufferMessages, Packet};
use bt_node::Tree;
use bt_portions::{Portion, owned_keys};
use bt_row::Row;
use std::alloc::{AllocError, Global};

/// Keys that a packet names, and the portion of the tree of rows that owns them.
#[derive(Drop)]
pub(crate) struct EffectJob<'a> {
    pub(crate) portion: Portion<'a, Row>,
    pub(crate) keys: &'a [&'a Key],
    /// For each key the number of its messages after the first.
    pub(crate) others: &'a [usize],
    /// The number of messages in the packet before those of the first key.
    pub(crate) skipped: usize,
}

/// The number of messages of keys that have this many after the first.
pub(crate) fn message_count(others: &[usize]) -> usize
    requires { message_total others.now < 2 ^ 63 }
    ensures { result ≡ message_total others.now }
{
    let mut count = 0;
    for other in others {
        count += *other + 1;
    }
    count
}

// Divides a slice at a place.
fn divided(others: &[usize], place: usize) -> (&[usize], &[usize])
    requires { place ≤ length others.now }
    ensures first { result.0.now ≡ take place others.now }
    ensures later { result.1.now ≡ drop place others.now }
{
    (&others[..place], &others[place..])
}

/// The jobs for consecutive keys that a packet names: for each portion of the tree at a depth that owns some of them, these. The messages of the first key come
/// after the first `skipped` messages of the packet.
pub(crate) fn effect_jobs<'a>(
    alloc: Global,
    tree: &'a Tree<Row>,
    keys: &'a [&'a Key],
    others: &'a [usize],
    skipped: usize,
    depth: usize,
) -> Result<Vec<EffectJob<'a>>, AllocError>
    requires rising { AreRising (map (λ k. k.now) keys.now) }
    requires same { length others.now ≡ length keys.now }
    requires few { skipped + message_total others.now < 2 ^ 63 }
    ensures whole { IfOk result (λ jobs. All IsWhole jobs.items) }
    ensures effects { IfOk result (λ jobs. (messages : Messages RowMessage) → flat_map (effects_there messages) jobs.items
        ≡ effects_in (map (λ k. k.now) keys.now) others.now (map (λ k. find key_cmp k.now (holds row_effect tree.now.1)) keys.now) (drop skipped messages)) }
{
    let shares = owned_keys(alloc, tree, depth, keys)?;
    let mut jobs = Vec::new(alloc);
    let mut rest = others;
    let mut before = skipped;
    for (portion, own_keys) in shares {
        let (own, later) = divided(rest, own_keys.len());
        jobs.push(EffectJob {
            portion,
            keys: own_keys,
            others: own,
            skipped: before,
        })?;
        before += message_count(own);
        rest = later;
    }
    Ok(jobs)
}

// The messages of a packet after the first ones.
fn messages_after(packet: &Packet<Row>, count: usize) -> BufferMessages<'_, Row>
    ensures { result ≡ drop count packet.now }
{
    let mut messages = packet.iter();
    for _ in 0..count {
        let Some((_key, _message)) = messages.next() else {
            return messages;
        };
    }
    messages
}

/// The effects of a packet at the keys of a job.
pub(crate) fn effects_of_job(
    alloc: Global,
    packet: &Packet<Row>,
    job: EffectJob<'_>,
) -> Result<Vec<Effect>, AllocError>
    requires { IsWhole job }
    ensures { IfOk result (λ effects. effects.items ≡ effects_there packet.now job.entry) }
{
    let EffectJob {
        portion,
        keys,
        others,
        skipped,
    } = job;
    let rows = portion.values(alloc, keys)?;
    effects_on(alloc, messages_after(packet, skipped), keys, others, rows)
}
