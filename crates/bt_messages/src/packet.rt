//! Packets: messages that are sent on together, in runs.
ghost use Rattle.std.specs.Prelude.{◌≡◌, ◌==◌, ◌<◌, ◌≤◌, ◌-◌, ◌++◌, ◌^◌, [], IfOk, OnOk, OnErr, length};
ghost use Rattle.bt_keycode.specs.Keys.{IsSorted};
ghost use Rattle.bt_value.specs.Lists.{concatenation};
ghost use Rattle.bt_message.specs.Effects.{DoTheSame, effect_of};
ghost use Rattle.bt_message.specs.Messages.{sorted_batch, with_messages};
ghost use Rattle.bt_messages.specs.inside.Runs.{AreRuns, AreSome};

use crate::batch_places::packet_by_places;
use crate::buffer::Buffer;
use crate::buffer_messages::BufferMessages;
use crate::message_runs::runs_of;
use crate::sorting;
use crate::stream::Stream;
use crate::two_streams::{count_of_both, merge_both};
use bt_keycode::Key;
use bt_message::{Merge, Message};
use std::alloc::{AllocError, Global};
use std::marker::Model;

/// Messages on their way down, sorted by key. Messages of one key are in the order in which they came. They are in lists, one after
/// the other, that another packet can take over as they are.
#[derive(Drop)]
pub struct Packet<V: Merge> {
    first: Buffer<V>,
    rest: Vec<Buffer<V>>,
    count: usize,
}

impl<V: Merge> Model for Packet<V> {
    ghost use Rattle.std.specs.Prelude.{◌++◌, List, ℕ};
    ghost use Rattle.bt_value.specs.Lists.{concatenation};
    ghost use Rattle.bt_messages.specs.inside.Runs.{AreRuns};
    ghost use Rattle.bt_message.specs.declared.message.Message.{Message};

    ghost Value = { List (List ℕ × Message V V.Delta) };

    ghost view = { λ p. p.first ++ concatenation p.rest.items };

    ghost invariant = { λ p. AreRuns p.first p.rest.items p.count };
}

// The packet of a batch, sorted by moving its messages.
fn sorted_by_messages<V: Merge>(
    alloc: Global,
    batch: Vec<(Key, Message<V>)>,
) -> Result<Packet<V>, AllocError>
    ensures { IfOk result (λ packet. packet ≡ sorted_batch batch.items) }
{
    let mut messages = batch;
    sorting::sort(&mut messages)?;
    let count = messages.len();
    let runs = runs_of(alloc, messages)?;
    Ok(Packet::from_runs(Buffer::new(alloc), runs, count))
}

// The packet of a batch, sorted by moving its messages or by sorting their places.
fn sorted_packet<V: Merge>(
    alloc: Global,
    batch: Vec<(Key, Message<V>)>,
) -> Result<Packet<V>, AllocError>
    ensures { IfOk result (λ packet. packet ≡ sorted_batch batch.items) }
{
    if sorting::is_short_or_sorted(batch.as_slice()) {
        return sorted_by_messages(alloc, batch);
    }
    packet_by_places(alloc, batch)
}

impl<V: Merge> Packet<V> {
    /// An empty packet.
    pub fn new(alloc: Global) -> Self
        ensures { result ≡ [] }
    {
        Packet::from_buffer(alloc, Buffer::new(alloc))
    }

    /// The messages of a batch, sorted by key. Messages of one key stay in order.
    pub fn from_batch(alloc: Global, batch: Vec<(Key, Message<V>)>) -> Result<Self, AllocError>
        ensures messages { IfOk result (λ packet. packet ≡ sorted_batch batch.items) }
        ensures same_rows { IfOk result (λ packet. DoTheSame (effect_of V.terms.merged) packet batch.items) }
    {
        sorted_packet(alloc, batch)
    }

    /// The messages of a buffer. Allocates nothing.
    pub fn from_buffer(alloc: Global, buffer: Buffer<V>) -> Self
        ensures { result ≡ buffer }
    {
        let count = buffer.count();
        let _sorted = buffer.iter();
        Packet::from_runs(buffer, Vec::new(alloc), count)
    }

    /// Older and newer messages as one packet. Of one key the older ones come first. Runs after the last message of the other
    /// packet are moved as they are.
    pub fn merge(alloc: Global, older: Packet<V>, newer: Packet<V>) -> Result<Self, AllocError>
        ensures { IfOk result (λ packet. packet ≡ with_messages newer older) }
    {
        count_of_both(older.len(), newer.len())?;
        let mut older = older.into_stream();
        let mut newer = newer.into_stream();
        let mut merged = merge_both(alloc, &mut older, &mut newer)?;
        merged.append(older.into_packet(alloc)?)?;
        merged.append(newer.into_packet(alloc)?)?;
        Ok(merged)
    }

    /// Appends messages, none of which comes before one of these. No message is moved. An `Err` changes nothing here, but drops the
    /// other packet.
    pub fn append(&mut self, following: Packet<V>) -> Result<(), AllocError>
        requires { IsSorted (self.old ++ following) }
        ensures ok { OnOk result (self.new ≡ self.old ++ following) }
        ensures err { OnErr result (self.new ≡ self.old) }
    {
        let count = count_of_both(self.count, following.len())?;
        let mut runs = following.into_runs()?;
        self.rest.append(&mut runs)?;
        self.count = count;
        Ok(())
    }

    /// Keys that divide the messages into `parts` parts of about equal size, or into fewer if there are few messages. They are the
    /// first keys of runs. No other messages are read, and a list from a buffer isn't divided.
    pub fn pivots(&self, alloc: Global, parts: usize) -> Result<Vec<Key>, AllocError>
        ensures { IfOk result (λ keys. length keys.items ≤ parts - 1) }
    {
        let step = self.rest.len() / parts.max(1) + 1;
        let mut place = 0;
        let mut keys = Vec::new(alloc);
        for _ in 1..parts {
            place = step.saturating_add(place);
            if let Some(key) = self.first_key_of_run(place) {
                keys.push(key.copy(alloc)?)?;
            }
        }
        Ok(keys)
    }

    // The key of the first message of a run.
    fn first_key_of_run(&self, run: usize) -> Option<&Key> {
        self.rest.get(run)?.first_key()
    }

    // The lists of the messages, without the empty ones.
    fn into_runs(self) -> Result<Vec<Buffer<V>>, AllocError>
        ensures concatenation { IfOk result (λ runs. concatenation runs.items ≡ self) }
        ensures some { IfOk result (λ runs. AreSome runs.items) }
    {
        let Packet {
            first,
            rest,
            count: _count,
        } = self;
        let mut runs = rest;
        if !first.is_empty() {
            runs.insert(0, first)?;
        }
        Ok(runs)
    }

    // A packet of `count` messages: the first list, followed by the others.
    pub(crate) fn from_runs(first: Buffer<V>, rest: Vec<Buffer<V>>, count: usize) -> Self
        requires { AreRuns first rest.items count }
        ensures { result ≡ first ++ concatenation rest.items }
    {
        Packet { first, rest, count }
    }

    /// The number of messages. It is stored, not counted.
    pub fn len(&self) -> usize
        ensures count { result ≡ length self.now }
        ensures bound { result < 2 ^ 63 }
    {
        self.count
    }

    /// Whether the packet is empty.
    pub fn is_empty(&self) -> bool
        ensures { result ≡ (length self.now == 0) }
    {
        self.count == 0
    }

    /// The messages and their keys, in order.
    pub fn iter(&self) -> BufferMessages<'_, V>
        ensures messages { result ≡ self.now }
        ensures sorted { IsSorted self.now }
    {
        BufferMessages::following(self.first.iter(), self.rest.as_slice())
    }

    /// A stream of the messages. Allocates nothing.
    pub fn into_stream(self) -> Stream<V>
        ensures { result ≡ self }
    {
        let Packet { first, rest, count } = self;
        Stream::from_runs(first, rest, count)
    }
}
