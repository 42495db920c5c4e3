//! Bins: the pending messages of a node, in one buffer for each child.
//!
//! The trees don't call `new`, `len`, `weight`, `add`, `take`, `spread` and `divide`. These are for other users of this crate.
ghost use Rattle.std.specs.Prelude.{◌≡◌, ◌+◌, ◌<◌, ◌≤◌, ◌++◌, ◌^◌, [], IfOk, OnOk, OnErr, drop, length, map, replicate, slice_index_or, slice_set, take, vec_capacity, vec_len};
ghost use Rattle.bt_keycode.specs.Keys.{IsSorted};
ghost use Rattle.bt_value.specs.Lists.{concatenation};
ghost use Rattle.bt_messages.specs.Bins.{added, each_with};
ghost use Rattle.bt_messages.specs.Parts.{parted, total};
ghost use Rattle.bt_message.specs.Messages.{messages_between, messages_from};
ghost use Rattle.bt_messages.specs.Shares.{AreShares, counts};
ghost use Rattle.bt_message.specs.Weights.{load, weigh_of, weight};
ghost use Rattle.std.specs.Option.{option_copied};

use crate::buffer::Buffer;
use crate::buffer_messages::BufferMessages;
use crate::packet::Packet;
use crate::share::{Share, add_shares};
use crate::stream::Stream;
use bt_keycode::Key;
use bt_message::{Measure, Merge, Messages};
use std::alloc::{AllocError, Global};
use std::marker::Model;

/// One list of messages for each child, sorted by key. Messages of one key are in the order in which they came.
#[derive(Drop)]
pub struct Bins<V: Merge> {
    bins: Vec<Buffer<V>>,
    count: u128,
}

impl<V: Merge> Model for Bins<V> {
    ghost use Rattle.std.specs.Prelude.{◌≡◌, List, length, map, ℕ};
    ghost use Rattle.bt_messages.specs.Parts.{total};
    ghost use Rattle.bt_message.specs.declared.message.Message.{Message};

    ghost Value = { List (List (List ℕ × Message V V.Delta)) };

    ghost view = { λ b. b.bins.items };

    ghost invariant = { λ b. b.count ≡ total (map length b.bins.items) };
}

// The total number of messages in the buffers.
fn count_all<V: Merge>(buffers: &[Buffer<V>]) -> u128
    ensures { result ≡ total (map length buffers.now) }
{
    let mut count = 0;
    for buffer in buffers {
        count += buffer.count() as u128;
    }
    count
}

// Pushes `count` empty buffers. The capacity suffices.
fn push_empty<V: Merge>(alloc: Global, buffers: &mut Vec<Buffer<V>>, count: usize)
    requires { vec_len buffers.old + count ≤ vec_capacity buffers.old }
    ensures pushed { buffers.new.items ≡ buffers.old.items ++ replicate count [] }
    ensures capacity { vec_capacity buffers.new ≡ vec_capacity buffers.old }
{
    for _ in 0..count {
        buffers.push_reserved(Buffer::new(alloc));
    }
}

// Inserts `count` empty buffers before the one at `place`.
fn insert_empty<V: Merge>(
    alloc: Global,
    buffers: &mut Vec<Buffer<V>>,
    place: usize,
    count: usize,
) -> Result<(), AllocError>
    requires { place < length buffers.old.items }
    ensures inserted { OnOk result (buffers.new.items ≡ take place buffers.old.items ++ replicate count [] ++ drop place buffers.old.items) }
    ensures err { OnErr result (buffers.new.items ≡ buffers.old.items) }
{
    buffers.reserve(count)?;
    let mut later = buffers.split_off(place)?;
    push_empty(alloc, buffers, count);
    buffers.append(&mut later)
}

impl<V: Merge> Bins<V> {
    /// Empty bins, one for each child.
    pub fn new(alloc: Global, children: usize) -> Result<Self, AllocError>
        ensures { IfOk result (λ bins. bins ≡ replicate children []) }
    {
        let mut bins = Vec::with_capacity(alloc, children)?;
        push_empty(alloc, &mut bins, children);
        Ok(Bins { bins, count: 0 })
    }

    /// One bin for each buffer, in order. Allocates nothing.
    pub fn from_buffers(buffers: Vec<Buffer<V>>) -> Self
        ensures { result ≡ buffers.items }
    {
        let count = count_all(buffers.as_slice());
        Bins {
            bins: buffers,
            count,
        }
    }

    /// The buffers of the bins, in order. Allocates nothing.
    pub fn into_buffers(self) -> Vec<Buffer<V>>
        ensures { result.items ≡ self }
    {
        let Bins {
            bins,
            count: _count,
        } = self;
        bins
    }

    /// The number of bins.
    pub fn len(&self) -> usize
        ensures { result ≡ length self.now }
    {
        self.bins.len()
    }

    /// The number of messages in a bin.
    pub fn count(&self, child: usize) -> u64
        requires { child < length self.now }
        ensures count { result ≡ length (slice_index_or self.now child []) }
        ensures bound { result < 2 ^ 63 }
    {
        self.bins[child].count() as u64
    }

    /// The number of messages in all bins. It is stored, not counted.
    pub fn total(&self) -> u128
        ensures total { result ≡ total (map length self.now) }
        ensures concatenation { result ≡ length (concatenation self.now) }
    {
        self.count
    }

    /// The total weight of the messages in a bin. It is computed only if it isn't stored.
    pub fn weight(&self, child: usize) -> u128
        requires { child < length self.now }
        ensures weight { result ≡ weight (weigh_of V.terms) (slice_index_or self.now child []) }
        ensures bound { result < 2 ^ 87 }
    {
        self.bins[child].weight()
    }

    /// The load of the messages in a bin.
    pub fn load(&self, child: usize, measure: Measure) -> u128
        requires { child < length self.now }
        ensures load { result ≡ load (weigh_of V.terms) measure (slice_index_or self.now child []) }
        ensures bound { result < 2 ^ 87 }
    {
        self.bins[child].load(measure)
    }

    /// The messages in a bin, in order.
    pub fn bin(&self, child: usize) -> Messages<'_, V>
        requires { child < length self.now }
        ensures messages { result ≡ slice_index_or self.now child [] }
        ensures sorted { IsSorted result }
    {
        self.bins[child].iter()
    }

    /// The messages in a bin with a key at or past `key`, in order.
    pub fn bin_from(&self, child: usize, key: &Key) -> Messages<'_, V>
        requires { child < length self.now }
        ensures messages { result ≡ messages_from key.now (slice_index_or self.now child []) }
        ensures sorted { IsSorted result }
    {
        self.bins[child].iter_from(key)
    }

    /// The messages in a bin with a key at or past `from` and before `to`, in order. An absent bound doesn't limit.
    pub fn bin_between(&self, child: usize, from: Option<&Key>, to: Option<&Key>) -> Messages<'_, V>
        requires { child < length self.now }
        ensures messages { result ≡ messages_between (option_copied from.entry) (option_copied to.entry) (slice_index_or self.now child []) }
        ensures sorted { IsSorted result }
        ensures bound { length result < 2 ^ 63 }
    {
        self.bins[child].iter_between(from, to)
    }

    /// All messages, one bin after the other.
    pub fn iter(&self) -> BufferMessages<'_, V>
        ensures { result ≡ concatenation self.now }
    {
        BufferMessages::of(self.bins.as_slice())
    }

    /// Moves shares from the front of a stream to the bins, in order. Each message goes after those of its key. An `Err` changes
    /// nothing.
    pub fn add_shares(
        &mut self,
        alloc: Global,
        stream: &mut Stream<V>,
        shares: &[Share],
    ) -> Result<(), AllocError>
        requires len { length shares.now ≡ length self.old }
        requires shares { AreShares (weigh_of V.terms) stream.old shares.now }
        ensures added { OnOk result (self.new ≡ each_with (parted (counts shares.now) stream.old) self.old) }
        ensures left { OnOk result (stream.new ≡ drop (total (counts shares.now)) stream.old) }
        ensures err { OnErr result (self.new ≡ self.old) }
        ensures err_stream { OnErr result (stream.new ≡ stream.old) }
    {
        add_shares(alloc, &mut self.bins, stream, shares)?;
        self.count = count_all(self.bins.as_slice());
        Ok(())
    }

    /// Adds the messages of a packet, each to the bin of its child and after those of its key. An `Err` changes no bin, but drops
    /// the packet.
    pub fn add(
        &mut self,
        alloc: Global,
        pivots: &[Key],
        packet: Packet<V>,
    ) -> Result<(), AllocError>
        requires { length self.old ≡ length pivots.now + 1 }
        ensures added { OnOk result (self.new ≡ added pivots.now packet self.old) }
        ensures err { OnErr result (self.new ≡ self.old) }
    {
        let mut stream = packet.into_stream();
        let count = stream.len();
        let shares = stream.shares(alloc, Measure::Messages, count, pivots)?;
        self.add_shares(alloc, &mut stream, shares.as_slice())
    }

    /// Takes the messages of a bin and leaves it empty. Allocates nothing.
    pub fn take(&mut self, child: usize) -> Packet<V>
        requires { child < length self.old }
        ensures taken { result ≡ slice_index_or self.old child [] }
        ensures left { self.new ≡ slice_set self.old child [] }
    {
        self.count -= self.bins[child].count() as u128;
        self.bins[child].take()
    }

    /// Replaces an empty bin by `parts` empty ones. An `Err` changes nothing.
    pub fn spread(&mut self, alloc: Global, child: usize, parts: usize) -> Result<(), AllocError>
        requires child { child < length self.old }
        requires empty { slice_index_or self.old child [] ≡ [] }
        requires parts { 1 ≤ parts }
        ensures spread { OnOk result (self.new ≡ take child self.old ++ replicate parts [] ++ drop (child + 1) self.old) }
        ensures err { OnErr result (self.new ≡ self.old) }
    {
        insert_empty(alloc, &mut self.bins, child, parts - 1)
    }

    /// Splits off the bins from `at` on. An `Err` changes nothing.
    pub fn divide(&mut self, at: usize) -> Result<Bins<V>, AllocError>
        requires { at ≤ length self.old }
        ensures left { OnOk result (self.new ≡ take at self.old) }
        ensures taken { IfOk result (λ taken. taken ≡ drop at self.old) }
        ensures err { OnErr result (self.new ≡ self.old) }
    {
        let bins = self.bins.split_off(at)?;
        let taken = Bins::from_buffers(bins);
        self.count -= taken.total();
        Ok(taken)
    }
}
