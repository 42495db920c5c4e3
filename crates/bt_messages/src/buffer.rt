//! Buffers: the pending messages of a node, in one list.
//!
//! The trees don't call `add` and `take_range`. These are for other users of this crate.
ghost use Rattle.std.specs.Prelude.{◌≡◌, ◌==◌, ◌+◌, ◌<◌, ◌≤◌, ◌^◌, [], List, ℕ, IfOk, IfSome, MatchOption, OnOk, Some, OnErr, drop, length, take, vec_capacity, vec_len};
ghost use Rattle.bt_keycode.specs.Keys.{AllFrom, IsSorted};
ghost use Rattle.bt_messages.specs.Bins.{AllBefore};
ghost use Rattle.bt_message.specs.Messages.{messages_between, messages_from, messages_outside, with_messages};
ghost use Rattle.bt_messages.specs.Shares.{IsShare};
ghost use Rattle.bt_message.specs.Weights.{IsSum, load, weigh_of, weight};
ghost use Rattle.bt_messages.specs.inside.Merges.{front_key};
ghost use Rattle.bt_messages.specs.inside.Rooms.{HasRoom};
ghost use Rattle.bt_messages.specs.inside.Runs.{begins_before};
ghost use Rattle.bt_messages.specs.inside.Sums.{IsBuffer};
ghost use Rattle.std.specs.Option.{option_copied};

use crate::bounds;
use crate::packet::Packet;
use crate::share::{Share, gain, insert_front};
use crate::stream::Stream;
use bt_keycode::Key;
use bt_message::{Measure, Merge, Message, Messages, weigh_all};
use std::alloc::{AllocError, Global};
use std::cmp::Ordering;
use std::marker::Model;
use std::mem::replace;

// Up to this many messages are inserted one by one into the buffer's own list. That moves fewer messages than a merge into a new
// list.
const FEW: usize = 2;

/// Pending messages, sorted by key. Messages of one key are in the order in which they came.
#[derive(Drop)]
pub struct Buffer<V: Merge> {
    messages: Vec<(Key, Message<V>)>,
    // The total weight of the messages, if it is stored.
    sum: Option<u128>,
}

impl<V: Merge> Model for Buffer<V> {
    ghost use Rattle.std.specs.Prelude.{List, ℕ};
    ghost use Rattle.bt_keycode.specs.Keys.{IsSorted};
    ghost use Rattle.bt_message.specs.declared.message.Message.{Message};

    ghost Value = { List (List ℕ × Message V V.Delta) };

    ghost view = { λ b. b.messages.items };

    ghost use Rattle.bt_messages.specs.inside.Sums.{IsBuffer};
    ghost use Rattle.bt_message.specs.Weights.{weigh_of};

    ghost invariant = { λ b. IsBuffer (weigh_of V.terms) b.messages.items b.sum };
}

// Reserves capacity for `more` messages. A list that grows also gets a quarter of its length as spare capacity, so that small
// shares don't reallocate it each time.
fn reserve<V: Merge>(messages: &mut Vec<(Key, Message<V>)>, more: usize) -> Result<(), AllocError>
    requires { more < 2 ^ 63 }
    ensures room { OnOk result (vec_len messages.new + more ≤ vec_capacity messages.new) }
    ensures same { messages.new.items ≡ messages.old.items }
{
    if messages.capacity() - messages.len() >= more {
        return Ok(());
    }
    messages.reserve_exact(messages.len() / 4 + more)?;
    Ok(())
}

impl<V: Merge> Buffer<V> {
    /// An empty buffer.
    pub fn new(alloc: Global) -> Self
        ensures { result ≡ [] }
    {
        Buffer {
            messages: Vec::new(alloc),
            sum: None,
        }
    }

    /// The number of messages.
    pub fn count(&self) -> usize
        ensures count { result ≡ length self.now }
        ensures bound { result < 2 ^ 63 }
    {
        self.messages.len()
    }

    /// Whether the buffer is empty.
    pub fn is_empty(&self) -> bool
        ensures { result ≡ (length self.now == 0) }
    {
        self.messages.is_empty()
    }

    /// The total weight of the messages. It is computed only if it isn't stored.
    pub fn weight(&self) -> u128
        ensures weight { result ≡ weight (weigh_of V.terms) self.now }
        ensures bound { result < 2 ^ 87 }
    {
        let _bound = self.count();
        match self.sum {
            Some(sum) => sum,
            None => weigh_all(self.messages.as_slice()),
        }
    }

    // Stores the total weight of the messages. It is computed only if it isn't stored yet.
    pub(crate) fn keep_weight(&mut self)
        ensures { self.new ≡ self.old }
    {
        self.sum = Some(self.weight());
    }

    /// The load of the messages: their number or their weight, by the measure.
    pub fn load(&self, measure: Measure) -> u128
        ensures load { result ≡ load (weigh_of V.terms) measure self.now }
        ensures bound { result < 2 ^ 87 }
    {
        match measure {
            Measure::Messages => self.count() as u128,
            Measure::Bytes => self.weight(),
        }
    }

    /// The messages and their keys, in order.
    pub fn iter(&self) -> Messages<'_, V>
        ensures messages { result ≡ self.now }
        ensures sorted { IsSorted self.now }
    {
        Messages::of_sorted(self.messages.as_slice())
    }

    /// A stream of the messages. Allocates nothing.
    pub fn into_stream(self) -> Stream<V>
        ensures { result ≡ self }
    {
        let alloc = *self.messages.allocator();
        let count = self.count();
        Stream::from_runs(self, Vec::new(alloc), count)
    }

    /// The messages with a key at or past `key`, in order.
    pub fn iter_from(&self, key: &Key) -> Messages<'_, V>
        ensures messages { result ≡ messages_from key.now self.now }
        ensures sorted { IsSorted self.now }
    {
        let place = bounds::count_before(self.messages.as_slice(), key);
        Messages::of_sorted(&self.messages[place..])
    }

    // The messages with a key at or past `from` and before `to`.
    pub(crate) fn iter_between(&self, from: Option<&Key>, to: Option<&Key>) -> Messages<'_, V>
        ensures messages { result ≡ messages_between (option_copied from.entry) (option_copied to.entry) self.now }
        ensures sorted { IsSorted result }
        ensures bound { length result < 2 ^ 63 }
    {
        Messages::of_sorted(bounds::between(self.messages.as_slice(), from, to))
    }

    // The key of the first message.
    pub(crate) fn first_key(&self) -> Option<&Key>
        ensures { MatchOption result (self.now ≡ []) (λ key. front_key self.now ≡ Some key.now) }
    {
        Some(&self.messages.first()?.0)
    }

    // Whether the first message has a key before `key`.
    pub(crate) fn begins_before(&self, key: &Key) -> bool
        ensures { result ≡ begins_before key.now self.now }
    {
        match self.messages.first() {
            Some(first) => first.0.compare(key) == Ordering::Less,
            None => false,
        }
    }

    // The number of messages with a key before `key`.
    pub(crate) fn count_before(&self, key: &Key) -> usize
        ensures bound { result ≤ length self.now }
        ensures before { AllBefore key.now (take result self.now) }
        ensures from { AllFrom key.now (drop result self.now) }
    {
        bounds::count_before(self.messages.as_slice(), key)
    }

    /// Moves the first messages of a stream here, each after those of its key. An `Err` changes nothing.
    pub fn add_front(
        &mut self,
        alloc: Global,
        stream: &mut Stream<V>,
        share: Share,
    ) -> Result<(), AllocError>
        requires { IsShare (weigh_of V.terms) stream.old share }
        ensures added { OnOk result (self.new ≡ with_messages (take share.count stream.old) self.old) }
        ensures left { OnOk result (stream.new ≡ drop share.count stream.old) }
        ensures err { OnErr result (self.new ≡ self.old) }
        ensures err_stream { OnErr result (stream.new ≡ stream.old) }
    {
        let _bound = stream.len();
        if share.count == 0 {
            return Ok(());
        }
        if share.count <= FEW {
            return self.insert_front(stream, share);
        }
        let mut room = self.room_with(alloc, share.count)?;
        gain(alloc, self, &mut room, stream, share);
        Ok(())
    }

    // Moves the first messages of a stream to their places, one by one.
    fn insert_front(&mut self, stream: &mut Stream<V>, share: Share) -> Result<(), AllocError>
        requires { IsShare (weigh_of V.terms) stream.old share }
        ensures added { OnOk result (self.new ≡ with_messages (take share.count stream.old) self.old) }
        ensures left { OnOk result (stream.new ≡ drop share.count stream.old) }
        ensures err { OnErr result (self.new ≡ self.old) }
        ensures err_stream { OnErr result (stream.new ≡ stream.old) }
    {
        let _bound = stream.len();
        let sum = self.sum_with(share);
        reserve(&mut self.messages, share.count)?;
        insert_front(&mut self.messages, stream, share.count);
        self.sum = sum;
        Ok(())
    }

    /// Adds the messages of a packet, each after those of its key. An `Err` doesn't change the buffer, but drops the packet.
    pub fn add(&mut self, packet: Packet<V>) -> Result<(), AllocError>
        ensures ok { OnOk result (self.new ≡ with_messages packet self.old) }
        ensures err { OnErr result (self.new ≡ self.old) }
    {
        let alloc = *self.messages.allocator();
        let mut stream = packet.into_stream();
        let count = stream.len();
        self.add_front(alloc, &mut stream, Share::new(count))
    }

    // Takes the messages. The empty list that is left has the same allocator.
    pub(crate) fn take(&mut self) -> Packet<V>
        ensures taken { result ≡ self.old }
        ensures left { self.new ≡ [] }
    {
        let alloc = *self.messages.allocator();
        Packet::from_buffer(alloc, replace(self, Buffer::new(alloc)))
    }

    /// Takes out the messages with a key at or past `from` and before `to`, in order. An absent bound doesn't limit. An `Err`
    /// changes nothing.
    pub fn take_range(
        &mut self,
        alloc: Global,
        from: Option<&Key>,
        to: Option<&Key>,
    ) -> Result<Packet<V>, AllocError>
        ensures taken { IfOk result (λ packet. packet ≡ messages_between (option_copied from.entry) (option_copied to.entry) self.old) }
        ensures left { OnOk result (self.new ≡ messages_outside (option_copied from.entry) (option_copied to.entry) self.old) }
        ensures err { OnErr result (self.new ≡ self.old) }
    {
        if self.is_empty() {
            return Ok(Packet::new(alloc));
        }
        self.sum = None;
        let taken = bounds::take_between(&mut self.messages, from, to)?;
        Ok(Packet::from_buffer(alloc, Buffer::from_sorted(taken)))
    }

    // An empty list with capacity for the messages of the buffer and `more` others. If `more` is 0, it has no capacity.
    pub(crate) fn room_with(
        &self,
        alloc: Global,
        more: usize,
    ) -> Result<Vec<(Key, Message<V>)>, AllocError>
        requires { more < 2 ^ 63 }
        ensures { IfOk result (λ room. HasRoom more self.now room) }
    {
        if more == 0 {
            return Ok(Vec::new(alloc));
        }
        Vec::with_capacity(alloc, self.messages.len() + more)
    }

    // The total weight after adding a share, if both weights are known.
    pub(crate) fn sum_with(&self, share: Share) -> Option<u128>
        requires { IfSome share.weight (λ n. n < 2 ^ 87) }
        ensures { (ms : List (List ℕ × Message V V.Delta)) → IsSum (weigh_of V.terms) ms share.weight → IsSum (weigh_of V.terms) (with_messages ms self.now) result }
    {
        let more = share.weight?;
        if self.is_empty() {
            return Some(more);
        }
        let _bound = self.count();
        Some(self.sum? + more)
    }

    // A buffer of messages that are sorted by key. It stores no sum.
    pub(crate) fn from_sorted(messages: Vec<(Key, Message<V>)>) -> Self
        requires { IsSorted messages.items }
        ensures { result ≡ messages.items }
    {
        Buffer {
            messages,
            sum: None,
        }
    }

    // A buffer of messages that are sorted by key, with their total weight if it is known.
    pub(crate) fn with_sum(messages: Vec<(Key, Message<V>)>, sum: Option<u128>) -> Self
        requires { IsBuffer (weigh_of V.terms) messages.items sum }
        ensures { result ≡ messages.items }
    {
        Buffer { messages, sum }
    }

    // The messages and their keys, in order.
    pub(crate) fn into_messages(self) -> Vec<(Key, Message<V>)>
        ensures messages { result.items ≡ self }
        ensures sorted { IsSorted result.items }
    {
        let Buffer {
            messages,
            sum: _sum,
        } = self;
        messages
    }
}
