//! Streams: sorted messages that are taken off at the front.
ghost use Rattle.std.specs.Prelude.{◌≡◌, ◌==◌, ◌+◌, ◌-◌, ◌<◌, ◌≤◌, ◌^◌, ◌∷◌, ◌++◌, [], ℕ, true, IfOk, MatchOption, OnOk, Some, drop, length, map, slice_index_or, take, vec_len, vec_capacity};
ghost use Rattle.bt_keycode.specs.Keys.{AllFrom, IsSorted};
ghost use Rattle.bt_value.specs.Lists.{concatenation};
ghost use Rattle.bt_messages.specs.Bins.{AllBefore, parts};
ghost use Rattle.bt_messages.specs.Parts.{parted, total};
ghost use Rattle.bt_message.specs.Messages.{messages_before, messages_from, with_messages};
ghost use Rattle.bt_messages.specs.Shares.{AreShares, counts, share_of};
ghost use Rattle.bt_message.specs.Weights.{weigh_of};
ghost use Rattle.bt_messages.specs.inside.Runs.{AreRuns, AreSome, begins_before};
ghost use Rattle.bt_messages.specs.inside.Merges.{front_key, goes_before};
ghost use Rattle.bt_messages.specs.inside.Sums.{counted};

use crate::buffer::Buffer;
use crate::buffer_messages::BufferMessages;
use crate::packet::Packet;
use crate::share::Share;
use crate::stream_messages::StreamMessages;
use bt_keycode::Key;
use bt_message::{Measure, Merge, Message, Messages};
use std::alloc::{AllocError, Global};
use std::cmp::{Ordering, min};
use std::collections::VecDeque;
use std::marker::Model;

/// Messages sorted by key that are taken off at the front. Messages of one key are in the order in which they came.
#[derive(Drop)]
pub struct Stream<V: Merge> {
    first: VecDeque<(Key, Message<V>)>,
    rest: VecDeque<Buffer<V>>,
    // The number of messages in `rest`.
    later: usize,
}

impl<V: Merge> Model for Stream<V> {
    ghost use Rattle.std.specs.Prelude.{◌+◌, ◌++◌, List, length, ℕ};
    ghost use Rattle.bt_value.specs.Lists.{concatenation};
    ghost use Rattle.bt_messages.specs.inside.Runs.{AreRuns};
    ghost use Rattle.bt_message.specs.declared.message.Message.{Message};

    ghost Value = { List (List ℕ × Message V V.Delta) };

    ghost view = { λ s. s.first.items ++ concatenation s.rest.items };

    ghost invariant = { λ s. AreRuns s.first.items s.rest.items (length s.first.items + s.later) };
}

// The number of messages with a key before `key`.
fn count_before<V: Merge>(messages: &VecDeque<(Key, Message<V>)>, key: &Key) -> usize
    requires { IsSorted messages.now.items }
    ensures bound { result ≤ length messages.now.items }
    ensures before { AllBefore key.now (take result messages.now.items) }
    ensures from { AllFrom key.now (drop result messages.now.items) }
{
    messages.partition_point(|entry| entry.0.compare(key) == Ordering::Less)
}

// The number of runs that begin before `key`.
fn runs_before<V: Merge>(runs: &VecDeque<Buffer<V>>, key: &Key) -> usize
    requires some { AreSome runs.now.items }
    requires sorted { IsSorted (concatenation runs.now.items) }
    ensures bound { result ≤ length runs.now.items }
    ensures last { 0 < result → begins_before key.now (slice_index_or runs.now.items (result - 1) []) ≡ true }
    ensures from { AllFrom key.now (concatenation (drop result runs.now.items)) }
{
    runs.partition_point(|run| run.begins_before(key))
}

// The number of messages in the first `count` runs.
fn count_of<V: Merge>(runs: &VecDeque<Buffer<V>>, count: usize) -> usize
    requires count { count ≤ length runs.now.items }
    requires bound { length (concatenation runs.now.items) < 2 ^ 63 }
    ensures { result ≡ length (concatenation (take count runs.now.items)) }
{
    let mut messages = 0;
    for run in 0..count {
        messages += runs[run].count();
    }
    messages
}

// Replaces a run that has no message left by the next one.
#[inline(never)]
fn refill<V: Merge>(
    first: &mut VecDeque<(Key, Message<V>)>,
    rest: &mut VecDeque<Buffer<V>>,
    later: &mut usize,
)
    requires none { length first.old.items ≡ 0 }
    requires runs { AreRuns first.old.items rest.old.items (length first.old.items + later.old) }
    ensures same { first.new.items ++ concatenation rest.new.items ≡ first.old.items ++ concatenation rest.old.items }
    ensures runs { AreRuns first.new.items rest.new.items (length first.new.items + later.new) }
    ensures led { length first.new.items ≡ 0 → first.new.items ++ concatenation rest.new.items ≡ [] }
{
    if let Some(next) = rest.pop_front() {
        *later -= next.count();
        *first = VecDeque::from(next.into_messages());
    }
}

// A place between the runs of a stream: `run` runs come before it, and the first message after it is at `start` in the stream.
#[derive(Drop)]
struct RunPlace {
    run: usize,
    start: usize,
}

// Moves past the runs that begin before `end`. Runs that end by then are weighed and store their weight.
fn keep_before<V: Merge>(runs: &mut VecDeque<Buffer<V>>, place: &mut RunPlace, end: usize)
    ensures { runs.new.items ≡ runs.old.items }
{
    for run in place.run..runs.len() {
        if place.start >= end {
            return;
        }
        place.start = runs[run].count().saturating_add(place.start);
        place.run = run + 1;
        if place.start <= end {
            runs[run].keep_weight();
        }
    }
}

impl<V: Merge> Stream<V> {
    // A stream of `count` messages: the first list, followed by the others.
    pub(crate) fn from_runs(first: Buffer<V>, rest: Vec<Buffer<V>>, count: usize) -> Self
        requires { AreRuns first rest.items count }
        ensures { result ≡ first ++ concatenation rest.items }
    {
        let later = count - first.count();
        Stream {
            first: VecDeque::from(first.into_messages()),
            rest: VecDeque::from(rest),
            later,
        }
    }

    /// The number of messages that are left.
    pub fn len(&self) -> usize
        ensures len { result ≡ length self.now }
        ensures bound { result < 2 ^ 63 }
        ensures sorted { IsSorted self.now }
    {
        self.first.len() + self.later
    }

    /// Takes off the first message, if there is one.
    #[inline(always)]
    pub fn pop(&mut self) -> Option<(Key, Message<V>)>
        ensures first { MatchOption result ((self.old ≡ []) × (self.new ≡ [])) (λ m. self.old ≡ m ∷ self.new) }
        ensures sorted { IsSorted self.old }
    {
        if self.first.is_empty() {
            refill(&mut self.first, &mut self.rest, &mut self.later);
        }
        self.first.pop_front()
    }

    // The number of messages with a key before `key`, found by binary search: among the runs, and then in one of them.
    fn count_before(&self, key: &Key) -> usize
        ensures before { AllBefore key.now (take result self.now) }
        ensures from { AllFrom key.now (drop result self.now) }
    {
        let runs = runs_before(&self.rest, key);
        if runs == 0 {
            return count_before(&self.first, key);
        }
        let last = runs - 1;
        let before = count_of(&self.rest, last);
        self.first.len() + before + self.rest[last].count_before(key)
    }

    // Where the messages with a key before `key` end, limited to the places from `from` to `to`.
    fn place_within(&self, from: usize, to: usize, key: &Key) -> usize
        requires order { from ≤ to }
        requires bound { to ≤ length self.now }
        ensures low { from ≤ result }
        ensures high { result ≤ to }
        ensures before { messages_before key.now (drop from (take to self.now)) ≡ drop from (take result self.now) }
        ensures from { messages_from key.now (drop from (take to self.now)) ≡ drop result (take to self.now) }
    {
        let place = self.count_before(key);
        if place < from {
            return from;
        }
        if to < place { to } else { place }
    }

    // Of the first messages, the number before the first pivot, the number from it on and before the second, and so on. They are
    // found by binary search. Nothing is weighed.
    fn counted_shares(
        &self,
        alloc: Global,
        count: usize,
        pivots: &[Key],
    ) -> Result<Vec<Share>, AllocError>
        requires { count ≤ length self.now }
        ensures parts { IfOk result (λ shares. parted (counts shares.items) self.now ≡ parts pivots.now (take count self.now)) }
        ensures total { IfOk result (λ shares. total (counts shares.items) ≡ count) }
        ensures len { IfOk result (λ shares. length shares.items ≡ length pivots.now + 1) }
        ensures counted { IfOk result (λ shares. shares.items ≡ map counted (counts shares.items)) }
    {
        let mut shares = Vec::with_capacity(alloc, pivots.len() + 1)?;
        let mut from = 0;
        for pivot in pivots {
            let place = self.place_within(from, count, pivot);
            shares.push_reserved(Share::new(place - from));
            from = place;
        }
        shares.push_reserved(Share::new(count - from));
        Ok(shares)
    }

    // Weighs each run that lies in one of these shares, so that it stores its weight on its way down.
    fn keep_weights(&mut self, shares: &[Share])
        ensures { self.new ≡ self.old }
    {
        let mut place = RunPlace {
            run: 0,
            start: self.first.len(),
        };
        let mut end = 0;
        for share in shares {
            end = share.count.saturating_add(end);
            keep_before(&mut self.rest, &mut place, end);
        }
    }

    /// The shares of the first messages: those before the first pivot, those from it on and before the second, and so on. There is
    /// one more share than pivots. Their sizes are found by binary search. If bytes are measured the messages are weighed, except
    /// in runs that store their weight. A run that lies in one share stores its weight from then on. The messages stay in the
    /// stream.
    pub fn shares(
        &mut self,
        alloc: Global,
        measure: Measure,
        count: usize,
        pivots: &[Key],
    ) -> Result<Vec<Share>, AllocError>
        requires { count ≤ length self.old }
        ensures same { self.new ≡ self.old }
        ensures each { IfOk result (λ shares. shares.items ≡ map (share_of (weigh_of V.terms) measure) (parts pivots.now (take count self.old))) }
        ensures shares { IfOk result (λ shares. AreShares (weigh_of V.terms) self.old shares.items) }
        ensures parts { IfOk result (λ shares. parted (counts shares.items) self.old ≡ parts pivots.now (take count self.old)) }
        ensures total { IfOk result (λ shares. total (counts shares.items) ≡ count) }
        ensures len { IfOk result (λ shares. length shares.items ≡ length pivots.now + 1) }
    {
        let shares = self.counted_shares(alloc, count, pivots)?;
        match measure {
            Measure::Messages => Ok(shares),
            Measure::Bytes => {
                let _bound = self.len();
                self.keep_weights(shares.as_slice());
                Ok(self.messages().weighed_shares(shares))
            }
        }
    }

    // The messages, to be read while they stay in the stream.
    fn messages(&self) -> StreamMessages<'_, V>
        ensures { result ≡ self.now }
    {
        let _sorted = self.len();
        let (first, second) = self.first.as_slices();
        let (runs, others) = self.rest.as_slices();
        StreamMessages::of(
            BufferMessages::following(Messages::of_sorted(first), &[]),
            BufferMessages::following(Messages::of_sorted(second), runs),
            BufferMessages::of(others),
        )
    }

    // Moves the first messages to a list. Its capacity suffices.
    pub(crate) fn move_front(&mut self, count: usize, into: &mut Vec<(Key, Message<V>)>)
        requires count { count ≤ length self.old }
        requires room { vec_len into.old + count ≤ vec_capacity into.old }
        ensures moved { into.new.items ≡ into.old.items ++ take count self.old }
        ensures left { self.new ≡ drop count self.old }
    {
        for _ in 0..count {
            if let Some(entry) = self.pop() {
                into.push_reserved(entry);
            }
        }
    }

    // Takes off the next run as it is, if none of its messages was taken yet and it has at most `most` messages.
    fn pop_run(&mut self, most: usize) -> Option<Buffer<V>>
        ensures { MatchOption result (self.new ≡ self.old) (λ run. (self.old ≡ run ++ self.new) × (0 < length run) × (length run ≤ most)) }
    {
        if !self.first.is_empty() {
            return None;
        }
        let next = self.rest.front()?;
        if next.count() > most {
            return None;
        }
        let run = self.rest.pop_front()?;
        self.later -= run.count();
        Some(run)
    }

    // Takes off `count` messages, moved to their own list.
    fn pop_part(&mut self, alloc: Global, count: usize) -> Result<Buffer<V>, AllocError>
        requires { count ≤ length self.old }
        ensures part { IfOk result (λ part. part ≡ take count self.old) }
        ensures left { OnOk result (self.new ≡ drop count self.old) }
    {
        let _sorted = self.len();
        let mut part = Vec::with_capacity(alloc, count)?;
        self.move_front(count, &mut part);
        Ok(Buffer::from_sorted(part))
    }

    // Takes off the next run, or at most `most` messages of it.
    fn pop_some(&mut self, alloc: Global, most: usize) -> Result<Buffer<V>, AllocError>
        requires some { 0 < most }
        requires enough { most ≤ length self.old }
        ensures taken { IfOk result (λ run. self.old ≡ run ++ self.new) }
        ensures some { IfOk result (λ run. 0 < length run) }
        ensures few { IfOk result (λ run. length run ≤ most) }
    {
        if let Some(run) = self.pop_run(most) {
            return Ok(run);
        }
        let led = self.first.len();
        let count = if led == 0 { most } else { min(most, led) };
        self.pop_part(alloc, count)
    }

    /// Takes off the first messages, as a packet. Whole runs are taken as they are. What is left of the first run and what is taken
    /// of the last one is moved. After an `Err` messages may be lost.
    pub fn take_front(&mut self, alloc: Global, count: usize) -> Result<Packet<V>, AllocError>
        requires { count ≤ length self.old }
        ensures taken { IfOk result (λ packet. packet ≡ take count self.old) }
        ensures left { OnOk result (self.new ≡ drop count self.old) }
    {
        let _sorted = self.len();
        let mut runs = Vec::new(alloc);
        let mut left = count;
        while left > 0 {
            let run = self.pop_some(alloc, left)?;
            left -= run.count();
            runs.push(run)?;
        }
        Ok(Packet::from_runs(Buffer::new(alloc), runs, count))
    }

    /// Whether no message is left.
    pub fn is_empty(&self) -> bool
        ensures { result ≡ (length self.now == 0) }
    {
        self.len() == 0
    }

    // The messages that are left, as a packet.
    pub(crate) fn into_packet(self, alloc: Global) -> Result<Packet<V>, AllocError>
        ensures { IfOk result (λ packet. packet ≡ self) }
    {
        let mut left = self;
        let count = left.len();
        left.take_front(alloc, count)
    }

    // The key of the first message.
    #[inline]
    fn first_key(&self) -> Option<&Key>
        ensures { MatchOption result (self.now ≡ []) (λ key. front_key self.now ≡ Some key.now) }
    {
        if let Some(first) = self.first.front() {
            return Some(&first.0);
        }
        self.rest.front()?.first_key()
    }

    // Whether the first message has a key before that of the first older message, or no older message is left.
    #[inline]
    pub(crate) fn goes_before(&self, older: &Stream<V>) -> bool
        ensures before { result ≡ goes_before self.now older.now }
        ensures sorted { IsSorted self.now }
    {
        let _sorted = self.len();
        match older.first_key() {
            Some(key) => self.begins_before(key),
            None => true,
        }
    }

    // Whether the first message has a key before `key`.
    #[inline]
    fn begins_before(&self, key: &Key) -> bool
        ensures begins { result ≡ begins_before key.now self.now }
        ensures sorted { IsSorted self.now }
    {
        if let Some(first) = self.first.front() {
            return first.0.compare(key) == Ordering::Less;
        }
        match self.rest.front() {
            Some(run) => run.begins_before(key),
            None => false,
        }
    }

    // Whether all messages come after these, because the first one has a key at or past that of the last of these.
    pub(crate) fn is_after(&self, older: &[(Key, Message<V>)]) -> bool
        requires { IsSorted older.now }
        ensures { result ≡ true → (count : ℕ) → with_messages (take count self.now) older.now ≡ older.now ++ take count self.now }
    {
        let _sorted = self.len();
        match older {
            [.., last] => !self.begins_before(&last.0),
            [] => true,
        }
    }
}
