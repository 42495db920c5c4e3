//! The messages of a stream, read while they stay in it.
ghost use Rattle.std.specs.Prelude.{◌≡◌, ◌∷◌, ◌++◌, ◌<◌, ◌≤◌, ◌^◌, [], MatchOption, drop, length, map, take};
ghost use Rattle.bt_messages.specs.Parts.{parted, total};
ghost use Rattle.bt_messages.specs.Shares.{counts, share_of};
ghost use Rattle.bt_message.specs.Weights.{weigh_of, weight};

use crate::buffer::Buffer;
use crate::buffer_messages::BufferMessages;
use crate::share::Share;
use bt_keycode::Key;
use bt_message::{Measure, Merge, Message};
use std::marker::Model;

/// Messages in three pieces, one after the other. A contract sees the list of the messages that are left.
#[derive(Drop)]
pub(crate) struct StreamMessages<'a, V: Merge> {
    first: BufferMessages<'a, V>,
    second: BufferMessages<'a, V>,
    third: BufferMessages<'a, V>,
}

impl<'a, V: Merge> Model for StreamMessages<'a, V> {
    ghost use Rattle.std.specs.Prelude.{◌++◌, List, ℕ};
    ghost use Rattle.bt_message.specs.declared.message.Message.{Message};

    ghost Value = { List (List ℕ × Message V V.Delta) };

    ghost view = { λ w. w.first ++ (w.second ++ w.third) };
}

impl<'a, V: Merge> StreamMessages<'a, V> {
    /// The messages of the three pieces, one after the other.
    pub(crate) fn of(
        first: BufferMessages<'a, V>,
        second: BufferMessages<'a, V>,
        third: BufferMessages<'a, V>,
    ) -> Self
        ensures { result ≡ first.entry ++ (second.entry ++ third.entry) }
    {
        StreamMessages {
            first,
            second,
            third,
        }
    }

    // The next message.
    fn next(&mut self) -> Option<(&'a Key, &'a Message<V>)>
        ensures { MatchOption result ((self.old ≡ []) × (self.new ≡ [])) (λ m. self.old ≡ (m.0.now, m.1.now) ∷ self.new) }
    {
        if let Some(entry) = self.first.next() {
            return Some(entry);
        }
        if let Some(entry) = self.second.next() {
            return Some(entry);
        }
        self.third.next()
    }

    // Takes off the next run as a whole. Returns `None` if messages of the current run are left, or if the next one has more than
    // `most`.
    fn next_run(&mut self, most: usize) -> Option<&'a Buffer<V>>
        ensures { MatchOption result (self.new ≡ self.old) (λ run. (self.old ≡ run.now ++ self.new) × (0 < length run.now) × (length run.now ≤ most)) }
    {
        if !self.first.is_done() {
            return self.first.next_whole(most);
        }
        if !self.second.is_done() {
            return self.second.next_whole(most);
        }
        self.third.next_whole(most)
    }

    // Takes off the next run, if it is whole and has at most `most` messages, or else the next message. Returns the number of
    // messages and their weight. A run that stores its weight isn't weighed.
    fn weigh_some(&mut self, most: usize) -> (usize, u128)
        requires some { 0 < most }
        requires enough { most ≤ length self.old }
        ensures some { 0 < result.0 }
        ensures most { result.0 ≤ most }
        ensures weight { result.1 ≡ weight (weigh_of V.terms) (take result.0 self.old) }
        ensures left { self.new ≡ drop result.0 self.old }
    {
        if let Some(run) = self.next_run(most) {
            return (run.count(), run.weight());
        }
        match self.next() {
            Some((key, message)) => (1, u128::from(message.weight(key))),
            None => unreachable!(),
        }
    }

    // The total weight of the next messages.
    fn weigh_next(&mut self, count: usize) -> u128
        requires count { count ≤ length self.old }
        requires bound { length self.old < 2 ^ 63 }
        ensures weight { result ≡ weight (weigh_of V.terms) (take count self.old) }
        ensures left { self.new ≡ drop count self.old }
    {
        let mut sum = 0;
        let mut left = count;
        while left > 0 {
            let (messages, weight) = self.weigh_some(left);
            sum += weight;
            left -= messages;
        }
        sum
    }

    /// Shares of the messages, in order, with their weights.
    pub(crate) fn weighed_shares(self, shares: Vec<Share>) -> Vec<Share>
        requires enough { total (counts shares.items) ≤ length self }
        requires bound { length self < 2 ^ 63 }
        ensures { result.items ≡ map (share_of (weigh_of V.terms) Measure.Bytes) (parted (counts shares.items) self.entry) }
    {
        let mut left = self;
        let mut shares = shares;
        for place in 0..shares.len() {
            let count = shares[place].count;
            let sum = left.weigh_next(count);
            shares[place] = Share {
                count,
                weight: Some(sum),
            };
        }
        shares
    }
}
