//! The messages of several buffers, one buffer after the other.
ghost use Rattle.std.specs.Prelude.{◌≡◌, ◌<◌, ◌≤◌, ◌++◌, [], MatchOption, length, true};
ghost use Rattle.std.specs.Iterator.{YieldsFirstBy, item_count};
ghost use Rattle.bt_value.specs.Lists.{concatenation};

use crate::buffer::Buffer;
use bt_keycode::Key;
use bt_message::{Merge, Message, Messages};
use std::marker::Model;

/// The messages of several buffers, one buffer after the other. A contract sees the list of the messages that are left.
#[derive(Drop)]
pub struct BufferMessages<'a, V: Merge> {
    first: Messages<'a, V>,
    others: &'a [Buffer<V>],
}

impl<'a, V: Merge> Model for BufferMessages<'a, V> {
    ghost use Rattle.std.specs.Prelude.{◌++◌, List, ℕ};
    ghost use Rattle.bt_value.specs.Lists.{concatenation};
    ghost use Rattle.bt_message.specs.declared.message.Message.{Message};

    ghost Value = { List (List ℕ × Message V V.Delta) };

    ghost view = { λ j. j.first ++ concatenation j.others.now };
}

impl<'a, V: Merge> BufferMessages<'a, V> {
    /// An iterator without messages.
    pub fn none() -> Self
        ensures { result ≡ [] }
    {
        BufferMessages {
            first: Messages::none(),
            others: &[],
        }
    }

    // The messages of these buffers.
    pub(crate) fn of(buffers: &'a [Buffer<V>]) -> Self
        ensures { result ≡ concatenation buffers.now }
    {
        BufferMessages {
            first: Messages::none(),
            others: buffers,
        }
    }

    // Whether no message is left.
    pub(crate) fn is_done(&self) -> bool
        ensures { result ≡ true → self.now ≡ [] }
    {
        self.first.count_left() == 0 && self.others.is_empty()
    }

    // Takes off the next buffer as a whole. Returns `None` if messages of the current buffer are left, or if the next one is empty
    // or has more than `most` messages.
    pub(crate) fn next_whole(&mut self, most: usize) -> Option<&'a Buffer<V>>
        ensures { MatchOption result (self.new ≡ self.old) (λ buffer. (self.old ≡ buffer.now ++ self.new) × (0 < length buffer.now) × (length buffer.now ≤ most)) }
    {
        if self.first.count_left() > 0 {
            return None;
        }
        let (buffer, others) = self.others.split_first()?;
        if buffer.is_empty() || buffer.count() > most {
            return None;
        }
        self.others = others;
        Some(buffer)
    }

    // These messages, followed by those of the buffers.
    pub(crate) fn following(first: Messages<'a, V>, others: &'a [Buffer<V>]) -> Self
        ensures { result ≡ first.entry ++ concatenation others.now }
    {
        BufferMessages { first, others }
    }
}

impl<'a, V: Merge> Iterator for BufferMessages<'a, V> {
    type Item = (&'a Key, &'a Message<V>);

    ghost next_gives = { YieldsFirstBy (λ m. (m.0.now, m.1.now)) (λ left. left) };

    ghost remaining = { item_count (λ left. left) };

    fn next(&mut self) -> Option<(&'a Key, &'a Message<V>)> {
        while self.first.count_left() == 0 {
            let (buffer, others) = self.others.split_first()?;
            self.first = buffer.iter();
            self.others = others;
        }
        self.first.next()
    }
}
