//! An iterator over messages in order.
ghost use Rattle.std.specs.Prelude.{◌≡◌, [], length};
ghost use Rattle.std.specs.Iterator.{YieldsFirstBy, item_count};
ghost use Rattle.bt_keycode.specs.Keys.{IsSorted};

use crate::message::{Merge, Message};
use bt_keycode::Key;
use std::marker::Model;

/// Messages and their keys, in order. A contract sees the list of the messages that are left.
#[derive(Drop)]
pub struct Messages<'a, V: Merge> {
    left: &'a [(Key, Message<V>)],
}

impl<'a, V: Merge> Model for Messages<'a, V> {
    ghost use Rattle.std.specs.Prelude.{List, ℕ};
    ghost use Rattle.bt_keycode.specs.Keys.{IsSorted};
    ghost use Rattle.bt_message.specs.declared.message.Message.{Message};

    ghost Value = { List (List ℕ × Message V V.Delta) };

    ghost view = { λ m. m.left.now };

    ghost invariant = { λ m. IsSorted m.left.now };
}

impl<'a, V: Merge> Messages<'a, V> {
    /// An iterator without messages.
    pub fn none() -> Self
        ensures { result ≡ [] }
    {
        Messages { left: &[] }
    }

    /// The number of messages that are left.
    pub fn count_left(&self) -> usize
        ensures { result ≡ length self.now }
    {
        self.left.len()
    }

    /// The same messages, from the current position.
    pub fn again(&self) -> Self
        ensures messages { result ≡ self.now }
        ensures sorted { IsSorted self.now }
    {
        Messages { left: self.left }
    }

    /// The messages that are left, as a slice.
    pub fn as_slice(&self) -> &'a [(Key, Message<V>)]
        ensures messages { result.now ≡ self.now }
        ensures sorted { IsSorted result.now }
    {
        self.left
    }

    /// The messages of a list that is sorted by key.
    pub fn of_sorted(messages: &'a [(Key, Message<V>)]) -> Self
        requires { IsSorted messages.now }
        ensures { result ≡ messages.now }
    {
        Messages { left: messages }
    }
}

impl<'a, V: Merge> Iterator for Messages<'a, V> {
    type Item = (&'a Key, &'a Message<V>);

    ghost next_gives = { YieldsFirstBy (λ m. (m.0.now, m.1.now)) (λ left. left) };

    ghost remaining = { item_count (λ left. left) };

    fn next(&mut self) -> Option<(&'a Key, &'a Message<V>)> {
        let (first, others) = self.left.split_first()?;
        self.left = others;
        Some((&first.0, &first.1))
    }
}
