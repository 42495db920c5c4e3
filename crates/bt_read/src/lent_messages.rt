//! Messages borrowed from the buffers where they are pending.
ghost use Rattle.std.specs.Prelude.{◌≡◌, ◌++◌, ◌∷◌, [], false, true, IfOk, MatchOption, None, OnOk, map, not};
ghost use Rattle.std.specs.Option.{option_copied};
ghost use Rattle.bt_keycode.specs.Keys.{AllFrom, IsSorted, is_before, is_before_upper};
ghost use Rattle.bt_message.specs.Effects.{effect_of};
ghost use Rattle.bt_message.specs.Messages.{messages_between, messages_outside, messages_past, messages_up_to, with_messages};
ghost use Rattle.bt_form.specs.Messages.{before, from, value_after};
ghost use Rattle.bt_read.specs.inside.ValuesSoFar.{option_of};

use crate::value_so_far::ValueSoFar;
use bt_keycode::Key;
use bt_messages::{Merge, Message, Messages};
use std::alloc::{AllocError, Global};
use std::cmp::Ordering;
use std::collections::VecDeque;
use std::marker::Model;

// A reference to a pending message and its key.
#[derive(Drop)]
struct LentMessage<'a, V: Merge> {
    key: &'a Key,
    message: &'a Message<V>,
}

/// Messages in order, borrowed from the buffers where they are pending, and taken off one by one. A contract sees the list of them.
pub(crate) struct LentMessages<'a, V: Merge> {
    messages: VecDeque<LentMessage<'a, V>>,
}

impl<'a, V: Merge> Drop for LentMessages<'a, V> {
    fn drop(self) {
        let LentMessages {
            messages: _messages,
        } = self;
    }
}

impl<'a, V: Merge> Model for LentMessages<'a, V> {
    ghost use Rattle.std.specs.Prelude.{List, ℕ, map};
    ghost use Rattle.bt_message.specs.declared.message.Message.{Message};

    ghost Value = { List (List ℕ × Message V V.Delta) };

    ghost view = { λ l. map (λ m. (m.key.now, m.message.now)) l.messages.items };
}

impl<'a, V: Merge> LentMessages<'a, V> {
    /// An empty list of messages.
    pub(crate) fn new(alloc: Global) -> Self
        ensures { result ≡ [] }
    {
        LentMessages {
            messages: VecDeque::new(alloc),
        }
    }

    /// A copy of the list of messages. The messages aren't copied.
    pub(crate) fn again(&self, alloc: Global) -> Result<Self, AllocError>
        ensures { IfOk result (λ copy. copy ≡ self.now) }
    {
        let mut copy = LentMessages::new(alloc);
        for entry in self.messages.iter() {
            copy.push(entry.key, entry.message)?;
        }
        Ok(copy)
    }

    /// The value of a key after the messages to it. The first of them is found by binary search.
    pub(crate) fn effect_at(
        &self,
        alloc: Global,
        key: &Key,
        old: ValueSoFar<'a, V>,
    ) -> Result<ValueSoFar<'a, V>, AllocError>
        requires { IsSorted self.now }
        ensures { IfOk result (λ value. option_of value ≡ value_after (effect_of V.terms.merged) key.now self.now (option_of old.entry)) }
    {
        let (first, second) = self.messages.as_slices();
        let earlier = lent_from(first, key);
        let value = after_lent(alloc, earlier, key, old)?;
        let later = lent_from(second, key);
        after_lent(alloc, later, key, value)
    }

    // Adds a message after the others.
    fn push(&mut self, key: &'a Key, message: &'a Message<V>) -> Result<(), AllocError>
        ensures { OnOk result (self.new ≡ self.old ++ (key.now, message.now) ∷ []) }
    {
        self.messages.push_back(LentMessage { key, message })?;
        Ok(())
    }

    // Moves other messages after these.
    fn append(&mut self, others: LentMessages<'a, V>) -> Result<(), AllocError>
        ensures { OnOk result (self.new ≡ self.old ++ others.entry) }
    {
        let LentMessages { mut messages } = others;
        self.messages.append(&mut messages)?;
        Ok(())
    }

    /// Takes off the first message.
    pub(crate) fn next(&mut self) -> Option<(&'a Key, &'a Message<V>)>
        ensures { MatchOption result (self.old ≡ []) (λ m. self.old ≡ (m.0.now, m.1.now) ∷ self.new) }
    {
        let LentMessage { key, message } = self.messages.pop_front()?;
        Some((key, message))
    }

    // Takes off the first message if its key is before a bound.
    fn next_before(&mut self, high: Option<&Key>) -> Option<(&'a Key, &'a Message<V>)>
        requires { IsSorted self.old }
        ensures none { MatchOption result (messages_between None (option_copied high.entry) self.old ≡ []) (λ m. is_before_upper (option_copied high.entry) m.0.now ≡ true) }
        ensures first { MatchOption result (self.new ≡ self.old) (λ m. self.old ≡ (m.0.now, m.1.now) ∷ self.new) }
    {
        let first = self.messages.front()?;
        if !lies_before(first.key, high) {
            return None;
        }
        self.next()
    }

    // Takes off the first message if its key is at or before `key`.
    fn next_up_to(&mut self, key: &Key) -> Option<(&'a Key, &'a Message<V>)>
        ensures none { MatchOption result (messages_up_to key.now self.old ≡ []) (λ m. is_before key.now m.0.now ≡ false) }
        ensures first { MatchOption result (self.new ≡ self.old) (λ m. self.old ≡ (m.0.now, m.1.now) ∷ self.new) }
    {
        let first = self.messages.front()?;
        if key.compare(first.key) == Ordering::Less {
            return None;
        }
        self.next()
    }

    /// Takes off the messages with a key before a bound. After an error some of them are lost.
    pub(crate) fn take_before(
        &mut self,
        alloc: Global,
        high: Option<&Key>,
    ) -> Result<Self, AllocError>
        requires { IsSorted self.old }
        ensures taken { IfOk result (λ taken. taken ≡ messages_between None (option_copied high.entry) self.old) }
        ensures left { OnOk result (self.new ≡ messages_outside None (option_copied high.entry) self.old) }
    {
        let mut taken = LentMessages::new(alloc);
        while let Some((key, message)) = self.next_before(high) {
            taken.push(key, message)?;
        }
        Ok(taken)
    }

    /// Takes off the messages to a key. Returns the value of the key after them. All messages are at or past the key.
    pub(crate) fn take_effect(
        &mut self,
        alloc: Global,
        key: &Key,
        old: ValueSoFar<'a, V>,
    ) -> Result<ValueSoFar<'a, V>, AllocError>
        requires sorted { IsSorted self.old }
        requires from { AllFrom key.now self.old }
        ensures value { IfOk result (λ value. option_of value ≡ value_after (effect_of V.terms.merged) key.now self.old (option_of old.entry)) }
        ensures left { OnOk result (self.new ≡ messages_past key.now self.old) }
    {
        let mut value = old;
        while let Some((_, message)) = self.next_up_to(key) {
            value = value.after(alloc, message)?;
        }
        Ok(value)
    }

    // Takes off the messages with a key before `key`.
    fn drop_before(&mut self, key: &Key)
        requires { IsSorted self.old }
        ensures { self.new ≡ from key.now self.old }
    {
        while let Some(_) = self.next_before(Some(key)) {}
    }

    /// Takes off the messages up to a key. Returns the value of the key after the messages to it. Messages to earlier keys have no
    /// effect.
    pub(crate) fn take_up_to(
        &mut self,
        alloc: Global,
        key: &Key,
        old: ValueSoFar<'a, V>,
    ) -> Result<ValueSoFar<'a, V>, AllocError>
        requires { IsSorted self.old }
        ensures value { IfOk result (λ value. option_of value ≡ value_after (effect_of V.terms.merged) key.now self.old (option_of old.entry)) }
        ensures left { OnOk result (self.new ≡ messages_past key.now self.old) }
    {
        self.drop_before(key);
        self.take_effect(alloc, key, old)
    }

    // Moves the messages with a key before `key` from other messages to the end of these.
    fn move_before(&mut self, others: &mut LentMessages<'a, V>, key: &Key) -> Result<(), AllocError>
        requires { IsSorted others.old }
        ensures moved { OnOk result (self.new ≡ self.old ++ before key.now others.old) }
        ensures left { OnOk result (others.new ≡ from key.now others.old) }
    {
        while let Some((at, message)) = others.next_before(Some(key)) {
            self.push(at, message)?;
        }
        Ok(())
    }
}

// The messages with a key at or past `key`, found by binary search.
fn lent_from<'e, 'a, V: Merge>(
    entries: &'e [LentMessage<'a, V>],
    key: &Key,
) -> &'e [LentMessage<'a, V>]
    requires { IsSorted (map (λ m. (m.key.now, m.message.now)) entries.now) }
    ensures { map (λ m. (m.key.now, m.message.now)) result.now ≡ from key.now (map (λ m. (m.key.now, m.message.now)) entries.now) }
{
    let place = entries.partition_point(|entry| entry.key.compare(key) == Ordering::Less);
    &entries[place..]
}

// The value of a key after the messages to it. All messages are at or past the key.
fn after_lent<'a, V: Merge>(
    alloc: Global,
    entries: &[LentMessage<'a, V>],
    key: &Key,
    old: ValueSoFar<'a, V>,
) -> Result<ValueSoFar<'a, V>, AllocError>
    requires sorted { IsSorted (map (λ m. (m.key.now, m.message.now)) entries.now) }
    requires from { AllFrom key.now (map (λ m. (m.key.now, m.message.now)) entries.now) }
    ensures { IfOk result (λ value. option_of value ≡ value_after (effect_of V.terms.merged) key.now (map (λ m. (m.key.now, m.message.now)) entries.now) (option_of old.entry)) }
{
    let mut value = old;
    for entry in entries {
        if entry.key.compare(key) != Ordering::Equal {
            return Ok(value);
        }
        value = value.after(alloc, entry.message)?;
    }
    Ok(value)
}

// Whether a key is before a bound. An absent bound doesn't limit.
pub(crate) fn lies_before(key: &Key, high: Option<&Key>) -> bool
    ensures { result ≡ is_before_upper (option_copied high.entry) key.now }
{
    match high {
        Some(high) => key.compare(high) == Ordering::Less,
        None => true,
    }
}

/// Whether the range ends at or before its lower bound. An absent bound doesn't limit.
pub(crate) fn is_empty_range(from: Option<&Key>, to: Option<&Key>) -> bool
    ensures { MatchOption from.entry (result ≡ false) (λ low. result ≡ not (is_before_upper (option_copied to.entry) low.now)) }
{
    match from {
        Some(low) => !lies_before(low, to),
        None => false,
    }
}

/// Older and newer messages in order. Of one key the older ones come first.
pub(crate) fn with_messages<'a, V: Merge>(
    alloc: Global,
    older: Messages<'a, V>,
    newer: LentMessages<'a, V>,
) -> Result<LentMessages<'a, V>, AllocError>
    requires { IsSorted newer }
    ensures { IfOk result (λ messages. messages ≡ with_messages newer.entry older.entry) }
{
    let mut newer = newer;
    let mut messages = LentMessages::new(alloc);
    for (key, message) in older {
        messages.move_before(&mut newer, key)?;
        messages.push(key, message)?;
    }
    messages.append(newer)?;
    Ok(messages)
}
