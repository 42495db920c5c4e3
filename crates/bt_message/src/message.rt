//! Messages and their effects.
ghost use Rattle.std.specs.Prelude.{◌≡◌, ◌≤◌, IfOk, min};
ghost use Rattle.bt_keycode.specs.Lengths.{most_weight};
ghost use Rattle.bt_message.specs.Effects.{effect_of};
ghost use Rattle.bt_message.specs.Payloads.{change_payload, row_payload, row_terms};
ghost use Rattle.bt_message.specs.Terms.{Terms};
ghost use Rattle.bt_message.specs.Weights.{weigh_of};

use bt_keycode::{Key, MOST_WEIGHT, change_code_len, row_code_len};
use bt_row::{Change, Row, copy_change, copy_row};
use std::alloc::{AllocError, Global};

/// A value that messages can change.
pub trait Merge: Drop {
    /// What an upsert carries.
    type Delta: Drop;

    /// How an upsert changes the value at its key, or none, and how many bytes messages carry.
    ghost terms: { Terms Self Self.Delta };

    /// The value after an upsert. `old` is `None` if the key had no value.
    fn merge(alloc: Global, old: Option<Self>, delta: &Self::Delta) -> Result<Self, AllocError>
        ensures { IfOk result (λ new. new ≡ terms.merged old delta.now) };

    /// The number of bytes that a put of the value carries, at most 16,777,215. Allocates nothing.
    fn weight(&self) -> u64
        ensures { result ≡ min most_weight (terms.payload self.now) };

    /// The number of bytes that an upsert carries, at most 16,777,215. Allocates nothing.
    fn delta_weight(delta: &Self::Delta) -> u64
        ensures { result ≡ min most_weight (terms.delta_payload delta.now) };

    /// A copy of the value.
    fn copy(&self, alloc: Global) -> Result<Self, AllocError>
        ensures { IfOk result (λ copy. copy ≡ self.now) };

    /// A copy of what an upsert carries.
    fn copy_delta(alloc: Global, delta: &Self::Delta) -> Result<Self::Delta, AllocError>
        ensures { IfOk result (λ copy. copy ≡ delta.now) };
}

impl Merge for Row {
    ghost use Rattle.bt_row.specs.Ops as ops;

    type Delta = Change;

    ghost terms = { row_terms };

    fn merge(alloc: Global, old: Option<Row>, delta: &Change) -> Result<Row, AllocError>
        ensures { IfOk result (λ new. new ≡ ops.merged old delta.now) }
    {
        delta.apply(alloc, old)
    }

    fn weight(&self) -> u64 {
        row_code_len(self)
    }

    fn delta_weight(delta: &Change) -> u64
        ensures { result ≡ min most_weight (change_payload delta.now) }
    {
        change_code_len(delta)
    }

    fn copy(&self, alloc: Global) -> Result<Row, AllocError> {
        copy_row(alloc, self)
    }

    fn copy_delta(alloc: Global, delta: &Change) -> Result<Change, AllocError> {
        copy_change(alloc, delta)
    }
}

/// A change of the value at one key.
#[derive(Drop)]
pub enum Message<V: Merge> {
    /// From now on the key has this value.
    Put(V),
    /// From now on the key has no value.
    Del,
    /// The key gets the result of this upsert on its value, or on none.
    Ups(V::Delta),
}

impl<V: Merge> Message<V> {
    /// The weight of the message with its key: one, plus the bytes of the key, plus the bytes that a put or an upsert carries.
    /// Allocates nothing.
    pub fn weight(&self, key: &Key) -> u64
        ensures weight { result ≡ weigh_of V.terms (key.now, self.now) }
        ensures most { result ≤ most_weight }
    {
        let payload = match self {
            Message::Put(value) => value.weight(),
            Message::Del => 0,
            Message::Ups(delta) => V::delta_weight(delta),
        };
        let whole = u128::from(payload) + key.len() as u128 + 1;
        if whole < u128::from(MOST_WEIGHT) {
            whole as u64
        } else {
            MOST_WEIGHT
        }
    }

    /// A copy of the message.
    pub fn copy(&self, alloc: Global) -> Result<Self, AllocError>
        ensures { IfOk result (λ copy. copy ≡ self.now) }
    {
        match self {
            Message::Put(value) => Ok(Message::Put(value.copy(alloc)?)),
            Message::Del => Ok(Message::Del),
            Message::Ups(delta) => Ok(Message::Ups(V::copy_delta(alloc, delta)?)),
        }
    }
}

/// The value of a key after a message. The key may have had none.
pub fn effect<V: Merge>(
    alloc: Global,
    old: Option<V>,
    message: Message<V>,
) -> Result<Option<V>, AllocError>
    ensures { IfOk result (λ new. new ≡ effect_of V.terms.merged old message) }
{
    match message {
        Message::Put(value) => Ok(Some(value)),
        Message::Del => Ok(None),
        Message::Ups(delta) => Ok(Some(V::merge(alloc, old, &delta)?)),
    }
}

/// The value of a key after a message, like `effect`, but the message is only borrowed: the value of a put is copied.
pub fn effect_borrowed<V: Merge>(
    alloc: Global,
    old: Option<V>,
    message: &Message<V>,
) -> Result<Option<V>, AllocError>
    ensures { IfOk result (λ new. new ≡ effect_of V.terms.merged old message.now) }
{
    match message {
        Message::Put(value) => Ok(Some(value.copy(alloc)?)),
        Message::Del => Ok(None),
        Message::Ups(delta) => Ok(Some(V::merge(alloc, old, delta)?)),
    }
}
