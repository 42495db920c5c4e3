//! Values that are borrowed until something changes them.
ghost use Rattle.std.specs.Prelude.{◌≡◌, IfOk, IfSome};
ghost use Rattle.std.specs.Option.{option_copied};
ghost use Rattle.bt_message.specs.Effects.{effect_of};
ghost use Rattle.bt_read.specs.inside.ValuesSoFar.{Resets, option_of};

use bt_messages::{Merge, Message};
use std::alloc::{AllocError, Global};

/// The value of a key: none, one borrowed from a row or a put, or one that an upsert made.
#[derive(Drop)]
pub(crate) enum ValueSoFar<'a, V: Merge> {
    Absent,
    Lent(&'a V),
    Made(V),
}

impl<'a, V: Merge> ValueSoFar<'a, V> {
    /// The value that was found, borrowed.
    pub(crate) fn of(value: Option<&'a V>) -> Self
        ensures { option_of result ≡ option_copied value.entry }
    {
        match value {
            Some(value) => ValueSoFar::Lent(value),
            None => ValueSoFar::Absent,
        }
    }

    /// The value as an owned one: a borrowed value is copied.
    pub(crate) fn into_value(self, alloc: Global) -> Result<Option<V>, AllocError>
        ensures { IfOk result (λ value. value ≡ option_of self.entry) }
    {
        match self {
            ValueSoFar::Absent => Ok(None),
            ValueSoFar::Lent(value) => Ok(Some(value.copy(alloc)?)),
            ValueSoFar::Made(value) => Ok(Some(value)),
        }
    }

    /// The value after a message. The value of a put is borrowed. An upsert changes a copy of a borrowed value, and an owned value
    /// in place.
    pub(crate) fn after(self, alloc: Global, message: &'a Message<V>) -> Result<Self, AllocError>
        ensures { IfOk result (λ new. option_of new ≡ effect_of V.terms.merged (option_of self.entry) message.now) }
    {
        match message {
            Message::Put(value) => Ok(ValueSoFar::Lent(value)),
            Message::Del => Ok(ValueSoFar::Absent),
            Message::Ups(delta) => {
                let old = self.into_value(alloc)?;
                Ok(ValueSoFar::Made(V::merge(alloc, old, delta)?))
            }
        }
    }
}

/// The value after a message that doesn't depend on the old one: a put or a del.
pub(crate) fn reset<'a, V: Merge>(message: &'a Message<V>) -> Option<ValueSoFar<'a, V>>
    ensures { IfSome result (λ new. Resets (effect_of V.terms.merged) message.now (option_of new)) }
{
    match message {
        Message::Put(value) => Some(ValueSoFar::Lent(value)),
        Message::Del => Some(ValueSoFar::Absent),
        Message::Ups(_) => None,
    }
}
