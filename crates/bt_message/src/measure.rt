//! The measure of pending messages.
ghost use Rattle.std.specs.Prelude.{◌≡◌};
ghost use Rattle.bt_message.specs.Weights.{weigh_of, weight};

use crate::message::{Merge, Message};
use bt_keycode::Key;

/// The unit in which the load of a buffer is measured.
#[derive(Clone, Copy, Debug, Drop)]
pub enum Measure {
    /// Messages: each counts as one.
    Messages,
    /// Bytes: each message counts with its weight.
    Bytes,
}

/// The total weight of the messages.
pub fn weigh_all<V: Merge>(messages: &[(Key, Message<V>)]) -> u128
    ensures { result ≡ weight (weigh_of V.terms) messages.now }
{
    let mut sum = 0;
    for (key, message) in messages {
        sum += u128::from(message.weight(key));
    }
    sum
}
