//! Merges two streams, of older and newer messages, into runs in one pass.
ghost use Rattle.std.specs.Prelude.{◌≡◌, ◌+◌, ◌<◌, ◌∷◌, ◌++◌, ◌^◌, [], false, true, IfOk, MatchOption, length};
ghost use Rattle.bt_keycode.specs.Keys.{IsSorted};
ghost use Rattle.bt_message.specs.Messages.{with_messages};

use crate::buffer::Buffer;
use crate::message_runs::{add_run, room_for_one};
use crate::packet::Packet;
use crate::stream::Stream;
use bt_keycode::Key;
use bt_message::{Merge, Message};
use std::alloc::{AllocError, Global};

/// The number of messages in two packets together. No memory holds 2 ^ 63 messages.
pub(crate) fn count_of_both(older: usize, newer: usize) -> Result<usize, AllocError>
    ensures { IfOk result (λ count. (count ≡ older + newer) × (count < 2 ^ 63)) }
{
    match older.checked_add(newer) {
        Some(count) if count <= isize::MAX as usize => Ok(count),
        _ => Err(AllocError),
    }
}

// Whether there are both older and newer messages. If not, those that are left need no merge.
#[inline]
fn are_both<V: Merge>(older: &Stream<V>, newer: &Stream<V>) -> bool
    ensures both { result ≡ true → 0 < length older.now }
    ensures one { result ≡ false → with_messages newer.now older.now ≡ older.now ++ newer.now }
{
    let _sorted = newer.len();
    if older.is_empty() {
        return false;
    }
    !newer.is_empty()
}

// Takes off the first of the older and newer messages: the older one, unless the newer one has a smaller key.
#[inline(always)]
fn pop_first<V: Merge>(older: &mut Stream<V>, newer: &mut Stream<V>) -> Option<(Key, Message<V>)>
    ensures { MatchOption result (with_messages newer.old older.old ≡ []) (λ m. with_messages newer.old older.old ≡ m ∷ with_messages newer.new older.new) }
{
    if newer.goes_before(older) {
        newer.pop()
    } else {
        older.pop()
    }
}

/// Takes off messages in order, as a packet, while there are both older and newer ones.
pub(crate) fn merge_both<V: Merge>(
    alloc: Global,
    older: &mut Stream<V>,
    newer: &mut Stream<V>,
) -> Result<Packet<V>, AllocError>
    requires { length older.old + length newer.old < 2 ^ 63 }
    ensures merged { IfOk result (λ packet. packet ++ (older.new ++ newer.new) ≡ with_messages newer.old older.old) }
    ensures sorted { IsSorted older.old }
{
    let count = older.len() + newer.len();
    let mut runs = Vec::new(alloc);
    let mut run = Vec::new(alloc);
    while are_both(older, newer) {
        room_for_one(alloc, &mut runs, &mut run)?;
        if let Some(entry) = pop_first(older, newer) {
            run.push_reserved(entry);
        }
    }
    add_run(&mut runs, run)?;
    let left = older.len() + newer.len();
    Ok(Packet::from_runs(Buffer::new(alloc), runs, count - left))
}
