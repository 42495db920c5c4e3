//! Shares of a stream, moved to buffers.
ghost use Rattle.std.specs.Prelude.{◌≡◌, ◌≢◌, ◌+◌, ◌<◌, ◌≤◌, ◌++◌, ◌^◌, ℕ, IfOk, IfSome, None, OnErr, OnOk, drop, get_or, length, take, vec_len, vec_capacity};
ghost use Rattle.bt_keycode.specs.Keys.{IsSorted};
ghost use Rattle.bt_messages.specs.Bins.{each_with};
ghost use Rattle.bt_messages.specs.Parts.{parted, total};
ghost use Rattle.bt_message.specs.Messages.{with_message, with_messages};
ghost use Rattle.bt_messages.specs.Shares.{AreShares, IsShare, counts, load_of};
ghost use Rattle.bt_message.specs.Weights.{weigh_of};
ghost use Rattle.bt_messages.specs.inside.Rooms.{HasRoom, HaveRoom};

use crate::bounds;
use crate::buffer::Buffer;
use crate::stream::Stream;
use bt_keycode::Key;
use bt_message::{Measure, Merge, Message};
use std::alloc::{AllocError, Global};
use std::collections::VecDeque;
use std::mem::replace;

/// A number of messages at the front of a stream, and their total weight if it is known.
#[derive(Clone, Copy, Debug, Drop)]
pub struct Share {
    /// The number of messages.
    pub count: usize,
    /// Their total weight.
    pub weight: Option<u128>,
}

impl Share {
    /// A share of this many messages. Their weight isn't known.
    pub fn new(count: usize) -> Self
        ensures { result ≡ record { count = count; weight = None } }
    {
        Share {
            count,
            weight: None,
        }
    }

    /// The load of the messages. If bytes are measured and the weight isn't known, it is 0.
    pub fn load(self, measure: Measure) -> u128
        ensures { result ≡ load_of measure self }
    {
        match measure {
            Measure::Messages => self.count as u128,
            Measure::Bytes => self.weight.unwrap_or(0),
        }
    }
}

// For each buffer a list with capacity for its messages and those that it gains.
fn room_for_each<V: Merge>(
    alloc: Global,
    buffers: &[Buffer<V>],
    shares: &[Share],
) -> Result<Vec<Vec<(Key, Message<V>)>>, AllocError>
    requires len { length shares.now ≡ length buffers.now }
    requires bound { total (counts shares.now) < 2 ^ 63 }
    ensures room { IfOk result (λ rooms. HaveRoom (counts shares.now) buffers.now rooms.items) }
    ensures len { IfOk result (λ rooms. length rooms.items ≡ length shares.now) }
{
    let mut rooms = Vec::with_capacity(alloc, shares.len())?;
    for place in 0..shares.len() {
        let room = buffers[place].room_with(alloc, shares[place].count)?;
        rooms.push_reserved(room);
    }
    Ok(rooms)
}

// Appends messages. The capacity suffices.
fn append_reserved<V: Merge>(
    merged: &mut Vec<(Key, Message<V>)>,
    messages: VecDeque<(Key, Message<V>)>,
)
    requires { vec_len merged.old + length messages.items ≤ vec_capacity merged.old }
    ensures pushed { merged.new.items ≡ merged.old.items ++ messages.items }
    ensures len { vec_len merged.new ≡ vec_len merged.old + length messages.items }
    ensures capacity { vec_capacity merged.new ≡ vec_capacity merged.old }
{
    for entry in messages {
        merged.push_reserved(entry);
    }
}

// Inserts a message into sorted ones, after those of its key. The capacity suffices.
fn insert<V: Merge>(messages: &mut Vec<(Key, Message<V>)>, entry: (Key, Message<V>))
    requires sorted { IsSorted messages.old.items }
    requires room { vec_len messages.old < vec_capacity messages.old }
    ensures inserted { messages.new.items ≡ with_message entry messages.old.items }
    ensures sorted { IsSorted messages.new.items }
    ensures len { vec_len messages.new ≡ vec_len messages.old + 1 }
    ensures capacity { vec_capacity messages.new ≡ vec_capacity messages.old }
{
    let place = bounds::count_up_to(messages.as_slice(), &entry.0);
    let Ok(()) = messages.insert(place, entry) else {
        unreachable!()
    };
}

/// Inserts the first messages of a stream into sorted ones, one by one, each after those of its key. The capacity suffices.
pub(crate) fn insert_front<V: Merge>(
    messages: &mut Vec<(Key, Message<V>)>,
    stream: &mut Stream<V>,
    count: usize,
)
    requires count { count ≤ length stream.old }
    requires room { vec_len messages.old + count ≤ vec_capacity messages.old }
    requires sorted { IsSorted messages.old.items }
    ensures inserted { messages.new.items ≡ with_messages (take count stream.old) messages.old.items }
    ensures sorted { IsSorted messages.new.items }
    ensures left { stream.new ≡ drop count stream.old }
{
    for _ in 0..count {
        if let Some(entry) = stream.pop() {
            insert(messages, entry);
        }
    }
}

// Merges older messages with the first ones of a stream into a list whose capacity suffices. Of one key the older ones come first.
// If the newer messages come after all older ones, both are moved without comparing keys.
fn merge_front<V: Merge>(
    merged: &mut Vec<(Key, Message<V>)>,
    older: Vec<(Key, Message<V>)>,
    stream: &mut Stream<V>,
    count: usize,
)
    requires count { count ≤ length stream.old }
    requires room { vec_len merged.old + vec_len older + count ≤ vec_capacity merged.old }
    requires sorted { IsSorted older.items }
    ensures merged { merged.new.items ≡ merged.old.items ++ with_messages (take count stream.old) older.items }
    ensures left { stream.new ≡ drop count stream.old }
{
    if stream.is_after(older.as_slice()) {
        append_reserved(merged, VecDeque::from(older));
        return stream.move_front(count, merged);
    }
    let mut older = VecDeque::from(older);
    for _ in 0..count {
        if let Some((key, message)) = stream.pop() {
            bounds::move_up_to(merged, &mut older, &key);
            merged.push_reserved((key, message));
        }
    }
    append_reserved(merged, older);
}

/// Moves the first messages of a stream to a buffer. Its messages then are in the list that was allocated for all of them. The
/// weight of the share is added to that of the buffer, if both are known.
pub(crate) fn gain<V: Merge>(
    alloc: Global,
    buffer: &mut Buffer<V>,
    room: &mut Vec<(Key, Message<V>)>,
    stream: &mut Stream<V>,
    share: Share,
)
    requires share { IsShare (weigh_of V.terms) stream.old share }
    requires room { HasRoom share.count buffer.old room.old }
    ensures gained { buffer.new ≡ with_messages (take share.count stream.old) buffer.old }
    ensures left { stream.new ≡ drop share.count stream.old }
{
    if share.count == 0 {
        return;
    }
    let _bound = stream.len();
    let sum = buffer.sum_with(share);
    let older = replace(buffer, Buffer::new(alloc));
    let mut merged = replace(room, Vec::new(alloc));
    merge_front(&mut merged, older.into_messages(), stream, share.count);
    *buffer = Buffer::with_sum(merged, sum);
}

// Moves shares from the front of a stream to the buffers, through the allocated lists.
fn move_each<V: Merge>(
    alloc: Global,
    buffers: &mut Vec<Buffer<V>>,
    rooms: Vec<Vec<(Key, Message<V>)>>,
    stream: &mut Stream<V>,
    shares: &[Share],
)
    requires len { length shares.now ≡ length buffers.old.items }
    requires rooms_len { length rooms.items ≡ length shares.now }
    requires shares { AreShares (weigh_of V.terms) stream.old shares.now }
    requires room { HaveRoom (counts shares.now) buffers.old.items rooms.items }
    ensures moved { buffers.new.items ≡ each_with (parted (counts shares.now) stream.old) buffers.old.items }
    ensures left { stream.new ≡ drop (total (counts shares.now)) stream.old }
{
    let mut rooms = rooms;
    for place in 0..shares.len() {
        gain(
            alloc,
            &mut buffers[place],
            &mut rooms[place],
            stream,
            shares[place],
        );
    }
}

// The place of the first share at or past `from` that has messages, or the number of shares if there is none.
fn filled_place(shares: &[Share], from: usize) -> usize
    requires { from ≤ length shares.now }
    ensures from { from ≤ result }
    ensures bound { result ≤ length shares.now }
    ensures empty { (j : ℕ) → from ≤ j → j < result → get_or (counts shares.now) j 0 ≡ 0 }
{
    for place in from..shares.len() {
        if shares[place].count != 0 {
            return place;
        }
    }
    shares.len()
}

// The place of the share that has messages, if exactly one has.
fn only_place(shares: &[Share]) -> Option<usize>
    ensures bound { IfSome result (λ place. place < length shares.now) }
    ensures only { IfSome result (λ place. (j : ℕ) → j ≢ place → get_or (counts shares.now) j 0 ≡ 0) }
{
    let place = filled_place(shares, 0);
    if place == shares.len() {
        return None;
    }
    let next = filled_place(shares, place + 1);
    if next < shares.len() {
        return None;
    }
    Some(place)
}

/// Moves shares from the front of a stream to the buffers. Each message goes after those of its key. An `Err` changes nothing.
pub(crate) fn add_shares<V: Merge>(
    alloc: Global,
    buffers: &mut Vec<Buffer<V>>,
    stream: &mut Stream<V>,
    shares: &[Share],
) -> Result<(), AllocError>
    requires len { length shares.now ≡ length buffers.old.items }
    requires shares { AreShares (weigh_of V.terms) stream.old shares.now }
    ensures added { OnOk result (buffers.new.items ≡ each_with (parted (counts shares.now) stream.old) buffers.old.items) }
    ensures left { OnOk result (stream.new ≡ drop (total (counts shares.now)) stream.old) }
    ensures err { OnErr result (buffers.new.items ≡ buffers.old.items) }
    ensures err_stream { OnErr result (stream.new ≡ stream.old) }
{
    if let Some(place) = only_place(shares) {
        return buffers[place].add_front(alloc, stream, shares[place]);
    }
    let _bound = stream.len();
    let rooms = room_for_each(alloc, buffers.as_slice(), shares)?;
    move_each(alloc, buffers, rooms, stream, shares);
    Ok(())
}
