//! A service: what arrives gets a reply, until the input ends.
ghost use Rattle.std.specs.Prelude.{◌≡◌, ◌<◌, ◌⊎◌, ◌||◌, Bool, false, true, IfNone, IfOk, IfSome, IsErrOf, OnErr, OnOk, length, List, ℕ};
ghost use Rattle.bt_script.specs.Streams.{has_failed, has_unflushed, source_of};
ghost use Rattle.bt_frame.specs.declared.arrival.Arrival.{Arrival as arrival_type};
ghost use Rattle.bt_frame.specs.Services.{AddsRestore, BreaksOff, Exchanges, HasTest, HasTooMany, IsNext, IsNoRequest, ServesAll, WritesAnswers, WritesSomeAnswers, WritesWholeAnswers};

use crate::arrival::Arrival;
use crate::frame_reader::receive;
use crate::frame_writer::send;
use bt_script::{Counted, RunFault};
use std::alloc::{AllocError, Global};
use std::io::{Read, Write};
use std::mem;

// The number of bytes that one read asks for.
const PIECE_SIZE: usize = 4_096;

/// A reply.
#[derive(Drop)]
pub struct Reply {
    /// The kind of its frame.
    pub kind: u8,
    /// The payload of its frame.
    pub payload: Vec<u8>,
    /// Whether what it replies to may have changed the service.
    pub is_change: bool,
}

/// Has a reply to whatever arrives. `X` is what each call takes besides, such as who works.
pub trait Service<X> {
    /// What is required of it.
    ghost accepts: { X → Type 0 };

    /// The service before anything arrived.
    ghost blank: { Self };

    /// The service after something arrived with a payload.
    ghost after: { Self → arrival_type → List ℕ → Self };

    /// The kind and the payload of its reply.
    ghost reply: { Self → arrival_type → List ℕ → ℕ × List ℕ };

    /// Whether something that arrived may change the service.
    ghost changes: { Self → arrival_type → List ℕ → Bool };

    /// Carries out what arrived, and makes the reply in the memory of some bytes. An `Err` means that an allocation failed.
    fn exchange(
        &mut self,
        context: &X,
        arrival: Arrival,
        payload: &[u8],
        room: Vec<u8>,
    ) -> Result<Reply, AllocError>
        requires ready { accepts context.now }
        ensures state { OnOk result (self.new ≡ after self.old arrival payload.now) }
        ensures reply { IfOk result (λ made. (made.kind, made.payload.items) ≡ reply self.old arrival payload.now) }
        ensures changes { IfOk result (λ made. made.is_change ≡ changes self.old arrival payload.now) };

    /// Makes the reply to what arrived and is no request, in the memory of some bytes. An `Err` means that an allocation failed.
    fn refuse(&self, arrival: Arrival, room: Vec<u8>) -> Result<Reply, AllocError>
        requires refused { IsNoRequest arrival }
        ensures reply { IfOk result (λ made. (payload : List ℕ) → (made.kind, made.payload.items) ≡ reply self.now arrival payload) };

    /// What cannot change the service leaves it as it is.
    ghost same: { (service : Self) (arrival : arrival_type) (payload : List ℕ) → changes service arrival payload ≡ false → after service arrival payload ≡ service };

    /// What is no request cannot change it.
    ghost idle: { (service : Self) (arrival : arrival_type) (payload : List ℕ) → IsNoRequest arrival → changes service arrival payload ≡ false };
}

/// The kind of a request that restores a service.
pub const RESTORE: u8 = 14;

/// A service whose state one request can make.
pub trait CompactService<X>: Service<X> {
    /// Whether a state is another one compacted. To those who read it, it is the same one.
    ghost is_compacted: { Self → Self → Type 0 };

    /// Goes on to the compacted state, and adds to some bytes the frame of a request of kind 14 that leads to it from the blank one. `None` if the state cannot be
    /// compacted now, or if memory ran out; it is as it was then.
    fn compact(&mut self, context: &X, bytes: Vec<u8>) -> Option<Vec<u8>>
        requires ready { Self.Service.accepts context.now }
        ensures compacted { IfSome result (λ _. is_compacted self.old self.new) }
        ensures restores { IfSome result (λ all. AddsRestore Self.Service.after Self.Service.blank bytes.items all.items self.new) }
        ensures unchanged { IfNone result (self.new ≡ self.old) };
}

/// What follows an exchange. The test is whether the exchange may have changed the service.
#[derive(Clone, Copy, Drop)]
pub(crate) enum Next {
    /// There was one, and more may follow.
    More(bool),
    /// There was one, and after it no frame can be found.
    Last(bool),
    /// The input is at its end, and there was none.
    End,
}

// Whether one of two tests is true.
fn either(first: bool, second: bool) -> bool
    ensures { result ≡ (first || second) }
{
    first || second
}

// Whether more frames can be found after an arrival.
fn next_after(arrival: Arrival, is_change: bool) -> Next
    ensures next { IsNext arrival result }
    ensures test { HasTest result is_change }
{
    match arrival {
        Arrival::Frame(_) | Arrival::TooLong => Next::More(is_change),
        Arrival::NoFrame | Arrival::CutOff => Next::Last(is_change),
    }
}

/// Memory for what is read and written.
#[derive(Drop)]
struct Buffers {
    piece: Vec<u8>,
    payload: Vec<u8>,
    reply: Vec<u8>,
}

impl Buffers {
    fn new(alloc: Global) -> Result<Self, AllocError>
        ensures { IfOk result (λ buffers. 0 < length buffers.piece.items) }
    {
        let mut piece = Vec::with_capacity(alloc, PIECE_SIZE)?;
        piece.resize(PIECE_SIZE, 0)?;
        Ok(Buffers {
            piece,
            payload: Vec::new(alloc),
            reply: Vec::new(alloc),
        })
    }

    // Takes the memory of the last reply.
    fn take_room(&mut self, alloc: Global) -> Vec<u8>
        ensures piece { self.new.piece ≡ self.old.piece }
        ensures payload { self.new.payload ≡ self.old.payload }
    {
        mem::replace(&mut self.reply, Vec::new(alloc))
    }
}

// One exchange: reads what arrives next, has it carried out, and writes and flushes the reply. No byte is read while a reply waits for its flush.
fn exchange_next<R: Read, W: Write, X, S: Service<X>>(
    alloc: Global,
    service: &mut S,
    context: &X,
    most: u64,
    buffers: &mut Buffers,
    reader: &mut Counted<R>,
    writer: &mut Counted<W>,
) -> Result<Next, RunFault>
    requires ready { S.accepts context.now }
    requires piece { 0 < length buffers.old.piece.items }
    requires flushed { has_unflushed writer.old ≡ false }
    ensures step { IfOk result (λ next. Exchanges S.after S.reply R.remaining W.contents most reader.old reader.new writer.old writer.new service.old S.changes service.new next) }
    ensures reads { OnOk result (has_failed reader.new ≡ has_failed reader.old) }
    ensures writes { OnOk result (has_failed writer.new ≡ has_failed writer.old) }
    ensures flushed { OnOk result (has_unflushed writer.new ≡ false) }
    ensures piece { OnOk result (0 < length buffers.new.piece.items) }
    ensures read { IsErrOf result RunFault.Read → (has_failed reader.new ≡ true) × (writer.new ≡ writer.old) }
    ensures memory { IsErrOf result RunFault.OutOfMemory → (has_failed reader.new ≡ has_failed reader.old) × (writer.new ≡ writer.old) }
    ensures write { IsErrOf result RunFault.Write → (has_failed writer.new ≡ true) × BreaksOff S.after S.reply R.remaining W.contents most reader.old reader.new writer.old writer.new service.old }
{
    let piece = buffers.piece.as_mut_slice();
    let Some(arrival) = receive(reader, most, piece, &mut buffers.payload)? else {
        return Ok(Next::End);
    };
    let room = buffers.take_room(alloc);
    let reply = service.exchange(context, arrival, buffers.payload.as_slice(), room)?;
    send(writer, reply.kind, reply.payload.as_slice())?;
    buffers.reply = reply.payload;
    Ok(next_after(arrival, reply.is_change))
}

/// Serves what arrives: has each frame carried out, writes its reply and flushes it, before it reads on. It ends with the input, or after the reply to bytes in
/// which no next frame can be found. A payload of more than `most` bytes is passed over.
///
/// The replies are those of the definition `answers` for what arrives of the bytes that the reader had; after a fault a prefix of them is written. `Read`: the reader
/// failed, or more than 2^64 - 2 frames arrived. `Write`: the writer failed. `OutOfMemory`: an allocation failed. Unless the writer failed, each reply of which a
/// byte is written is whole. `Ok` says whether anything that arrived may have changed the service.
pub fn serve<R: Read, W: Write, X, S: Service<X>>(
    alloc: Global,
    service: &mut S,
    context: &X,
    most: u64,
    reader: &mut Counted<R>,
    writer: &mut Counted<W>,
) -> Result<bool, RunFault>
    requires ready { S.accepts context.now }
    requires flushed { has_unflushed writer.old ≡ false }
    requires reads { has_failed reader.old ≡ false }
    requires writes { has_failed writer.old ≡ false }
    ensures ok { OnOk result (WritesAnswers S.after S.reply W.contents most service.old (R.remaining (source_of reader.old)) writer.old writer.new) }
    ensures err { OnErr result (WritesSomeAnswers S.after S.reply W.contents most service.old (R.remaining (source_of reader.old)) writer.old writer.new) }
    ensures healthy { OnOk result ((has_failed reader.new ≡ false) × (has_failed writer.new ≡ false)) }
    ensures flushed { OnOk result (has_unflushed writer.new ≡ false) }

    // The same replies, and the service after all that arrived.
    ensures served { IfOk result (λ is_change. ServesAll S.after S.reply W.contents most service.old (R.remaining (source_of reader.old)) writer.old writer.new S.changes service.new is_change) }

    // The fault, and what it leaves.
    ensures read { IsErrOf result RunFault.Read → (has_failed reader.new ≡ true) ⊎ HasTooMany most (R.remaining (source_of reader.old)) }
    ensures write { IsErrOf result RunFault.Write → has_failed writer.new ≡ true }
    ensures memory { IsErrOf result RunFault.OutOfMemory → (has_failed reader.new ≡ false) × (has_failed writer.new ≡ false) }
    ensures whole { (IsErrOf result RunFault.Read ⊎ IsErrOf result RunFault.OutOfMemory) → WritesWholeAnswers S.after S.reply W.contents most service.old (R.remaining (source_of reader.old)) writer.old writer.new }
{
    let mut buffers = Buffers::new(alloc)?;
    let mut is_change = false;
    'exchanges: for _count in 0..u64::MAX {
        match exchange_next(alloc, service, context, most, &mut buffers, reader, writer) {
            Ok(Next::More(test)) => is_change = either(is_change, test),
            Ok(Next::Last(test)) => return Ok(either(is_change, test)),
            Ok(Next::End) => return Ok(is_change),
            Err(fault) => return Err(fault),
        }
    }
    Err(RunFault::Read)
}
