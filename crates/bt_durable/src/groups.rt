//! Requests that are read together.
ghost use Rattle.std.specs.Prelude.{◌≡◌, ◌<◌, ◌^◌, ◌++◌, [], IfNone, IfOk, IfSome, IsErrOf, OnOk, false, length};
ghost use Rattle.bt_frame.specs.Frames.{frame};
ghost use Rattle.bt_durable.specs.Inputs as inputs;
ghost use Rattle.bt_durable.specs.Joined.{AreFrames, are_requests};
ghost use Rattle.bt_durable.specs.Payloads.{requests};
ghost use Rattle.bt_durable.specs.Inputs.{AreAhead, ReadsNext, ReadsUpTo};

use bt_frame::{Arrival, add_frame, begins_with_frame, receive};
use bt_script::{Counted, RunFault};
use std::alloc::{AllocError, Global};
use std::io::{BufReader, Read};

/// A reader that shows bytes which it can give without waiting.
pub trait Ahead: Read {
    /// Bytes that the next reads give. More may follow them.
    fn ahead(&self) -> &[u8]
        ensures { AreAhead (Self.Read.remaining self.now) result.now };
}

impl<R: Read> Ahead for BufReader<R> {
    fn ahead(&self) -> &[u8] {
        self.buffer()
    }
}

/// What follows requests that were read together.
#[derive(Clone, Copy, Drop)]
pub(crate) enum Ending {
    /// Whatever the reader gives next.
    More,
    /// Something that is no request.
    Other(Arrival),
    /// The end of the input.
    End,
}

/// Memory for what is read.
#[derive(Drop)]
pub(crate) struct Room {
    pub(crate) piece: Vec<u8>,
    pub(crate) payload: Vec<u8>,
    pub(crate) group: Vec<u8>,
}

/// What was received.
#[derive(Clone, Copy, Drop)]
pub(crate) enum Received {
    /// A request of this kind.
    Request(u8),
    /// Something that is no request.
    Other(Arrival),
    /// Nothing: the input is at its end.
    End,
}

// What was received if this arrived.
fn received_of(found: Option<Arrival>) -> Received
    ensures { result ≡ inputs.received_of found }
{
    match found {
        Some(Arrival::Frame(kind)) => Received::Request(kind),
        Some(Arrival::TooLong) => Received::Other(Arrival::TooLong),
        Some(Arrival::NoFrame) => Received::Other(Arrival::NoFrame),
        Some(Arrival::CutOff) => Received::Other(Arrival::CutOff),
        None => Received::End,
    }
}

// Reads what arrives next, and no byte after it.
fn receive_next<I: Read + Drop>(
    input: I,
    most: u64,
    room: &mut Room,
) -> Result<(I, Received), RunFault>
    requires piece { 0 < length room.old.piece.items }
    ensures received { IfOk result (λ next. ReadsNext most (I.remaining input) (I.remaining next.0) room.new.payload.items next.1) }
    ensures piece { 0 < length room.new.piece.items }
    ensures group { room.new.group ≡ room.old.group }
    ensures write { IsErrOf result RunFault.Write → ⊥ }
{
    let mut reader = Counted::new(input);
    let found = receive(
        &mut reader,
        most,
        room.piece.as_mut_slice(),
        &mut room.payload,
    )?;
    Ok((reader.into_inner(), received_of(found)))
}

// The number of bytes that one read asks for.
const PIECE_SIZE: usize = 4_096;

impl Room {
    pub(crate) fn new(alloc: Global) -> Result<Self, AllocError>
        ensures piece { IfOk result (λ room. 0 < length room.piece.items) }
        ensures group { IfOk result (λ room. room.group.items ≡ []) }
    {
        let mut piece = Vec::with_capacity(alloc, PIECE_SIZE)?;
        piece.resize(PIECE_SIZE, 0)?;
        Ok(Room {
            piece,
            payload: Vec::new(alloc),
            group: Vec::new(alloc),
        })
    }

    // Adds a request with the payload to the group.
    fn add_request(&mut self, kind: u8) -> Result<(), AllocError>
        ensures group { OnOk result (self.new.group.items ≡ self.old.group.items ++ frame kind self.old.payload.items) }
        ensures fits { OnOk result (length self.old.payload.items < 2 ^ 64) }
        ensures piece { self.new.piece ≡ self.old.piece }
    {
        add_frame(&mut self.group, kind, self.payload.as_slice())
    }
}

/// Reads requests until the reader would have to wait for the next one, and at least one if there is one. The group is their frames.
pub(crate) fn receive_group<I: Ahead + Drop>(
    input: I,
    most: u64,
    room: &mut Room,
) -> Result<(I, Ending), RunFault>
    requires piece { 0 < length room.old.piece.items }
    ensures group { IfOk result (λ received. ReadsUpTo most (I.remaining input) (I.remaining received.0) room.new.group.items received.1) }
    ensures piece { 0 < length room.new.piece.items }
    ensures write { IsErrOf result RunFault.Write → ⊥ }
{
    room.group.clear();
    let mut source = input;
    'requests: for _ in 0..u64::MAX {
        let (next, received) = receive_next(source, most, room)?;
        source = next;
        match received {
            Received::Request(kind) => room.add_request(kind)?,
            Received::Other(arrival) => return Ok((source, Ending::Other(arrival))),
            Received::End => return Ok((source, Ending::End)),
        }
        if !begins_with_frame(source.ahead(), most) {
            return Ok((source, Ending::More));
        }
    }
    Ok((source, Ending::More))
}

/// The frames in a payload. `None` if it has something that is no request.
pub(crate) fn frames_in(alloc: Global, payload: &[u8]) -> Result<Option<Vec<u8>>, AllocError>
    ensures frames { IfOk result (λ found. IfSome found (λ frames. AreFrames frames.items)) }
    ensures same { IfOk result (λ found. IfSome found (λ frames. requests frames.items ≡ requests payload.now)) }
    ensures none { IfOk result (λ found. IfNone found (are_requests (requests payload.now) ≡ false)) }
{
    let mut room = Room::new(alloc)?;
    let mut source = payload;
    'requests: for _ in 0..u64::MAX {
        // A slice is read if there is memory.
        let Ok((next, received)) = receive_next(source, u64::MAX, &mut room) else {
            return Err(AllocError);
        };
        source = next;
        match received {
            Received::Request(kind) => room.add_request(kind)?,
            Received::Other(_) => return Ok(None),
            Received::End => return Ok(Some(room.group)),
        }
    }
    Err(AllocError)
}
