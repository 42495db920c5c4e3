//! Reading frames.
ghost use Rattle.std.specs.Prelude.{◌≡◌, ◌<◌, true, IfNone, IfOk, IfSome, IsErrOf, OnOk, length};
ghost use Rattle.bt_script.specs.Streams.{has_failed};
ghost use Rattle.bt_frame.specs.Frames as frames;
ghost use Rattle.bt_frame.specs.Receipts.{GaveUpTo, PassesOver, Receives, ReceivesNothing, ReceivesUnder};

use crate::arrival::Arrival;
use crate::header::{HEADER_SIZE, Header, header_of};
use bt_script::{Counted, RunFault};
use std::io::Read;

// Reads up to this many bytes, fewer only at the end of the input, in place of those that were there. Each read asks for a piece. After an error the reader is not
// tried again.
fn read_up_to<R: Read>(
    reader: &mut Counted<R>,
    most: usize,
    piece: &mut [u8],
    bytes: &mut Vec<u8>,
) -> Result<(), RunFault>
    requires { 0 < length piece.old }
    ensures given { OnOk result (GaveUpTo R.remaining reader.old reader.new most bytes.new.items) }
    ensures healthy { OnOk result (has_failed reader.new ≡ has_failed reader.old) }
    ensures read { IsErrOf result RunFault.Read → has_failed reader.new ≡ true }
    ensures memory { IsErrOf result RunFault.OutOfMemory → has_failed reader.new ≡ has_failed reader.old }
    ensures write { IsErrOf result RunFault.Write → ⊥ }
{
    bytes.clear();
    'pieces: while bytes.len() < most {
        let asked = piece.len().min(most - bytes.len());
        match reader.read(&mut piece[..asked]) {
            Ok(0) => return Ok(()),
            Ok(given) => bytes.extend_from_slice(&piece[..given])?,
            Err(_) => return Err(RunFault::Read),
        }
    }
    Ok(())
}

// Reads this many bytes and drops them. Returns whether the input had them all.
fn pass_over<R: Read>(
    reader: &mut Counted<R>,
    count: u64,
    piece: &mut [u8],
) -> Result<bool, RunFault>
    requires { 0 < length piece.old }
    ensures given { IfOk result (λ whole. PassesOver R.remaining reader.old reader.new whole count) }
    ensures healthy { OnOk result (has_failed reader.new ≡ has_failed reader.old) }
    ensures read { IsErrOf result RunFault.Read → has_failed reader.new ≡ true }
    ensures memory { IsErrOf result RunFault.OutOfMemory → ⊥ }
    ensures write { IsErrOf result RunFault.Write → ⊥ }
{
    let mut left = count;
    'pieces: while left > 0 {
        let asked = (piece.len() as u64).min(left) as usize;
        match reader.read(&mut piece[..asked]) {
            Ok(0) => return Ok(false),
            Ok(given) => left -= given as u64,
            Err(_) => return Err(RunFault::Read),
        }
    }
    Ok(true)
}

// Reads what arrives under a header that was read.
fn receive_payload<R: Read>(
    reader: &mut Counted<R>,
    header: Header,
    most: u64,
    piece: &mut [u8],
    payload: &mut Vec<u8>,
) -> Result<Arrival, RunFault>
    requires { 0 < length piece.old }
    ensures arrival { IfOk result (λ arrival. ReceivesUnder R.remaining reader.old reader.new most header.kind header.length arrival payload.new.items) }
    ensures healthy { OnOk result (has_failed reader.new ≡ has_failed reader.old) }
    ensures read { IsErrOf result RunFault.Read → has_failed reader.new ≡ true }
    ensures memory { IsErrOf result RunFault.OutOfMemory → has_failed reader.new ≡ has_failed reader.old }
    ensures write { IsErrOf result RunFault.Write → ⊥ }
{
    payload.clear();
    if header.length > most {
        let is_whole = pass_over(reader, header.length, piece)?;
        return Ok(if is_whole {
            Arrival::TooLong
        } else {
            Arrival::CutOff
        });
    }
    read_up_to(reader, header.length as usize, piece, payload)?;
    if (payload.len() as u64) < header.length {
        payload.clear();
        return Ok(Arrival::CutOff);
    }
    Ok(Arrival::Frame(header.kind))
}

/// Reads what arrives next, and no byte after it, or returns `None` if the input is at its end. The payload of a frame replaces the bytes that were there; after
/// any other result there are none. A payload of more than `most` bytes is passed over. Each read asks for at most a piece, so a payload takes no more memory than
/// what was read of it.
///
/// `Read`: the reader failed; it is not tried again. `OutOfMemory`: an allocation failed.
pub fn receive<R: Read>(
    reader: &mut Counted<R>,
    most: u64,
    piece: &mut [u8],
    payload: &mut Vec<u8>,
) -> Result<Option<Arrival>, RunFault>
    requires { 0 < length piece.old }
    ensures arrival { IfOk result (λ found. IfSome found (λ arrival. Receives R.remaining reader.old reader.new most arrival payload.new.items)) }
    ensures end { IfOk result (λ found. IfNone found (ReceivesNothing R.remaining reader.old reader.new)) }
    ensures healthy { OnOk result (has_failed reader.new ≡ has_failed reader.old) }
    ensures read { IsErrOf result RunFault.Read → has_failed reader.new ≡ true }
    ensures memory { IsErrOf result RunFault.OutOfMemory → has_failed reader.new ≡ has_failed reader.old }
    ensures write { IsErrOf result RunFault.Write → ⊥ }
{
    read_up_to(reader, HEADER_SIZE, piece, payload)?;
    if payload.is_empty() {
        return Ok(None);
    }
    if payload.len() < HEADER_SIZE {
        payload.clear();
        return Ok(Some(Arrival::CutOff));
    }
    let Some(header) = header_of(payload.as_slice()) else {
        payload.clear();
        return Ok(Some(Arrival::NoFrame));
    };
    Ok(Some(receive_payload(reader, header, most, piece, payload)?))
}

/// Whether bytes begin with a whole frame whose payload has at most `most` bytes.
pub fn begins_with_frame(bytes: &[u8], most: u64) -> bool
    ensures { result ≡ frames.begins_with_frame most bytes.now }
{
    if bytes.len() < HEADER_SIZE {
        return false;
    }
    match header_of(&bytes[..HEADER_SIZE]) {
        Some(header) => is_whole(header, most, bytes.len() - HEADER_SIZE),
        None => false,
    }
}

// Whether a payload has at most `most` bytes, and no more than follow its header.
fn is_whole(header: Header, most: u64, given: usize) -> bool
    ensures { result ≡ frames.is_whole most header.length given }
{
    header.length <= most && header.length <= given as u64
}
