//! Replies to requests.
ghost use Rattle.std.specs.Prelude.{◌≡◌, ◌≢◌, false, IfOk, OnOk};
ghost use Rattle.bt_engine.specs.Exchanges as exchanges;

use bt_frame::{Reply, number_bytes};
use bt_packed::Fault;
use bt_value::Refusal;
use std::alloc::AllocError;

/// Whether a request was carried out. Its number is the kind of the reply's frame.
#[derive(Clone, Copy, Debug, Drop, PartialEq, Eq)]
pub enum ReplyStatus {
    /// It was carried out. A script was, also if it has commands that were refused.
    Done,
    /// It was refused, and changed nothing.
    Refused,
    /// What arrived is no request.
    Invalid,
}

impl ReplyStatus {
    /// The kind of the reply's frame.
    pub fn number(self) -> u8
        ensures { result ≡ exchanges.status_number self }
    {
        match self {
            ReplyStatus::Done => 0,
            ReplyStatus::Refused => 1,
            ReplyStatus::Invalid => 2,
        }
    }
}

/// A request was carried out that changed nothing.
pub(crate) fn done(payload: Vec<u8>) -> Reply
    ensures reply { (result.kind, result.payload.items) ≡ exchanges.done payload.items }
    ensures change { result.is_change ≡ false }
{
    carried_out(payload, false)
}

/// A request was carried out, and may have changed the table or not.
pub(crate) fn carried_out(payload: Vec<u8>, is_change: bool) -> Reply
    ensures reply { (result.kind, result.payload.items) ≡ exchanges.done payload.items }
    ensures change { result.is_change ≡ is_change }
{
    Reply {
        kind: ReplyStatus::Done.number(),
        payload,
        is_change,
    }
}

// It was refused. The reply is written into the memory of some bytes.
fn refused(fault: Fault, room: Vec<u8>) -> Result<Reply, AllocError>
    ensures reply { IfOk result (λ reply. (reply.kind, reply.payload.items) ≡ exchanges.refused fault) }
    ensures change { IfOk result (λ reply. reply.is_change ≡ false) }
{
    let mut payload = room;
    payload.clear();
    payload.extend_from_slice(&number_bytes(fault.refusal.number() as u64))?;
    payload.extend_from_slice(&number_bytes(fault.item))?;
    payload.extend_from_slice(&number_bytes(fault.column))?;
    Ok(Reply {
        kind: ReplyStatus::Refused.number(),
        payload,
        is_change: false,
    })
}

/// The reply to a fault that is not that memory ran out.
pub(crate) fn fault_reply(fault: Fault, room: Vec<u8>) -> Result<Reply, AllocError>
    ensures reply { IfOk result (λ reply. (reply.kind, reply.payload.items) ≡ exchanges.refused fault) }
    ensures change { IfOk result (λ reply. reply.is_change ≡ false) }
    ensures memory { OnOk result (fault.refusal ≢ Refusal.OutOfMemory) }
{
    match fault.refusal {
        Refusal::OutOfMemory => Err(AllocError),
        _ => refused(fault, room),
    }
}

/// What arrived is no request, for the reason of this name.
pub(crate) fn invalid(name: &str, room: Vec<u8>) -> Result<Reply, AllocError>
    ensures reply { IfOk result (λ reply. (reply.kind, reply.payload.items) ≡ exchanges.invalid name.now) }
    ensures change { IfOk result (λ reply. reply.is_change ≡ false) }
{
    let mut payload = room;
    payload.clear();
    payload.extend_from_slice(name.as_bytes())?;
    Ok(Reply {
        kind: ReplyStatus::Invalid.number(),
        payload,
        is_change: false,
    })
}
