//! Serving requests whose changes are kept.
ghost use Rattle.std.specs.Prelude.{◌≡◌, ◌<◌, ◌≤◌, ◌++◌, [], List, Option, ℕ, false, true, IfOk, IsErrOf, IsTrue, OnErr, OnOk, length};
ghost use Rattle.bt_script.specs.Streams.{has_failed, has_unflushed};
ghost use Rattle.bt_frame.specs.Services.{IsLast};
ghost use Rattle.bt_frame.specs.declared.arrival.Arrival.{Arrival as arrival_type};
ghost use Rattle.bt_journal.specs.Stores.{IsKept, disk_of, head_in, is_open, state_in};
ghost use Rattle.bt_durable.specs.Compacting.{HasEnded, HasServed};
ghost use Rattle.bt_durable.specs.Inputs.{AreAll, AreFirst, Continue, IsAfterGroup, ReadsEnding};
ghost use Rattle.bt_durable.specs.Once.{is_compacted_once, once_after, once_reply};
ghost use Rattle.bt_durable.specs.Payloads.{after_payload};
ghost use Rattle.bt_durable.specs.Keeping.{HasReplied, HasStopped};

use crate::groups::{Ahead, Ending, Room, receive_group};
use crate::once::OnceService;
use crate::replying::{KeepFault, reply_to_group, reply_to_other};
use crate::service_machine::ServiceMachine;
use bt_frame::{Arrival, CompactService, Service};
use bt_journal::{Disk, Fault, Store};
use bt_script::{Counted, RunFault};
use std::alloc::{AllocError, Global};
use std::io::Write;

// Whether frames can be found after what arrived.
fn is_last(arrival: Arrival) -> bool
    ensures last { result ≡ true → IsLast arrival }
    ensures more { result ≡ false → IsLast arrival → ⊥ }
{
    match arrival {
        Arrival::Frame(_) | Arrival::TooLong => false,
        Arrival::NoFrame | Arrival::CutOff => true,
    }
}

// Replies to what follows a group. Returns whether more may arrive after it.
fn reply_to_ending<'a, D: Disk, X, S: Service<X> + Drop, W: Write>(
    alloc: Global,
    store: &Store<D, ServiceMachine<'a, X, S>>,
    ending: Ending,
    output: &mut Counted<W>,
) -> Result<bool, KeepFault>
    requires opened { IsTrue (is_open store.now) }
    requires refused { IsAfterGroup ending }
    requires flushed { has_unflushed output.old ≡ false }
    ensures replied { IfOk result (λ more. (most : ℕ) (known : Option (List ℕ)) (left : Option (List ℕ)) → ReadsEnding most known left ending → (arrived : List (arrival_type × List ℕ))
        × Continue more most known left arrived
        × HasReplied S.after S.reply S.blank D.moment D.outcome D.outcome_since W.contents store.now store.now output.old output.new arrived) }
    ensures stopped { OnErr result ((most : ℕ) (known : Option (List ℕ)) (left : Option (List ℕ)) → ReadsEnding most known left ending → (answered : List (arrival_type × List ℕ))
        × AreFirst most known answered
        × HasStopped S.after S.reply S.blank D.moment D.outcome D.outcome_since W.contents store.now store.now output.old output.new answered []) }
    ensures flushed { OnOk result (has_unflushed output.new ≡ false) }
    ensures write { IsErrOf result (KeepFault.Stream RunFault.Write) → has_failed output.new ≡ true }
    ensures disk { IsErrOf result (KeepFault.Store Fault.Failed) → ⊥ }
{
    store.standing();
    match ending {
        Ending::More => Ok(true),
        Ending::End => Ok(false),
        Ending::Other(arrival) => {
            reply_to_other(alloc, store, arrival, output)?;
            Ok(!is_last(arrival))
        }
    }
}

// Reads a group, carries it out, and writes its replies, and the reply to what follows it and is no request. Returns whether more may arrive.
fn serve_group<'a, I: Ahead + Drop, D: Disk, X, S: Service<X> + Drop, W: Write>(
    alloc: Global,
    store: &mut Store<D, ServiceMachine<'a, X, S>>,
    most: u64,
    room: &mut Room,
    answer: &mut Vec<u8>,
    input: I,
    output: &mut Counted<W>,
) -> Result<(I, bool), KeepFault>
    requires opened { IsTrue (is_open store.old) }
    requires piece { 0 < length room.old.piece.items }
    ensures replied { IfOk result (λ served. (arrived : List (arrival_type × List ℕ)) × Continue served.1 most (I.remaining input) (I.remaining served.0) arrived
        × HasReplied S.after S.reply S.blank D.moment D.outcome D.outcome_since W.contents store.old store.new output.old output.new arrived) }
    ensures stopped { OnErr result ((answered : List (arrival_type × List ℕ)) × (pending : List (arrival_type × List ℕ)) × AreFirst most (I.remaining input) (answered ++ pending)
        × HasStopped S.after S.reply S.blank D.moment D.outcome D.outcome_since W.contents store.old store.new output.old output.new answered pending) }
    ensures piece { 0 < length room.new.piece.items }
    ensures flushed { OnOk result (has_unflushed output.new ≡ false) }
    ensures write { IsErrOf result (KeepFault.Stream RunFault.Write) → has_failed output.new ≡ true }
    ensures disk { IsErrOf result (KeepFault.Store Fault.Failed) → D.fault_count (disk_of store.old) < D.fault_count (disk_of store.new) }
    ensures counted { D.fault_count (disk_of store.old) ≤ D.fault_count (disk_of store.new) }
{
    store.standing();
    let (rest, ending) = receive_group(input, most, room)?;
    reply_to_group(alloc, store, room.group.as_slice(), answer, output)?;
    let more = reply_to_ending(alloc, store, ending, output)?;
    Ok((rest, more))
}

// Serves what arrives, until the input ends, no next frame can be found, or a checkpoint is due. Returns the input, and whether more may arrive.
fn serve_until<'a, I: Ahead + Drop, D: Disk, X, S: Service<X> + Drop, W: Write>(
    alloc: Global,
    store: &mut Store<D, ServiceMachine<'a, X, S>>,
    most: u64,
    input: I,
    output: &mut Counted<W>,
) -> Result<(I, bool), KeepFault>
    requires opened { IsTrue (is_open store.old) }
    requires flushed { has_unflushed output.old ≡ false }

    // All that arrived has its reply, and its changes are on the disk.
    ensures replied { IfOk result (λ served. (arrived : List (arrival_type × List ℕ)) × Continue served.1 most (I.remaining input) (I.remaining served.0) arrived
        × HasReplied S.after S.reply S.blank D.moment D.outcome D.outcome_since W.contents store.old store.new output.old output.new arrived) }
    ensures kept { OnOk result (IsKept D.contents D.outcome (after_payload S.after S.reply) S.blank (head_in store.new) (disk_of store.new) (state_in store.new)) }
    ensures flushed { OnOk result (has_unflushed output.new ≡ false) }

    // After a fault, the changes of all that has a byte of its reply are.
    ensures stopped { OnErr result ((answered : List (arrival_type × List ℕ)) × (pending : List (arrival_type × List ℕ)) × AreFirst most (I.remaining input) (answered ++ pending)
        × HasStopped S.after S.reply S.blank D.moment D.outcome D.outcome_since W.contents store.old store.new output.old output.new answered pending) }
    ensures write { IsErrOf result (KeepFault.Stream RunFault.Write) → has_failed output.new ≡ true }
    ensures disk { IsErrOf result (KeepFault.Store Fault.Failed) → D.fault_count (disk_of store.old) < D.fault_count (disk_of store.new) }
    ensures counted { D.fault_count (disk_of store.old) ≤ D.fault_count (disk_of store.new) }
{
    store.standing();
    let mut room = Room::new(alloc)?;
    let mut answer = Vec::new(alloc);
    let mut source = input;
    'groups: for _ in 0..u64::MAX {
        let (rest, more) = serve_group(alloc, store, most, &mut room, &mut answer, source, output)?;
        source = rest;
        if !more {
            store.standing();
            return Ok((source, false));
        }
        if store.is_checkpoint_due() {
            store.standing();
            return Ok((source, true));
        }
    }
    store.standing();
    Ok((source, true))
}

/// Serves what arrives, until the input ends or no next frame can be found. It reads the requests that it can read without waiting, carries them out, and writes
/// their replies once what they change is on the disk. A payload of more than `most` bytes is passed over. When a checkpoint of the store is due, the
/// compacted state takes the place of the requests in its file.
///
/// The replies are those of the definition `answers` for what arrives of the bytes that the input had, from the state of the store and from those that it was
/// compacted to. `Stream`: a stream or an allocation failed, or 2^64 - 1 checkpoints were made. `Store`: a call of the store failed.
pub fn serve_and_keep<'a, I: Ahead + Drop, D: Disk, X, S: CompactService<X> + Drop, W: Write>(
    alloc: Global,
    store: &mut Store<D, ServiceMachine<'a, X, OnceService<S>>>,
    most: u64,
    input: I,
    output: &mut Counted<W>,
) -> Result<(), KeepFault>
    requires opened { IsTrue (is_open store.old) }
    requires flushed { has_unflushed output.old ≡ false }

    // All that arrives has its reply, and its changes are on the disk.
    ensures replied { OnOk result ((arrived : List (arrival_type × List ℕ)) × AreAll most (I.remaining input) arrived
        × HasServed (once_after S.after S.reply S.changes) (once_reply S.after S.reply S.changes) (S.blank, []) (is_compacted_once S.is_compacted)
        D.moment D.outcome D.outcome_since W.contents store.old store.new output.old output.new arrived) }
    ensures kept { OnOk result (IsKept D.contents D.outcome (after_payload (once_after S.after S.reply S.changes) (once_reply S.after S.reply S.changes)) (S.blank, [])
        (head_in store.new) (disk_of store.new) (state_in store.new)) }
    ensures flushed { OnOk result (has_unflushed output.new ≡ false) }

    // After a fault, the changes of all that has a byte of its reply are.
    ensures stopped { OnErr result ((answered : List (arrival_type × List ℕ)) × (pending : List (arrival_type × List ℕ)) × AreFirst most (I.remaining input) (answered ++ pending)
        × HasEnded (once_after S.after S.reply S.changes) (once_reply S.after S.reply S.changes) (S.blank, []) (is_compacted_once S.is_compacted)
        D.moment D.outcome D.outcome_since W.contents store.old store.new output.old output.new answered pending) }
    ensures write { IsErrOf result (KeepFault.Stream RunFault.Write) → has_failed output.new ≡ true }
    ensures disk { IsErrOf result (KeepFault.Store Fault.Failed) → D.fault_count (disk_of store.old) < D.fault_count (disk_of store.new) }
    ensures counted { D.fault_count (disk_of store.old) ≤ D.fault_count (disk_of store.new) }
{
    store.standing();
    let mut source = input;
    'runs: for _ in 0..u64::MAX {
        let (rest, more) = serve_until(alloc, store, most, source, output)?;
        source = rest;
        if !more {
            return Ok(());
        }
        store.checkpoint(alloc)?;
    }
    store.standing();
    Err(KeepFault::Stream(RunFault::Read))
}
