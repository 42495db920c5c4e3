//! Replies that are written once the change is on the disk.
ghost use Rattle.std.specs.Prelude.{◌≡◌, ◌<◌, ◌≤◌, ◌++◌, [], ◌∷◌, List, ℕ, false, true, IsErrOf, IsTrue, OnErr, OnOk};
ghost use Rattle.bt_script.specs.Streams.{has_failed, has_unflushed};
ghost use Rattle.bt_frame.specs.Services.{IsNoRequest};
ghost use Rattle.bt_frame.specs.declared.arrival.Arrival.{Arrival as arrival_type};
ghost use Rattle.bt_journal.specs.Stores.{IsKept, disk_of, head_in, is_open, state_in};
ghost use Rattle.bt_durable.specs.Payloads.{after_payload, requests};
ghost use Rattle.bt_durable.specs.Keeping.{HasReplied, HasStopped};

use crate::service_machine::ServiceMachine;
use bt_frame::{Arrival, Service, flush_written, send};
use bt_journal::{Disk, Fault, Store};
use bt_script::{Counted, RunFault, write_text};
use std::alloc::{AllocError, Global};
use std::io::Write;

/// Why serving ended before the input did.
#[derive(Debug, Drop)]
pub enum KeepFault {
    /// A stream failed, or an allocation. The file has all that was answered.
    Stream(RunFault),
    /// Requests were not carried out, or may not be on the disk. Nothing of their replies was written.
    Store(Fault),
}

impl From<RunFault> for KeepFault {
    ghost use Rattle.std.specs.Prelude.{◌≡◌};
    ghost use Rattle.bt_durable.specs.declared.replying.KeepFault.TheVariants.{Stream};

    ghost from_gives = { λ fault e. e ≡ Stream fault };

    fn from(fault: RunFault) -> Self {
        KeepFault::Stream(fault)
    }
}

impl From<Fault> for KeepFault {
    ghost use Rattle.std.specs.Prelude.{◌≡◌};
    ghost use Rattle.bt_durable.specs.declared.replying.KeepFault.TheVariants.{Store};

    ghost from_gives = { λ fault e. e ≡ Store fault };

    fn from(fault: Fault) -> Self {
        KeepFault::Store(fault)
    }
}

impl From<AllocError> for KeepFault {
    ghost use Rattle.std.specs.Prelude.{◌≡◌};
    ghost use Rattle.bt_script.specs.declared.streams.RunFault.TheVariants.{OutOfMemory};
    ghost use Rattle.bt_durable.specs.declared.replying.KeepFault.TheVariants.{Stream};

    ghost from_gives = { λ _ e. e ≡ Stream OutOfMemory };

    fn from(_: AllocError) -> Self {
        KeepFault::Stream(RunFault::OutOfMemory)
    }
}

/// Carries out the requests of a group, and writes their replies once their changes are on the disk.
pub(crate) fn reply_to_group<'a, D: Disk, X, S: Service<X> + Drop, W: Write>(
    alloc: Global,
    store: &mut Store<D, ServiceMachine<'a, X, S>>,
    group: &[u8],
    answer: &mut Vec<u8>,
    output: &mut Counted<W>,
) -> Result<(), KeepFault>
    requires { IsTrue (is_open store.old) }
    ensures replied { OnOk result (HasReplied S.after S.reply S.blank D.moment D.outcome D.outcome_since W.contents store.old store.new output.old output.new (requests group.now)) }
    ensures stopped { OnErr result ((answered : List (arrival_type × List ℕ)) × (pending : List (arrival_type × List ℕ)) × (answered ++ pending ≡ requests group.now)
        × HasStopped S.after S.reply S.blank D.moment D.outcome D.outcome_since W.contents store.old store.new output.old output.new answered pending) }
    ensures flushed { OnOk result (has_unflushed output.new ≡ false) }
    ensures write { IsErrOf result (KeepFault.Stream RunFault.Write) → has_failed output.new ≡ true }
    ensures disk { IsErrOf result (KeepFault.Store Fault.Failed) → D.fault_count (disk_of store.old) < D.fault_count (disk_of store.new) }
    ensures counted { D.fault_count (disk_of store.old) ≤ D.fault_count (disk_of store.new) }
{
    store.standing();
    store.run(alloc, group, answer)?;
    write_text(output, answer.as_slice())?;
    flush_written(output)?;
    Ok(())
}

/// Writes the reply to what arrived and is no request.
pub(crate) fn reply_to_other<'a, D: Disk, X, S: Service<X> + Drop, W: Write>(
    alloc: Global,
    store: &Store<D, ServiceMachine<'a, X, S>>,
    arrival: Arrival,
    output: &mut Counted<W>,
) -> Result<(), KeepFault>
    requires opened { IsTrue (is_open store.now) }
    requires refused { IsNoRequest arrival }
    ensures replied { (payload : List ℕ) → OnOk result (HasReplied S.after S.reply S.blank D.moment D.outcome D.outcome_since W.contents store.now store.now output.old output.new
        ((arrival, payload) ∷ [])) }
    ensures stopped { (payload : List ℕ) → OnErr result (HasStopped S.after S.reply S.blank D.moment D.outcome D.outcome_since W.contents store.now store.now output.old output.new
        ((arrival, payload) ∷ []) []) }
    ensures flushed { OnOk result (has_unflushed output.new ≡ false) }
    ensures write { IsErrOf result (KeepFault.Stream RunFault.Write) → has_failed output.new ≡ true }
    ensures disk { IsErrOf result (KeepFault.Store Fault.Failed) → ⊥ }
{
    store.standing();
    let reply = store.machine().refuse(arrival, Vec::new(alloc))?;
    send(output, reply.kind, reply.payload.as_slice())?;
    Ok(())
}
