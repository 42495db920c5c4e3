//! The steps of a store on its journal and its machine.
ghost use Rattle.std.specs.Prelude.{◌≡◌, ◌++◌, if◌then◌else◌, IsTrue, false, true, ◌<◌, ◌≤◌, List, ℕ, [], ◌∷◌, length, IfErr, IfOk, IsErrOf, OnOk};
ghost use Rattle.bt_journal.specs.Disks.{Only, LeavesOnly};
ghost use Rattle.bt_journal.specs.Heads.{IsAlike};
ghost use Rattle.bt_journal.specs.Files.{recovered, is_refusal, IsCause};
ghost use Rattle.bt_journal.specs.Stores.{state_of, Finds, IsKept, IsConsistent, IsReplayed, IsBeforeOrAfterCheckpoint, IsBeforeOrAfterRun};

use crate::disk::Disk;
use crate::fault::Fault;
use crate::journal::Journal;
use crate::machine::{Compact, Machine};
use crate::opening::open;
use crate::replay::Replay;
use std::alloc::Global;

/// Opens a file that was read to its end, and whose payloads have run.
pub(crate) fn open_state<D: Disk, M: Machine>(
    alloc: Global,
    disk: D,
    replay: Replay<M>,
) -> Result<(Journal<D>, M), (Fault, D)>
    requires read { IsReplayed M.after M.blank (D.contents disk) replay }
    requires durable { Only (D.contents disk) (D.outcome disk) }
    requires healthy { IsTrue (D.is_healthy disk) }
    ensures consistent { IfOk result (λ opened. IsConsistent D.contents D.outcome D.is_healthy M.after M.blank opened.0 opened.1) }
    ensures alike { IfOk result (λ opened. IsAlike replay.head opened.0.head) }
    ensures untaken { IfOk result (λ opened. D.take_count opened.0.disk ≡ D.take_count disk) }
    ensures original { IfOk result (λ opened. D.original opened.0.disk ≡ D.original disk) }
    ensures original_err { IfErr result (λ e. D.original e.1 ≡ D.original disk) }
    ensures state { IfOk result (λ opened. opened.1 ≡ state_of M.after M.blank (D.contents disk)) }
    ensures kept { IfOk result (λ opened. IsKept D.contents D.outcome M.after M.blank opened.0.head opened.0.disk opened.1) }
    ensures sound { IfOk result (λ _. Finds M.after M.blank replay.head (state_of M.after M.blank (D.contents disk)) (D.contents disk)) }
    ensures any_moment { IfOk result (λ opened. LeavesOnly D.moment D.outcome_since disk opened.0.disk
        (Finds M.after M.blank replay.head (state_of M.after M.blank (D.contents disk)))) }
    ensures any_moment_err { IfErr result (λ e. is_refusal e.0 ≡ false → LeavesOnly D.moment D.outcome_since disk e.1
        (Finds M.after M.blank replay.head (state_of M.after M.blank (D.contents disk)))) }
    ensures cause { IfErr result (λ e. IsCause replay.head (D.contents disk) e.0) }
    ensures failed { IfErr result (λ e. e.0 ≡ Fault.Failed → D.fault_count disk < D.fault_count e.1) }
    ensures unchanged { IfErr result (λ e. is_refusal e.0 ≡ true → e.1 ≡ disk) }
{
    match open(alloc, disk, &replay) {
        Ok(journal) => Ok((journal, replay.machine)),
        Err(refused) => Err(refused),
    }
}

/// Runs a payload, and adds it to the journal if it may have changed the state.
pub(crate) fn run_payload<D: Disk, M: Machine>(
    alloc: Global,
    journal: &mut Journal<D>,
    machine: &mut M,
    payload: &[u8],
    answer: &mut Vec<u8>,
) -> Result<(), Fault>
    requires { IsConsistent D.contents D.outcome D.is_healthy M.after M.blank journal.old machine.old }
    ensures consistent { OnOk result (IsConsistent D.contents D.outcome D.is_healthy M.after M.blank journal.new machine.new) }
    ensures acknowledged { OnOk result (machine.new ≡ M.after machine.old payload.now) }
    ensures answer { OnOk result (answer.new.items ≡ M.answer_to machine.old payload.now) }
    ensures kept { OnOk result (IsKept D.contents D.outcome M.after M.blank journal.new.head journal.new.disk machine.new) }
    ensures logged { OnOk result (recovered (D.contents journal.new.disk)
        ≡ recovered (D.contents journal.old.disk) ++ (if M.changes machine.old payload.now then payload.now ∷ [] else [])) }
    ensures head { journal.new.head ≡ journal.old.head }
    ensures untaken { D.take_count journal.new.disk ≡ D.take_count journal.old.disk }
    ensures any_moment { LeavesOnly D.moment D.outcome_since journal.old.disk journal.new.disk
        (IsBeforeOrAfterRun M.after M.blank journal.old.head (D.contents journal.old.disk) payload.now) }
    ensures failed { IsErrOf result Fault.Failed → D.fault_count journal.old.disk < D.fault_count journal.new.disk }
    ensures counted { D.fault_count journal.old.disk ≤ D.fault_count journal.new.disk }
    ensures no_other { IsErrOf result Fault.Closed → ⊥ }
{
    let is_changed = machine.run(payload, answer)?;
    if !is_changed {
        return Ok(());
    }
    journal.append(alloc, payload)?;
    Ok(())
}

/// Compacts the state, and replaces the payloads by one that leads to it. Returns whether it did: the state may be one that cannot be compacted.
pub(crate) fn compact<D: Disk, M: Compact>(
    alloc: Global,
    journal: &mut Journal<D>,
    machine: &mut M,
) -> Result<bool, Fault>
    requires { IsConsistent D.contents D.outcome D.is_healthy M.after M.blank journal.old machine.old }
    ensures consistent { OnOk result (IsConsistent D.contents D.outcome D.is_healthy M.after M.blank journal.new machine.new) }
    ensures compacted { IfOk result (λ is_done. is_done ≡ true → M.is_compacted machine.old machine.new) }
    ensures unchanged { IfOk result (λ is_done. is_done ≡ false → (journal.new ≡ journal.old) × (machine.new ≡ machine.old)) }
    ensures kept { OnOk result (IsKept D.contents D.outcome M.after M.blank journal.new.head journal.new.disk machine.new) }
    ensures head { IsAlike journal.old.head journal.new.head }
    ensures untaken { D.take_count journal.new.disk ≡ D.take_count journal.old.disk }
    ensures any_moment { LeavesOnly D.moment D.outcome_since journal.old.disk journal.new.disk
        (IsBeforeOrAfterCheckpoint M.after M.is_compacted M.blank journal.old.head machine.old) }
    ensures failed { IsErrOf result Fault.Failed → D.fault_count journal.old.disk < D.fault_count journal.new.disk }
    ensures counted { D.fault_count journal.old.disk ≤ D.fault_count journal.new.disk }
    ensures no_other { IsErrOf result Fault.Closed → ⊥ }
{
    let Some(payload) = machine.compact(alloc) else {
        return Ok(false);
    };
    journal.restart(alloc, &payload)?;
    Ok(true)
}
