//! Payloads that are kept together.
ghost use Rattle.std.specs.Prelude.{◌≡◌, ◌⊎◌, IsTrue, false, true, ◌<◌, ◌≤◌, ◌^◌, IfErr, IfOk, IsErrOf, OnOk, length};
ghost use Rattle.bt_journal.specs.Disks.{LeavesOnly};
ghost use Rattle.bt_journal.specs.Stores.{GroupValue, ahead, disk_of, group_disk, group_head, group_state, head_in, is_group_open, is_open, state_in, state_of};
ghost use Rattle.bt_journal.specs.Stores.{IsBeforeOrAfterRun, IsConsistent, IsJoined, IsKept};

use crate::disk::Disk;
use crate::fault::Fault;
use crate::journal::Journal;
use crate::machine::Join;
use crate::store::Store;
use std::alloc::{AllocError, Global};
use std::marker::Model;

/// Payloads that are kept together, or none of them.
///
/// They run one after the other, and nothing is written until [`Group::commit`]. A group that is dropped, or after a call that failed, is lost: open the file again.
#[derive(Drop)]
pub struct Group<D: Disk, M: Join> {
    pub(crate) journal: Journal<D>,
    pub(crate) machine: M,
    /// The parts that have run, as one.
    pub(crate) ahead: Vec<u8>,
    pub(crate) is_open: bool,
    /// How many bytes the file has when the next checkpoint is due.
    pub(crate) due_size: usize,
}

impl<D: Disk, M: Join> Model for Group<D, M> {
    ghost Value = { GroupValue D M };

    ghost view = { λ g. (g.journal.disk, g.machine, g.journal.head, g.is_open, g.ahead.items) };

    ghost invariant = { λ g. IsTrue g.is_open → IsJoined D.contents D.outcome D.is_healthy M.after M.blank M.is_part g.journal g.machine g.ahead.items };
}

// Runs a payload, and adds it to the parts that have run if it may have changed the state. Returns whether it did: there may be no part that does the same.
fn run_part<M: Join>(
    alloc: Global,
    machine: &mut M,
    ahead: &mut Vec<u8>,
    payload: &[u8],
    answer: &mut Vec<u8>,
) -> Result<bool, AllocError>
    requires part { M.is_part ahead.old.items }
    ensures after { IfOk result (λ is_done. is_done ≡ true → machine.new ≡ M.after machine.old payload.now) }
    ensures answer { IfOk result (λ is_done. is_done ≡ true → answer.new.items ≡ M.answer_to machine.old payload.now) }
    ensures part { OnOk result (M.is_part ahead.new.items) }
    ensures joined { (state : M) → machine.old ≡ M.after state ahead.old.items → OnOk result (machine.new ≡ M.after state ahead.new.items) }
    ensures unchanged { IfOk result (λ is_done. is_done ≡ false → (machine.new ≡ machine.old) × (ahead.new ≡ ahead.old) × (M.can_join payload.now ≡ false)) }
{
    let Some(part) = machine.part_of(alloc, payload)? else {
        return Ok(false);
    };
    if machine.run(payload, answer)? {
        ahead.extend_from_slice(&part)?;
    }
    Ok(true)
}

// Adds the parts that have run to the journal, if there are any.
fn append_parts<D: Disk, M: Join>(
    alloc: Global,
    journal: &mut Journal<D>,
    machine: &M,
    ahead: &[u8],
) -> Result<(), Fault>
    requires { IsJoined D.contents D.outcome D.is_healthy M.after M.blank M.is_part journal.old machine.now ahead.now }
    ensures consistent { OnOk result (IsConsistent D.contents D.outcome D.is_healthy M.after M.blank journal.new machine.now) }
    ensures kept { OnOk result (IsKept D.contents D.outcome M.after M.blank journal.new.head journal.new.disk machine.now) }
    ensures head { journal.new.head ≡ journal.old.head }
    ensures untaken { D.take_count journal.new.disk ≡ D.take_count journal.old.disk }
    ensures any_moment { LeavesOnly D.moment D.outcome_since journal.old.disk journal.new.disk
        (IsBeforeOrAfterRun M.after M.blank journal.old.head (D.contents journal.old.disk) ahead.now) }
    ensures failed { IsErrOf result Fault.Failed → D.fault_count journal.old.disk < D.fault_count journal.new.disk }
    ensures too_long { IsErrOf result Fault.TooLong → (2 ^ 62 ≤ journal.old.end) ⊎ (2 ^ 62 ≤ length ahead.now) }
    ensures no_other { IsErrOf result Fault.Closed → ⊥ }
{
    if ahead.is_empty() {
        return Ok(());
    }
    journal.append(alloc, ahead)?;
    Ok(())
}

impl<D: Disk, M: Join> Group<D, M> {
    /// Runs a payload, and replaces the bytes of `answer` by its answer, which is to be acknowledged once the group is kept. Returns whether it did: `false` if the
    /// payload cannot be part of a group, and then nothing has changed. At `Err` the group is lost.
    pub fn run(
        &mut self,
        alloc: Global,
        payload: &[u8],
        answer: &mut Vec<u8>,
    ) -> Result<bool, Fault>
        ensures open { OnOk result (IsTrue (is_group_open self.old) × IsTrue (is_group_open self.new)) }
        ensures after { IfOk result (λ is_done. is_done ≡ true → group_state self.new ≡ M.after (group_state self.old) payload.now) }
        ensures answer { IfOk result (λ is_done. is_done ≡ true → answer.new.items ≡ M.answer_to (group_state self.old) payload.now) }
        ensures refused { IfOk result (λ is_done. is_done ≡ false → (group_state self.new ≡ group_state self.old) × (M.can_join payload.now ≡ false)) }

        // The file is as it was.
        ensures disk { group_disk self.new ≡ group_disk self.old }
        ensures head { group_head self.new ≡ group_head self.old }

        ensures was_closed { IsErrOf result Fault.Closed → is_group_open self.old ≡ false }
        ensures no_call { IsErrOf result Fault.Failed → ⊥ }
    {
        if !self.is_open {
            return Err(Fault::Closed);
        }
        self.is_open = false;
        let is_done = run_part(alloc, &mut self.machine, &mut self.ahead, payload, answer)?;
        self.is_open = true;
        Ok(is_done)
    }

    /// The machine. Its state is that of the file once the group is kept.
    pub fn machine(&self) -> &M
        ensures { result.now ≡ group_state self.now }
    {
        &self.machine
    }

    /// Keeps the payloads as one. At `Ok` all of them are acknowledged: from then on each crash leaves a file that has them. An `Err` returns the file: open it
    /// again.
    pub fn commit(self, alloc: Global) -> Result<Store<D, M>, (Fault, D)>
        ensures open { IfOk result (λ store. IsTrue (is_group_open self) × IsTrue (is_open store)) }
        ensures acknowledged { IfOk result (λ store. state_in store ≡ group_state self) }
        ensures kept { IfOk result (λ store. IsKept D.contents D.outcome M.after M.blank (head_in store) (disk_of store) (state_in store)) }
        ensures head { IfOk result (λ store. head_in store ≡ group_head self) }
        ensures untaken { IfOk result (λ store. D.take_count (disk_of store) ≡ D.take_count (group_disk self)) }

        // The state of the group is that of the file after the parts that have run.
        ensures joined { IsTrue (is_group_open self) → group_state self ≡ M.after (state_of M.after M.blank (D.contents (group_disk self))) (ahead self) }

        // A crash at any moment of the call leaves a file in which `open` finds the state before the group or after it, unless there is a forgery.
        ensures any_moment { IfOk result (λ store. LeavesOnly D.moment D.outcome_since (group_disk self) (disk_of store)
            (IsBeforeOrAfterRun M.after M.blank (group_head self) (D.contents (group_disk self)) (ahead self))) }
        ensures any_moment_err { IfErr result (λ e. IsTrue (is_group_open self) → LeavesOnly D.moment D.outcome_since (group_disk self) e.1
            (IsBeforeOrAfterRun M.after M.blank (group_head self) (D.contents (group_disk self)) (ahead self))) }

        // An error has a cause.
        ensures failed { IfErr result (λ e. e.0 ≡ Fault.Failed → D.fault_count (group_disk self) < D.fault_count e.1) }
        ensures was_closed { IfErr result (λ e. e.0 ≡ Fault.Closed → (is_group_open self ≡ false) × (e.1 ≡ group_disk self)) }
    {
        let Group {
            mut journal,
            machine,
            ahead,
            is_open,
            due_size,
        } = self;
        if !is_open {
            return Err((Fault::Closed, journal.disk));
        }
        match append_parts(alloc, &mut journal, &machine, &ahead) {
            Ok(()) => Ok(Store {
                journal,
                machine,
                is_open: true,
                due_size,
            }),
            Err(fault) => Err((fault, journal.disk)),
        }
    }
}
