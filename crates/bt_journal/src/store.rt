//! A machine whose state a crash does not lose: each payload that changes it is in a file before it is acknowledged.
ghost use Rattle.std.specs.Prelude.{◌≡◌, ◌⊎◌, ◌++◌, if◌then◌else◌, IsTrue, Bool, false, true, ◌<◌, ◌≤◌, ◌^◌, List, ℕ, [], ◌∷◌, length, IfErr, IfOk, IsErrOf, OnOk};
ghost use Rattle.bt_journal.specs.Disks.{Only, LeavesOnly};
ghost use Rattle.bt_journal.specs.Heads.{IsAlike};
ghost use Rattle.bt_journal.specs.Files.{recovered, is_refusal, IsCause};
ghost use Rattle.bt_journal.specs.Stores.{ahead, group_disk, group_head, group_state, is_group_open};
ghost use Rattle.bt_journal.specs.Stores.{StoreValue, disk_of, state_in, head_in, is_open, state_of, Finds, IsKept, IsConsistent, IsReplayed, IsBeforeOrAfterCheckpoint, IsBeforeOrAfterRun};

use crate::disk::{Disk, HostCall, HostDisk, ReadDisk};
use crate::fault::Fault;
use crate::group::Group;
use crate::head::Head;
use crate::journal::Journal;
use crate::machine::{Compact, Join, Machine};
use crate::reading::read_all;
use crate::replay::Replay;
use crate::steps::{compact, open_state, run_payload};
use std::alloc::Global;
use std::marker::Model;

// A checkpoint is due once the file has this many bytes, and twice as many as after the last one.
const SMALLEST_SIZE: usize = 16_777_216;

// How many bytes a file has when the next checkpoint is due, if the last one left this many.
fn size_when_due(size: usize) -> usize {
    size.saturating_mul(2).max(SMALLEST_SIZE)
}

/// A machine, and the journal of the payloads that changed it.
///
/// After a call that failed, the store is closed: nothing is known of its machine, and the file may have
/// the payload or not. Open the file again.
#[derive(Drop)]
pub struct Store<D: Disk, M: Machine> {
    pub(crate) journal: Journal<D>,
    pub(crate) machine: M,
    pub(crate) is_open: bool,
    /// How many bytes the file has when the next checkpoint is due.
    pub(crate) due_size: usize,
}

impl<D: Disk, M: Machine> Model for Store<D, M> {
    ghost Value = { StoreValue D M };

    ghost view = { λ s. (s.journal.disk, s.machine, s.journal.head, s.is_open) };

    ghost invariant = { λ s. IsTrue s.is_open → IsConsistent D.contents D.outcome D.is_healthy M.after M.blank s.journal s.machine };
}

// The store of a file that was read to its end.
pub(crate) fn store_of<D: Disk, M: Machine>(
    alloc: Global,
    disk: D,
    replay: Replay<M>,
) -> Result<Store<D, M>, (Fault, D)>
    requires read { IsReplayed M.after M.blank (D.contents disk) replay }
    requires durable { Only (D.contents disk) (D.outcome disk) }
    requires healthy { IsTrue (D.is_healthy disk) }
    ensures open { IfOk result (λ store. IsTrue (is_open store)) }
    ensures head { IfOk result (λ store. IsAlike replay.head (head_in store)) }
    ensures untaken { IfOk result (λ store. D.take_count (disk_of store) ≡ D.take_count disk) }
    ensures original { IfOk result (λ store. D.original (disk_of store) ≡ D.original disk) }
    ensures original_err { IfErr result (λ e. D.original e.1 ≡ D.original disk) }
    ensures state { IfOk result (λ store. state_in store ≡ state_of M.after M.blank (D.contents disk)) }
    ensures kept { IfOk result (λ store. IsKept D.contents D.outcome M.after M.blank (head_in store) (disk_of store) (state_in store)) }
    ensures sound { IfOk result (λ _. Finds M.after M.blank replay.head (state_of M.after M.blank (D.contents disk)) (D.contents disk)) }
    ensures any_moment { IfOk result (λ store. LeavesOnly D.moment D.outcome_since disk (disk_of store)
        (Finds M.after M.blank replay.head (state_of M.after M.blank (D.contents disk)))) }
    ensures any_moment_err { IfErr result (λ e. is_refusal e.0 ≡ false → LeavesOnly D.moment D.outcome_since disk e.1
        (Finds M.after M.blank replay.head (state_of M.after M.blank (D.contents disk)))) }
    ensures cause { IfErr result (λ e. IsCause replay.head (D.contents disk) e.0) }
    ensures failed { IfErr result (λ e. e.0 ≡ Fault.Failed → D.fault_count disk < D.fault_count e.1) }
    ensures unchanged { IfErr result (λ e. is_refusal e.0 ≡ true → e.1 ≡ disk) }
{
    let due_size = size_when_due(replay.first_end);
    let (journal, machine) = open_state(alloc, disk, replay)?;
    Ok(Store {
        journal,
        machine,
        is_open: true,
        due_size,
    })
}

impl<D: ReadDisk, M: Machine> Store<D, M> {
    /// Opens a file that a crash may have left: reads it, and runs its payloads. It may crash too, at any moment; then the file stands for the same state. An empty
    /// file gets the head. An `Err` returns the file.
    pub fn open(alloc: Global, disk: D, head: Head, machine: M) -> Result<Store<D, M>, (Fault, D)>
        requires unread { D.original disk ≡ [] }
        requires healthy { IsTrue (D.is_healthy disk) }
        requires blank { machine ≡ M.blank }

        ensures open { IfOk result (λ store. IsTrue (is_open store)) }
        ensures head { IfOk result (λ store. IsAlike head (head_in store)) }
        ensures untaken { IfOk result (λ store. D.take_count (disk_of store) ≡ D.take_count disk) }
        ensures state { IfOk result (λ store. state_in store ≡ state_of M.after M.blank (D.original (disk_of store))) }
        ensures kept { IfOk result (λ store. IsKept D.contents D.outcome M.after M.blank (head_in store) (disk_of store) (state_in store)) }
        ensures sound { IfOk result (λ store. Finds M.after M.blank head (state_in store) (D.original (disk_of store))) }

        // A crash at any moment of the call leaves a file in which the next one finds the same state. At an error it was perhaps only read.
        ensures any_moment { IfOk result (λ store. LeavesOnly D.moment D.outcome_since disk (disk_of store) (Finds M.after M.blank head (state_in store))) }
        ensures any_moment_err { IfErr result (λ e. (D.moment e.1 ≡ D.moment disk) ⊎ LeavesOnly D.moment D.outcome_since disk e.1
            (Finds M.after M.blank head (state_of M.after M.blank (D.original e.1)))) }

        // An error has a cause. A file that is refused was only read, and has the cause whatever its other bytes are.
        ensures cause { IfErr result (λ e. IsCause head (D.original e.1) e.0) }
        ensures refused { IfErr result (λ e. is_refusal e.0 ≡ true → (D.moment e.1 ≡ D.moment disk) × ((c : List ℕ) → D.outcome e.1 c → IsCause head c e.0)) }
        ensures failed { IfErr result (λ e. e.0 ≡ Fault.Failed → D.fault_count disk < D.fault_count e.1) }
    {
        let mut file = disk;
        let mut replay = Replay::new(alloc, head, machine);
        match read_all(alloc, &mut file, &mut replay) {
            Ok(()) => store_of(alloc, file, replay),
            Err(fault) => Err((fault, file)),
        }
    }
}

impl<D: Disk, M: Machine> Store<D, M> {
    /// The machine. While the store is open, its state is that of the file.
    pub fn machine(&self) -> &M
        ensures { result.now ≡ state_in self.now }
    {
        &self.machine
    }

    /// Whether a checkpoint is due: the file has 16 MiB, and twice as many bytes as its first payload, or as it had when the last checkpoint was tried.
    pub fn is_checkpoint_due(&self) -> bool {
        self.journal.end >= self.due_size
    }

    /// Does nothing. Its contract is what is true of an open store between any two calls: a crash leaves a file of its state.
    pub fn standing(&self)
        ensures { IsTrue (is_open self.now) → IsKept D.contents D.outcome M.after M.blank (head_in self.now) (disk_of self.now) (state_in self.now) }
    {
        let _is_open = self.is_open;
    }

    /// Runs a payload, and replaces the bytes of `answer` by its answer. At `Ok` its change is acknowledged: from then on each crash leaves a file that has it.
    /// At `Err` the store is closed: open the file again.
    pub fn run(&mut self, alloc: Global, payload: &[u8], answer: &mut Vec<u8>) -> Result<(), Fault>
        ensures open { OnOk result (IsTrue (is_open self.old) × IsTrue (is_open self.new)) }
        ensures acknowledged { OnOk result (state_in self.new ≡ M.after (state_in self.old) payload.now) }
        ensures answer { OnOk result (answer.new.items ≡ M.answer_to (state_in self.old) payload.now) }
        ensures kept { OnOk result (IsKept D.contents D.outcome M.after M.blank (head_in self.new) (disk_of self.new) (state_in self.new)) }
        ensures logged { OnOk result (recovered (D.contents (disk_of self.new))
            ≡ recovered (D.contents (disk_of self.old)) ++ (if M.changes (state_in self.old) payload.now then payload.now ∷ [] else [])) }
        ensures head { head_in self.new ≡ head_in self.old }
        ensures untaken { D.take_count (disk_of self.new) ≡ D.take_count (disk_of self.old) }

        // A crash at any moment of the call leaves a file in which `open` finds the state before the payload or after it, unless there is a forgery.
        ensures any_moment { IsTrue (is_open self.old) → LeavesOnly D.moment D.outcome_since (disk_of self.old) (disk_of self.new)
            (IsBeforeOrAfterRun M.after M.blank (head_in self.old) (D.contents (disk_of self.old)) payload.now) }

        // An error has a cause, and a closed store changes nothing.
        ensures failed { IsErrOf result Fault.Failed → D.fault_count (disk_of self.old) < D.fault_count (disk_of self.new) }
        ensures counted { D.fault_count (disk_of self.old) ≤ D.fault_count (disk_of self.new) }
        ensures was_closed { IsErrOf result Fault.Closed → is_open self.old ≡ false }
        ensures closed { is_open self.old ≡ false → (is_open self.new ≡ false) × (disk_of self.new ≡ disk_of self.old) }
    {
        if !self.is_open {
            return Err(Fault::Closed);
        }
        self.is_open = false;
        run_payload(alloc, &mut self.journal, &mut self.machine, payload, answer)?;
        self.is_open = true;
        Ok(())
    }
}

impl<D: Disk, M: Join> Store<D, M> {
    /// Begins a group: the payloads that it runs are kept together, or none of them. An `Err` returns the file.
    pub fn begin(self, alloc: Global) -> Result<Group<D, M>, (Fault, D)>
        ensures open { IfOk result (λ group. IsTrue (is_open self) × IsTrue (is_group_open group)) }
        ensures same { IfOk result (λ group. (group_disk group ≡ disk_of self) × (group_state group ≡ state_in self) × (group_head group ≡ head_in self)) }
        ensures none { IfOk result (λ group. ahead group ≡ []) }
        ensures was_closed { IfErr result (λ e. (e.0 ≡ Fault.Closed) × (e.1 ≡ disk_of self) × (is_open self ≡ false)) }
    {
        if !self.is_open {
            return Err((Fault::Closed, self.journal.disk));
        }
        Ok(Group {
            journal: self.journal,
            machine: self.machine,
            ahead: Vec::new(alloc),
            is_open: true,
            due_size: self.due_size,
        })
    }
}

impl<D: HostDisk, M: Machine> Store<D, M> {
    /// Returns the calls that the host is to make before what was done since the last time is acknowledged, in order.
    pub fn take_calls(&mut self) -> Vec<HostCall>
        ensures calls { D.HostDisk.are_due (disk_of self.old) result.items }
        ensures taken { D.HostDisk.is_taken (disk_of self.old) (disk_of self.new) }
        ensures state { state_in self.new ≡ state_in self.old }
        ensures head { head_in self.new ≡ head_in self.old }
        ensures open { is_open self.new ≡ is_open self.old }
        ensures kept { IsTrue (is_open self.old) → IsKept D.contents D.outcome M.after M.blank (head_in self.new) (disk_of self.new) (state_in self.new) }
    {
        self.journal.disk.take_calls()
    }
}

impl<D: Disk, M: Compact> Store<D, M> {
    /// Compacts the state, and puts a new file with one payload in the place of the old one. Returns whether it did: `false` if the state cannot be compacted
    /// now, or if memory ran out, and then nothing has changed. At `Err` the store is closed: open the file again.
    pub fn checkpoint(&mut self, alloc: Global) -> Result<bool, Fault>
        ensures open { OnOk result (IsTrue (is_open self.old) × IsTrue (is_open self.new)) }
        ensures acknowledged { IfOk result (λ is_done. is_done ≡ true → M.is_compacted (state_in self.old) (state_in self.new)) }
        ensures unchanged { IfOk result (λ is_done. is_done ≡ false → self.new ≡ self.old) }
        ensures kept { OnOk result (IsKept D.contents D.outcome M.after M.blank (head_in self.new) (disk_of self.new) (state_in self.new)) }
        ensures head { IsAlike (head_in self.old) (head_in self.new) }
        ensures untaken { D.take_count (disk_of self.new) ≡ D.take_count (disk_of self.old) }

        // A crash at any moment of the call leaves a file in which `open` finds the state of before, or that state compacted.
        ensures any_moment { IsTrue (is_open self.old) → LeavesOnly D.moment D.outcome_since (disk_of self.old) (disk_of self.new)
            (IsBeforeOrAfterCheckpoint M.after M.is_compacted M.blank (head_in self.old) (state_in self.old)) }

        // An error has a cause, and a closed store changes nothing.
        ensures failed { IsErrOf result Fault.Failed → D.fault_count (disk_of self.old) < D.fault_count (disk_of self.new) }
        ensures counted { D.fault_count (disk_of self.old) ≤ D.fault_count (disk_of self.new) }
        ensures was_closed { IsErrOf result Fault.Closed → is_open self.old ≡ false }
        ensures closed { is_open self.old ≡ false → (is_open self.new ≡ false) × (disk_of self.new ≡ disk_of self.old) }
    {
        if !self.is_open {
            return Err(Fault::Closed);
        }
        self.is_open = false;
        let is_done = compact(alloc, &mut self.journal, &mut self.machine)?;
        self.due_size = size_when_due(self.journal.end);
        self.is_open = true;
        Ok(is_done)
    }
}
