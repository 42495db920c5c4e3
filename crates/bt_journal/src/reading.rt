//! Reading a file as it is opened, in pieces.
ghost use Rattle.std.specs.Prelude.{◌≡◌, ◌<◌, ◌≤◌, ◌++◌, IsTrue, [], true, false, List, ℕ, IfErr, IfOk, IsErrOf, OnOk};
ghost use Rattle.bt_journal.specs.Disks.{LeavesOnly, Only};
ghost use Rattle.bt_journal.specs.Files.{IsCause, is_refusal};
ghost use Rattle.bt_journal.specs.Heads.{IsAlike};
ghost use Rattle.bt_journal.specs.Stores.{disk_of, head_in, is_open, opening_disk, opening_head, state_in, state_of, Finds, IsCauseFrom, IsKept, IsReplayed};

use crate::disk::{HostDisk, ReadDisk};
use crate::fault::Fault;
use crate::head::Head;
use crate::machine::Machine;
use crate::replay::Replay;
use crate::store::{Store, store_of};
use std::alloc::Global;
use std::marker::Model;

// The number of bytes that one read asks for.
const PIECE_SIZE: usize = 1 << 20;

/// Reads a file to its end.
pub(crate) fn read_all<D: ReadDisk, M: Machine>(
    alloc: Global,
    disk: &mut D,
    replay: &mut Replay<M>,
) -> Result<(), Fault>
    requires read { IsReplayed M.after M.blank (D.original disk.old) replay.old }
    requires healthy { IsTrue (D.is_healthy disk.old) }
    ensures read { OnOk result (IsReplayed M.after M.blank (D.original disk.new) replay.new) }
    ensures whole { OnOk result (D.contents disk.new ≡ D.original disk.new) }
    ensures durable { OnOk result (Only (D.original disk.new) (D.outcome disk.new)) }
    ensures since { OnOk result ((t : ℕ) (c : List ℕ) → D.outcome_since disk.new t c → D.outcome disk.new c) }
    ensures fewer { OnOk result ((c : List ℕ) → D.outcome disk.new c → D.outcome disk.old c) }
    ensures healthy { OnOk result (IsTrue (D.is_healthy disk.new)) }
    ensures head { replay.new.head ≡ replay.old.head }
    ensures no_step { D.moment disk.new ≡ D.moment disk.old }
    ensures untaken { D.take_count disk.new ≡ D.take_count disk.old }
    ensures cause { IfErr result (IsCause replay.old.head (D.original disk.new)) }
    ensures refused { IfErr result (λ fault. is_refusal fault ≡ true → (c : List ℕ) → D.outcome disk.new c → IsCause replay.old.head c fault) }
    ensures failed { IsErrOf result Fault.Failed → D.fault_count disk.old < D.fault_count disk.new }
    ensures counted { D.fault_count disk.old ≤ D.fault_count disk.new }
{
    let mut room = Vec::new(alloc);
    'pieces: for _ in 0..u64::MAX {
        room.resize(PIECE_SIZE, 0)?;
        let piece = disk.read_next(room)?;
        if piece.is_empty() {
            return Ok(());
        }
        if let Err(fault) = replay.add(alloc, &piece) {
            return Err(fault);
        }
        room = piece;
    }
    // No file has as many pieces.
    Err(Fault::OutOfMemory)
}

/// A file that a host reads in order to open it.
#[derive(Drop)]
pub struct Opening<D: HostDisk, M: Machine> {
    disk: D,
    replay: Replay<M>,
}

impl<D: HostDisk, M: Machine> Model for Opening<D, M> {
    ghost use Rattle.bt_journal.specs.Stores.{IsReplayed, OpeningValue};
    ghost use Rattle.std.specs.Prelude.{IsTrue};

    ghost Value = { OpeningValue D };

    ghost view = { λ o. (o.disk, o.replay.head) };

    ghost invariant = { λ o. IsReplayed M.after M.blank (D.original o.disk) o.replay × IsTrue (D.is_healthy o.disk) };
}

impl<D: HostDisk, M: Machine> Opening<D, M> {
    /// A file of which the host has read nothing.
    pub fn new(alloc: Global, disk: D, head: Head, machine: M) -> Opening<D, M>
        requires unread { D.original disk ≡ [] }
        requires healthy { IsTrue (D.is_healthy disk) }
        requires blank { machine ≡ M.blank }
        ensures disk { opening_disk result ≡ disk }
        ensures head { opening_head result ≡ head }
    {
        Opening {
            disk,
            replay: Replay::new(alloc, head, machine),
        }
    }

    /// Adds the next bytes of the file, and runs the payloads that are whole. An `Err` returns the file, of which no call was made.
    pub fn read(self, alloc: Global, piece: &Vec<u8>) -> Result<Opening<D, M>, (Fault, D)>
        ensures head { IfOk result (λ opening. opening_head opening ≡ opening_head self) }
        ensures read { IfOk result (λ opening. D.original (opening_disk opening) ≡ D.original (opening_disk self) ++ piece.now.items) }
        ensures no_step { IfOk result (λ opening. D.moment (opening_disk opening) ≡ D.moment (opening_disk self)) }
        ensures untaken { IfOk result (λ opening. D.take_count (opening_disk opening) ≡ D.take_count (opening_disk self)) }

        // An error has a cause, whatever the other bytes of the file are.
        ensures cause { IfErr result (λ e. IsCauseFrom (opening_head self) (D.original (opening_disk self) ++ piece.now.items) e.0) }
        ensures no_call { IfErr result (λ e. D.moment e.1 ≡ D.moment (opening_disk self)) }
        ensures no_fault { IfErr result (λ e. D.fault_count e.1 ≡ D.fault_count (opening_disk self)) }
    {
        let Opening {
            mut disk,
            mut replay,
        } = self;
        disk.note_read(piece);
        match replay.add(alloc, piece) {
            Ok(()) => Ok(Opening { disk, replay }),
            Err(fault) => Err((fault, disk)),
        }
    }

    /// Opens the file, of which the host has read all bytes. It may crash too, at any moment; then the file stands for the same state. An empty file gets the head.
    /// An `Err` returns the file.
    pub fn end(self, alloc: Global) -> Result<Store<D, M>, (Fault, D)>
        ensures open { IfOk result (λ store. IsTrue (is_open store)) }
        ensures head { IfOk result (λ store. IsAlike (opening_head self) (head_in store)) }
        ensures untaken { IfOk result (λ store. D.take_count (disk_of store) ≡ D.take_count (opening_disk self)) }
        ensures state { IfOk result (λ store. state_in store ≡ state_of M.after M.blank (D.original (opening_disk self))) }
        ensures kept { IfOk result (λ store. IsKept D.contents D.outcome M.after M.blank (head_in store) (disk_of store) (state_in store)) }
        ensures sound { IfOk result (λ store. Finds M.after M.blank (opening_head self) (state_in store) (D.original (opening_disk self))) }

        // A crash at any moment of the call leaves a file in which the next one finds the same state.
        ensures any_moment { IfOk result (λ store. LeavesOnly D.moment D.outcome_since (opening_disk self) (disk_of store)
            (Finds M.after M.blank (opening_head self) (state_in store))) }
        ensures any_moment_err { IfErr result (λ e. is_refusal e.0 ≡ false → LeavesOnly D.moment D.outcome_since (opening_disk self) e.1
            (Finds M.after M.blank (opening_head self) (state_of M.after M.blank (D.original (opening_disk self))))) }

        // An error has a cause, and no call was made of a file that is refused.
        ensures cause { IfErr result (λ e. IsCause (opening_head self) (D.original (opening_disk self)) e.0) }
        ensures refused { IfErr result (λ e. is_refusal e.0 ≡ true → D.moment e.1 ≡ D.moment (opening_disk self)) }
        ensures failed { IfErr result (λ e. e.0 ≡ Fault.Failed → D.fault_count (opening_disk self) < D.fault_count e.1) }
    {
        let Opening { mut disk, replay } = self;
        disk.note_read(&Vec::new(alloc));
        store_of(alloc, disk, replay)
    }
}
