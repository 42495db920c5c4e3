//! Opening a file of frames that a crash may have left.
ghost use Rattle.std.specs.Prelude.{◌≡◌, IsTrue, ◌+◌, ◌-◌, ◌<◌, ◌≤◌, false, true, [], Some, length, drop, replicate, IfErr, IfOk, OnErr, OnOk, IsErrOf};
ghost use Rattle.bt_journal.specs.Disks.{Only, LeavesOnly};
ghost use Rattle.bt_journal.specs.Frames.{IsFramed, extent};
ghost use Rattle.bt_journal.specs.Heads.{head_at, head_frame, head_size, body_of, IsAlike};
ghost use Rattle.bt_journal.specs.Files.{recovered, is_damaged, is_refusal, IsCause, Opens};
ghost use Rattle.bt_journal.specs.Journals.{IsSettled};
ghost use Rattle.bt_journal.specs.Stores.{HasFrames, IsReplayed};

use crate::disk::Disk;
use crate::fault::Fault;
use crate::file_end::{are_zeros, has_frame_after};
use crate::head::{HEAD_SIZE, Head};
use crate::journal::Journal;
use crate::machine::Machine;
use crate::replay::Replay;
use std::alloc::Global;

// Makes a file of a head out of an empty one.
fn write_head<D: Disk>(alloc: Global, disk: &mut D, head: Head) -> Result<(), Fault>
    requires empty { D.contents disk.old ≡ [] }
    requires durable { Only (D.contents disk.old) (D.outcome disk.old) }
    ensures contents { OnOk result (D.contents disk.new ≡ head_frame head) }
    ensures durable { OnOk result (Only (D.contents disk.new) (D.outcome disk.new)) }
    ensures healthy { OnOk result (IsTrue (D.is_healthy disk.new)) }
    ensures any_moment { LeavesOnly D.moment D.outcome_since disk.old disk.new (Opens head []) }
    ensures untaken { D.take_count disk.new ≡ D.take_count disk.old }
    ensures original { D.original disk.new ≡ D.original disk.old }
    ensures failed { IsErrOf result Fault.Failed → D.fault_count disk.old < D.fault_count disk.new }
    ensures no_refusal { IfErr result (λ fault. is_refusal fault ≡ false) }
    ensures cause { IfErr result (IsCause head (D.contents disk.old)) }
{
    let frame = head.frame(alloc)?;
    disk.replace(frame)?;
    Ok(())
}

// Cuts off what follows the frames.
fn cut_off<D: Disk>(disk: &mut D, head: Head, end: usize) -> Result<(), Fault>
    requires head { head_at (D.contents disk.old) ≡ Some head }
    requires sound { is_damaged (D.contents disk.old) ≡ false }
    requires end { end ≡ head_size + extent (recovered (D.contents disk.old)) }
    requires within { end ≤ length (D.contents disk.old) }
    requires durable { Only (D.contents disk.old) (D.outcome disk.old) }
    requires healthy { IsTrue (D.is_healthy disk.old) }
    ensures head { OnOk result (head_at (D.contents disk.new) ≡ Some head) }
    ensures framed { OnOk result (IsFramed head.salt (recovered (D.contents disk.old)) (body_of (D.contents disk.new))) }
    ensures durable { OnOk result (Only (D.contents disk.new) (D.outcome disk.new)) }
    ensures healthy { OnOk result (IsTrue (D.is_healthy disk.new)) }
    ensures any_moment { LeavesOnly D.moment D.outcome_since disk.old disk.new (Opens head (recovered (D.contents disk.old))) }
    ensures untaken { D.take_count disk.new ≡ D.take_count disk.old }
    ensures original { D.original disk.new ≡ D.original disk.old }
    ensures failed { OnErr result (D.fault_count disk.old < D.fault_count disk.new) }
    ensures err { OnErr result (IsErrOf result Fault.Failed) }
{
    disk.cut(end)?;
    disk.sync()?;
    Ok(())
}

// Cuts off what follows the frames, unless that is zeros.
fn settle<D: Disk>(disk: &mut D, head: Head, end: usize, is_clean: bool) -> Result<(), Fault>
    requires head { head_at (D.contents disk.old) ≡ Some head }
    requires sound { is_damaged (D.contents disk.old) ≡ false }
    requires end { end ≡ head_size + extent (recovered (D.contents disk.old)) }
    requires within { end ≤ length (D.contents disk.old) }
    requires clean { is_clean ≡ true → drop end (D.contents disk.old) ≡ replicate (length (D.contents disk.old) - end) 0 }
    requires durable { Only (D.contents disk.old) (D.outcome disk.old) }
    requires healthy { IsTrue (D.is_healthy disk.old) }
    ensures head { OnOk result (head_at (D.contents disk.new) ≡ Some head) }
    ensures framed { OnOk result (IsFramed head.salt (recovered (D.contents disk.old)) (body_of (D.contents disk.new))) }
    ensures durable { OnOk result (Only (D.contents disk.new) (D.outcome disk.new)) }
    ensures healthy { OnOk result (IsTrue (D.is_healthy disk.new)) }
    ensures any_moment { LeavesOnly D.moment D.outcome_since disk.old disk.new (Opens head (recovered (D.contents disk.old))) }
    ensures untaken { D.take_count disk.new ≡ D.take_count disk.old }
    ensures original { D.original disk.new ≡ D.original disk.old }
    ensures failed { OnErr result (D.fault_count disk.old < D.fault_count disk.new) }
    ensures err { OnErr result (IsErrOf result Fault.Failed) }
{
    if is_clean {
        return Ok(());
    }
    cut_off(disk, head, end)
}

// Opens an empty file.
fn open_new<D: Disk>(alloc: Global, mut disk: D, head: Head) -> Result<Journal<D>, (Fault, D)>
    requires empty { D.contents disk ≡ [] }
    requires durable { Only (D.contents disk) (D.outcome disk) }
    ensures settled { IfOk result (λ journal. IsSettled D.contents D.outcome D.is_healthy journal) }
    ensures alike { IfOk result (λ journal. IsAlike head journal.head) }
    ensures payloads { IfOk result (λ journal. recovered (D.contents journal.disk) ≡ recovered (D.contents disk)) }
    ensures sound { IfOk result (λ _. Opens head (recovered (D.contents disk)) (D.contents disk)) }
    ensures untaken { IfOk result (λ journal. D.take_count journal.disk ≡ D.take_count disk) }
    ensures original { IfOk result (λ journal. D.original journal.disk ≡ D.original disk) }
    ensures original_err { IfErr result (λ e. D.original e.1 ≡ D.original disk) }
    ensures any_moment { IfOk result (λ journal. LeavesOnly D.moment D.outcome_since disk journal.disk (Opens head (recovered (D.contents disk)))) }
    ensures any_moment_err { IfErr result (λ e. LeavesOnly D.moment D.outcome_since disk e.1 (Opens head (recovered (D.contents disk)))) }
    ensures failed { IfErr result (λ e. e.0 ≡ Fault.Failed → D.fault_count disk < D.fault_count e.1) }
    ensures no_refusal { IfErr result (λ e. is_refusal e.0 ≡ false) }
    ensures cause { IfErr result (λ e. IsCause head (D.contents disk) e.0) }
{
    match write_head(alloc, &mut disk, head) {
        Ok(()) => Ok(Journal {
            disk,
            head,
            end: HEAD_SIZE,
            seed: head.salt,
            zeros: 0,
        }),
        Err(fault) => Err((fault, disk)),
    }
}

// Opens a file with a head, whose frames have run.
fn open_old<D: Disk, M: Machine>(
    mut disk: D,
    found: Head,
    replay: &Replay<M>,
) -> Result<Journal<D>, (Fault, D)>
    requires read { HasFrames M.after M.blank (recovered (D.contents disk)) (D.contents disk) found replay.now }
    requires durable { Only (D.contents disk) (D.outcome disk) }
    requires healthy { IsTrue (D.is_healthy disk) }
    ensures settled { IfOk result (λ journal. IsSettled D.contents D.outcome D.is_healthy journal) }
    ensures alike { IfOk result (λ journal. IsAlike replay.now.head journal.head) }
    ensures payloads { IfOk result (λ journal. recovered (D.contents journal.disk) ≡ recovered (D.contents disk)) }
    ensures sound { IfOk result (λ _. Opens replay.now.head (recovered (D.contents disk)) (D.contents disk)) }
    ensures untaken { IfOk result (λ journal. D.take_count journal.disk ≡ D.take_count disk) }
    ensures original { IfOk result (λ journal. D.original journal.disk ≡ D.original disk) }
    ensures original_err { IfErr result (λ e. D.original e.1 ≡ D.original disk) }
    ensures any_moment { IfOk result (λ journal. LeavesOnly D.moment D.outcome_since disk journal.disk (Opens replay.now.head (recovered (D.contents disk)))) }
    ensures any_moment_err { IfErr result (λ e. is_refusal e.0 ≡ false → LeavesOnly D.moment D.outcome_since disk e.1 (Opens replay.now.head (recovered (D.contents disk)))) }
    ensures failed { IfErr result (λ e. e.0 ≡ Fault.Failed → D.fault_count disk < D.fault_count e.1) }
    ensures unchanged { IfErr result (λ e. is_refusal e.0 ≡ true → e.1 ≡ disk) }
    ensures cause { IfErr result (λ e. IsCause replay.now.head (D.contents disk) e.0) }
{
    if has_frame_after(replay.seed, &replay.rest) {
        return Err((Fault::Damaged, disk));
    }
    let is_clean = are_zeros(&replay.rest);
    match settle(&mut disk, found, replay.end, is_clean) {
        Ok(()) => Ok(Journal {
            disk,
            head: found,
            end: replay.end,
            seed: replay.seed,
            zeros: if is_clean { replay.rest.len() } else { 0 },
        }),
        Err(fault) => Err((fault, disk)),
    }
}

/// Opens a file that a crash may have left and that was read to its end. It may crash too. An empty file gets the head. What follows the frames of another one is
/// cut off, unless it is zeros. A file that is refused is left as it is.
pub(crate) fn open<D: Disk, M: Machine>(
    alloc: Global,
    disk: D,
    replay: &Replay<M>,
) -> Result<Journal<D>, (Fault, D)>
    requires read { IsReplayed M.after M.blank (D.contents disk) replay.now }
    requires durable { Only (D.contents disk) (D.outcome disk) }
    requires healthy { IsTrue (D.is_healthy disk) }
    ensures settled { IfOk result (λ journal. IsSettled D.contents D.outcome D.is_healthy journal) }
    ensures alike { IfOk result (λ journal. IsAlike replay.now.head journal.head) }
    ensures payloads { IfOk result (λ journal. recovered (D.contents journal.disk) ≡ recovered (D.contents disk)) }
    ensures sound { IfOk result (λ _. Opens replay.now.head (recovered (D.contents disk)) (D.contents disk)) }
    ensures untaken { IfOk result (λ journal. D.take_count journal.disk ≡ D.take_count disk) }
    ensures original { IfOk result (λ journal. D.original journal.disk ≡ D.original disk) }
    ensures original_err { IfErr result (λ e. D.original e.1 ≡ D.original disk) }

    // A crash at any moment leaves the same payloads.
    ensures any_moment { IfOk result (λ journal. LeavesOnly D.moment D.outcome_since disk journal.disk (Opens replay.now.head (recovered (D.contents disk)))) }
    ensures any_moment_err { IfErr result (λ e. is_refusal e.0 ≡ false → LeavesOnly D.moment D.outcome_since disk e.1 (Opens replay.now.head (recovered (D.contents disk)))) }
    ensures failed { IfErr result (λ e. e.0 ≡ Fault.Failed → D.fault_count disk < D.fault_count e.1) }

    // A refusal has a cause, and leaves the file as it is.
    ensures unchanged { IfErr result (λ e. is_refusal e.0 ≡ true → e.1 ≡ disk) }
    ensures cause { IfErr result (λ e. IsCause replay.now.head (D.contents disk) e.0) }
{
    match replay.found {
        Some(found) => open_old(disk, found, replay),
        None => {
            if !replay.rest.is_empty() {
                return Err((Fault::NotAJournal, disk));
            }
            open_new(alloc, disk, replay.head)
        }
    }
}
