//! An open file of frames.
ghost use Rattle.std.specs.Prelude.{◌≡◌, ◌⊎◌, IsTrue, ◌+◌, ◌<◌, ◌≤◌, ◌^◌, ◌++◌, [], ◌∷◌, List, ℕ, length, replicate, IfOk, OnOk, IsErrOf};
ghost use Rattle.bt_journal.specs.Disks.{LeavesOnly};
ghost use Rattle.bt_journal.specs.Frames.{frame_of};
ghost use Rattle.bt_journal.specs.Heads.{head_frame, IsAlike};
ghost use Rattle.bt_journal.specs.Files.{recovered, IsBeforeOrAfter, IsSwapped};
ghost use Rattle.bt_journal.specs.Journals.{IsSettled};

use crate::disk::Disk;
use crate::fault::Fault;
use crate::frame::{FRAME_START, frame_of, next_seed};
use crate::head::{HEAD_SIZE, Head};
use std::alloc::{AllocError, Global};

/// Far more bytes than a disk has.
pub(crate) const MOST_BYTES: usize = 1 << 62;

// How many zeros are written ahead of the next frames. A frame that is written over them does not change the length of the file, so a sync writes less.
const ZEROS_AHEAD: usize = 1 << 18;

/// An open file of frames, each of which is on the disk before it is acknowledged.
#[derive(Drop)]
pub(crate) struct Journal<D: Disk> {
    pub(crate) disk: D,
    pub(crate) head: Head,
    /// Where the next frame begins.
    pub(crate) end: usize,
    /// The seed of the next frame.
    pub(crate) seed: u64,
    /// The number of zeros that follow. If it is wrong, a sync is slower.
    pub(crate) zeros: usize,
}

// The frame of a payload, and zeros after it if it needs more bytes than there are zeros in the file.
fn bytes_of_frame(
    alloc: Global,
    seed: u64,
    zeros: usize,
    payload: &[u8],
) -> Result<Vec<u8>, AllocError>
    requires { length payload.now < 2 ^ 62 }
    ensures { IfOk result (λ bytes. (more : ℕ) × (bytes.items ≡ frame_of seed payload.now ++ replicate more 0)) }
{
    let mut bytes = frame_of(alloc, seed, payload)?;
    let ahead = if bytes.len() > zeros { ZEROS_AHEAD } else { 0 };
    bytes.resize(FRAME_START + payload.len() + ahead, 0)?;
    Ok(bytes)
}

// The number of zeros that follow a frame of this size, if there were this many before it.
fn zeros_after(zeros: usize, size: usize) -> usize {
    if size > zeros {
        ZEROS_AHEAD
    } else {
        zeros - size
    }
}

// The bytes of a file with this head and one payload.
fn new_file(alloc: Global, head: Head, payload: &[u8]) -> Result<Vec<u8>, AllocError>
    ensures { IfOk result (λ bytes. bytes.items ≡ head_frame head ++ frame_of head.salt payload.now) }
{
    let mut bytes = head.frame(alloc)?;
    let frame = frame_of(alloc, head.salt, payload)?;
    bytes.extend_from_slice(&frame)?;
    Ok(bytes)
}

impl<D: Disk> Journal<D> {
    /// Adds the frame of a payload. At `Ok` it is acknowledged: from then on each crash leaves a file that has it. At `Err`, open the file again.
    pub(crate) fn append(&mut self, alloc: Global, payload: &[u8]) -> Result<(), Fault>
        requires { IsSettled D.contents D.outcome D.is_healthy self.old }

        ensures settled { OnOk result (IsSettled D.contents D.outcome D.is_healthy self.new) }
        ensures acknowledged { OnOk result (recovered (D.contents self.new.disk) ≡ recovered (D.contents self.old.disk) ++ payload.now ∷ []) }
        ensures head { self.new.head ≡ self.old.head }
        ensures untaken { D.take_count self.new.disk ≡ D.take_count self.old.disk }

        // A crash at any moment of the call leaves the payloads of before, with the new one or without it.
        ensures any_moment { LeavesOnly D.moment D.outcome_since self.old.disk self.new.disk
            (IsBeforeOrAfter self.old.head (recovered (D.contents self.old.disk)) payload.now) }

        // An error has a cause.
        ensures failed { IsErrOf result Fault.Failed → D.fault_count self.old.disk < D.fault_count self.new.disk }
        ensures counted { D.fault_count self.old.disk ≤ D.fault_count self.new.disk }
        ensures too_long { IsErrOf result Fault.TooLong → (2 ^ 62 ≤ self.old.end) ⊎ (2 ^ 62 ≤ length payload.now) }
        ensures no_other { IsErrOf result Fault.Closed → ⊥ }
    {
        if self.end >= MOST_BYTES || payload.len() >= MOST_BYTES {
            return Err(Fault::TooLong);
        }
        let bytes = bytes_of_frame(alloc, self.seed, self.zeros, payload)?;
        self.disk.write_at(self.end, bytes)?;
        self.disk.sync()?;
        let size = FRAME_START + payload.len();
        self.zeros = zeros_after(self.zeros, size);
        self.end += size;
        self.seed = next_seed(self.seed, payload);
        Ok(())
    }

    /// Replaces all frames by that of one payload, in a new file with another salt. At `Err`, open the file again.
    pub(crate) fn restart(&mut self, alloc: Global, payload: &[u8]) -> Result<(), Fault>
        requires { IsSettled D.contents D.outcome D.is_healthy self.old }

        ensures settled { OnOk result (IsSettled D.contents D.outcome D.is_healthy self.new) }
        ensures acknowledged { OnOk result (recovered (D.contents self.new.disk) ≡ payload.now ∷ []) }
        ensures head { IsAlike self.old.head self.new.head }
        ensures untaken { D.take_count self.new.disk ≡ D.take_count self.old.disk }

        // A crash at any moment of the call leaves the payloads of before, or the new one alone.
        ensures any_moment { LeavesOnly D.moment D.outcome_since self.old.disk self.new.disk
            (IsSwapped self.old.head (recovered (D.contents self.old.disk)) payload.now) }

        // An error has a cause.
        ensures failed { IsErrOf result Fault.Failed → D.fault_count self.old.disk < D.fault_count self.new.disk }
        ensures counted { D.fault_count self.old.disk ≤ D.fault_count self.new.disk }
        ensures too_long { IsErrOf result Fault.TooLong → 2 ^ 62 ≤ length payload.now }
        ensures no_other { IsErrOf result Fault.Closed → ⊥ }
    {
        if payload.len() >= MOST_BYTES {
            return Err(Fault::TooLong);
        }
        let head = self.head.next();
        let file = new_file(alloc, head, payload)?;
        self.disk.replace(file)?;
        self.head = head;
        self.end = HEAD_SIZE + FRAME_START + payload.len();
        self.seed = next_seed(head.salt, payload);
        self.zeros = 0;
        Ok(())
    }
}
