//! A file that is being read: its payloads run as they are found.
ghost use Rattle.std.specs.Prelude.{◌≡◌, ◌++◌, ◌≤◌, [], None, List, ℕ, length, drop, IfErr, IfOk, IsErrOf, OnOk};
ghost use Rattle.bt_journal.specs.Frames.{all_at, extent, seed_after};
ghost use Rattle.bt_journal.specs.Files.{recovered};
ghost use Rattle.bt_journal.specs.declared.head.Head.{Head};
ghost use Rattle.bt_journal.specs.Stores.{after_all, HasFrames, IsCauseFrom, IsReplayed};

use crate::fault::Fault;
use crate::frame::{FRAME_START, next_seed, number_at, payload_at};
use crate::head::{HEAD_SIZE, Head};
use crate::journal::MOST_BYTES;
use crate::machine::Machine;
use std::alloc::{AllocError, Global};
use std::mem;

/// What was read of a file so far.
#[derive(Drop)]
pub(crate) struct Replay<M: Machine> {
    /// The head that the file is opened with.
    pub(crate) head: Head,
    /// The head that it has, once that was read.
    pub(crate) found: Option<Head>,
    /// The state after the payloads of the frames that were read.
    pub(crate) machine: M,
    /// The bytes that were read after these frames.
    pub(crate) rest: Vec<u8>,
    /// Where the frames end.
    pub(crate) end: usize,
    /// The seed of the next frame.
    pub(crate) seed: u64,
    /// Where the first frame ends, or 0 if none was read.
    pub(crate) first_end: usize,
}

// Runs the payloads of frames. Returns how many bytes these take, and the seed of the next one.
fn run_frames<M: Machine>(
    alloc: Global,
    seed: u64,
    bytes: &[u8],
    machine: &mut M,
) -> Result<(usize, u64), AllocError>
    ensures state { OnOk result (machine.new ≡ after_all M.after machine.old (all_at seed bytes.now)) }
    ensures end { IfOk result (λ ended. ended.0 ≡ extent (all_at seed bytes.now)) }
    ensures within { IfOk result (λ ended. ended.0 ≤ length bytes.now) }
    ensures seed { IfOk result (λ ended. ended.1 ≡ seed_after seed (all_at seed bytes.now)) }
{
    let mut answer = Vec::new(alloc);
    let mut at = 0;
    let mut next = seed;
    'frames: while let Some(payload) = payload_at(next, &bytes[at..]) {
        machine.run(payload, &mut answer)?;
        at += FRAME_START + payload.len();
        next = next_seed(next, payload);
    }
    Ok((at, next))
}

// The bytes after the first ones.
fn without_first(alloc: Global, bytes: Vec<u8>, count: usize) -> Result<Vec<u8>, AllocError>
    requires { count ≤ length bytes.items }
    ensures { IfOk result (λ rest. rest.items ≡ drop count bytes.items) }
{
    if count == 0 {
        return Ok(bytes);
    }
    let mut rest = Vec::new(alloc);
    rest.extend_from_slice(&bytes[count..])?;
    Ok(rest)
}

// Where the first frame ends, if that was found before, or these bytes after the head begin with frames of this size in all.
fn first_end(found: usize, bytes: &[u8], size: usize) -> usize {
    if found > 0 || size < FRAME_START || bytes.len() < FRAME_START {
        return found;
    }
    (number_at(bytes) as usize)
        .min(size)
        .saturating_add(HEAD_SIZE)
}

impl<M: Machine> Replay<M> {
    /// A file of which nothing was read.
    pub(crate) fn new(alloc: Global, head: Head, machine: M) -> Replay<M>
        requires { machine ≡ M.blank }
        ensures nothing { IsReplayed M.after M.blank [] result }
        ensures head { result.head ≡ head }
    {
        Replay {
            head,
            found: None,
            machine,
            rest: Vec::new(alloc),
            end: 0,
            seed: 0,
            first_end: 0,
        }
    }

    // Runs the frames that the rest begins with.
    fn run(&mut self, alloc: Global) -> Result<(), Fault>
        ensures run { (payloads : List (List ℕ)) (file : List ℕ) (found : Head) → HasFrames M.after M.blank payloads file found self.old
            → OnOk result (HasFrames M.after M.blank (recovered file) file found self.new) }
        ensures cause { (payloads : List (List ℕ)) (file : List ℕ) (found : Head) → HasFrames M.after M.blank payloads file found self.old
            → IfErr result (IsCauseFrom self.old.head file) }
        ensures same { (self.new.found ≡ self.old.found) × (self.new.head ≡ self.old.head) }
        ensures no_call { IsErrOf result Fault.Failed → ⊥ }
    {
        if self.end >= MOST_BYTES || self.rest.len() >= MOST_BYTES {
            return Err(Fault::TooLong);
        }
        let (size, seed) = run_frames(alloc, self.seed, &self.rest, &mut self.machine)?;
        self.first_end = first_end(self.first_end, &self.rest, size);
        let rest = mem::replace(&mut self.rest, Vec::new(alloc));
        self.rest = without_first(alloc, rest, size)?;
        self.end += size;
        self.seed = seed;
        Ok(())
    }

    // Reads the head, if all of its bytes are there, and runs the frames that follow it.
    fn find_head(&mut self, alloc: Global) -> Result<(), Fault>
        requires unknown { self.old.found ≡ None }
        ensures read { self.old.machine ≡ M.blank → OnOk result (IsReplayed M.after M.blank self.old.rest.items self.new) }
        ensures cause { self.old.machine ≡ M.blank → IfErr result (IsCauseFrom self.old.head self.old.rest.items) }
        ensures head { self.new.head ≡ self.old.head }
        ensures no_call { IsErrOf result Fault.Failed → ⊥ }
    {
        if self.rest.len() < HEAD_SIZE {
            return Ok(());
        }
        let Some(found) = Head::at(&self.rest) else {
            return Err(Fault::NotAJournal);
        };
        if found.format != self.head.format {
            return Err(Fault::OtherFormat);
        }
        if found.engine != self.head.engine {
            return Err(Fault::OtherEngine);
        }
        let bytes = mem::replace(&mut self.rest, Vec::new(alloc));
        self.rest = without_first(alloc, bytes, HEAD_SIZE)?;
        self.found = Some(found);
        self.end = HEAD_SIZE;
        self.seed = found.salt;
        self.run(alloc)
    }

    /// Adds the next bytes of the file.
    pub(crate) fn add(&mut self, alloc: Global, piece: &[u8]) -> Result<(), Fault>
        ensures read { (file : List ℕ) → IsReplayed M.after M.blank file self.old → OnOk result (IsReplayed M.after M.blank (file ++ piece.now) self.new) }
        ensures cause { (file : List ℕ) → IsReplayed M.after M.blank file self.old → IfErr result (IsCauseFrom self.old.head (file ++ piece.now)) }
        ensures head { self.new.head ≡ self.old.head }
        ensures no_call { IsErrOf result Fault.Failed → ⊥ }
    {
        self.rest.extend_from_slice(piece)?;
        match self.found {
            Some(_) => self.run(alloc),
            None => self.find_head(alloc),
        }
    }
}
