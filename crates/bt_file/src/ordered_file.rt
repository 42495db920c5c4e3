//! A file whose calls a host makes.
ghost use Rattle.std.specs.Prelude.{◌≡◌, []};
ghost use Rattle.bt_file.specs.Calls.{events_of};
ghost use Rattle.bt_file.specs.Due.{AreDue, IsTaken, same_contents, same_outcome, same_health, take_count_of};
ghost use Rattle.bt_file.specs.Events.{contents_of, original_of, outcome_of, is_healthy_after, fault_count_of, moment_of, outcome_since_of, counts_now_of, only_now_of};

use crate::calls::{Call, Calls};
use bt_journal::{Disk, DiskFailed, HostCall, HostDisk};
use std::alloc::{AllocError, Global};
use std::marker::Model;
use std::mem;

/// A file whose calls a host makes. A contract sees the list of calls, as if the host had made them. The invariant says which of them it is to make: those since it
/// last took them.
#[derive(Drop)]
pub struct OrderedFile {
    alloc: Global,
    pending: Vec<HostCall>,
    calls: Calls,
}

impl Model for OrderedFile {
    ghost use Rattle.std.specs.Prelude.{List};
    ghost use Rattle.bt_file.specs.Calls.{Event, events_of};
    ghost use Rattle.bt_file.specs.Due.{AreDue};

    ghost Value = { List Event };

    ghost view = { λ f. events_of f.calls };

    ghost invariant = { λ f. AreDue (events_of f.calls) f.pending.items };
}

impl OrderedFile {
    /// A file that the host has opened, locked and synced, and of which it has read nothing.
    pub fn new(alloc: Global) -> OrderedFile
        ensures { result ≡ [] }
    {
        OrderedFile {
            alloc,
            pending: Vec::new(alloc),
            calls: Calls::new(),
        }
    }
}

impl Disk for OrderedFile {
    ghost contents = { contents_of };

    ghost original = { original_of };

    ghost outcome = { outcome_of };

    ghost moment = { moment_of };

    ghost outcome_since = { outcome_since_of };

    ghost fault_count = { fault_count_of };

    ghost take_count = { take_count_of };

    ghost is_healthy = { is_healthy_after };

    ghost counts_now = { λ f t c le now. counts_now_of f t c now };

    ghost only_now = { only_now_of };

    #[tactic(auto, using(crate::proofs::DueCalls::none_due))]
    fn write_at(&mut self, at: usize, bytes: Vec<u8>) -> Result<(), DiskFailed> {
        if self.pending.reserve(1).is_err() {
            self.pending.clear();
            self.calls.note(Call::Written(at, false), &bytes);
            return Err(DiskFailed);
        }
        self.calls.note(Call::Written(at, true), &bytes);
        self.pending.push_reserved(HostCall::Write(at, bytes));
        Ok(())
    }

    #[tactic(auto, using(crate::proofs::DueCalls::none_due))]
    fn cut(&mut self, len: usize) -> Result<(), DiskFailed> {
        let none = Vec::new(self.alloc);
        if self.pending.reserve(1).is_err() {
            self.pending.clear();
            self.calls.note(Call::Cut(len, false), &none);
            return Err(DiskFailed);
        }
        self.calls.note(Call::Cut(len, true), &none);
        self.pending.push_reserved(HostCall::Cut(len));
        Ok(())
    }

    #[tactic(auto, using(crate::proofs::DueCalls::none_due))]
    fn replace(&mut self, bytes: Vec<u8>) -> Result<(), DiskFailed> {
        if self.pending.reserve(1).is_err() {
            self.pending.clear();
            self.calls.note(Call::Replaced(false), &bytes);
            return Err(DiskFailed);
        }
        self.calls.note(Call::Replaced(true), &bytes);
        self.pending.push_reserved(HostCall::Replace(bytes));
        Ok(())
    }

    #[tactic(auto, using(crate::proofs::DueCalls::none_due))]
    fn sync(&mut self) -> Result<(), DiskFailed> {
        let none = Vec::new(self.alloc);
        if self.pending.reserve(1).is_err() {
            self.pending.clear();
            self.calls.note(Call::Synced(false), &none);
            return Err(DiskFailed);
        }
        self.calls.note(Call::Synced(true), &none);
        self.pending.push_reserved(HostCall::Sync);
        Ok(())
    }
}

impl HostDisk for OrderedFile {
    ghost are_due = { AreDue };

    ghost is_taken = { IsTaken };

    ghost same_contents = { same_contents };

    ghost same_outcome = { same_outcome };

    ghost same_health = { same_health };

    fn note_read(&mut self, piece: &Vec<u8>) {
        self.calls.note(Call::Read(true), piece);
    }

    fn take_calls(&mut self) -> Vec<HostCall> {
        let none = Vec::new(self.alloc);
        self.calls.note(Call::Taken, &none);
        mem::replace(&mut self.pending, Vec::new(self.alloc))
    }
}
