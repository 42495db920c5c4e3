//! A file on a disk: what a read returns, and what a crash may leave.
ghost use Rattle.std.specs.Prelude.{◌≡◌, ◌<◌, ◌≤◌, Bool, IsTrue, List, ℕ, length, take, IfOk, OnErr, OnOk};
ghost use Rattle.bt_journal.specs.Disks.{Only, Follows, Torn, Cut, Swapped, Holds, Elapses, HasCause, HasRead};
ghost use Rattle.bt_journal.specs.declared.disk.HostCall.{HostCall as host_call};

/// A call of the disk failed. It may have done its work, a part of it, or nothing.
#[derive(Clone, Copy, Debug, Drop, PartialEq, Eq)]
pub struct DiskFailed;

/// A file whose calls say what a crash may leave of it, at any moment.
///
/// A call is one step of its clock. A crash within a call leaves what a crash before it or after it may leave: part of a write is
/// [`Torn`](Disk::write_at), and a sync may be done or not. The bytes that a read returns are always among the outcomes of a crash, since a process that ends
/// loses nothing that it wrote. So no clause on outcomes is true because there are none.
pub trait Disk {
    /// The bytes that a read returns, while the disk is healthy.
    ghost contents: { Self → List ℕ };

    /// The bytes that were read when the file was opened.
    ghost original: { Self → List ℕ };

    /// The files that a crash at this moment may leave.
    ghost outcome: { Self → List ℕ → Type 0 };

    /// The moment, as a number that never falls.
    ghost moment: { Self → ℕ };

    /// The files that a crash at any moment from an earlier one to this one may have left.
    ghost outcome_since: { Self → ℕ → List ℕ → Type 0 };

    /// How many calls have failed.
    ghost fault_count: { Self → ℕ };

    /// How many times a host took the calls that it is to make ([`HostDisk`]). No call below is such a time.
    ghost take_count: { Self → ℕ };

    /// No call has failed since the file was opened or replaced. After one has, nothing is known of the bytes that a read returns. After a sync that failed,
    /// what was written before may be lost, and a later sync does not report it.
    ghost is_healthy: { Self → Bool };

    /// Writes bytes over those that are there, and after the end. Until a sync, a crash may leave any bytes in this range.
    fn write_at(&mut self, at: usize, bytes: Vec<u8>) -> Result<(), DiskFailed>
        requires { at ≤ length (contents self.old) }
        ensures survives { OnOk result (outcome self.old (contents self.old) → outcome self.new (contents self.new)) }
        ensures written { OnOk result (Holds (contents self.old) at bytes.items (contents self.new)) }
        ensures crash { Follows (Torn at (length bytes.items)) (outcome self.old) (outcome self.new) }
        ensures healthy { OnOk result (is_healthy self.new ≡ is_healthy self.old) }
        ensures time { Elapses (moment self.old) (moment self.new) (outcome_since self.old) (outcome_since self.new) (outcome self.new) }
        ensures untaken { take_count self.new ≡ take_count self.old }
        ensures original { original self.new ≡ original self.old }
        ensures cause { HasCause (fault_count self.old) (fault_count self.new) result };

    /// Cuts the file to a length.
    fn cut(&mut self, len: usize) -> Result<(), DiskFailed>
        requires { len ≤ length (contents self.old) }
        ensures survives { OnOk result (outcome self.old (contents self.old) → outcome self.new (contents self.new)) }
        ensures cut { OnOk result (contents self.new ≡ take len (contents self.old)) }
        ensures crash { Follows (Cut len) (outcome self.old) (outcome self.new) }
        ensures healthy { OnOk result (is_healthy self.new ≡ is_healthy self.old) }
        ensures time { Elapses (moment self.old) (moment self.new) (outcome_since self.old) (outcome_since self.new) (outcome self.new) }
        ensures untaken { take_count self.new ≡ take_count self.old }
        ensures original { original self.new ≡ original self.old }
        ensures cause { HasCause (fault_count self.old) (fault_count self.new) result };

    /// Replaces all bytes at once: a new file with these bytes is synced, and takes the name and the place of this one.
    fn replace(&mut self, bytes: Vec<u8>) -> Result<(), DiskFailed>
        ensures survives { OnOk result (outcome self.old (contents self.old) → outcome self.new (contents self.new)) }
        ensures replaced { OnOk result (contents self.new ≡ bytes.items) }
        ensures durable { OnOk result (Only bytes.items (outcome self.new)) }
        ensures crash { Follows (Swapped bytes.items) (outcome self.old) (outcome self.new) }
        ensures healthy { OnOk result (IsTrue (is_healthy self.new)) }
        ensures time { Elapses (moment self.old) (moment self.new) (outcome_since self.old) (outcome_since self.new) (outcome self.new) }
        ensures untaken { take_count self.new ≡ take_count self.old }
        ensures original { original self.new ≡ original self.old }
        ensures cause { HasCause (fault_count self.old) (fault_count self.new) result };

    /// Waits until the disk has all that was written: from then on a crash leaves what a read returns.
    fn sync(&mut self) -> Result<(), DiskFailed>
        requires { IsTrue (is_healthy self.old) }
        ensures survives { OnOk result (outcome self.old (contents self.old) → outcome self.new (contents self.new)) }
        ensures durable { OnOk result (Only (contents self.old) (outcome self.new)) }
        ensures contents { contents self.new ≡ contents self.old }
        ensures healthy { OnOk result (IsTrue (is_healthy self.new)) }
        ensures crash { (c : List ℕ) → outcome self.new c → outcome self.old c }
        ensures time { Elapses (moment self.old) (moment self.new) (outcome_since self.old) (outcome_since self.new) (outcome self.new) }
        ensures untaken { take_count self.new ≡ take_count self.old }
        ensures original { original self.new ≡ original self.old }
        ensures cause { HasCause (fault_count self.old) (fault_count self.new) result };

    /// This moment is one of those since an earlier one.
    ghost counts_now: { (file : Self) (t : ℕ) (c : List ℕ) → t ≤ moment file → outcome file c → outcome_since file t c };

    /// Since this moment there is no other.
    ghost only_now: { (file : Self) (c : List ℕ) → outcome_since file (moment file) c → outcome file c };
}

/// A disk that reads the bytes of its file when that is opened, from the first to the last, before any other call.
pub trait ReadDisk: Disk {
    /// Reads the next bytes into this room, and returns them: as many as fit, or fewer. There are none at the end of the file.
    fn read_next(&mut self, room: Vec<u8>) -> Result<Vec<u8>, DiskFailed>
        requires { 0 < length room.items }
        ensures read { IfOk result (λ piece. HasRead Self.Disk.contents Self.Disk.original Self.Disk.outcome Self.Disk.is_healthy Self.Disk.moment Self.Disk.outcome_since
            self.old self.new piece.items) }
        ensures no_step { OnErr result (Self.Disk.moment self.new ≡ Self.Disk.moment self.old) }
        ensures untaken { Self.Disk.take_count self.new ≡ Self.Disk.take_count self.old }
        ensures cause { HasCause (Self.Disk.fault_count self.old) (Self.Disk.fault_count self.new) result };
}

/// A call of a file that a host is to make.
#[derive(Drop)]
pub enum HostCall {
    /// Write bytes from an offset on.
    Write(usize, Vec<u8>),
    /// Cut the file to a length.
    Cut(usize),
    /// Write a new file with these bytes, sync it, and give it the name and the place of this one.
    Replace(Vec<u8>),
    /// Sync the file.
    Sync,
}

/// A disk whose calls a host makes: each method adds a call to a list, and returns as if it had succeeded. So what the clauses say of a crash is true if the host
/// makes all calls in order, and acknowledges nothing before it has made them. If one fails, it opens the file again.
pub trait HostDisk: Disk {
    /// The calls that the host is to make: those that were added since it last took them.
    ghost are_due: { Self → List host_call → Type 0 };

    /// The host took its calls.
    ghost is_taken: { Self → Self → Type 0 };

    /// Adds bytes that the host has read, the next ones of the file: none at its end.
    fn note_read(&mut self, piece: &Vec<u8>)
        ensures read { HasRead Self.Disk.contents Self.Disk.original Self.Disk.outcome Self.Disk.is_healthy Self.Disk.moment Self.Disk.outcome_since
            self.old self.new piece.now.items }
        ensures untaken { Self.Disk.take_count self.new ≡ Self.Disk.take_count self.old }
        ensures no_fault { Self.Disk.fault_count self.new ≡ Self.Disk.fault_count self.old };

    /// Returns the calls that the host is to make, in order.
    fn take_calls(&mut self) -> Vec<HostCall>
        ensures calls { are_due self.old result.items }
        ensures taken { is_taken self.old self.new };

    /// Taking them changes no bytes.
    ghost same_contents: { (old new : Self) → is_taken old new → Self.Disk.contents new ≡ Self.Disk.contents old };

    /// It adds no outcome of a crash.
    ghost same_outcome: { (old new : Self) → is_taken old new → (c : List ℕ) → Self.Disk.outcome new c → Self.Disk.outcome old c };

    /// No call fails.
    ghost same_health: { (old new : Self) → is_taken old new → Self.Disk.is_healthy new ≡ Self.Disk.is_healthy old };
}
