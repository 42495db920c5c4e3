//! A file of the system. Each method makes its calls, and then notes them.
ghost use Rattle.std.specs.Prelude.{◌≡◌, [], IfOk};
ghost use Rattle.bt_file.specs.Calls.{events_of};
ghost use Rattle.bt_file.specs.Due.{take_count_of};
ghost use Rattle.bt_file.specs.Events.{contents_of, original_of, outcome_of, is_healthy_after, fault_count_of, moment_of, outcome_since_of, counts_now_of, only_now_of};

use crate::calls::{Call, Calls};
use bt_journal::{Disk, DiskFailed, ReadDisk};
use std::alloc::AllocError;
use std::fs;
use std::fs::{File, OpenOptions, TryLockError};
use std::io::{self, Read};
use std::os::unix::fs::{FileExt, MetadataExt};
use std::path::PathBuf;

/// Why a file was not opened.
#[derive(Clone, Copy, Debug, Drop, PartialEq, Eq)]
pub enum OpenError {
    /// An allocation failed.
    OutOfMemory,
    /// A call of the system failed.
    Failed,
    /// Another process has the file open, or another handle of this one.
    InUse,
}

impl From<AllocError> for OpenError {
    fn from(_: AllocError) -> Self {
        OpenError::OutOfMemory
    }
}

impl From<io::Error> for OpenError {
    fn from(error: io::Error) -> Self {
        match error.kind() {
            io::ErrorKind::OutOfMemory => OpenError::OutOfMemory,
            _ => OpenError::Failed,
        }
    }
}

/// An open file, and the folder that has its name.
#[derive(Drop)]
pub struct HostFile {
    rt: HostRuntime,
    file: File,
    folder: File,
    name: PathBuf,
    new_name: String,
    calls: Calls,
}

// Locks a file for this handle alone.
fn lock(file: &File) -> Result<(), OpenError> {
    match file.try_lock() {
        Ok(()) => Ok(()),
        Err(TryLockError::WouldBlock) => Err(OpenError::InUse),
        Err(TryLockError::Error(_)) => Err(OpenError::Failed),
    }
}

// Whether a name is that of an open file. It is not if another process has replaced the file since it was opened.
fn has_name(rt: &HostRuntime, file: &File, name: &str) -> io::Result<bool> {
    let found = file.metadata()?;
    let named = fs::symlink_metadata(rt, name)?;
    Ok(found.dev() == named.dev() && found.ino() == named.ino())
}

// Opens the folder that a file is in.
fn open_folder(rt: &HostRuntime, name: &str) -> io::Result<File> {
    let mut folder = fs::canonicalize(rt, name)?;
    folder.pop();
    File::open(rt, folder.as_str())
}

// Makes a new file with these bytes, and syncs it.
fn write_new(rt: &HostRuntime, name: &str, bytes: &[u8]) -> Result<File, OpenError> {
    let file = OpenOptions::new()
        .read(true)
        .write(true)
        .create(true)
        .truncate(true)
        .open(rt, name)?;
    lock(&file)?;
    file.write_all_at(bytes, 0)?;
    file.sync_all()?;
    Ok(file)
}

impl HostFile {
    // Makes a new file with these bytes, and gives it the name and the place of this one.
    fn swap(&mut self, bytes: &[u8]) -> Result<(), OpenError>
        ensures { self.new.calls ≡ self.old.calls }
    {
        let file = write_new(&self.rt, self.new_name.as_str(), bytes)?;
        fs::rename(&self.rt, self.new_name.as_str(), self.name.as_str())?;
        self.file = file;
        self.folder.sync_all()?;
        Ok(())
    }
}

impl Disk for HostFile {
    ghost contents = { λ f. contents_of (events_of f.calls) };

    ghost original = { λ f. original_of (events_of f.calls) };

    ghost outcome = { λ f. outcome_of (events_of f.calls) };

    ghost moment = { λ f. moment_of (events_of f.calls) };

    ghost outcome_since = { λ f. outcome_since_of (events_of f.calls) };

    ghost fault_count = { λ f. fault_count_of (events_of f.calls) };

    ghost take_count = { λ f. take_count_of (events_of f.calls) };

    ghost is_healthy = { λ f. is_healthy_after (events_of f.calls) };

    ghost counts_now = { λ f t c le now. counts_now_of (events_of f.calls) t c now };

    ghost only_now = { λ f c left. only_now_of (events_of f.calls) c left };

    fn write_at(&mut self, at: usize, bytes: Vec<u8>) -> Result<(), DiskFailed> {
        if self.file.write_all_at(&bytes, at as u64).is_ok() {
            self.calls.note(Call::Written(at, true), &bytes);
            Ok(())
        } else {
            self.calls.note(Call::Written(at, false), &bytes);
            Err(DiskFailed)
        }
    }

    fn cut(&mut self, len: usize) -> Result<(), DiskFailed> {
        let none = Vec::new(self.rt.alloc());
        if self.file.set_len(len as u64).is_ok() {
            self.calls.note(Call::Cut(len, true), &none);
            Ok(())
        } else {
            self.calls.note(Call::Cut(len, false), &none);
            Err(DiskFailed)
        }
    }

    fn replace(&mut self, bytes: Vec<u8>) -> Result<(), DiskFailed> {
        if self.swap(&bytes).is_ok() {
            self.calls.note(Call::Replaced(true), &bytes);
            Ok(())
        } else {
            self.calls.note(Call::Replaced(false), &bytes);
            Err(DiskFailed)
        }
    }

    fn sync(&mut self) -> Result<(), DiskFailed> {
        let none = Vec::new(self.rt.alloc());
        if self.file.sync_data().is_ok() {
            self.calls.note(Call::Synced(true), &none);
            Ok(())
        } else {
            self.calls.note(Call::Synced(false), &none);
            Err(DiskFailed)
        }
    }
}

impl ReadDisk for HostFile {
    fn read_next(&mut self, mut room: Vec<u8>) -> Result<Vec<u8>, DiskFailed> {
        if let Ok(count) = self.file.read(&mut room) {
            room.truncate(count);
            self.calls.note(Call::Read(true), &room);
            Ok(room)
        } else {
            self.calls.note(Call::Read(false), &room);
            Err(DiskFailed)
        }
    }
}

/// Opens the file at a path, which is made if there is none. All that is in it is on the disk then, and no other process has the file open by this function. Read it
/// before any other call.
pub fn open(rt: HostRuntime, path: &str) -> Result<HostFile, OpenError>
    ensures { IfOk result (λ file. events_of file.calls ≡ []) }
{
    let file = OpenOptions::new()
        .read(true)
        .write(true)
        .create(true)
        .open(&rt, path)?;
    lock(&file)?;
    let name = fs::canonicalize(&rt, path)?;
    if !has_name(&rt, &file, name.as_str())? {
        return Err(OpenError::InUse);
    }
    let folder = open_folder(&rt, name.as_str())?;
    file.sync_all()?;
    folder.sync_all()?;
    let new_name = format!(in rt.alloc(); "{}.new", name.as_str())?;
    Ok(HostFile {
        rt,
        file,
        folder,
        name,
        new_name,
        calls: Calls::new(),
    })
}
