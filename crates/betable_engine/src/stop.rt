//! Why the program ends with another status than 0.

use bt_durable::KeepFault;
use bt_file::OpenError;
use bt_journal::Fault;
use bt_script::write_error;
use bt_shell::{Counted, ProgramFault, RunFault};
use std::alloc::AllocError;
use std::io::{self, ErrorKind, Write};

/// Why the program ends with another status than 0.
#[derive(Drop)]
pub(crate) enum Stop {
    Program(ProgramFault),
    File(OpenError),
    Store(Fault),
}

impl From<ProgramFault> for Stop {
    fn from(fault: ProgramFault) -> Self {
        Stop::Program(fault)
    }
}

impl From<OpenError> for Stop {
    fn from(error: OpenError) -> Self {
        Stop::File(error)
    }
}

impl From<KeepFault> for Stop {
    fn from(fault: KeepFault) -> Self {
        match fault {
            KeepFault::Stream(fault) => Stop::Program(ProgramFault::Run(fault)),
            KeepFault::Store(fault) => Stop::Store(fault),
        }
    }
}

impl From<io::Error> for Stop {
    fn from(error: io::Error) -> Self {
        match error.kind() {
            ErrorKind::OutOfMemory => Stop::Store(Fault::OutOfMemory),
            _ => Stop::Program(ProgramFault::Run(RunFault::Read)),
        }
    }
}

impl From<AllocError> for Stop {
    fn from(_: AllocError) -> Self {
        Stop::Store(Fault::OutOfMemory)
    }
}

// What is printed of a file that was not opened.
fn open_text(error: OpenError) -> &'static str {
    match error {
        OpenError::InUse => "the file is in use",
        OpenError::Failed => "the file cannot be opened",
        OpenError::OutOfMemory => "out of memory",
    }
}

// What is printed of a fault of the store.
fn store_text(fault: Fault) -> &'static str {
    match fault {
        Fault::OutOfMemory => "out of memory",
        Fault::Failed => "the disk failed",
        Fault::TooLong => "the file or the requests are too long",
        Fault::Closed => "the file is closed",
        Fault::NotAJournal => "the file is no table",
        Fault::OtherFormat => "the file has another format",
        Fault::OtherEngine => "another engine wrote the file",
        Fault::Damaged => "the file is damaged",
    }
}

// The status for a fault of the store: 2 if the file is not opened for what it has.
fn store_status(fault: Fault) -> u8 {
    match fault {
        Fault::NotAJournal | Fault::OtherFormat | Fault::OtherEngine | Fault::Damaged => 2,
        Fault::OutOfMemory | Fault::Failed | Fault::TooLong | Fault::Closed => 1,
    }
}

impl Stop {
    /// Writes the fault as one line, after `betable: `, and returns the exit status: 1 if a call failed, 2 for faulty arguments or a file that is not opened. An error
    /// of this stream is ignored.
    pub(crate) fn report<E: Write>(&self, errors: &mut Counted<E>) -> u8 {
        match self {
            Stop::Program(fault) => fault.report(errors),
            Stop::File(error) => {
                let _ = write_error(errors, open_text(*error));
                2
            }
            Stop::Store(fault) => {
                let _ = write_error(errors, store_text(*fault));
                store_status(*fault)
            }
        }
    }
}
