//! What is kept of the commands of a run besides their replies.
ghost use Rattle.std.specs.Prelude.{◌≡◌, ℕ, OnErr, OnOk};
ghost use Rattle.bt_shell.specs.declared.log.ReplyKind.{ReplyKind as reply_kind};
ghost use Rattle.bt_shell.specs.Logs.{is_refusal};

use std::alloc::AllocError;

/// What a command did.
#[derive(Clone, Copy, Debug, Drop, PartialEq, Eq)]
pub enum ReplyKind {
    /// It was carried out, and is one that reads: `get`, `scan`, `sums` or `image`.
    Read,
    /// It was carried out, and is one that can change the table.
    Changed,
    /// It was refused, and changed nothing.
    Refused,
}

impl ReplyKind {
    /// Whether the command was refused.
    pub fn is_refusal(self) -> bool
        ensures { result ≡ is_refusal self }
    {
        match self {
            ReplyKind::Refused => true,
            ReplyKind::Read | ReplyKind::Changed => false,
        }
    }
}

/// Is told of each command of a run, after its whole reply was written.
pub trait CommandLog {
    /// The log after a command: where its reply ends, and what it did.
    ghost added: { Self → ℕ → reply_kind → Self };

    /// Adds a command. Its reply ends after this number of bytes that were written. The number stops at the largest `u64`. An `Err` adds nothing.
    fn add(&mut self, end: u64, kind: ReplyKind) -> Result<(), AllocError>
        ensures adds { OnOk result (self.new ≡ added self.old end kind) }
        ensures unchanged { OnErr result (self.new ≡ self.old) };
}

/// A log that keeps nothing.
#[derive(Clone, Copy, Drop)]
pub struct NoLog;

impl CommandLog for NoLog {
    ghost added = { λ log _ _. log };

    fn add(&mut self, _end: u64, _kind: ReplyKind) -> Result<(), AllocError> {
        Ok(())
    }
}
