//! Reading a whole script, and writing text.
ghost use Rattle.std.specs.Prelude.{◌≡◌, ◌≤◌, ◌+◌, true, length, IfOk, OnOk, OnErr, IfSome, IsErrOf};
ghost use Rattle.bt_script.specs.Streams.{FailsToGive, Gave, GaveAtMost, Took, TookPrefix, error_line, fault_text, has_failed, script_limit, source_of};

use crate::counted::Counted;
use std::alloc::{AllocError, Global};
use std::io::{Read, Write};
use thiserror::Error;

/// The largest number of bytes of a script, 64 MiB.
pub const SCRIPT_LIMIT: usize = 67_108_864;

// The number of bytes that one read asks for.
const PIECE_SIZE: usize = 8_192;

/// Why a run ends early.
#[derive(Debug, Drop, Error)]
#[error("{text}", text = self.text())]
pub enum RunFault {
    /// A read failed, the file of the script did not open, or the script is longer than [`SCRIPT_LIMIT`].
    Read,
    /// A write or a flush failed.
    Write,
    /// An allocation failed.
    OutOfMemory,
}

impl RunFault {
    /// The fault in words, as `Display` shows it. The derive of `Display` has no contract, so the program, whose line of the error stream is proved, writes
    /// this text.
    pub fn text(&self) -> &'static str
        ensures { result.now ≡ fault_text self.now }
    {
        match self {
            RunFault::Read => "read failed",
            RunFault::Write => "write failed",
            RunFault::OutOfMemory => "out of memory",
        }
    }
}

impl From<AllocError> for RunFault {
    ghost use Rattle.std.specs.Prelude.{◌≡◌};
    ghost use Rattle.bt_script.specs.declared.streams.RunFault.TheVariants.{OutOfMemory};

    ghost from_gives = { λ _ e. e ≡ OutOfMemory };

    fn from(_e: AllocError) -> RunFault {
        RunFault::OutOfMemory
    }
}

/// All bytes that the reader has left, at most [`SCRIPT_LIMIT`] of them. After an error the reader is not tried again, not even after an interrupted read.
pub fn read_script<R: Read>(alloc: Global, reader: &mut Counted<R>) -> Result<Vec<u8>, RunFault>
    ensures ok { IfOk result (λ script. Gave R.remaining reader.old reader.new script.items) }
    ensures whole { IfOk result (λ script. IfSome (R.remaining (source_of reader.old)) (λ bytes. bytes ≡ script.items)) }
    ensures short { IfOk result (λ script. length script.items ≤ script_limit) }
    ensures healthy { OnOk result (has_failed reader.new ≡ has_failed reader.old) }
    // At most one byte past the limit is read, also before an error.
    ensures at_most { GaveAtMost R.remaining reader.old reader.new (script_limit + 1) }
    ensures read { IsErrOf result RunFault.Read → FailsToGive R.remaining reader.old reader.new script_limit }
    ensures memory { IsErrOf result RunFault.OutOfMemory → (has_failed reader.new ≡ has_failed reader.old) × GaveAtMost R.remaining reader.old reader.new script_limit }
    ensures write { IsErrOf result RunFault.Write → ⊥ }
{
    let mut script = Vec::new(alloc);
    let mut buffer = Vec::with_capacity(alloc, PIECE_SIZE)?;
    buffer.resize(PIECE_SIZE, 0)?;
    let piece = buffer.as_mut_slice();
    'pieces: loop {
        let left = SCRIPT_LIMIT - script.len();
        let asked = piece.len().min(left + 1);
        match reader.read(&mut piece[..asked]) {
            Ok(0) => return Ok(script),
            Ok(given) if given > left => return Err(RunFault::Read),
            Ok(given) => script.extend_from_slice(&piece[..given])?,
            Err(_) => return Err(RunFault::Read),
        }
    }
}

/// Writes all of the text. If it fails, a prefix of the text is written. A write that fails is not tried again.
pub fn write_text<W: Write>(writer: &mut Counted<W>, text: &[u8]) -> Result<(), RunFault>
    ensures ok { OnOk result (Took W.contents writer.old writer.new text.now) }
    ensures healthy { OnOk result (has_failed writer.new ≡ has_failed writer.old) }
    ensures err { OnErr result (TookPrefix W.contents writer.old writer.new text.now) }
    ensures fault { OnErr result (IsErrOf result RunFault.Write × (has_failed writer.new ≡ true)) }
{
    let mut at = 0;
    while at < text.len() {
        match writer.write(&text[at..]) {
            Ok(taken) if taken > 0 => at += taken,
            _ => return Err(RunFault::Write),
        }
    }
    Ok(())
}

/// Writes this message as a line of the error stream, after `betable: `. If it fails, a prefix of the line is written.
pub fn write_error<W: Write>(errors: &mut Counted<W>, message: &str) -> Result<(), RunFault>
    ensures ok { OnOk result (Took W.contents errors.old errors.new (error_line message.now)) }
    ensures err { OnErr result (TookPrefix W.contents errors.old errors.new (error_line message.now)) }
    ensures fault { OnErr result (has_failed errors.new ≡ true) }
{
    write_text(errors, b"betable: ")?;
    write_text(errors, message.as_bytes())?;
    write_text(errors, b"\n")
}
