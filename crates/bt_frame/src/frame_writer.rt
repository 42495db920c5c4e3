//! Writing frames.
ghost use Rattle.std.specs.Prelude.{◌≡◌, ◌<◌, ◌^◌, ◌++◌, false, true, IsErrOf, OnErr, OnOk, length};
ghost use Rattle.std.specs.Io.KnownBytes.{Keeps};
ghost use Rattle.bt_script.specs.Streams.{Took, TookPrefix, count_of, has_failed, has_unflushed, source_of};
ghost use Rattle.bt_frame.specs.Frames.{FramesArrive, frame};

use crate::header::{MAGIC, number_bytes};
use bt_script::{Counted, RunFault, write_text};
use std::alloc::AllocError;
use std::io::Write;

/// Flushes what was written. A flush that fails is a failed write.
pub fn flush_written<W: Write>(writer: &mut Counted<W>) -> Result<(), RunFault>
    ensures bytes { Keeps (W.contents (source_of writer.old)) (W.contents (source_of writer.new)) }
    ensures count { count_of writer.new ≡ count_of writer.old }
    ensures healthy { OnOk result (has_failed writer.new ≡ has_failed writer.old) }
    ensures flushed { OnOk result (has_unflushed writer.new ≡ false) }
    ensures fault { OnErr result (IsErrOf result RunFault.Write × (has_failed writer.new ≡ true)) }
{
    if writer.flush().is_err() {
        return Err(RunFault::Write);
    }
    Ok(())
}

/// Writes a frame of this kind and payload, and flushes it. If it fails, a prefix of the frame is written.
pub fn send<W: Write>(writer: &mut Counted<W>, kind: u8, payload: &[u8]) -> Result<(), RunFault>
    ensures ok { OnOk result (Took W.contents writer.old writer.new (frame kind payload.now)) }
    ensures healthy { OnOk result (has_failed writer.new ≡ has_failed writer.old) }
    ensures flushed { OnOk result (has_unflushed writer.new ≡ false) }
    ensures err { OnErr result (TookPrefix W.contents writer.old writer.new (frame kind payload.now)) }
    ensures fault { OnErr result (IsErrOf result RunFault.Write × (has_failed writer.new ≡ true)) }

    // Any frame that fits a limit arrives as it was sent.
    ensures arrives { FramesArrive }
{
    write_text(writer, MAGIC.as_slice())?;
    write_text(writer, &number_bytes(payload.len() as u64))?;
    write_text(writer, &[kind])?;
    write_text(writer, payload)?;
    flush_written(writer)
}

/// Adds a frame of this kind and payload to bytes. After an `Err` a part of it may be there.
pub fn add_frame(bytes: &mut Vec<u8>, kind: u8, payload: &[u8]) -> Result<(), AllocError>
    ensures added { OnOk result (bytes.new.items ≡ bytes.old.items ++ frame kind payload.now) }
    ensures fits { OnOk result (length payload.now < 2 ^ 64) }
{
    bytes.extend_from_slice(MAGIC.as_slice())?;
    bytes.extend_from_slice(&number_bytes(payload.len() as u64))?;
    bytes.push(kind)?;
    bytes.extend_from_slice(payload)
}
