//! Serving requests over a reader and a writer.
ghost use Rattle.std.specs.Prelude.{◌≡◌, ◌⊎◌, false, true, IsErrOf, OnErr, OnOk};
ghost use Rattle.bt_script.specs.Streams.{has_failed, has_unflushed, source_of};
ghost use Rattle.bt_frame.specs.Services.{HasTooMany};
ghost use Rattle.bt_engine.specs.Runs.{WritesReplies, WritesSomeReplies, WritesWholeReplies};

use crate::table_service::TableService;
use bt_frame::serve;
use bt_gang::Context;
use bt_packed::PackedWorkforce;
use bt_script::{Counted, RunFault};
use bt_shell::ScriptWorkforce;
use std::alloc::Global;
use std::io::{Read, Write};

/// Serves requests from no table on: carries out each one that arrives, writes its reply and flushes it, before it reads on. It ends with the input, or after the
/// reply to bytes in which no next frame can be found. A payload of more than `most` bytes is passed over.
///
/// The replies are those of the definition `served` for the bytes that the reader had; after a fault a prefix of them is written. `Read`: the reader failed, or more
/// than 2^64 - 2 frames arrived. `Write`: the writer failed. `OutOfMemory`: an allocation failed. Unless the writer failed, each reply of which a byte is written is
/// whole.
///
/// The replies are the same for a crew of any number of workers and for the caller alone, and for any order in which workers take their jobs.
pub fn serve_table<R: Read, W: Write, T, C: ScriptWorkforce<T> + PackedWorkforce<T>>(
    rt: &T,
    alloc: Global,
    reader: &mut Counted<R>,
    writer: &mut Counted<W>,
    most: u64,
    crew: &C,
) -> Result<(), RunFault>
    requires ready { C.accepts crew.now }
    requires flushed { has_unflushed writer.old ≡ false }
    requires reads { has_failed reader.old ≡ false }
    requires writes { has_failed writer.old ≡ false }
    ensures ok { OnOk result (WritesReplies W.contents most (R.remaining (source_of reader.old)) writer.old writer.new) }
    ensures err { OnErr result (WritesSomeReplies W.contents most (R.remaining (source_of reader.old)) writer.old writer.new) }
    ensures healthy { OnOk result ((has_failed reader.new ≡ false) × (has_failed writer.new ≡ false)) }
    ensures flushed { OnOk result (has_unflushed writer.new ≡ false) }

    // The fault, and what it leaves.
    ensures read { IsErrOf result RunFault.Read → (has_failed reader.new ≡ true) ⊎ HasTooMany most (R.remaining (source_of reader.old)) }
    ensures write { IsErrOf result RunFault.Write → has_failed writer.new ≡ true }
    ensures memory { IsErrOf result RunFault.OutOfMemory → (has_failed reader.new ≡ false) × (has_failed writer.new ≡ false) }
    ensures whole { (IsErrOf result RunFault.Read ⊎ IsErrOf result RunFault.OutOfMemory) → WritesWholeReplies W.contents most (R.remaining (source_of reader.old)) writer.old writer.new }
{
    let _is_change = serve(
        alloc,
        &mut TableService::new(),
        &Context { rt, alloc, crew },
        most,
        reader,
        writer,
    )?;
    Ok(())
}
