//! Running a script.
ghost use Rattle.std.specs.Prelude.{◌≡◌, ◌+◌, ◌<◌, ◌^◌, false, true, flat_map, IfOk, IfSome, IsErrOf, OnErr, OnOk, ℕ, List, Some};
ghost use Rattle.std.specs.Io.KnownBytes.{Keeps};
ghost use Rattle.bt_script.specs.Commands.{commands};
ghost use Rattle.bt_script.specs.Streams.{FailsToGive, GaveAtMost, GivesWithin, Took, TookPrefix, count_of, has_failed, has_unflushed, script_limit, source_of};
ghost use Rattle.bt_shell.specs.Contents.{BatchesAreFolded, CutsDoNotShow, NoTreeShows, ShapeIsNoContent, UpkeepKeepsContents};
ghost use Rattle.bt_shell.specs.Faults.{LogsWholeReplies, StopsBetweenReplies, StopsWithinReply, lost_reply};
ghost use Rattle.bt_shell.specs.Logs.{ReadsChangeNothing, logged};
ghost use Rattle.bt_shell.specs.Runs.{AreOneRun, EndsBetweenCommands, IsWholeRun, WritesPrefix, WritesReplies, after_commands, one_where, refused_count, replies, run, state_after_commands};
ghost use Rattle.bt_shell.specs.Steps.{State};
ghost use Rattle.bt_table.specs.Standing.{CompleteIndexesHold, IsConsistent, IsSound};
ghost use Rattle.bt_table.specs.Tables.{Lost};

use crate::log::{CommandLog, NoLog};
use crate::reply_text::ReplyRoom;
use crate::turn::next_reply;
use crate::workforce::ScriptWorkforce;
use bt_gang::Context;
use bt_script::{Counted, RunFault, read_script};
use bt_table::Table;
use std::alloc::Global;
use std::io::{Read, Write};

// Flushes what was written. A flush that fails is a failed write.
pub(crate) fn flush_output<W: Write>(writer: &mut Counted<W>) -> Result<(), RunFault>
    ensures bytes { Keeps (W.contents (source_of writer.old)) (W.contents (source_of writer.new)) }
    ensures count { count_of writer.new ≡ count_of writer.old }
    ensures healthy { OnOk result (has_failed writer.new ≡ has_failed writer.old) }
    ensures flushed { OnOk result (has_unflushed writer.new ≡ false) }
    ensures fault { OnErr result (IsErrOf result RunFault.Write × (has_failed writer.new ≡ true)) }
{
    if writer.flush().is_err() {
        return Err(RunFault::Write);
    }
    Ok(())
}

// The number of refused commands after one more command.
fn count_with(count: usize, refused: bool) -> usize
    requires { count + 1 < 2 ^ 64 }
    ensures { result ≡ count + one_where refused }
{
    if refused { count + 1 } else { count }
}

// What is true of a table between any two calls. It does nothing.
fn soundness(table: &Option<Table>)
    ensures { IfSome table.now IsConsistent }
{
    if let Some(table) = table {
        let _schema = table.schema();
    }
}

// What is true of all states and commands, and of those of a script. It does nothing.
fn laws(_script: &[u8])
    ensures reads { ReadsChangeNothing }
    ensures one_run { (first : List ℕ) (before : State) → EndsBetweenCommands first → AreOneRun before first _script.now }
    ensures no_tree { NoTreeShows }
    ensures upkeep { UpkeepKeepsContents }
    ensures shape { ShapeIsNoContent }
    ensures folded { BatchesAreFolded }
    ensures cuts { CutsDoNotShow }
{}

/// Carries out the commands of a script, writes the reply to each of them, and flushes the replies. The commands start from a table that outlives the run, or
/// from none. Returns the number of commands that were refused. The log is told of each command after its reply was written.
///
/// The replies are those that the definition `replies` gives for the commands from that table on, and the table afterwards is the one that the commands leave.
/// So the runs of two scripts, one after the other, are the run of both as one script, if the first ends between two commands. `Write`: the writer failed.
/// `OutOfMemory`: an allocation failed, and each reply of which a byte is written is whole.
///
/// After a fault the table is the one after the commands with whole replies, the one after one more command, or lost, and the log has commands with whole
/// replies: all of them, or all but the last. A lost table stays lost, and each command on it except `table` is refused as `Failed`.
pub fn run_commands<W: Write, L: CommandLog, T, C: ScriptWorkforce<T>>(
    context: &Context<'_, T, C>,
    script: &[u8],
    table: &mut Option<Table>,
    writer: &mut Counted<W>,
    log: &mut L,
) -> Result<usize, RunFault>
    requires ready { C.accepts context.now.crew.now }
    ensures ok { OnOk result (Took W.contents writer.old writer.new (replies table.old (commands script.now))) }
    ensures state { OnOk result (table.new ≡ after_commands table.old (commands script.now)) }
    ensures refused { IfOk result (λ count. count ≡ refused_count table.old (commands script.now)) }
    ensures log { OnOk result (log.new ≡ logged L.added log.old (count_of writer.old) table.old (commands script.now)) }
    ensures healthy { OnOk result (has_failed writer.new ≡ has_failed writer.old) }
    ensures flushed { OnOk result (has_unflushed writer.new ≡ false) }
    ensures err { OnErr result (TookPrefix W.contents writer.old writer.new (replies table.old (commands script.now))) }

    // The fault, the number of commands that have their whole replies, and the table that is left.
    ensures no_read { IsErrOf result RunFault.Read → ⊥ }
    ensures write { IsErrOf result RunFault.Write → (has_failed writer.new ≡ true) × StopsWithinReply (Took W.contents writer.old writer.new) table.old table.new script.now }
    ensures memory { IsErrOf result RunFault.OutOfMemory → (has_failed writer.new ≡ has_failed writer.old) × StopsBetweenReplies (Took W.contents writer.old writer.new) table.old table.new script.now }

    // The log has the first commands, and the whole replies to them are written.
    ensures log_after_fault { OnErr result (LogsWholeReplies L.added (Took W.contents writer.old writer.new) log.old log.new (count_of writer.old) table.old script.now) }

    // A lost table stays lost, and each command on it except `table` is refused as Failed.
    ensures lost { table.old ≡ Some Lost → (table.new ≡ Some Lost) × (replies table.old (commands script.now) ≡ flat_map lost_reply (commands script.now)) }

    // After any result the table is sound unless it is lost, and so each complete index holds exactly the entries that its definition selects from the rows.
    ensures consistent { IfSome table.new IsConsistent }

    // A run that ends Ok loses no table.
    ensures kept { IfSome table.old IsSound → OnOk result (IfSome table.new IsSound) }

    // A command that reads or is refused leaves the same table.
    ensures reads { ReadsChangeNothing }

    // This script, after any script that ends between two commands, is the rest of one script.
    ensures one_run { (first : List ℕ) (before : State) → EndsBetweenCommands first → AreOneRun before first script.now }

    // The reply to an image depends on trees, and so does whether a load is accepted. No other reply depends on trees, shapes, upkeep or the cutting of
    // batches.
    ensures no_tree { NoTreeShows }
    ensures upkeep { UpkeepKeepsContents }
    ensures shape { ShapeIsNoContent }
    ensures folded { BatchesAreFolded }
    ensures cuts { CutsDoNotShow }
{
    soundness(table);
    laws(script);
    let mut at = 0;
    let mut refused = 0;
    let mut room = ReplyRoom::new(context.alloc);
    'commands: while let Some((reply, next)) = next_reply(context, script, table, at, room)? {
        reply.text.write_to(writer)?;
        log.add(writer.count(), reply.kind)?;
        refused = count_with(refused, reply.kind.is_refusal());
        at = next;
        room = reply.text.into_room();
    }
    flush_output(writer)?;
    Ok(refused)
}

/// The replies to the commands of a script, which are carried out one after the other and begin with no table.
pub fn replies_to<T, C: ScriptWorkforce<T>>(
    rt: &T,
    alloc: Global,
    script: &[u8],
    workforce: &C,
) -> Result<Vec<u8>, RunFault>
    requires ready { C.accepts workforce.now }
    ensures replies { IfOk result (λ text. text.items ≡ run script.now) }
    ensures memory { OnErr result (IsErrOf result RunFault.OutOfMemory) }
{
    let mut table = None;
    let mut writer = Counted::new(Vec::new(alloc));
    let context = Context {
        rt,
        alloc,
        crew: workforce,
    };
    match run_commands(&context, script, &mut table, &mut writer, &mut NoLog) {
        Ok(_refused) => Ok(writer.into_inner()),
        // A vector takes all bytes if there is memory for them.
        Err(_fault) => Err(RunFault::OutOfMemory),
    }
}

/// What a run has in memory between commands: the script, and the table if there is one. The caller decides whether it is freed after the run.
#[derive(Drop)]
pub(crate) struct RunMemory {
    script: Vec<u8>,
    table: Option<Table>,
}

impl RunMemory {
    pub(crate) fn new(alloc: Global) -> Self {
        RunMemory {
            script: Vec::new(alloc),
            table: None,
        }
    }

    // Runs a script, as `run_script` says; what was here before is dropped.
    pub(crate) fn run<R: Read, W: Write, T, C: ScriptWorkforce<T>>(
        &mut self,
        context: &Context<'_, T, C>,
        reader: &mut Counted<R>,
        writer: &mut Counted<W>,
    ) -> Result<(), RunFault>
        requires ready { C.accepts context.now.crew.now }
        requires reads { has_failed reader.old ≡ false }
        requires writes { has_failed writer.old ≡ false }
        ensures ok { OnOk result (IsWholeRun R.remaining W.contents reader.old reader.new writer.old writer.new) }
        ensures err { OnErr result (WritesPrefix W.contents (R.remaining (source_of reader.old)) writer.old writer.new) }
        ensures healthy { OnOk result ((has_failed reader.new ≡ false) × (has_failed writer.new ≡ false)) }
        ensures short { OnOk result (GaveAtMost R.remaining reader.old reader.new script_limit) }
        ensures flushed { OnOk result (has_unflushed writer.new ≡ false) }
        ensures read { IsErrOf result RunFault.Read → FailsToGive R.remaining reader.old reader.new script_limit }
        ensures unread { IsErrOf result RunFault.Read → writer.new ≡ writer.old }
        ensures write { IsErrOf result RunFault.Write → has_failed writer.new ≡ true }
        ensures given { IsErrOf result RunFault.Write → GivesWithin R.remaining reader.old reader.new script_limit }
        ensures memory { IsErrOf result RunFault.OutOfMemory → (has_failed reader.new ≡ false) × (has_failed writer.new ≡ false) }
        ensures within { IsErrOf result RunFault.OutOfMemory → GaveAtMost R.remaining reader.old reader.new script_limit }
        ensures replies { IsErrOf result RunFault.OutOfMemory → WritesReplies W.contents (R.remaining (source_of reader.old)) writer.old writer.new }
        ensures at_most { GaveAtMost R.remaining reader.old reader.new (script_limit + 1) }
    {
        self.script = read_script(context.alloc, reader)?;
        self.table = None;
        run_commands(
            context,
            self.script.as_slice(),
            &mut self.table,
            writer,
            &mut NoLog,
        )?;
        Ok(())
    }
}

/// Runs a script: reads all of it, then writes the reply to each of its commands and flushes them.
///
/// The replies are those of the definition `run` for the bytes that the reader had; after a fault a prefix of them is written. `Read`: the reader failed, or
/// gave a byte over [`SCRIPT_LIMIT`](crate::SCRIPT_LIMIT), and nothing is written. `Write`: the writer failed. `OutOfMemory`: an allocation failed, and nothing
/// of the reply to the current command is written.
///
/// The replies are the same for a crew of any number of workers and for the caller alone, and for any order in which workers take their jobs.
pub fn run_script<R: Read, W: Write, T, C: ScriptWorkforce<T>>(
    rt: &T,
    alloc: Global,
    reader: &mut Counted<R>,
    writer: &mut Counted<W>,
    crew: &C,
) -> Result<(), RunFault>
    requires ready { C.accepts crew.now }
    requires reads { has_failed reader.old ≡ false }
    requires writes { has_failed writer.old ≡ false }
    ensures ok { OnOk result (IsWholeRun R.remaining W.contents reader.old reader.new writer.old writer.new) }
    ensures err { OnErr result (WritesPrefix W.contents (R.remaining (source_of reader.old)) writer.old writer.new) }
    ensures healthy { OnOk result ((has_failed reader.new ≡ false) × (has_failed writer.new ≡ false)) }
    ensures short { OnOk result (GaveAtMost R.remaining reader.old reader.new script_limit) }
    ensures flushed { OnOk result (has_unflushed writer.new ≡ false) }

    // The fault, and what it leaves.
    ensures read { IsErrOf result RunFault.Read → FailsToGive R.remaining reader.old reader.new script_limit }
    ensures unread { IsErrOf result RunFault.Read → writer.new ≡ writer.old }
    ensures write { IsErrOf result RunFault.Write → has_failed writer.new ≡ true }
    ensures given { IsErrOf result RunFault.Write → GivesWithin R.remaining reader.old reader.new script_limit }
    ensures memory { IsErrOf result RunFault.OutOfMemory → (has_failed reader.new ≡ false) × (has_failed writer.new ≡ false) }
    ensures within { IsErrOf result RunFault.OutOfMemory → GaveAtMost R.remaining reader.old reader.new script_limit }
    ensures replies { IsErrOf result RunFault.OutOfMemory → WritesReplies W.contents (R.remaining (source_of reader.old)) writer.old writer.new }

    // Between any two commands of any script the table, if there is one, is sound.
    ensures sound { (script : List ℕ) (n : ℕ) → IfSome (state_after_commands script n) IsSound }

    // So each complete index holds exactly the entries that its definition selects from the rows.
    ensures complete { (script : List ℕ) (n : ℕ) → IfSome (state_after_commands script n) CompleteIndexesHold }

    // At most one byte over the limit is read.
    ensures at_most { GaveAtMost R.remaining reader.old reader.new (script_limit + 1) }
{
    RunMemory::new(alloc).run(&Context { rt, alloc, crew }, reader, writer)
}
