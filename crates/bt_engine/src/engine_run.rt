//! The engine as a program, generic in its runtime and its streams.
ghost use Rattle.std.specs.Prelude.{◌≡◌, ◌≢◌, ◌≤◌, ◌⊎◌, [], false, true, IfOk, IsErrOf, OnErr, OnOk};
ghost use Rattle.bt_script.specs.Options.{AreWithinLimits};
ghost use Rattle.bt_script.specs.Streams.{Took, has_failed, has_unflushed, source_of};
ghost use Rattle.bt_shell.specs.Programs.{AreHealthy};
ghost use Rattle.bt_shell.specs.Statuses.{TookLine, status_of};
ghost use Rattle.bt_engine.specs.Options.{AsksHelp, IsFaulty, IsToServe, MustBeRefused, NamesNoFile, most_given};
ghost use Rattle.bt_frame.specs.Services.{HasTooMany};
ghost use Rattle.bt_engine.specs.Runs.{EndsBetween, EndsBy, WritesReplies, WritesSomeReplies, WritesWholeReplies};

use crate::arguments::{EngineWords, read_engine_words};
use crate::table_service::TableService;
use bt_frame::{flush_written, serve};
use bt_gang::{Context, Crew, NoGate};
use bt_script::{Counted, RunFault, WordsError, write_text};
use bt_shell::ProgramFault;
use bt_value::Texts;
use std::io::{Read, Write};
use std::mem;
use std::sync::Wait;
use std::thread::Threads;

/// The crew of the sizes in the settings.
pub fn crew_of(settings: &EngineWords) -> Crew<NoGate>
    requires { AreWithinLimits settings.now.workers settings.now.cut settings.now.grain }
    ensures sizes { (result.workers ≡ settings.now.workers) × (result.cut ≡ settings.now.cut) × (result.grain ≡ settings.now.grain) }
{
    match Crew::new(settings.workers, settings.cut, settings.grain, NoGate) {
        Ok(crew) => crew,
        Err(_) => unreachable!(),
    }
}

// Serves with these settings. The memory is not freed: the process ends here, which frees all of it at once.
fn serve_by_crew<R: AllocGlobal + Threads + Wait + Sync, I: Read, W: Write>(
    rt: &R,
    settings: &EngineWords,
    input: &mut Counted<I>,
    output: &mut Counted<W>,
) -> Result<(), RunFault>
    requires limits { AreWithinLimits settings.now.workers settings.now.cut settings.now.grain }
    requires flushed { has_unflushed output.old ≡ false }
    requires reads { has_failed input.old ≡ false }
    requires writes { has_failed output.old ≡ false }
    ensures ok { OnOk result (WritesReplies W.contents settings.now.most (I.remaining (source_of input.old)) output.old output.new) }
    ensures err { OnErr result (WritesSomeReplies W.contents settings.now.most (I.remaining (source_of input.old)) output.old output.new) }
    ensures healthy { OnOk result (AreHealthy input.new output.new) }
    ensures flushed { OnOk result (has_unflushed output.new ≡ false) }
    ensures read { IsErrOf result RunFault.Read → (has_failed input.new ≡ true) ⊎ HasTooMany settings.now.most (I.remaining (source_of input.old)) }
    ensures write { IsErrOf result RunFault.Write → has_failed output.new ≡ true }
    ensures memory { IsErrOf result RunFault.OutOfMemory → AreHealthy input.new output.new }
    ensures whole_before_read { IsErrOf result RunFault.Read → WritesWholeReplies W.contents settings.now.most (I.remaining (source_of input.old)) output.old output.new }
    ensures whole { IsErrOf result RunFault.OutOfMemory → WritesWholeReplies W.contents settings.now.most (I.remaining (source_of input.old)) output.old output.new }
{
    let crew = crew_of(settings);
    let context = Context {
        rt,
        alloc: rt.alloc(),
        crew: &crew,
    };
    let mut service = TableService::new();
    let ended = serve(
        context.alloc,
        &mut service,
        &context,
        settings.most as u64,
        input,
        output,
    );
    mem::forget(service);
    let _is_change = ended?;
    Ok(())
}

// Serves with the settings that the arguments give, or prints the help text.
fn serve_arguments<R: AllocGlobal + Threads + Wait + Sync, I: Read, W: Write>(
    rt: &R,
    arguments: &Texts,
    input: &mut Counted<I>,
    output: &mut Counted<W>,
) -> Result<(), ProgramFault>
    requires flushed { has_unflushed output.old ≡ false }
    requires reads { has_failed input.old ≡ false }
    requires writes { has_failed output.old ≡ false }
    ensures ok { OnOk result (IsToServe arguments.now → WritesReplies W.contents (most_given arguments.now) (I.remaining (source_of input.old)) output.old output.new) }
    ensures err { OnErr result (IsToServe arguments.now → WritesSomeReplies W.contents (most_given arguments.now) (I.remaining (source_of input.old)) output.old output.new) }
    ensures healthy { OnOk result (AreHealthy input.new output.new) }
    ensures flushed { OnOk result (has_unflushed output.new ≡ false) }
    ensures arguments { OnOk result (IsToServe arguments.now ⊎ AsksHelp arguments.now) }

    // The fault, and what it leaves.
    ensures faulty { IsErrOf result ProgramFault.Arguments → IsFaulty arguments.now × (output.new ≡ output.old) }
    ensures refused { MustBeRefused arguments.now → IsErrOf result ProgramFault.Arguments ⊎ IsErrOf result (ProgramFault.Run RunFault.OutOfMemory) }
    ensures unread { MustBeRefused arguments.now → (input.new ≡ input.old) × (output.new ≡ output.old) }
    ensures script { IsErrOf result (ProgramFault.Run RunFault.Read) → IsToServe arguments.now }
    ensures read { IsErrOf result (ProgramFault.Run RunFault.Read) → (has_failed input.new ≡ true) ⊎ HasTooMany (most_given arguments.now) (I.remaining (source_of input.old)) }
    ensures write { IsErrOf result (ProgramFault.Run RunFault.Write) → has_failed output.new ≡ true }
    ensures memory { IsErrOf result (ProgramFault.Run RunFault.OutOfMemory) → AreHealthy input.new output.new }
    ensures whole_before_read { IsErrOf result (ProgramFault.Run RunFault.Read) → EndsBetween I.remaining W.contents arguments.now input.old input.new output.old output.new }
    ensures whole { IsErrOf result (ProgramFault.Run RunFault.OutOfMemory) → EndsBetween I.remaining W.contents arguments.now input.old input.new output.old output.new }
{
    match read_engine_words(rt.alloc(), arguments) {
        Ok(settings) => Ok(serve_by_crew(rt, &settings, input, output)?),
        Err(WordsError::Faulty) => Err(ProgramFault::Arguments),
        Err(WordsError::Help(text)) => {
            write_text(output, text.as_bytes())?;
            Ok(flush_written(output)?)
        }
        Err(WordsError::OutOfMemory) => Err(ProgramFault::Run(RunFault::OutOfMemory)),
    }
}

/// Runs the engine with its arguments and three streams, and returns its exit status. The first word is the program's name. 0: all that arrived has its reply, or the
/// help text was printed. 1: `read failed`, `write failed` or `out of memory`. 2: `faulty command line`. If the status is not 0, one line with that text, after
/// `betable: `, is written to the error stream.
pub fn engine<R: AllocGlobal + Threads + Wait + Sync, I: Read, W: Write, E: Write>(
    rt: &R,
    arguments: &Texts,
    input: &mut Counted<I>,
    output: &mut Counted<W>,
    errors: &mut Counted<E>,
) -> u8
    // A table that is to be in a file is not served in memory.
    requires unkept { NamesNoFile arguments.now }
    requires flushed { has_unflushed output.old ≡ false }
    requires reads { has_failed input.old ≡ false }
    requires writes { has_failed output.old ≡ false }
    ensures status { result ≤ 2 }

    // The replies to what arrives of the bytes of the input, in which a payload has at most the bytes that the arguments allow.
    ensures ok { result ≡ 0 → IsToServe arguments.now → WritesReplies W.contents (most_given arguments.now) (I.remaining (source_of input.old)) output.old output.new }
    ensures prefix { IsToServe arguments.now → WritesSomeReplies W.contents (most_given arguments.now) (I.remaining (source_of input.old)) output.old output.new }

    // What each status means.
    ensures arguments { result ≡ 0 → IsToServe arguments.now ⊎ AsksHelp arguments.now }
    ensures healthy { result ≡ 0 → AreHealthy input.new output.new }
    ensures flushed { result ≡ 0 → has_unflushed output.new ≡ false }
    ensures quiet { result ≡ 0 → errors.new ≡ errors.old }
    ensures cause { result ≢ 0 → (fault : ProgramFault) × (result ≡ status_of fault) × EndsBy I.remaining W.contents arguments.now input.old input.new output.old output.new fault
        × TookLine E.contents errors.old errors.new fault }
    ensures faulty { result ≡ 2 → IsFaulty arguments.now }
    ensures refused { MustBeRefused arguments.now → (result ≡ 2) ⊎ (result ≡ 1) }
    ensures unread { MustBeRefused arguments.now → (input.new ≡ input.old) × (output.new ≡ output.old) }
{
    match serve_arguments(rt, arguments, input, output) {
        Ok(()) => 0,
        Err(fault) => fault.report(errors),
    }
}
