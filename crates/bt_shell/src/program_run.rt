//! The program, generic in its runtime and its streams.
ghost use Rattle.std.specs.Prelude.{◌≡◌, ◌≤◌, ◌+◌, ◌≢◌, ◌⊎◌, [], false, true, IfSome, OnOk, OnErr, IsErrOf, ℕ, List};
ghost use Rattle.bt_script.specs.Options.{AreWithinLimits, AsksHelp, IsFaulty, IsToReadInput, MustBeRefused};
ghost use Rattle.bt_script.specs.Streams.{FailsToGive, GaveAtMost, GivesWithin, Took, count_of, has_failed, has_unflushed, script_limit, source_of};
ghost use Rattle.bt_shell.specs.Programs.{AnswersPrefix, AnswersReplies, AnswersScript, AreHealthy, HasCause, IsToRun, LeavesInput};
ghost use Rattle.bt_shell.specs.Runs.{IsWholeRun, WritesPrefix, WritesReplies, WritesRun, state_after_commands};
ghost use Rattle.bt_shell.specs.Statuses.{TookLine, status_of, text_of};
ghost use Rattle.bt_shell.specs.declared.program_run.ProgramFault.{ProgramFault};
ghost use Rattle.bt_table.specs.Standing.{CompleteIndexesHold, IsSound};
ghost use Rattle.std.specs.declared.option.Option.TheVariants.{None};

use crate::script_run::{RunMemory, flush_output};
use bt_gang::{Context, Crew, NoGate};
use bt_script::{Counted, RunFault, Words, WordsError, read_words, write_error, write_text};
use bt_value::Texts;
use std::alloc::AllocError;
use std::io::{Read, Write};
use std::rt::Files;
use std::sync::Wait;
use std::thread::Threads;
use std::{fs, mem};

/// Why the program ends with a status other than 0.
#[derive(Debug, Drop)]
pub enum ProgramFault {
    /// The command line has a fault, so nothing runs.
    Arguments,
    /// The run ended early.
    Run(RunFault),
}

impl From<RunFault> for ProgramFault {
    ghost use Rattle.std.specs.Prelude.{◌≡◌};
    ghost use Rattle.bt_shell.specs.declared.program_run.ProgramFault.TheVariants.{Run};

    ghost from_gives = { λ fault e. e ≡ Run fault };

    fn from(fault: RunFault) -> ProgramFault {
        ProgramFault::Run(fault)
    }
}

impl From<AllocError> for ProgramFault {
    ghost use Rattle.std.specs.Prelude.{◌≡◌};
    ghost use Rattle.bt_shell.specs.declared.program_run.ProgramFault.TheVariants.{Run};
    ghost use Rattle.bt_script.specs.declared.streams.RunFault.TheVariants.{OutOfMemory};

    ghost from_gives = { λ _ e. e ≡ Run OutOfMemory };

    fn from(_e: AllocError) -> ProgramFault {
        ProgramFault::Run(RunFault::OutOfMemory)
    }
}

impl ProgramFault {
    // The text of the fault.
    fn text(&self) -> &'static str
        ensures { result.now ≡ text_of self.now }
    {
        match self {
            ProgramFault::Arguments => "faulty command line",
            ProgramFault::Run(fault) => fault.text(),
        }
    }

    /// Writes the fault as one line, after `betable: `, and returns the exit status: 2 for a fault of the command line, 1 for one of the run.
    /// An error of this stream is ignored.
    pub fn report<E: Write>(&self, errors: &mut Counted<E>) -> u8
        ensures status { result ≡ status_of self.now }
        ensures line { TookLine E.contents errors.old errors.new self.now }
    {
        let _ = write_error(errors, self.text());
        match self {
            ProgramFault::Arguments => 2,
            ProgramFault::Run(_) => 1,
        }
    }
}

// Runs the script of a file. A file that does not open is a read that fails.
fn run_file<R: Files + AllocGlobal + Threads + Wait + Sync, W: Write>(
    rt: &R,
    path: &str,
    crew: &Crew<NoGate>,
    memory: &mut RunMemory,
    output: &mut Counted<W>,
) -> Result<(), RunFault>
    requires writes { has_failed output.old ≡ false }
    ensures ok { OnOk result (WritesRun W.contents None output.old output.new) }
    ensures err { OnErr result (WritesPrefix W.contents None output.old output.new) }
    ensures healthy { OnOk result (has_failed output.new ≡ false) }
    ensures flushed { OnOk result (has_unflushed output.new ≡ false) }
    ensures unread { IsErrOf result RunFault.Read → output.new ≡ output.old }
    ensures write { IsErrOf result RunFault.Write → has_failed output.new ≡ true }
    ensures memory { IsErrOf result RunFault.OutOfMemory → has_failed output.new ≡ false }
    ensures replies { IsErrOf result RunFault.OutOfMemory → WritesReplies W.contents None output.old output.new }
{
    let Ok(file) = fs::open(rt, path) else {
        return Err(RunFault::Read);
    };
    let alloc = rt.alloc();
    let context = Context { rt, alloc, crew };
    memory.run(&context, &mut Counted::new(file), output)
}

// The crew of the sizes in the settings.
fn crew_of(settings: &Words) -> Crew<NoGate>
    requires { AreWithinLimits settings.now.workers settings.now.cut settings.now.grain }
    ensures sizes { (result.workers ≡ settings.now.workers) × (result.cut ≡ settings.now.cut) × (result.grain ≡ settings.now.grain) }
{
    match Crew::new(settings.workers, settings.cut, settings.grain, NoGate) {
        Ok(crew) => crew,
        Err(_) => unreachable!(),
    }
}

// Runs what the arguments ask for. After a fault, what was written is not flushed.
fn run_arguments<R: Files + AllocGlobal + Threads + Wait + Sync, I: Read, W: Write>(
    rt: &R,
    arguments: &Texts,
    memory: &mut RunMemory,
    input: &mut Counted<I>,
    output: &mut Counted<W>,
) -> Result<(), ProgramFault>
    requires reads { has_failed input.old ≡ false }
    requires writes { has_failed output.old ≡ false }
    ensures ok { OnOk result (AnswersScript I.remaining W.contents arguments.now input.old output.old output.new) }
    ensures input { OnOk result (IsToReadInput arguments.now → IsWholeRun I.remaining W.contents input.old input.new output.old output.new) }
    ensures err { OnErr result (AnswersPrefix I.remaining W.contents arguments.now input.old output.old output.new) }
    ensures healthy { OnOk result (AreHealthy input.new output.new) }
    ensures arguments { OnOk result (IsToRun arguments.now ⊎ AsksHelp arguments.now) }
    ensures short { OnOk result (GaveAtMost I.remaining input.old input.new script_limit) }

    // The fault, and what it leaves.
    ensures faulty { IsErrOf result ProgramFault.Arguments → IsFaulty arguments.now }
    ensures refused { MustBeRefused arguments.now → IsErrOf result ProgramFault.Arguments ⊎ IsErrOf result (ProgramFault.Run RunFault.OutOfMemory) }
    ensures unwritten { MustBeRefused arguments.now → output.new ≡ output.old }
    ensures script { IsErrOf result (ProgramFault.Run RunFault.Read) → IsToRun arguments.now }
    ensures read { IsErrOf result (ProgramFault.Run RunFault.Read) → IsToReadInput arguments.now → FailsToGive I.remaining input.old input.new script_limit }
    ensures unread { IsErrOf result (ProgramFault.Run RunFault.Read) → output.new ≡ output.old }
    ensures write { IsErrOf result (ProgramFault.Run RunFault.Write) → has_failed output.new ≡ true }
    ensures given { IsErrOf result (ProgramFault.Run RunFault.Write) → GivesWithin I.remaining input.old input.new script_limit }
    ensures memory { IsErrOf result (ProgramFault.Run RunFault.OutOfMemory) → AreHealthy input.new output.new }
    ensures within { IsErrOf result (ProgramFault.Run RunFault.OutOfMemory) → GaveAtMost I.remaining input.old input.new script_limit }
    ensures replies { IsErrOf result (ProgramFault.Run RunFault.OutOfMemory) → AnswersReplies I.remaining W.contents arguments.now input.old output.old output.new }

    // What is read of the input.
    ensures untouched { LeavesInput arguments.now input.old input.new }
    ensures at_most { GaveAtMost I.remaining input.old input.new (script_limit + 1) }
{
    let settings = match read_words(rt.alloc(), arguments) {
        Ok(settings) => settings,
        Err(WordsError::Faulty) => return Err(ProgramFault::Arguments),
        Err(WordsError::Help(text)) => return Ok(write_text(output, text.as_bytes())?),
        Err(WordsError::OutOfMemory) => return Err(ProgramFault::Run(RunFault::OutOfMemory)),
    };
    let crew = crew_of(&settings);
    match &settings.script {
        None => {
            let alloc = rt.alloc();
            let context = Context {
                rt,
                alloc,
                crew: &crew,
            };
            Ok(memory.run(&context, input, output)?)
        }
        Some(path) => Ok(run_file(rt, path.as_str(), &crew, memory, output)?),
    }
}

// Runs what the arguments ask for, and flushes what was written, also after a fault.
fn run_and_flush<R: Files + AllocGlobal + Threads + Wait + Sync, I: Read, W: Write>(
    rt: &R,
    arguments: &Texts,
    memory: &mut RunMemory,
    input: &mut Counted<I>,
    output: &mut Counted<W>,
) -> Result<(), ProgramFault>
    requires reads { has_failed input.old ≡ false }
    requires writes { has_failed output.old ≡ false }
    ensures ok { OnOk result (AnswersScript I.remaining W.contents arguments.now input.old output.old output.new) }
    ensures input { OnOk result (IsToReadInput arguments.now → IsWholeRun I.remaining W.contents input.old input.new output.old output.new) }
    ensures err { OnErr result (AnswersPrefix I.remaining W.contents arguments.now input.old output.old output.new) }
    ensures healthy { OnOk result (AreHealthy input.new output.new) }
    ensures flushed { OnOk result (has_unflushed output.new ≡ false) }
    ensures arguments { OnOk result (IsToRun arguments.now ⊎ AsksHelp arguments.now) }
    ensures short { OnOk result (GaveAtMost I.remaining input.old input.new script_limit) }

    // The fault, and what it leaves.
    ensures faulty { IsErrOf result ProgramFault.Arguments → IsFaulty arguments.now }
    ensures refused { MustBeRefused arguments.now → IsErrOf result ProgramFault.Arguments ⊎ IsErrOf result (ProgramFault.Run RunFault.OutOfMemory) }
    ensures unwritten { MustBeRefused arguments.now → Took W.contents output.old output.new [] }
    ensures script { IsErrOf result (ProgramFault.Run RunFault.Read) → IsToRun arguments.now }
    ensures read { IsErrOf result (ProgramFault.Run RunFault.Read) → IsToReadInput arguments.now → FailsToGive I.remaining input.old input.new script_limit }
    ensures unread { IsErrOf result (ProgramFault.Run RunFault.Read) → Took W.contents output.old output.new [] }
    ensures write { IsErrOf result (ProgramFault.Run RunFault.Write) → has_failed output.new ≡ true }
    ensures given { IsErrOf result (ProgramFault.Run RunFault.Write) → GivesWithin I.remaining input.old input.new script_limit }
    ensures memory { IsErrOf result (ProgramFault.Run RunFault.OutOfMemory) → GivesWithin I.remaining input.old input.new script_limit }
    ensures replies { IsErrOf result (ProgramFault.Run RunFault.OutOfMemory) → AnswersReplies I.remaining W.contents arguments.now input.old output.old output.new }

    // What is read of the input.
    ensures untouched { LeavesInput arguments.now input.old input.new }
    ensures at_most { GaveAtMost I.remaining input.old input.new (script_limit + 1) }
{
    let ended = run_arguments(rt, arguments, memory, input, output);
    let flushed = flush_output(output);
    ended?;
    Ok(flushed?)
}

/// Runs the program with its arguments and three streams, and returns its exit status. The first word is the program's name. 0: the script ran, or the help text
/// was printed. 1: `read failed`, `write failed` or `out of memory`. 2: `faulty command line`. If the status is not 0, one line with that text, after `betable:
/// `, is written to the error stream.
///
/// If the arguments name no file, the input is the script. With status 0 all of its replies are written to the output, and with any other status a prefix of them.
pub fn program<R: Files + AllocGlobal + Threads + Wait + Sync, I: Read, W: Write, E: Write>(
    rt: &R,
    arguments: &Texts,
    input: &mut Counted<I>,
    output: &mut Counted<W>,
    errors: &mut Counted<E>,
) -> u8
    requires reads { has_failed input.old ≡ false }
    requires writes { has_failed output.old ≡ false }
    ensures status { result ≤ 2 }

    // The script is the one that the arguments name: the input, or a file, whose bytes no contract knows.
    ensures ok { result ≡ 0 → AnswersScript I.remaining W.contents arguments.now input.old output.old output.new }
    ensures input { result ≡ 0 → IsToReadInput arguments.now → IsWholeRun I.remaining W.contents input.old input.new output.old output.new }
    ensures prefix { AnswersPrefix I.remaining W.contents arguments.now input.old output.old output.new }

    // What each status means.
    ensures arguments { result ≡ 0 → IsToRun arguments.now ⊎ AsksHelp arguments.now }
    ensures healthy { result ≡ 0 → AreHealthy input.new output.new }
    ensures short { result ≡ 0 → GaveAtMost I.remaining input.old input.new script_limit }
    ensures flushed { result ≡ 0 → has_unflushed output.new ≡ false }
    ensures quiet { result ≡ 0 → errors.new ≡ errors.old }
    ensures cause { result ≢ 0 → (fault : ProgramFault) × (result ≡ status_of fault) × HasCause I.remaining W.contents arguments.now input.old input.new output.old output.new fault
        × TookLine E.contents errors.old errors.new fault }
    ensures faulty { result ≡ 2 → IsFaulty arguments.now }
    ensures refused { MustBeRefused arguments.now → (result ≡ 2) ⊎ (result ≡ 1) }
    ensures unwritten { MustBeRefused arguments.now → Took W.contents output.old output.new [] }

    // Between any two commands of any script the table, if there is one, is sound.
    ensures sound { (script : List ℕ) (n : ℕ) → IfSome (state_after_commands script n) IsSound }
    ensures complete { (script : List ℕ) (n : ℕ) → IfSome (state_after_commands script n) CompleteIndexesHold }

    // What is read of the input.
    ensures untouched { LeavesInput arguments.now input.old input.new }
    ensures at_most { GaveAtMost I.remaining input.old input.new (script_limit + 1) }
{
    let mut memory = RunMemory::new(rt.alloc());
    let ended = run_and_flush(rt, arguments, &mut memory, input, output);
    // The process ends here, which frees all its memory at once; the nodes of the table are not visited to free them.
    mem::forget(memory);
    match ended {
        Ok(()) => 0,
        Err(fault) => fault.report(errors),
    }
}
