//! Runs a script of table commands from a file or from standard input.
#![tactic(auto)]

use bt_shell::{Counted, ProgramFault, RunFault, arguments_of, program, read_words};
use bt_value::Texts;
use std::alloc::Global;
use std::io::{self, BufWriter, IsTerminal, Read, Write};
use std::process::ExitCode;
use std::rt::{Env, Files};
use std::sync::Wait;
use std::thread::Threads;

// Whether the arguments name no file, so that the script is read from standard input.
fn names_no_file(alloc: Global, arguments: &Texts) -> bool {
    match read_words(alloc, arguments) {
        Ok(settings) => settings.script.is_none(),
        Err(_) => false,
    }
}

// Passes the arguments and the streams on. Replies are written through a buffer. If the input is a terminal, a line reports what the program waits for; an error of
// that stream is ignored.
fn run<R, I, E>(rt: &R, input: I, errors: &mut Counted<E>) -> Result<u8, ProgramFault>
where
    R: Env + Files + AllocGlobal + Print + Threads + Wait + Sync,
    I: Read + IsTerminal + Drop,
    E: Write,
{
    let arguments = arguments_of(rt)?;
    if input.is_terminal() && names_no_file(rt.alloc(), &arguments) {
        let _ = writeln!(
            errors,
            "betable: reads a script from the terminal until its end (Ctrl-D)"
        );
    }
    let Ok(output) = BufWriter::new(rt.alloc(), io::writer(rt)) else {
        return Err(ProgramFault::Run(RunFault::OutOfMemory));
    };
    Ok(program(
        rt,
        &arguments,
        &mut Counted::new(input),
        &mut Counted::new(output),
        errors,
    ))
}

fn main(rt: HostRuntime) -> ExitCode {
    let mut errors = Counted::new(rt.stderr());
    let status = match run(&rt, rt.reader(), &mut errors) {
        Ok(status) => status,
        Err(fault) => fault.report(&mut errors),
    };
    ExitCode::from(status)
}
