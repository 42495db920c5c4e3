//! The arguments of a command line.

use crate::program_run::ProgramFault;
use bt_script::RunFault;
use bt_value::Texts;
use std::env;
use std::io::ErrorKind;
use std::rt::Env;

/// The arguments of the command line; the first is the program's name. A word that is not UTF-8 is a fault.
pub fn arguments_of<R: Env + AllocGlobal>(rt: &R) -> Result<Texts, ProgramFault> {
    let given = match env::args(rt) {
        Ok(given) => given,
        Err(error) if error.kind() == ErrorKind::OutOfMemory => {
            return Err(ProgramFault::Run(RunFault::OutOfMemory));
        }
        Err(_) => return Err(ProgramFault::Arguments),
    };
    let mut arguments = Texts::new(rt.alloc());
    for word in given {
        arguments.push(word.as_str())?;
    }
    Ok(arguments)
}
