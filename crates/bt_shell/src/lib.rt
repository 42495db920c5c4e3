//! Scripts of table commands: the reply to each command, and the run of a script from the bytes of a reader to the bytes of a writer.
//!
//! A script is any list of bytes. It is cut into lines, and the lines into commands. Each command gets one reply: its result, or the
//! lowest refusal that applies; a refused command changes nothing. It is proved that a run writes `run` of the script, a definition over
//! lines, commands and a map of rows.
//!
//! ```text
//! let mut reader = Counted::new(b"table 4 3 2 1 id:int qty:int\nbatch\nput 1,10\nend\n".as_slice());
//! let mut writer = Counted::new(Vec::new(alloc));
//! let crew = Crew::new(4, 2, 64, NoGate)?;
//! run_script(&rt, alloc, &mut reader, &mut writer, &crew)?;        // table 2, batch 1
//! ```
//!
//! A table that outlives one script takes further scripts with [`run_commands`]. Two scripts are one run if the first ends between two
//! commands.
#![tactic(auto)]

mod arguments;
mod check;
mod log;
mod program_run;
mod replies;
mod reply_text;
mod script_run;
mod turn;
mod workforce;

pub use arguments::arguments_of;
pub use bt_gang::{Context, Crew, Gate, NoGate};
pub use bt_script::{
    BlockText, Bounds, Capacity, Command, Counted, IndexForm, Items, Parsed, RunFault,
    SCRIPT_LIMIT, SumsForm, TableForm, Words, WordsError, parse_command, read_words,
};
pub use bt_table::{Alone, Workforce};
pub use check::check_commands;
pub use log::{CommandLog, NoLog, ReplyKind};
pub use program_run::{ProgramFault, program};
pub use replies::Lines;
pub use reply_text::ReplyRoom;
pub use script_run::{replies_to, run_commands, run_script};
pub use workforce::ScriptWorkforce;
