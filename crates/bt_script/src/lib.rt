//! Scripts as text: the lines, words and commands of a script, the arguments of a command line, and the streams that a script is read from
//! and its replies are written to.
//!
//! A script is any list of bytes. It is cut into lines, and the lines into commands; some commands have a block with a closing line.
//! Parsing at a place gives a command, or the refusal of text that is not one, and the place after it.
//!
//! A stream records whether a call on it failed, how many bytes it gave or took, and whether a flush followed the last of them. So a
//! caller can tell a fault from out of memory, and a complete run from one that was cut short, even if no contract knows the bytes.
//!
//! ```text
//! let mut reader = Counted::new(b"table 4 3 2 1 id:int qty:int\nbatch\nput 1,10\nend\n".as_slice());
//! let script = read_script(alloc, &mut reader)?;       // reader.count() is 48
//! let parsed = parse_command(alloc, &script, 0)?;      // Good { command: Table(..), next: 29 }
//! ```
#![tactic(auto)]

mod arguments;
mod blocks;
mod command;
mod counted;
mod forms;
mod line_pieces;
mod lines;
mod load;
mod parse;
mod streams;

pub use arguments::{Words, WordsError, read_words};
pub use command::{Bounds, Capacity, Command, IndexForm, Items, Parsed, SumsForm, TableForm};
pub use counted::Counted;
pub use load::BlockText;
pub use parse::{parse_by_crew, parse_command};
pub use streams::{RunFault, SCRIPT_LIMIT, read_script, write_error, write_text};
