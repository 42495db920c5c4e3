//! The engine: a process that keeps a table and answers requests, which come in frames, by the workers of a crew.
//!
//! A request is a frame of `bt_frame`, whose kind says what is asked: a script, its check, packed changes, or a question in packed bytes. The reply is a frame
//! whose kind is its status: done, refused, or invalid if what arrived is no request. Each reply is written and flushed before the next request is read. It is
//! proved that the replies are those of the definition `served`, which knows no workers.
//!
//! ```text
//! let crew = Crew::new(4, 2, 64, NoGate)?;
//! serve_table(&rt, alloc, &mut reader, &mut writer, 67_108_864, &crew)?;      // until the input ends
//! ```
//!
//! The kinds of requests, by number: 1 script, 2 check, 3 apply, 4 get, 5 page, 6 last page, 7 sums, 8 columns, 9 usage, 10 trees, 11 explain. The payload of 1, 2 and
//! 11 is a script, and of the others packed bytes (`bt_packed`).
//!
//! The payload of a reply:
//!
//! - 0, done. To a script: the text of the replies; of each command the place where its reply ends in the text (eight bytes) and its kind (one byte: 0 it read, 1 it
//!   could change the table, 2 it was refused); and the length of the text (eight bytes). To a check: the same, with no text. To packed changes: nothing. To a
//!   question: packed bytes. To explain: why the first command of the script is refused because of its records, as the number of the refusal, the item and the field at
//!   fault and the number of what is wrong (`bt_fault::Problem`), each in eight bytes; or nothing.
//! - 1, refused. The number of the refusal, the item and the column at fault, each in eight bytes.
//! - 2, invalid. A name: `UnknownKind`, `TooLong`, `NoFrame` or `CutOff`. After the last two the engine ends.
#![tactic(auto)]

mod arguments;
mod engine_run;
mod local_service;
mod marks;
mod reply;
mod request;
mod serving;
mod table_service;

pub use arguments::{EngineWords, read_engine_words};
pub use engine_run::{crew_of, engine};
pub use local_service::{LocalService, alone};
pub use reply::ReplyStatus;
pub use request::{Request, request_of};
pub use serving::serve_table;
pub use table_service::{ENGINE, FORMAT, TableService};
