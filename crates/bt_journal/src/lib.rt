//! A state that a crash does not lose: each payload that changes it is in a file before it is acknowledged.
//!
//! ```text
//! let mut store = Store::open(alloc, disk, head, machine)?;   // runs the payloads that the file has
//! store.run(alloc, payload, &mut answer)?;                            // from here on, each crash leaves a file that has the payload
//! ```
//!
//! A [`Machine`] is a state that payloads change, such as a table that scripts change. A [`Store`] runs payloads on a machine, and adds those that may change it
//! to a file. A [`Disk`] is such a file with a clock: its clauses say what a crash at any moment may leave. It is proved of `Store` that, at each moment of each
//! call, the file that a crash leaves stands for the state before the payload or after it, and that opening it finds this state.
//!
//! The file has frames. Each is the size of the frame, a sum of 64 bits, and a payload:
//!
//! ```text
//! head     size 40, sum, 24 bytes: format, engine, salt
//! frame    size,    sum, payload
//! ..
//! zeros    written ahead of the next frames
//! ```
//!
//! - **Seeds.** The sum of a frame begins with its seed, and that of the first frame after the head is the salt. The next seed is larger by the size of the frame.
//!   So a seed says where a frame is, and a frame can be tested without those before it.
//! - **Torn writes.** A write that a crash interrupts leaves a frame that is not whole or has a wrong sum, and the file ends before it. The one exception is a
//!   *forgery*: other bytes than were written have the right sum. Each clause that a forgery can break says so.
//! - **Damage.** One frame is written at a time, so a crash leaves no frame after the one that is torn. If there is one, a frame before it was damaged, and the
//!   file is refused. Damage in the last frame looks like a torn write.
//! - **Checkpoints.** A machine with the trait [`Compact`] can put one payload for its whole state in the place of all others: a new file with a new salt is
//!   written, and gets the name of the old one. One is due once the file has 16 MiB, and has become twice as long.
//! - **Groups.** Payloads of a machine with the trait [`Join`] can be parts of one. A [`Group`] runs them one after the other, and keeps them by one frame.
//! - **Hosts.** A library that may not open files says which calls of the file its host is to make: see [`HostDisk`].
#![tactic(auto)]

mod disk;
mod fault;
mod file_end;
mod frame;
mod group;
mod head;
mod journal;
mod laws;
mod machine;
mod opening;
mod reading;
mod replay;
mod steps;
mod store;

pub use disk::{Disk, DiskFailed, HostCall, HostDisk, ReadDisk};
pub use fault::Fault;
pub use frame::sum_after;
pub use group::Group;
pub use head::Head;
pub use laws::{damage, salts};
pub use machine::{Compact, Join, Machine};
pub use reading::Opening;
pub use store::Store;
