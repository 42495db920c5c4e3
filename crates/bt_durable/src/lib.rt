//! A service that a crash does not lose: what changes it is in a file before its reply is written.
//!
//! [`ServiceMachine`] makes a service of `bt_frame` the machine of a store of `bt_journal`. A payload of the store is a run of whole frames, so the file has the
//! requests as they arrived, one frame after the other.
//!
//! [`serve_and_keep`] serves requests as `bt_frame`'s `serve` does, and writes the same replies. Requests that were sent ahead are one payload: they need one sync, and a
//! crash leaves all of them or none. Those that change nothing are not in the file, and what arrives and is no request is not either.
//!
//! [`OnceService`] is a service to which requests can be sent again: one with an id runs once, also over crashes.
//!
//! ```text
//! let machine = ServiceMachine::new(alloc, &context, OnceService::new(alloc, service)?);
//! let mut store = Store::open(alloc, disk, head, machine)?;
//! serve_and_keep(alloc, &mut store, 67_108_864, input, &mut output)?;
//! ```
#![tactic(auto)]

mod groups;
mod keeping;
mod once;
mod replying;
mod service_machine;

pub use groups::Ahead;
pub use keeping::serve_and_keep;
pub use once::OnceService;
pub use replying::KeepFault;
pub use service_machine::ServiceMachine;
