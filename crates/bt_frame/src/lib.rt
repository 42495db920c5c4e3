//! Frames: requests and replies on streams of bytes.
//!
//! A frame is the letters `BTF`, the version of the layout (a byte, 1), the length of the payload in eight bytes, the kind in one byte, and the payload. Numbers
//! are little endian.
//!
//! [`receive`] reads one frame, and no byte after it. A payload over a limit is passed over. [`send`] writes a frame and flushes it. The definition `arrivals`
//! says what arrives of any bytes; frames that fit the limit arrive as they were sent.
//!
//! ```text
//! let mut payload = Vec::new(alloc);
//! match receive(&mut reader, 67_108_864, piece.as_mut_slice(), &mut payload)? {
//!     Some(Arrival::Frame(kind)) => send(&mut writer, kind, payload.as_slice())?,
//!     Some(other) => ..                           // too long, no frame, or cut off
//!     None => ..                                  // the end
//! }
//! ```
#![tactic(auto)]

mod arrival;
mod frame_reader;
mod frame_writer;
mod header;
mod service;

pub use arrival::Arrival;
pub use frame_reader::{begins_with_frame, receive};
pub use frame_writer::{add_frame, flush_written, send};
pub use header::number_bytes;
pub use service::{CompactService, RESTORE, Reply, Service, serve};
