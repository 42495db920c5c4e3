//! Marks for a library that refuses allocations: an allocation of a size that no system grants is a message to it.
use anyhow::{Result, bail};
use std::alloc::Global;
use std::io;
use std::io::Write;

// No system grants this many bytes, or more.
const NEVER_GRANTED: usize = 1 << 62;

/// The messages.
#[derive(Clone, Copy)]
pub(crate) enum Mark {
    /// From here on allocations are counted, and may be refused.
    Begin,
    /// From here on no allocation is counted or refused.
    End,
    /// From here on every allocation is refused.
    RefuseAll,
    /// The library notes the number of bytes in use.
    Note,
}

// The size of the allocation that sends a message.
fn size_of(mark: Mark) -> usize {
    match mark {
        Mark::Begin => NEVER_GRANTED,
        Mark::End => NEVER_GRANTED + 1,
        Mark::RefuseAll => NEVER_GRANTED + 2,
        Mark::Note => NEVER_GRANTED + 3,
    }
}

/// Sends a message.
pub(crate) fn set_mark<R: Print + AllocGlobal>(rt: &R, mark: Mark) -> Result<()> {
    match Vec::<u8>::with_capacity(rt.alloc(), size_of(mark)) {
        // No system gets here. A compiler may leave out an allocation whose memory is not used.
        Ok(mut granted) => {
            granted.push(b'\n')?;
            io::writer(rt).write_all(granted.as_slice())?;
            bail!("a request for all memory was granted")
        }
        Err(_) => Ok(()),
    }
}
