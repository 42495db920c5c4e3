//! A call of a file that the host is to make, as C sees it.
ghost use Rattle.std.specs.Prelude.{◌≡◌, option_map, slice_get};
ghost use Rattle.bt_c.specs.Kept.{bytes_at, bytes_of_call, call_in_c};

use bt_journal::HostCall;

/// A call of a file. C has it as `betable_file_call`.
#[repr(C)]
#[derive(Clone, Copy, Drop)]
pub struct CallInC {
    /// 0 to write bytes, 1 to cut the file, 2 to replace it by a new one, 3 to sync it.
    pub kind: u32,
    /// The offset at which bytes are written, or the length to which the file is cut; otherwise 0.
    pub at: u64,
    /// The number of bytes that are written, or that a new file has; otherwise 0.
    pub length: u64,
}

impl CallInC {
    /// A call in C.
    pub fn of(call: &HostCall) -> CallInC
        ensures { result ≡ call_in_c call.now }
    {
        match call {
            HostCall::Write(at, bytes) => CallInC {
                kind: 0,
                at: *at as u64,
                length: bytes.len() as u64,
            },
            HostCall::Cut(len) => CallInC {
                kind: 1,
                at: *len as u64,
                length: 0,
            },
            HostCall::Replace(bytes) => CallInC {
                kind: 2,
                at: 0,
                length: bytes.len() as u64,
            },
            HostCall::Sync => CallInC {
                kind: 3,
                at: 0,
                length: 0,
            },
        }
    }
}

// The bytes that a call writes.
fn bytes_of_call(call: &HostCall) -> &[u8]
    ensures { result.now ≡ bytes_of_call call.now }
{
    match call {
        HostCall::Write(_, bytes) | HostCall::Replace(bytes) => bytes.as_slice(),
        HostCall::Cut(_) | HostCall::Sync => &[],
    }
}

/// The bytes of the call at a place, if there is one.
pub(crate) fn bytes_at(calls: &[HostCall], place: usize) -> &[u8]
    ensures { result.now ≡ bytes_at calls.now place }
{
    match calls.get(place) {
        Some(call) => bytes_of_call(call),
        None => &[],
    }
}

/// The call at a place, if there is one, as C sees it.
pub(crate) fn call_at(calls: &[HostCall], place: usize) -> Option<CallInC>
    ensures { result ≡ option_map call_in_c (slice_get calls.now place) }
{
    match calls.get(place) {
        Some(call) => Some(CallInC::of(call)),
        None => None,
    }
}
