//! The calls that were made of a file. No memory has them: only clauses read the list.
ghost use Rattle.std.specs.Prelude.{◌≡◌, [], ◌∷◌};
ghost use Rattle.bt_file.specs.Calls.{events_of};

use http_server::Log;

/// A call of a file, and whether it succeeded.
#[derive(Clone, Copy, Drop)]
pub(crate) enum Call {
    /// The next bytes of the file were read: none at its end.
    Read(bool),
    /// Bytes were written from an offset on.
    Written(usize, bool),
    /// The file was cut to a length.
    Cut(usize, bool),
    /// All bytes were replaced.
    Replaced(bool),
    /// The file was synced.
    Synced(bool),
    /// The host took the calls that it is to make.
    Taken,
}

/// A list of calls with their bytes.
#[derive(Drop)]
pub(crate) struct Calls {
    log: Log<Call, Vec<u8>>,
}

impl Calls {
    /// No calls.
    pub(crate) fn new() -> Calls
        ensures { events_of result ≡ [] }
    {
        Calls { log: Log::new() }
    }

    /// Adds a call.
    pub(crate) fn note(&mut self, call: Call, bytes: &Vec<u8>)
        ensures { events_of self.new ≡ (call, bytes.now) ∷ events_of self.old }
    {
        self.log = self.log.and(&call, bytes);
    }
}
