//! The result of a call.
ghost use Rattle.std.specs.Prelude.{◌≡◌};
ghost use Rattle.bt_c.specs.Sessions.{code_of};

/// The result of a call. C has the codes by name in `include/betable.h`.
#[derive(Clone, Copy, Debug, Drop)]
pub enum Status {
    /// The call did all that was asked.
    Done,
    /// An allocation failed. After a run, the replies to the commands before that are kept.
    OutOfMemory,
    /// An allocation failed while a reply was stored: its command is carried out, and the reply is not whole.
    ReplyCut,
    /// The handle has no session.
    NotOpen,
    /// The handle has a session already.
    AlreadyOpen,
    /// The call was refused: its fault says why. Nothing has changed.
    Refused,
    /// The session has no table in a file, or an earlier call of it failed.
    NotKept,
    /// The file, or the requests, are too long.
    FileTooLong,
    /// The file is not that of a table.
    NotATable,
    /// The file has another format.
    OtherFormat,
    /// Another engine wrote the file.
    OtherEngine,
    /// The file is damaged.
    Damaged,
}

impl Status {
    /// The code in C.
    pub fn code(self) -> u32
        ensures { result ≡ code_of self }
    {
        match self {
            Status::Done => 0,
            Status::OutOfMemory => 1,
            Status::ReplyCut => 2,
            Status::NotOpen => 3,
            Status::AlreadyOpen => 4,
            Status::Refused => 5,
            Status::NotKept => 6,
            Status::FileTooLong => 7,
            Status::NotATable => 8,
            Status::OtherFormat => 9,
            Status::OtherEngine => 10,
            Status::Damaged => 11,
        }
    }
}
