//! Where the replies to the commands of a script are.
ghost use Rattle.std.specs.Prelude.{◌≡◌, ◌++◌, ◌∷◌, []};
ghost use Rattle.bt_c.specs.Replies.{code_of_kind, end_before, mark, reply_at};

use bt_shell::{CommandLog, ReplyKind};
use std::alloc::AllocError;
use std::marker::Model;

/// Where the reply to a command ends, and what the command did.
#[derive(Clone, Copy, Drop)]
pub struct ReplyMark {
    pub end: u64,
    pub kind: ReplyKind,
}

/// Where a reply is among those of a script, and what its command did. C has it as `betable_reply_place`.
#[repr(C)]
#[derive(Clone, Copy, Drop)]
pub struct ReplyInC {
    /// The place of its first byte.
    pub offset: u64,
    /// The number of its bytes.
    pub length: u64,
    /// 0 for a command that reads, 1 for one that can change the table, 2 for one that was refused.
    pub kind: u32,
}

/// The marks of the commands of a run. A contract sees the list of them.
#[derive(Drop)]
pub(crate) struct ReplyMarks {
    pub(crate) marks: Vec<ReplyMark>,
}

impl Model for ReplyMarks {
    ghost use Rattle.std.specs.Prelude.{List};
    ghost use Rattle.bt_c.specs.declared.reply.ReplyMark.{ReplyMark as reply_mark};

    ghost Value = { List reply_mark };

    ghost view = { λ m. m.marks.items };
}

impl CommandLog for ReplyMarks {
    ghost added = { λ marks end kind. marks ++ mark end kind ∷ [] };

    fn add(&mut self, end: u64, kind: ReplyKind) -> Result<(), AllocError> {
        self.marks.push(ReplyMark { end, kind })?;
        Ok(())
    }
}

// The code in C of what a command did.
fn code_of_kind(kind: ReplyKind) -> u32
    ensures { result ≡ code_of_kind kind }
{
    match kind {
        ReplyKind::Read => 0,
        ReplyKind::Changed => 1,
        ReplyKind::Refused => 2,
    }
}

// Where the reply before the one at a place ends.
fn end_before(marks: &[ReplyMark], place: usize) -> u64
    ensures { result ≡ end_before marks.now place }
{
    if place == 0 {
        return 0;
    }
    match marks.get(place - 1) {
        Some(mark) => mark.end,
        None => 0,
    }
}

/// The reply at a place, if there is one.
pub(crate) fn reply_at(marks: &[ReplyMark], place: usize) -> Option<ReplyInC>
    ensures { result ≡ reply_at marks.now place }
{
    let mark = marks.get(place)?;
    let offset = end_before(marks, place);
    Some(ReplyInC {
        offset,
        length: mark.end.saturating_sub(offset),
        kind: code_of_kind(mark.kind),
    })
}
