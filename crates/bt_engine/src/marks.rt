//! Where the replies to the commands of a script end.
ghost use Rattle.std.specs.Prelude.{◌≡◌, ◌++◌, ◌∷◌, [], OnOk};
ghost use Rattle.bt_engine.specs.Payloads as payloads;

use bt_frame::number_bytes;
use bt_shell::{CommandLog, ReplyKind};
use std::alloc::{AllocError, Global};
use std::marker::Model;

/// Where the reply to a command ends, and what the command did.
#[derive(Clone, Copy, Drop)]
pub struct Mark {
    pub end: u64,
    pub kind: ReplyKind,
}

/// The marks of the commands of a script. A contract sees the list of them.
#[derive(Drop)]
pub(crate) struct Marks {
    marks: Vec<Mark>,
}

impl Model for Marks {
    ghost use Rattle.std.specs.Prelude.{List};
    ghost use Rattle.bt_engine.specs.declared.marks.Mark.{Mark as mark_type};

    ghost Value = { List mark_type };

    ghost view = { λ m. m.marks.items };
}

impl CommandLog for Marks {
    ghost added = { λ marks end kind. marks ++ payloads.mark end kind ∷ [] };

    fn add(&mut self, end: u64, kind: ReplyKind) -> Result<(), AllocError> {
        self.marks.push(Mark { end, kind })?;
        Ok(())
    }
}

// The code of what a command did.
fn kind_code(kind: ReplyKind) -> u8
    ensures { result ≡ payloads.kind_code kind }
{
    match kind {
        ReplyKind::Read => 0,
        ReplyKind::Changed => 1,
        ReplyKind::Refused => 2,
    }
}

// Adds a mark.
fn add_mark(out: &mut Vec<u8>, mark: &Mark) -> Result<(), AllocError>
    ensures { OnOk result (out.new.items ≡ out.old.items ++ payloads.mark_bytes mark.now) }
{
    out.extend_from_slice(&number_bytes(mark.end))?;
    Ok(out.push(kind_code(mark.kind))?)
}

// Adds marks.
fn add_marks(out: &mut Vec<u8>, marks: &[Mark]) -> Result<(), AllocError>
    ensures { OnOk result (out.new.items ≡ out.old.items ++ payloads.marks_bytes marks.now) }
{
    for mark in marks {
        add_mark(out, mark)?;
    }
    Ok(())
}

// Whether a command that did this can have changed the table.
fn is_change(kind: ReplyKind) -> bool
    ensures { result ≡ payloads.is_change kind }
{
    match kind {
        ReplyKind::Changed => true,
        ReplyKind::Read | ReplyKind::Refused => false,
    }
}

// Whether one of the commands with these marks can have.
fn has_change(marks: &[Mark]) -> bool
    ensures { result ≡ payloads.has_change marks.now }
{
    for mark in marks {
        if is_change(mark.kind) {
            return true;
        }
    }
    false
}

impl Marks {
    /// Those of no command.
    pub(crate) fn new(alloc: Global) -> Self
        ensures { result ≡ [] }
    {
        Marks {
            marks: Vec::new(alloc),
        }
    }

    /// Whether one of the commands can have changed the table.
    pub(crate) fn has_change(&self) -> bool
        ensures { result ≡ payloads.has_change self.now }
    {
        has_change(self.marks.as_slice())
    }

    /// Adds the marks to the text of the replies, and then the length of the text.
    pub(crate) fn add_to(&self, text: &mut Vec<u8>) -> Result<(), AllocError>
        ensures { OnOk result (text.new.items ≡ payloads.with_marks text.old.items self.now) }
    {
        let length = text.len() as u64;
        add_marks(text, self.marks.as_slice())?;
        text.extend_from_slice(&number_bytes(length))
    }
}
