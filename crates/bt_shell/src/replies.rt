//! The texts of replies.
ghost use Rattle.std.specs.Prelude.{◌≡◌, ◌++◌, ◌+◌, [], IfOk, OnOk, flat_map};
ghost use Rattle.bt_shell.specs.Replies.{count_line, item_text, refused_text, row_line, sum_line};
ghost use Rattle.bt_shell.specs.Replies as spec;
ghost use Rattle.bt_shell.specs.inside.Lines.{lines_as_one, with_line, with_lines};

use crate::reply_text::{ReplyRoom, ReplyText};
use bt_keycode::Key;
use bt_node::{ForkVisitor, Visitor};
use bt_row::{Row, write_row};
use bt_table::{Reply, SentCount};
use bt_value::{Refusal, Text, write_number};
use bt_view::Sum;
use itoa::Buffer;
use std::alloc::{AllocError, Global};
use std::marker::Model;
use std::mem;

/// Appends a word, a number and a line end.
pub(crate) fn write_count(out: &mut Vec<u8>, word: &[u8], count: usize) -> Result<(), AllocError>
    ensures { OnOk result (out.new.items ≡ out.old.items ++ count_line word.now count) }
{
    out.extend_from_slice(word)?;
    write_number(out, count as u64)?;
    out.push(b'\n')?;
    Ok(())
}

/// The reply that is a word, a number and a line end. Like each reply here, it is written into the memory of a list, whose bytes are dropped.
pub(crate) fn count_reply(
    alloc: Global,
    word: &[u8],
    count: usize,
    room: ReplyRoom,
) -> Result<ReplyText, AllocError>
    ensures { IfOk result (λ text. text ≡ count_line word.now count) }
{
    let mut text = room.into_text();
    write_count(&mut text, word, count)?;
    Ok(ReplyText::new(alloc, text))
}

fn write_row_line(out: &mut Vec<u8>, row: &Row) -> Result<(), AllocError>
    ensures { OnOk result (out.new.items ≡ out.old.items ++ row_line row.now) }
{
    out.extend_from_slice(b"row ")?;
    write_row(out, row)?;
    out.push(b'\n')?;
    Ok(())
}

// The reply that is the row of a key, if there is one.
fn row_reply(alloc: Global, row: Option<Row>, room: ReplyRoom) -> Result<ReplyText, AllocError>
    ensures { IfOk result (λ text. text ≡ spec.row_reply row) }
{
    let mut text = room.into_text();
    let Some(row) = row else {
        text.extend_from_slice(b"none\n")?;
        return Ok(ReplyText::new(alloc, text));
    };
    write_row_line(&mut text, &row)?;
    Ok(ReplyText::new(alloc, text))
}

// Appends a space, the name of an index and the number of messages that it was sent.
fn write_sent(out: &mut Vec<u8>, sent: &SentCount) -> Result<(), AllocError>
    ensures { OnOk result (out.new.items ≡ out.old.items ++ spec.sent_text sent.now) }
{
    out.push(b' ')?;
    out.extend_from_slice(sent.name.as_bytes())?;
    out.push(b':')?;
    write_number(out, sent.count as u64)
}

// Appends the same for each index.
fn write_each_sent(out: &mut Vec<u8>, sent: &[SentCount]) -> Result<(), AllocError>
    ensures { OnOk result (out.new.items ≡ out.old.items ++ flat_map spec.sent_text sent.now) }
{
    for one in sent {
        write_sent(out, one)?;
    }
    Ok(())
}

// The reply that is the number of messages of a batch, and the number that each index was sent.
fn batch_reply(
    alloc: Global,
    count: usize,
    sent: &[SentCount],
    room: ReplyRoom,
) -> Result<ReplyText, AllocError>
    ensures { IfOk result (λ text. text ≡ spec.batch_reply count sent.now) }
{
    let mut text = room.into_text();
    text.extend_from_slice(b"batch ")?;
    write_number(&mut text, count as u64)?;
    write_each_sent(&mut text, sent)?;
    text.push(b'\n')?;
    Ok(ReplyText::new(alloc, text))
}

// The reply that is a word, a name and a line end.
fn name_reply(
    alloc: Global,
    word: &[u8],
    name: &Text,
    room: ReplyRoom,
) -> Result<ReplyText, AllocError>
    ensures { IfOk result (λ text. text ≡ spec.name_line word.now name.now) }
{
    let mut text = room.into_text();
    text.extend_from_slice(word)?;
    text.extend_from_slice(name.as_bytes())?;
    text.push(b'\n')?;
    Ok(ReplyText::new(alloc, text))
}

// The reply that is the name of an index, the number of rows that a step of its building read, and whether it is complete.
fn build_reply(
    alloc: Global,
    name: &Text,
    read: usize,
    complete: bool,
    room: ReplyRoom,
) -> Result<ReplyText, AllocError>
    ensures { IfOk result (λ text. text ≡ spec.build_line name.now read complete) }
{
    let mut text = room.into_text();
    text.extend_from_slice(b"build ")?;
    text.extend_from_slice(name.as_bytes())?;
    text.push(b' ')?;
    write_number(&mut text, read as u64)?;
    let progress = if complete {
        b" complete\n"
    } else {
        b" building\n"
    };
    text.extend_from_slice(progress)?;
    Ok(ReplyText::new(alloc, text))
}

/// The text of what a call on a table returns.
pub(crate) fn reply_text(
    alloc: Global,
    reply: Reply,
    room: ReplyRoom,
) -> Result<ReplyText, AllocError>
    ensures { IfOk result (λ text. text ≡ spec.reply_text reply) }
{
    match reply {
        Reply::Batch { count, sent } => batch_reply(alloc, count, sent.as_slice(), room),
        Reply::Row(row) => row_reply(alloc, row, room),
        Reply::Created(name) => name_reply(alloc, b"index ", &name, room),
        Reply::Built {
            name,
            read,
            complete,
        } => build_reply(alloc, &name, read, complete, room),
        Reply::Dropped(name) => name_reply(alloc, b"dropped ", &name, room),
        Reply::Loaded(count) => count_reply(alloc, b"loaded ", count, room),
        Reply::Drained(name) => name_reply(alloc, b"drained ", &name, room),
        Reply::Rebuilt(name) => name_reply(alloc, b"rebuilt ", &name, room),
    }
}

// Appends the line of a group.
fn write_sum_line(out: &mut Vec<u8>, sum: &Sum) -> Result<(), AllocError>
    ensures { OnOk result (out.new.items ≡ out.old.items ++ sum_line sum.now) }
{
    out.extend_from_slice(b"sum ")?;
    write_number(out, sum.count)?;
    out.push(b' ')?;
    out.extend_from_slice(Buffer::new().format(sum.total).as_bytes())?;
    out.push(b' ')?;
    write_row(out, &sum.group)?;
    out.push(b'\n')?;
    Ok(())
}

// Appends the lines of groups.
fn write_sum_lines(out: &mut Vec<u8>, sums: &[Sum]) -> Result<(), AllocError>
    ensures { OnOk result (out.new.items ≡ out.old.items ++ flat_map sum_line sums.now) }
{
    for sum in sums {
        write_sum_line(out, sum)?;
    }
    Ok(())
}

/// The reply that is the lines of groups, followed by their number.
pub(crate) fn sums_reply(
    alloc: Global,
    sums: &[Sum],
    room: ReplyRoom,
) -> Result<ReplyText, AllocError>
    ensures { IfOk result (λ text. text ≡ spec.sums_reply sums.now) }
{
    let mut text = room.into_text();
    write_sum_lines(&mut text, sums)?;
    write_count(&mut text, b"sums ", sums.len())?;
    Ok(ReplyText::new(alloc, text))
}

/// Lines that are written row by row. They are one text; if the rows are read in parts, they are one text for each part, and joining the parts copies none of
/// them. A contract sees all bytes and the number of lines.
#[derive(Drop)]
pub struct Lines {
    // The texts before the current one, in order.
    pieces: Vec<Vec<u8>>,
    text: Vec<u8>,
    count: usize,
}

impl Model for Lines {
    ghost use Rattle.std.specs.Prelude.{List, ◌++◌, ℕ};
    ghost use Rattle.bt_shell.specs.inside.Pieces.{text_of_pieces};

    ghost Value = { List ℕ × ℕ };

    ghost view = { λ l. (text_of_pieces l.pieces.items ++ l.text.items, l.count) };
}

// The sum of two numbers of lines. A line has at least one byte, and memory never holds more bytes than a `usize` can count.
fn add_count(count: usize, more: usize) -> Result<usize, AllocError>
    ensures { IfOk result (λ sum. sum ≡ count + more) }
{
    count.checked_add(more).ok_or(AllocError)
}

impl Lines {
    /// No lines, in the memory of an earlier reply. Allocates nothing.
    pub fn in_room(alloc: Global, room: ReplyRoom) -> Self
        ensures { result ≡ ([], 0) }
    {
        Lines {
            pieces: Vec::new(alloc),
            text: room.into_text(),
            count: 0,
        }
    }

    /// The lines, followed by a word and their number.
    pub fn into_reply(self, word: &[u8]) -> Result<ReplyText, AllocError>
        ensures { IfOk result (λ text. text ≡ self.0 ++ count_line word.now self.1) }
    {
        let Lines {
            pieces,
            mut text,
            count,
        } = self;
        write_count(&mut text, word, count)?;
        Ok(ReplyText::from_pieces(pieces, text))
    }
}

impl Visitor<Row> for Lines {
    ghost visited = { with_line (λ row. spec.row_line row.1) };

    fn visit(&mut self, _alloc: Global, _key: &Key, row: &Row) -> Result<(), AllocError> {
        write_row_line(&mut self.text, row)?;
        self.count = add_count(self.count, 1)?;
        Ok(())
    }
}

impl ForkVisitor<Row> for Lines {
    ghost forked = { λ _. ([], 0) };

    ghost joined = { with_lines };

    fn fork(&self, alloc: Global) -> Self {
        Lines::in_room(alloc, ReplyRoom::new(alloc))
    }

    fn join(&mut self, _alloc: Global, following: Self) -> Result<(), AllocError> {
        let Lines {
            mut pieces,
            text,
            count,
        } = following;
        self.pieces.push(mem::replace(&mut self.text, text))?;
        self.pieces.append(&mut pieces)?;
        self.count = add_count(self.count, count)?;
        Ok(())
    }

    ghost as_one = { λ lines rows following. lines_as_one (λ row. spec.row_line row.1) lines rows following };
}

// Appends a space and the item of a refusal, if it has one.
fn write_item(out: &mut Vec<u8>, item: Option<u64>) -> Result<(), AllocError>
    ensures { OnOk result (out.new.items ≡ out.old.items ++ item_text item) }
{
    let Some(item) = item else {
        return Ok(());
    };
    out.push(b' ')?;
    write_number(out, item)
}

/// The reply that is a refusal.
pub(crate) fn refusal_reply(alloc: Global, refusal: Refusal) -> Result<ReplyText, AllocError>
    ensures { IfOk result (λ text. text ≡ refused_text refusal) }
{
    let mut text = Vec::from_slice(alloc, b"refused ")?;
    write_number(&mut text, u64::from(refusal.number()))?;
    text.push(b' ')?;
    text.extend_from_slice(refusal.name().as_bytes())?;
    write_item(&mut text, refusal.item())?;
    text.push(b'\n')?;
    Ok(ReplyText::new(alloc, text))
}
