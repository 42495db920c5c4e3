//! The texts of results, as the program that runs scripts prints them.
use bt_rowtype::{Refusal, Sequence, Text, write_number, write_row};
use bt_script::Counted;
use bt_shell::Lines;
use bt_table::{Reply, SentCount};
use bt_view::Sum;
use std::alloc::{AllocError, Global};

/// The result of a call that is not refused.
#[derive(Drop)]
pub(crate) enum Answer {
    Reply(Reply),
    Lines(Lines),
    Sums(Sequence<Sum>),
    Image(Vec<u8>),
}

fn count_text(alloc: Global, word: &str, count: usize) -> Result<Vec<u8>, AllocError> {
    let mut text = Vec::from_slice(alloc, word.as_bytes())?;
    text.push(b' ')?;
    write_number(&mut text, count as u64)?;
    Ok(text)
}

fn name_text(alloc: Global, word: &str, name: &Text) -> Result<Vec<u8>, AllocError> {
    let mut text = Vec::from_slice(alloc, word.as_bytes())?;
    text.push(b' ')?;
    text.extend_from_slice(name.as_bytes())?;
    Ok(text)
}

fn batch_text(alloc: Global, count: usize, sent: &[SentCount]) -> Result<Vec<u8>, AllocError> {
    let mut text = count_text(alloc, "batch", count)?;
    for one in sent {
        text.push(b' ')?;
        text.extend_from_slice(one.name.as_bytes())?;
        text.push(b':')?;
        write_number(&mut text, one.count as u64)?;
    }
    Ok(text)
}

fn build_text(
    alloc: Global,
    name: &Text,
    read: usize,
    complete: bool,
) -> Result<Vec<u8>, AllocError> {
    let mut text = name_text(alloc, "build", name)?;
    text.push(b' ')?;
    write_number(&mut text, read as u64)?;
    let progress = if complete { " complete" } else { " building" };
    text.extend_from_slice(progress.as_bytes())?;
    Ok(text)
}

fn reply_text(alloc: Global, reply: &Reply) -> Result<Vec<u8>, AllocError> {
    match reply {
        Reply::Batch { count, sent } => batch_text(alloc, *count, sent.as_slice()),
        Reply::Row(None) => Vec::from_slice(alloc, b"none"),
        Reply::Row(Some(row)) => {
            let mut text = Vec::from_slice(alloc, b"row ")?;
            write_row(&mut text, row)?;
            Ok(text)
        }
        Reply::Created(name) => name_text(alloc, "index", name),
        Reply::Built {
            name,
            read,
            complete,
        } => build_text(alloc, name, *read, *complete),
        Reply::Dropped(name) => name_text(alloc, "dropped", name),
        Reply::Loaded(count) => count_text(alloc, "loaded", *count),
        Reply::Drained(name) => name_text(alloc, "drained", name),
        Reply::Rebuilt(name) => name_text(alloc, "rebuilt", name),
    }
}

fn sums_text(alloc: Global, sums: &[Sum]) -> Result<Vec<u8>, AllocError> {
    let mut text = Vec::new(alloc);
    for sum in sums {
        text.extend_from_slice(format!(in alloc; "sum {} {} ", sum.count, sum.total)?.as_bytes())?;
        write_row(&mut text, &sum.group)?;
        text.push(b'\n')?;
    }
    text.extend_from_slice(count_text(alloc, "sums", sums.len())?.as_slice())?;
    Ok(text)
}

fn lines_text(alloc: Global, lines: Lines) -> anyhow::Result<Vec<u8>> {
    let mut text = Vec::new(alloc);
    {
        let mut writer = Counted::new(&mut text);
        lines.into_reply(b"rows ")?.write_to(&mut writer)?;
    }
    Ok(text)
}

fn ended_line(text: Vec<u8>) -> Result<Vec<u8>, AllocError> {
    let mut text = text;
    text.push(b'\n')?;
    Ok(text)
}

/// The text of a refusal.
pub(crate) fn refusal_text(alloc: Global, refusal: Refusal) -> Result<Vec<u8>, AllocError> {
    let mut text = count_text(alloc, "refused", refusal.number() as usize)?;
    text.push(b' ')?;
    text.extend_from_slice(refusal.name().as_bytes())?;
    if let Some(item) = refusal.item() {
        text.push(b' ')?;
        write_number(&mut text, item)?;
    }
    ended_line(text)
}

/// The text of a result, and its line end.
pub(crate) fn answer_text(
    alloc: Global,
    answer: Result<Answer, Refusal>,
) -> anyhow::Result<Vec<u8>> {
    match answer {
        Ok(Answer::Reply(reply)) => Ok(ended_line(reply_text(alloc, &reply)?)?),
        Ok(Answer::Lines(lines)) => lines_text(alloc, lines),
        Ok(Answer::Sums(sums)) => Ok(ended_line(sums_text(alloc, sums.as_slice())?)?),
        Ok(Answer::Image(text)) => Ok(text),
        Err(refusal) => Ok(refusal_text(alloc, refusal)?),
    }
}
