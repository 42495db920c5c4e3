//! The blocks of batches, scans and sums.
ghost use Rattle.std.specs.Prelude.{◌≡◌, ◌≤◌, IfOk, List, codes, length, ℕ};
ghost use Rattle.bt_script.specs.inside.Blocks.{IsBlock, and_bound, and_line, place_after, with_bound};
ghost use Rattle.bt_script.specs.Commands as spec;

use crate::command::{Bounds, Items};
use crate::lines::{
    after_prefix, is_blank, is_word, next_line, record_after, without_return, without_spaces,
};
use bt_record::RecordLine;
use bt_rowtype::Item;
use std::alloc::{AllocError, Global};

// The message of a line of a batch; the line begins with its first word.
fn parse_item(text: &[u8]) -> Option<Item<'_>>
    ensures { result ≡ spec.item_from text.now }
{
    if let Some(record) = after_prefix(b"put ", text) {
        return RecordLine::new(record).map(Item::Put);
    }
    if let Some(record) = after_prefix(b"del ", text) {
        return RecordLine::new(record).map(Item::Del);
    }
    if let Some(record) = after_prefix(b"ups ", text) {
        return RecordLine::new(record).map(Item::Ups);
    }
    None
}

/// The messages of some lines, and the message of one more line, which has no carriage return at its end.
pub(crate) fn and_item<'a>(
    items: Option<Items<'a>>,
    line: &'a [u8],
) -> Result<Option<Items<'a>>, AllocError>
    ensures { IfOk result (λ all. all ≡ and_line items.entry line.now) }
{
    let text = without_spaces(line);
    if text.is_empty() {
        return Ok(items);
    }
    let Some(mut items) = items else {
        return Ok(None);
    };
    let Some(item) = parse_item(text) else {
        return Ok(None);
    };
    items.push(item)?;
    Ok(Some(items))
}

/// How a block ends, and the place after it.
#[derive(Clone, Copy)]
pub(crate) enum BlockEnd {
    /// A closing line.
    Closed(usize),
    /// The end of the script; there is no closing line for the block.
    CutOff(usize),
}

/// The result of reading the lines of a block, and how the block ends.
pub(crate) struct Block<T> {
    pub(crate) content: T,
    pub(crate) end: BlockEnd,
}

/// The block of a batch: its messages, or `None` if a line is wrong.
pub(crate) fn read_items<'a>(
    alloc: Global,
    script: &'a [u8],
    start: usize,
) -> Result<Block<Option<Items<'a>>>, AllocError>
    requires { start ≤ length script.now }
    ensures block { IfOk result (λ read. (block : List (List ℕ)) × (read.content ≡ spec.items_of block)
        × IsBlock script.now start (codes "end") block read.end) }
    ensures within { IfOk result (λ read. (start ≤ place_after read.end) × (place_after read.end ≤ length script.now)) }
{
    let mut items = Some(Items::new(alloc));
    let mut at = start;
    while at < script.len() {
        let (bytes, next) = next_line(script, at);
        let line = without_return(bytes);
        if is_word(line, b"end") {
            return Ok(Block {
                content: items,
                end: BlockEnd::Closed(next),
            });
        }
        items = and_item(items, line)?;
        at = next;
    }
    Ok(Block {
        content: items,
        end: BlockEnd::CutOff(script.len()),
    })
}

// Bounds and the bound of one more line, which begins with its first word.
fn with_bound<'a>(bounds: Bounds<'a>, text: &'a [u8]) -> Option<Bounds<'a>>
    ensures { result ≡ with_bound bounds.entry text.now }
{
    let Bounds { from, to } = bounds;
    if let Some(record) = after_prefix(b"from ", text) {
        if from.is_some() || to.is_some() {
            return None;
        }
        let from = RecordLine::new(record)?;
        return Some(Bounds {
            from: Some(from),
            to: None,
        });
    }
    if to.is_some() {
        return None;
    }
    let to = record_after(b"to ", text)?;
    Some(Bounds { from, to: Some(to) })
}

// Bounds and the bound of one more line, which has no carriage return at its end.
fn and_bound<'a>(bounds: Option<Bounds<'a>>, line: &'a [u8]) -> Option<Bounds<'a>>
    ensures { result ≡ and_bound bounds.entry line.now }
{
    if is_blank(line) {
        return bounds;
    }
    with_bound(bounds?, without_spaces(line))
}

/// The block of a scan or of sums: its bounds, or `None` if a line is wrong.
pub(crate) fn read_bounds<'a>(script: &'a [u8], start: usize) -> Block<Option<Bounds<'a>>>
    requires { start ≤ length script.now }
    ensures block { (block : List (List ℕ)) × (result.content ≡ spec.bounds_of block)
        × IsBlock script.now start (codes "go") block result.end }
    ensures within { (start ≤ place_after result.end) × (place_after result.end ≤ length script.now) }
{
    let mut bounds = Some(Bounds {
        from: None,
        to: None,
    });
    let mut at = start;
    while at < script.len() {
        let (bytes, next) = next_line(script, at);
        let line = without_return(bytes);
        if is_word(line, b"go") {
            return Block {
                content: bounds,
                end: BlockEnd::Closed(next),
            };
        }
        bounds = and_bound(bounds, line);
        at = next;
    }
    Block {
        content: bounds,
        end: BlockEnd::CutOff(script.len()),
    }
}
