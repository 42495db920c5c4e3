//! Reads the lines of a large batch in pieces of whole lines, by the workers of a crew.
ghost use Rattle.std.specs.Prelude.{◌≡◌, ◌<◌, ◌≤◌, ◌++◌, IfOk, length, option_map};
ghost use Rattle.std.specs.List.{flat_map};
ghost use Rattle.bt_value.specs.Lists.{concatenation};
ghost use Rattle.bt_script.specs.Commands.{all_some, items_of};
ghost use Rattle.bt_script.specs.Lines.{lines};

use crate::blocks::and_item;
use crate::command::Items;
use crate::lines::{next_line, without_return};
use bt_gang::{Context, Crew, Work, job_values};
use bt_value::Sequence;
use memchr::memchr;
use std::alloc::{AllocError, Global};
use std::marker::PhantomData;
use std::sync::Wait;
use std::thread::Threads;

/// The least number of bytes of a piece. Starting a thread takes about 30 µs, and reading the lines of a piece of this size four to six times as long.
const LEAST_BYTES: usize = 65_536;

// The messages of a text of whole lines, or `None` if a line is wrong.
fn read_lines<'a>(alloc: Global, text: &'a [u8]) -> Result<Option<Items<'a>>, AllocError>
    ensures { IfOk result (λ items. items ≡ items_of (lines text.now)) }
{
    let mut items = Some(Items::new(alloc));
    let mut at = 0;
    while at < text.len() {
        let (line, next) = next_line(text, at);
        items = and_item(items, without_return(line))?;
        at = next;
    }
    Ok(items)
}

/// Reads the messages of texts of whole lines. A job is a text.
#[derive(Drop)]
struct LineReadings<'a> {
    text: PhantomData<&'a [u8]>,
}

impl<'a> Work for LineReadings<'a> {
    type Job = &'a [u8];

    type Done = Option<Items<'a>>;

    type Fault = AllocError;

    ghost use Rattle.std.specs.Prelude.{◌≡◌, MatchResult, ⊤};
    ghost use Rattle.std.proofs.Common.{sym, ◌∙◌};
    ghost use Rattle.bt_script.specs.Commands.{items_of};
    ghost use Rattle.bt_script.specs.Lines.{lines};

    ghost accepts = { λ _ _. ⊤ };

    ghost allows = { λ _ text answer. MatchResult answer (λ items. items ≡ items_of (lines text.now)) (λ _. ⊤) };

    fn run(&self, alloc: Global, job: &'a [u8]) -> Result<Option<Items<'a>>, AllocError> {
        read_lines(alloc, job)
    }

    ghost one_value = { λ _ _ _ _ e f. e ∙ sym f };
}

// The lines of a text up to the first one that ends after this many bytes, and the lines after it.
fn split_lines(text: &[u8], least: usize) -> (&[u8], &[u8])
    requires { least ≤ length text.now }
    ensures { lines text.now ≡ lines result.0.now ++ lines result.1.now }
{
    match memchr(b'\n', &text[least..]) {
        Some(place) => {
            let end = least + place + 1;
            (&text[..end], &text[end..])
        }
        None => (text, &[]),
    }
}

// Cuts a text into this many pieces of whole lines, in order. The last ones may be empty.
fn pieces_of_lines(alloc: Global, text: &[u8], count: usize) -> Result<Vec<&[u8]>, AllocError>
    requires { 0 < count }
    ensures { IfOk result (λ pieces. flat_map (λ piece. lines piece.now) pieces.items ≡ lines text.now) }
{
    let mut pieces = Vec::new(alloc);
    let mut rest = text;
    for place in 1..count {
        let (piece, others) = split_lines(rest, rest.len() / (count - place + 1));
        pieces.push(piece)?;
        rest = others;
    }
    pieces.push(rest)?;
    Ok(pieces)
}

// The messages of all pieces, in order, or `None` if a piece has a wrong line.
fn joined_items<'a>(
    alloc: Global,
    pieces: Vec<Option<Items<'a>>>,
) -> Result<Option<Items<'a>>, AllocError>
    ensures { IfOk result (λ items. items ≡ option_map concatenation (all_some pieces.entry.items)) }
{
    let mut all = Vec::new(alloc);
    for items in pieces {
        let Some(items) = items else {
            return Ok(None);
        };
        let mut own = items.into_vec();
        all.append(&mut own)?;
    }
    Ok(Some(Sequence::from_vec(all)))
}

// The number of pieces of a text that are worth starting a worker for.
fn piece_count<G>(crew: &Crew<G>, bytes: usize) -> usize
    ensures { 0 < result }
{
    crew.workers.min(bytes / LEAST_BYTES).max(1)
}

/// The messages of a text of whole lines, or `None` if a line is wrong. A crew reads a large text in pieces.
pub(crate) fn read_pieces<'a, G, T: Threads + Wait + Sync>(
    context: &Context<'_, T, Crew<G>>,
    text: &'a [u8],
) -> Result<Option<Items<'a>>, AllocError>
    ensures { IfOk result (λ items. items ≡ items_of (lines text.now)) }
{
    let Context { rt, alloc, crew } = *context;
    let count = piece_count(crew, text.len());
    if count == 1 {
        return read_lines(alloc, text);
    }
    let work = LineReadings { text: PhantomData };
    let pieces = pieces_of_lines(alloc, text, count)?;
    let read = job_values(rt, alloc, &work, pieces, &crew.without_gate())?;
    joined_items(alloc, read)
}
