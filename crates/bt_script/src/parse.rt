//! The parser of commands.
ghost use Rattle.std.specs.Prelude.{◌≡◌, ◌∷◌, ◌<◌, ◌≤◌, IfNone, IfOk, IfSome, List, [], codes, drop, length, true, ℕ};
ghost use Rattle.bt_script.specs.inside.Blocks.{FindsHeaded, NextFollowing, block_answer, headed, place_after};
ghost use Rattle.bt_script.specs.Lines.{lines};
ghost use Rattle.bt_script.specs.Commands as spec;

use crate::blocks::{Block, BlockEnd, read_bounds, read_items};
use crate::command::{Command, Parsed};
use crate::forms::{
    batch_command, get_command, line_command, load_command, scan_command, sums_command,
};
use crate::line_pieces::read_pieces;
use crate::lines::{begins, is_blank, next_line, without_return, words};
use crate::load::read_block_text;
use bt_gang::{Context, Crew};
use bt_value::Refusal;
use std::alloc::{AllocError, Global};
use std::sync::Wait;
use std::thread::Threads;

// The result of parsing a command whose block, if it has one, ends like this.
fn parsed_command(command: Option<Command<'_>>, end: BlockEnd) -> Parsed<'_>
    ensures found { (script : List ℕ) → spec.Finds result script (block_answer end command.entry ∷ spec.commands (drop (place_after end) script)) }
    ensures past { (at : ℕ) (script : List ℕ) → at < place_after end → place_after end ≤ length script → spec.NextPast result at script }
{
    match (command, end) {
        (None, BlockEnd::Closed(next) | BlockEnd::CutOff(next)) => Parsed::Bad {
            refusal: Refusal::Syntax,
            next,
        },
        (Some(command), BlockEnd::CutOff(next)) => {
            drop(command);
            Parsed::Bad {
                refusal: Refusal::Unfinished,
                next,
            }
        }
        (Some(command), BlockEnd::Closed(next)) => Parsed::Good { command, next },
    }
}

// Whether a head line is the word `get` and a space, followed by a record.
fn is_get(head: &[u8]) -> bool
    ensures { result ≡ true → head.now ≡ 103 ∷ 101 ∷ 116 ∷ 32 ∷ drop 4 head.now }
{
    matches!(head, [b'g', b'e', b't', b' ', ..])
}

// The command of a head line; its block starts at a place after it. For a `get`, which is frequent in scripts, no list of words is made.
#[tactic(auto, unfolding(crate::specs::Commands::closing_of))]
fn parse_headed<'a>(
    alloc: Global,
    script: &'a [u8],
    head: &'a [u8],
    at: usize,
) -> Result<Parsed<'a>, AllocError>
    requires { at ≤ length script.now }
    ensures found { IfOk result (λ parsed. FindsHeaded parsed script.now head.now at) }
    ensures past { IfOk result (λ parsed. NextFollowing parsed script.now at) }
{
    if is_get(head) {
        return Ok(parsed_command(get_command(head), BlockEnd::Closed(at)));
    }
    let words = words(alloc, head)?;
    if begins(&words, b"batch") {
        let Block { content, end } = read_items(alloc, script, at)?;
        return Ok(parsed_command(batch_command(&words, content), end));
    }
    if begins(&words, b"scan") {
        let Block { content, end } = read_bounds(script, at);
        let command = scan_command(alloc, &words, content)?;
        return Ok(parsed_command(command, end));
    }
    if begins(&words, b"sums") {
        let Block { content, end } = read_bounds(script, at);
        let command = sums_command(alloc, &words, content)?;
        return Ok(parsed_command(command, end));
    }
    if begins(&words, b"load") {
        let Block { content, end } = read_block_text(script, at, b".");
        return Ok(parsed_command(load_command(&words, content), end));
    }
    let command = line_command(alloc, head, &words)?;
    Ok(parsed_command(command, BlockEnd::Closed(at)))
}

// Whether a head line is the word `batch` alone.
fn is_batch(head: &[u8]) -> bool
    ensures { result ≡ true → head.now ≡ 98 ∷ 97 ∷ 116 ∷ 99 ∷ 104 ∷ [] }
{
    matches!(head, [b'b', b'a', b't', b'c', b'h'])
}

// The next line that is not blank, without its carriage return, and the place after it.
fn next_head(script: &[u8], at: usize) -> Option<(&[u8], usize)>
    ensures found { IfSome result (λ found. spec.commands (drop at script.now) ≡ headed found.0.now (lines (drop found.1 script.now))) }
    ensures end { IfNone result (spec.commands (drop at script.now) ≡ []) }
    ensures past { IfSome result (λ found. (at < found.1) × (found.1 ≤ length script.now)) }
{
    let mut place = at;
    while place < script.len() {
        let (line, next) = next_line(script, place);
        let head = without_return(line);
        if !is_blank(head) {
            return Some((head, next));
        }
        place = next;
    }
    None
}

/// The command at a place of a script, or its refusal, `Syntax` or `Unfinished`, and the place after it.
pub fn parse_command(alloc: Global, script: &[u8], at: usize) -> Result<Parsed<'_>, AllocError>
    ensures found { IfOk result (λ parsed. spec.Finds parsed script.now (spec.commands (drop at script.now))) }
    ensures past { IfOk result (λ parsed. spec.NextPast parsed at script.now) }
{
    let Some((head, next)) = next_head(script, at) else {
        return Ok(Parsed::End);
    };
    parse_headed(alloc, script, head, next)
}

// The command of a batch whose block starts at a place. Its lines are read by a crew.
#[tactic(auto, unfolding(crate::specs::Commands::closing_of))]
fn parse_batch<'a, G, T: Threads + Wait + Sync>(
    context: &Context<'_, T, Crew<G>>,
    script: &'a [u8],
    at: usize,
) -> Result<Parsed<'a>, AllocError>
    requires { at ≤ length script.now }
    ensures found { IfOk result (λ parsed. FindsHeaded parsed script.now (codes "batch") at) }
    ensures past { IfOk result (λ parsed. NextFollowing parsed script.now at) }
{
    let Block { content, end } = read_block_text(script, at, b"end");
    let items = read_pieces(context, content.as_bytes())?;
    let word: &[u8] = b"batch";
    Ok(parsed_command(batch_command(&[word], items), end))
}

/// The command at a place of a script, as returned by [`parse_command`]. A crew reads the lines of a large batch in pieces.
pub fn parse_by_crew<'a, G, T: Threads + Wait + Sync>(
    context: &Context<'_, T, Crew<G>>,
    script: &'a [u8],
    at: usize,
) -> Result<Parsed<'a>, AllocError>
    ensures found { IfOk result (λ parsed. spec.Finds parsed script.now (spec.commands (drop at script.now))) }
    ensures past { IfOk result (λ parsed. spec.NextPast parsed at script.now) }
{
    let Some((head, next)) = next_head(script, at) else {
        return Ok(Parsed::End);
    };
    if is_batch(head) {
        return parse_batch(context, script, next);
    }
    parse_headed(context.alloc, script, head, next)
}
