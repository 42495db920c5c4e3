//! The forms of commands: which command the words of a head line make.
ghost use Rattle.std.specs.Prelude.{◌≡◌, [], IfOk, None, map};
ghost use Rattle.bt_script.specs.Commands as spec;
ghost use Rattle.bt_script.specs.inside.Forms as forms;

use crate::command::{Bounds, Capacity, Command, IndexForm, Items, SumsForm, TableForm};
use crate::lines::{
    after_words, begins, is_word, parse_name, parse_names, parse_number, parts, record_after,
    without_spaces, word_at, words,
};
use crate::load::BlockText;
use bt_row::{Column, Columns, Filter, Test};
use bt_value::{Bytes, Kind, Text, Texts};
use std::alloc::{AllocError, Global};

// A column: its name, a colon and its kind.
#[tactic(auto, unfolding(crate::specs::Commands::column_of))]
fn parse_column(alloc: Global, word: &[u8]) -> Result<Option<Column>, AllocError>
    ensures { IfOk result (λ column. column ≡ spec.column_of word.now) }
{
    let parts = parts(alloc, word, b':')?;
    if parts.len() != 2 {
        return Ok(None);
    }
    let Some(kind) = Kind::from_word(word_at(&parts, 1)) else {
        return Ok(None);
    };
    match parse_name(alloc, word_at(&parts, 0))? {
        Some(name) => Ok(Some(Column { name, kind })),
        None => Ok(None),
    }
}

fn parse_columns(alloc: Global, words: &[&[u8]]) -> Result<Option<Columns>, AllocError>
    ensures { IfOk result (λ columns. columns ≡ spec.all_some (map spec.column_of (map (λ w. w.now) words.now))) }
{
    let mut columns = Columns::new(alloc);
    for word in words {
        let Some(column) = parse_column(alloc, word)? else {
            return Ok(None);
        };
        columns.push(column)?;
    }
    Ok(Some(columns))
}

// The capacity of a buffer: a number of messages, or a number of bytes if a `b` follows.
fn parse_capacity(word: &[u8]) -> Option<Capacity>
    ensures { result ≡ spec.capacity_of_word word.now }
{
    match word {
        [digits @ .., b'b'] => parse_number(digits).map(Capacity::Bytes),
        _ => parse_number(word).map(Capacity::Messages),
    }
}

#[tactic(auto, unfolding(crate::specs::Commands::table_command))]
fn table_command<'a>(alloc: Global, words: &[&[u8]]) -> Result<Option<Command<'a>>, AllocError>
    ensures { IfOk result (λ command. command ≡ spec.table_command (map (λ w. w.now) words.now)) }
{
    if words.len() < 6 {
        return Ok(None);
    }
    let Some(fanout) = parse_number(word_at(words, 1)) else {
        return Ok(None);
    };
    let Some(buffer) = parse_capacity(word_at(words, 2)) else {
        return Ok(None);
    };
    let Some(leaf) = parse_number(word_at(words, 3)) else {
        return Ok(None);
    };
    let Some(keys) = parse_number(word_at(words, 4)) else {
        return Ok(None);
    };
    let Some(columns) = parse_columns(alloc, &words[5..])? else {
        return Ok(None);
    };
    Ok(Some(Command::Table(TableForm {
        fanout,
        buffer,
        leaf,
        keys,
        columns,
    })))
}

/// The command of a batch: its messages; no word follows the first one.
pub(crate) fn batch_command<'a>(words: &[&[u8]], items: Option<Items<'a>>) -> Option<Command<'a>>
    ensures { result ≡ spec.batch_command (map (λ w. w.now) words.now) items.entry }
{
    if words.len() == 1 {
        items.map(Command::Batch)
    } else {
        None
    }
}

/// The command of a load: the text of its block; no word follows the first one.
pub(crate) fn load_command<'a>(words: &[&[u8]], text: BlockText<'a>) -> Option<Command<'a>>
    ensures { result ≡ spec.load_command (map (λ w. w.now) words.now) text.entry }
{
    if words.len() == 1 {
        Some(Command::Load(text))
    } else {
        None
    }
}

// The name that follows the first word, if no other word follows.
fn only_name(alloc: Global, words: &[&[u8]]) -> Result<Option<Text>, AllocError>
    ensures { IfOk result (λ name. name ≡ spec.only_name (map (λ w. w.now) words.now)) }
{
    if words.len() != 2 {
        return Ok(None);
    }
    parse_name(alloc, word_at(words, 1))
}

/// The command of a scan: the name of a tree, and bounds.
pub(crate) fn scan_command<'a>(
    alloc: Global,
    words: &[&[u8]],
    bounds: Option<Bounds<'a>>,
) -> Result<Option<Command<'a>>, AllocError>
    ensures { IfOk result (λ command. command ≡ spec.scan_command (map (λ w. w.now) words.now) bounds.entry) }
{
    let Some(tree) = only_name(alloc, words)? else {
        return Ok(None);
    };
    match bounds {
        Some(bounds) => Ok(Some(Command::Scan(tree, bounds))),
        None => Ok(None),
    }
}

// The tree, the number of columns and the column of sums.
fn parse_summed(alloc: Global, words: &[&[u8]]) -> Result<Option<(Text, u32, Text)>, AllocError>
    ensures { IfOk result (λ summed. summed ≡ forms.summed_of (map (λ w. w.now) words.now)) }
{
    if words.len() != 4 {
        return Ok(None);
    }
    let Some(columns) = parse_number(word_at(words, 2)) else {
        return Ok(None);
    };
    let Some(tree) = parse_name(alloc, word_at(words, 1))? else {
        return Ok(None);
    };
    match parse_name(alloc, word_at(words, 3))? {
        Some(column) => Ok(Some((tree, columns, column))),
        None => Ok(None),
    }
}

/// The command of sums: the name of a tree, a number and the name of a column, and bounds.
#[tactic(auto, unfolding(crate::specs::Commands::sums_command))]
pub(crate) fn sums_command<'a>(
    alloc: Global,
    words: &[&[u8]],
    bounds: Option<Bounds<'a>>,
) -> Result<Option<Command<'a>>, AllocError>
    ensures { IfOk result (λ command. command ≡ spec.sums_command (map (λ w. w.now) words.now) bounds.entry) }
{
    let Some((tree, columns, column)) = parse_summed(alloc, words)? else {
        return Ok(None);
    };
    match bounds {
        Some(bounds) => Ok(Some(Command::Sums(SumsForm {
            tree,
            columns,
            column,
            bounds,
        }))),
        None => Ok(None),
    }
}

/// The command of a get: one space and a record.
pub(crate) fn get_command(head: &[u8]) -> Option<Command<'_>>
    ensures { result ≡ spec.get_command head.now }
{
    record_after(b"get ", without_spaces(head)).map(Command::Get)
}

// The command that a name makes with the word before it.
fn command_on<'a>(words: &[&[u8]], name: Text) -> Option<Command<'a>>
    ensures { result ≡ spec.command_on (map (λ w. w.now) words.now) name }
{
    if begins(words, b"image") {
        return Some(Command::Image(name));
    }
    if begins(words, b"drop") {
        return Some(Command::Drop(name));
    }
    if begins(words, b"drain") {
        return Some(Command::Drain(name));
    }
    if begins(words, b"rebuild") {
        return Some(Command::Rebuild(name));
    }
    None
}

fn named_command<'a>(alloc: Global, words: &[&[u8]]) -> Result<Option<Command<'a>>, AllocError>
    ensures { IfOk result (λ command. command ≡ spec.named_command (map (λ w. w.now) words.now)) }
{
    match only_name(alloc, words)? {
        Some(name) => Ok(command_on(words, name)),
        None => Ok(None),
    }
}

fn parse_test(word: &[u8]) -> Option<Test>
    ensures { result ≡ spec.test_of word.now }
{
    if is_word(word, b"=") {
        return Some(Test::Equal);
    }
    if is_word(word, b"<") {
        return Some(Test::Less);
    }
    if is_word(word, b">=") {
        return Some(Test::AtLeast);
    }
    None
}

// The constant of a filter: one space, and a record of one field.
#[tactic(auto, using(crate::proofs::Following::only_none, crate::proofs::Following::only_first))]
fn parse_constant(alloc: Global, rest: &[u8]) -> Result<Option<Bytes>, AllocError>
    ensures { IfOk result (λ constant. constant ≡ spec.constant_of rest.now) }
{
    let Some(record) = record_after(b" ", rest) else {
        return Ok(None);
    };
    let fields = record.fields(alloc)?;
    if fields.len() != 1 {
        return Ok(None);
    }
    Ok(Some(Bytes::from_slice(alloc, fields.get(0))?))
}

// The filter that a text of these words writes.
#[tactic(auto, unfolding(crate::specs::Commands::filter_of))]
fn parse_filter(alloc: Global, text: &[u8], words: &[&[u8]]) -> Result<Option<Filter>, AllocError>
    ensures { IfOk result (λ filter. filter ≡ spec.filter_of text.now (map (λ w. w.now) words.now)) }
{
    if !begins(words, b"where") {
        return Ok(None);
    }
    let Some(test) = parse_test(word_at(words, 2)) else {
        return Ok(None);
    };
    let Some(column) = parse_name(alloc, word_at(words, 1))? else {
        return Ok(None);
    };
    match parse_constant(alloc, after_words(text, 3))? {
        Some(constant) => Ok(Some(Filter {
            column,
            test,
            constant,
        })),
        None => Ok(None),
    }
}

// The filter of an index, or none if the text has no word.
fn parse_filter_from(alloc: Global, text: &[u8]) -> Result<Option<Option<Filter>>, AllocError>
    ensures { IfOk result (λ filter. filter ≡ spec.filter_from text.now) }
{
    let words = words(alloc, text)?;
    if words.is_empty() {
        return Ok(Some(None));
    }
    match parse_filter(alloc, text, &words)? {
        Some(filter) => Ok(Some(Some(filter))),
        None => Ok(None),
    }
}

fn includes(words: &[&[u8]]) -> bool
    ensures { result ≡ spec.includes (map (λ w. w.now) words.now) }
{
    begins(words, b"include")
}

// The names of the columns to include.
fn parse_included(alloc: Global, words: &[&[u8]]) -> Result<Option<Texts>, AllocError>
    ensures { IfOk result (λ names. names ≡ spec.included_of (map (λ w. w.now) words.now)) }
{
    if !includes(words) {
        return Ok(Some(Texts::new(alloc)));
    }
    parse_names(alloc, word_at(words, 1))
}

// The text after the columns to include.
fn after_included<'a>(text: &'a [u8], words: &[&[u8]]) -> &'a [u8]
    ensures { result.now ≡ spec.after_included text.now (map (λ w. w.now) words.now) }
{
    if includes(words) {
        after_words(text, 2)
    } else {
        text
    }
}

// The index of a name and of the columns that it is ordered by, with the clauses in the text after these.
fn index_with<'a>(
    alloc: Global,
    name: Text,
    on: Texts,
    text: &[u8],
) -> Result<Option<Command<'a>>, AllocError>
    ensures { IfOk result (λ command. command ≡ spec.index_with name on text.now) }
{
    let words = words(alloc, text)?;
    let Some(include) = parse_included(alloc, &words)? else {
        return Ok(None);
    };
    match parse_filter_from(alloc, after_included(text, &words))? {
        Some(filter) => Ok(Some(Command::Index(IndexForm {
            name,
            on,
            include,
            filter,
        }))),
        None => Ok(None),
    }
}

#[tactic(auto, unfolding(crate::specs::Commands::index_command))]
fn index_command<'a>(
    alloc: Global,
    head: &[u8],
    words: &[&[u8]],
) -> Result<Option<Command<'a>>, AllocError>
    ensures { IfOk result (λ command. command ≡ spec.index_command head.now (map (λ w. w.now) words.now)) }
{
    if !is_word(word_at(words, 2), b"on") {
        return Ok(None);
    }
    let Some(name) = parse_name(alloc, word_at(words, 1))? else {
        return Ok(None);
    };
    match parse_names(alloc, word_at(words, 3))? {
        Some(on) => index_with(alloc, name, on, after_words(head, 4)),
        None => Ok(None),
    }
}

#[tactic(auto, unfolding(crate::specs::Commands::build_command))]
fn build_command<'a>(alloc: Global, words: &[&[u8]]) -> Result<Option<Command<'a>>, AllocError>
    ensures { IfOk result (λ command. command ≡ spec.build_command (map (λ w. w.now) words.now)) }
{
    if words.len() != 3 {
        return Ok(None);
    }
    let Some(name) = parse_name(alloc, word_at(words, 1))? else {
        return Ok(None);
    };
    match parse_number(word_at(words, 2)) {
        Some(rows) => Ok(Some(Command::Build(name, rows))),
        None => Ok(None),
    }
}

/// The command of a head line that has no block.
#[tactic(auto, unfolding(crate::specs::Commands::closing_of))]
pub(crate) fn line_command<'a>(
    alloc: Global,
    head: &'a [u8],
    words: &[&[u8]],
) -> Result<Option<Command<'a>>, AllocError>
    requires { spec.closing_of (map (λ w. w.now) words.now) ≡ None }
    ensures { IfOk result (λ command. command ≡ spec.command_from head.now (map (λ w. w.now) words.now) []) }
{
    if begins(words, b"table") {
        return table_command(alloc, words);
    }
    if begins(words, b"get") {
        return Ok(get_command(head));
    }
    if begins(words, b"index") {
        return index_command(alloc, head, words);
    }
    if begins(words, b"build") {
        return build_command(alloc, words);
    }
    named_command(alloc, words)
}
