//! Lines, words, numbers and names.
ghost use Rattle.std.specs.Prelude.{◌≡◌, ◌==◌, ◌∷◌, ◌++◌, ◌<◌, ◌≤◌, Bool, IfOk, IfSome, drop, length, map, not, option_map, true};
ghost use Rattle.std.specs.List.{list_all, slice_split, take_while};
ghost use Rattle.bt_value.specs.Ints.{is_digit, number_written};
ghost use Rattle.bt_script.specs.Commands as spec;
ghost use Rattle.bt_script.specs.Lines as text;

use bt_record::RecordLine;
use bt_value::{Text, Texts};
use memchr::memchr;
use std::alloc::{AllocError, Global};
use std::str;

// The number of bytes before the first line feed, or of all bytes if there is none.
fn line_len(text: &[u8]) -> usize
    ensures { result ≡ length (take_while (λ b. not (b == 10)) text.now) }
{
    match memchr(b'\n', text) {
        Some(place) => place,
        None => text.len(),
    }
}

/// The line at a place, and the place after it.
pub(crate) fn next_line(script: &[u8], at: usize) -> (&[u8], usize)
    requires { at < length script.now }
    ensures line { text.lines (drop at script.now) ≡ result.0.now ∷ text.lines (drop result.1 script.now) }
    // If the script continues after the line, a line feed ends it.
    ensures feed { result.1 < length script.now → drop at script.now ≡ result.0.now ++ 10 ∷ drop result.1 script.now }
    ensures past { at < result.1 }
    ensures within { result.1 ≤ length script.now }
{
    let rest = &script[at..];
    let end = line_len(rest);
    let next = if end < rest.len() {
        at + end + 1
    } else {
        script.len()
    };
    (&rest[..end], next)
}

pub(crate) fn without_return(line: &[u8]) -> &[u8]
    ensures { result.now ≡ text.without_return line.now }
{
    match line {
        [prefix @ .., b'\r'] => prefix,
        _ => line,
    }
}

// The number of spaces at the start.
fn space_count(line: &[u8]) -> usize
    ensures { result ≡ length (take_while (λ b. b == 32) line.now) }
{
    line.iter().take_while(|byte| **byte == b' ').count()
}

pub(crate) fn without_spaces(line: &[u8]) -> &[u8]
    ensures { result.now ≡ text.without_spaces line.now }
{
    &line[space_count(line)..]
}

/// Whether a line is empty or has only spaces.
pub(crate) fn is_blank(line: &[u8]) -> bool
    ensures { result ≡ text.is_blank line.now }
{
    line.iter().all(|byte| *byte == b' ')
}

/// The words of a line.
pub(crate) fn words(alloc: Global, line: &[u8]) -> Result<Vec<&[u8]>, AllocError>
    ensures { IfOk result (λ words. map (λ w. w.now) words.items ≡ text.words line.now) }
{
    line.split(|byte| *byte == b' ')
        .filter(|word| !word.is_empty())
        .collect(alloc)
}

pub(crate) fn is_word(text: &[u8], word: &[u8]) -> bool
    ensures { result ≡ spec.is_word text.now word.now }
{
    text == word
}

/// The word at a place, or the empty one.
pub(crate) fn word_at<'a>(words: &[&'a [u8]], place: usize) -> &'a [u8]
    ensures { result.now ≡ spec.word_at (map (λ w. w.now) words.now) place }
{
    match words.get(place) {
        Some(word) => *word,
        None => &[],
    }
}

pub(crate) fn begins(words: &[&[u8]], word: &[u8]) -> bool
    ensures { result ≡ spec.begins (map (λ w. w.now) words.now) word.now }
{
    is_word(word_at(words, 0), word)
}

/// What follows a prefix, if the line begins with it.
pub(crate) fn after_prefix<'a>(prefix: &[u8], line: &'a [u8]) -> Option<&'a [u8]>
    ensures { option_map (λ s. s.now) result ≡ spec.after_prefix prefix.now line.now }
{
    line.strip_prefix(prefix)
}

pub(crate) fn record_after<'a>(prefix: &[u8], line: &'a [u8]) -> Option<RecordLine<'a>>
    ensures { result ≡ spec.record_after prefix.now line.now }
{
    match after_prefix(prefix, line) {
        Some(record) => RecordLine::new(record),
        None => None,
    }
}

/// The parts of a word between separator bytes.
pub(crate) fn parts(alloc: Global, word: &[u8], separator: u8) -> Result<Vec<&[u8]>, AllocError>
    ensures { IfOk result (λ parts. map (λ p. p.now) parts.items ≡ slice_split (λ b. b == separator) word.now) }
{
    word.split(|byte| *byte == separator).collect(alloc)
}

// The number of bytes before the first space, or of all bytes if there is none.
fn word_len(line: &[u8]) -> usize
    ensures { result ≡ length (take_while (λ b. not (b == 32)) line.now) }
{
    line.iter().take_while(|byte| **byte != b' ').count()
}

// What follows the first word of a line.
fn after_word(line: &[u8]) -> &[u8]
    ensures { result.now ≡ text.after_word line.now }
{
    let from_word = without_spaces(line);
    &from_word[word_len(from_word)..]
}

/// What follows the first `count` words of a line.
#[tactic(auto, using(crate::proofs::Following::after_none, crate::proofs::Following::following_more))]
pub(crate) fn after_words(line: &[u8], count: usize) -> &[u8]
    ensures { result.now ≡ text.after_words count line.now }
{
    if count == 0 {
        return line;
    }
    after_words(after_word(line), count - 1)
}

fn has_digits(word: &[u8]) -> bool
    ensures { result ≡ list_all is_digit word.now }
{
    word.iter().all(|byte| b'0' <= *byte && *byte <= b'9')
}

fn digits_value(word: &[u8]) -> u32
    requires digits { list_all is_digit word.now ≡ true }
    requires short { length word.now ≤ 9 }
    ensures { result ≡ number_written word.now }
{
    let mut value = 0u32;
    for digit in word {
        value = value * 10 + u32::from(*digit - b'0');
    }
    value
}

/// The number that a word of 1 to 9 digits writes.
pub(crate) fn parse_number(word: &[u8]) -> Option<u32>
    ensures { result ≡ text.number_of_word word.now }
{
    if word.is_empty() || word.len() > 9 || !has_digits(word) {
        return None;
    }
    Some(digits_value(word))
}

fn is_name_byte(byte: u8) -> bool
    ensures { result ≡ text.is_name_byte byte }
{
    (b'a' <= byte && byte <= b'z') || (b'0' <= byte && byte <= b'9') || byte == b'_'
}

fn has_name_bytes(word: &[u8]) -> bool
    ensures { result ≡ list_all text.is_name_byte word.now }
{
    word.iter().all(|byte| is_name_byte(*byte))
}

fn is_name(word: &[u8]) -> bool
    ensures { result ≡ text.is_name word.now }
{
    if word.is_empty() || word.len() > 32 {
        return false;
    }
    b'a' <= word[0] && word[0] <= b'z' && has_name_bytes(word)
}

// The name that a word is.
fn name_text(word: &[u8]) -> Option<&str>
    ensures name { option_map (λ n. n.now) result ≡ text.name_of_word word.now }
    ensures short { IfSome result (λ n. length n.now ≤ 32) }
{
    if !is_name(word) {
        return None;
    }
    match str::from_utf8(word) {
        Ok(name) => Some(name),
        Err(_) => None,
    }
}

/// The name that a word is: 1 to 32 letters, digits and `_`, the first one a letter.
pub(crate) fn parse_name(alloc: Global, word: &[u8]) -> Result<Option<Text>, AllocError>
    ensures { IfOk result (λ name. name ≡ text.name_of_word word.now) }
{
    match name_text(word) {
        Some(name) => Ok(Some(Text::new(alloc, name)?)),
        None => Ok(None),
    }
}

/// The names that commas join.
#[tactic(auto, unfolding(crate::specs::Commands::names_of))]
pub(crate) fn parse_names(alloc: Global, word: &[u8]) -> Result<Option<Texts>, AllocError>
    ensures { IfOk result (λ names. names ≡ spec.names_of word.now) }
{
    let parts = parts(alloc, word, b',')?;
    let mut names = Texts::new(alloc);
    for part in &parts {
        let Some(name) = name_text(part) else {
            return Ok(None);
        };
        names.push(name)?;
    }
    Ok(Some(names))
}
