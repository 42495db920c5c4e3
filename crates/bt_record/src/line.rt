//! Lines that have a record.
ghost use Rattle.std.specs.Prelude.{◌≡◌, ◌==◌, is_some, true, IfOk};
ghost use Rattle.std.specs.List.{list_all, list_any};
ghost use Rattle.csv.specs.Reading.{strip_bom};
ghost use Rattle.bt_record.specs.Records.{csv_record, has_mark as is_after_mark, record_of, fields_in};

use crate::commas::cut_plain;
use crate::csv_states::cut_quoted;
use crate::fields::Fields;
use memchr::memchr;
use std::alloc::{AllocError, Global};
use std::marker::Model;

/// A line with a record that is not cut yet. It is more than one line of text if there are line ends between quotes. A contract sees
/// the fields of the record.
#[derive(Debug, Drop)]
pub struct RecordLine<'a> {
    // the line after its byte order mark, if it has one
    text: &'a [u8],
}

impl<'a> Model for RecordLine<'a> {
    ghost use Rattle.std.specs.Prelude.{◌≡◌, List, ℕ, is_some, true};
    ghost use Rattle.bt_record.specs.Records.{csv_record, fields_in};

    ghost Value = { List (List ℕ) };

    ghost view = { λ a. fields_in a.text.now };

    ghost invariant = { λ a. is_some (csv_record a.text.now) ≡ true };
}

/// Whether a text begins with a byte order mark.
pub(crate) fn has_mark(text: &[u8]) -> bool
    ensures { result ≡ is_after_mark text.now }
{
    matches!(text, [0xEF, 0xBB, 0xBF, ..])
}

/// A text without its byte order mark, if it has one.
#[tactic(auto, using(crate::proofs::Marks::strip_by_test))]
pub(crate) fn without_mark(text: &[u8]) -> &[u8]
    ensures { result.now ≡ strip_bom text.now }
{
    if has_mark(text) { &text[3..] } else { text }
}

// Whether a text has a CR.
fn has_return(text: &[u8]) -> bool
    ensures { result ≡ list_any (λ b. b == 13) text.now }
{
    memchr(b'\r', text).is_some()
}

// Whether a text has only line feeds, or nothing.
fn has_only_feeds(text: &[u8]) -> bool
    ensures { result ≡ list_all (λ b. b == 10) text.now }
{
    text.iter().all(|byte| *byte == b'\n')
}

impl<'a> RecordLine<'a> {
    /// The line, if it has a record. One byte order mark at its start is dropped. A line has no record if it is empty, has a CR, has
    /// only line feeds, or begins with two byte order marks.
    pub fn new(line: &'a [u8]) -> Option<Self>
        ensures { result ≡ record_of line.now }
    {
        let text = without_mark(line);
        if has_only_feeds(text) || has_mark(text) || has_return(text) {
            return None;
        }
        Some(RecordLine { text })
    }

    /// The first record of a text.
    pub(crate) fn of(text: &'a [u8]) -> Self
        requires { is_some (csv_record text.now) ≡ true }
        ensures { result ≡ fields_in text.now }
    {
        RecordLine { text }
    }

    /// The text that begins with this record.
    pub fn text(&self) -> &'a [u8]
        ensures found { is_some (csv_record result.now) ≡ true }
        ensures fields { self.now ≡ fields_in result.now }
    {
        self.text
    }

    /// The fields, owned.
    pub fn fields(&self, alloc: Global) -> Result<Fields, AllocError>
        ensures { IfOk result (λ fields. fields ≡ self.now) }
    {
        let mut bytes = Vec::new(alloc);
        let mut spans = Vec::new(alloc);
        if cut_plain(&mut spans, self.text, usize::MAX)? {
            bytes.extend_from_slice(self.text)?;
        } else {
            // no text has this many fields
            cut_quoted(&mut bytes, &mut spans, self.text, usize::MAX)?;
        }
        Ok(Fields::from_parts(bytes, spans))
    }
}
