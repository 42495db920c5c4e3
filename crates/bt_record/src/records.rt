//! The records of a text, one after the other.
ghost use Rattle.std.specs.Prelude.{◌≡◌, ◌≤◌, ◌∷◌, [], false, length, true, IfNone, IfSome, MatchOption};
ghost use Rattle.csv.specs.Reading.{default_config, records, strip_bom};
ghost use Rattle.bt_record.specs.Records.{has_mark as is_after_mark};
ghost use Rattle.bt_record.specs.inside.RecordParts.{EndsAt, begins_record, is_line_end as ends_line};

use crate::csv_reader::CsvReader;
use crate::csv_states::record_end;
use crate::line::{RecordLine, has_mark, without_mark};
use memchr::memchr3;
use std::alloc::Global;
use std::marker::Model;

/// The rest of the records of a text, as `csv` reads them, borrowed. A contract sees the fields of each.
#[derive(Drop)]
pub struct Records<'a> {
    // the rest of the text, from the line end that ended the last record
    rest: &'a [u8],
}

impl<'a> Model for Records<'a> {
    ghost use Rattle.std.specs.Prelude.{◌≡◌, List, ℕ, false};
    ghost use Rattle.csv.specs.Reading.{default_config, records};
    ghost use Rattle.bt_record.specs.Records.{has_mark as is_after_mark};

    ghost Value = { List (List (List ℕ)) };

    ghost view = { λ a. records default_config a.rest.now };

    ghost invariant = { λ a. is_after_mark a.rest.now ≡ false };
}

// Whether a byte ends a line.
fn is_line_end(byte: u8) -> bool
    ensures { result ≡ ends_line byte }
{
    matches!(byte, b'\r' | b'\n')
}

// A text from its first record on, if it has one. Line ends before the record are skipped, as in csv.
fn skip_line_ends(text: &[u8]) -> Option<&[u8]>
    ensures { MatchOption result (records default_config text.now ≡ []) (λ rest. (begins_record rest.now ≡ true) × (records default_config rest.now ≡ records default_config text.now)) }
{
    let mut rest = text;
    while let [byte, others @ ..] = rest {
        if !is_line_end(*byte) {
            return Some(rest);
        }
        rest = others;
    }
    None
}

// The end of the first record of a text that begins with it. The record is read byte by byte only if it has a quote before its first
// line end.
fn find_record_end(text: &[u8]) -> usize
    requires { begins_record text.now ≡ true }
    ensures within { result ≤ length text.now }
    ensures ends { EndsAt text.now result }
{
    let Some(place) = memchr3(b'"', b'\r', b'\n', text) else {
        return text.len();
    };
    if text[place] == b'"' {
        record_end(text)
    } else {
        place
    }
}

impl<'a> Records<'a> {
    /// The records of a text. One byte order mark at its start is dropped; if there are two, the result is `None`.
    pub fn new(text: &'a [u8]) -> Option<Self>
        ensures some { IfSome result (λ found. found ≡ records default_config (strip_bom text.now)) }
        ensures unmarked { IfSome result (λ _. is_after_mark (strip_bom text.now) ≡ false) }
        ensures none { IfNone result (is_after_mark (strip_bom text.now) ≡ true) }
    {
        let rest = without_mark(text);
        if has_mark(rest) {
            return None;
        }
        Some(Records { rest })
    }

    /// The same records again.
    pub fn copy(&self) -> Records<'a>
        ensures { result ≡ self.now }
    {
        Records { rest: self.rest }
    }

    /// A `csv` reader of these records.
    pub fn csv_reader(&self, alloc: Global) -> CsvReader<'a>
        ensures { result ≡ self.now }
    {
        CsvReader::new(alloc, self.rest)
    }

    /// The next record, if there is one.
    #[tactic(auto, using(crate::proofs::Marks::unmarked))]
    pub fn next(&mut self) -> Option<RecordLine<'a>>
        ensures some { IfSome result (λ line. self.old ≡ line ∷ self.new) }
        ensures none { IfNone result ((self.old ≡ []) × (self.new ≡ [])) }
    {
        let text = skip_line_ends(self.rest)?;
        let place = find_record_end(text);
        self.rest = &text[place..];
        Some(RecordLine::of(&text[..place]))
    }
}
