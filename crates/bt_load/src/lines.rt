//! The records of a text as lines, and places in the text from which `csv` can read them.
ghost use Rattle.std.specs.Prelude.{◌≡◌, ◌≤◌, drop, length, IfOk};

use bt_record::{CsvReader, RecordLine, Records};
use std::alloc::{AllocError, Global};
use std::marker::Model;

// The number of records from one mark to the next.
const BETWEEN_MARKS: usize = 1024;

/// Records that are not cut yet. Each mark is a place in the text, before the first record and after every 1,024 records, from which `csv`
/// can read the records that follow. A contract sees the fields of each record.
#[derive(Drop)]
pub struct Lines<'a> {
    lines: Vec<RecordLine<'a>>,
    marks: Vec<Records<'a>>,
}

impl<'a> Model for Lines<'a> {
    ghost use Rattle.std.specs.Prelude.{List, ℕ};
    ghost use Rattle.bt_load.specs.inside.Marks.{AreMarks};

    ghost Value = { List (List (List ℕ)) };

    ghost view = { λ a. a.lines.items };

    ghost invariant = { λ a. AreMarks a.lines.items a.marks.items };
}

// The records without the first ones, which are at most this many.
fn skip<'a>(records: Records<'a>, count: usize) -> Records<'a>
    ensures { result ≡ drop count records.entry }
{
    let mut records = records;
    for _ in 0..count {
        records.next();
    }
    records
}

impl<'a> Lines<'a> {
    /// These records.
    pub(crate) fn of(alloc: Global, records: Records<'a>) -> Result<Self, AllocError>
        ensures { IfOk result (λ lines. lines ≡ records.entry) }
    {
        let mut records = records;
        let mut lines = Vec::new(alloc);
        let mut marks = Vec::new(alloc);
        loop {
            if lines.len() % BETWEEN_MARKS == 0 {
                marks.push(records.copy())?;
            }
            let Some(line) = records.next() else {
                return Ok(Lines { lines, marks });
            };
            lines.push(line)?;
        }
    }

    /// The records as lines.
    pub(crate) fn as_slice(&self) -> &[RecordLine<'a>]
        ensures { result.now ≡ self.now }
    {
        self.lines.as_slice()
    }

    /// A `csv` reader of the records from a place on.
    pub(crate) fn csv_reader(&self, alloc: Global, place: usize) -> CsvReader<'a>
        requires { place ≤ length self.now }
        ensures { result ≡ drop place self.now }
    {
        let mark = self.marks[place / BETWEEN_MARKS].copy();
        skip(mark, place % BETWEEN_MARKS).csv_reader(alloc)
    }
}
