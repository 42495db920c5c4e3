//! The rows that records encode. One reader of `csv` reads a piece of the records if any of them has a quote. Otherwise each line is cut at
//! its commas.
ghost use Rattle.std.specs.Prelude.{◌≡◌, ◌≤◌, ◌+◌, IfOk, length, true};
ghost use Rattle.bt_load.specs.Steps.{AreRowsOrNone, IsRowOrNone};
ghost use Rattle.bt_load.specs.inside.Typed.{HaveValues, IsReadingOf};

use crate::lines::Lines;
use crate::loading::Loading;
use bt_record::{Fields, RecordLine};
use bt_row::{Row, Schema};
use bt_rowtype::{RecordReader, read_row};
use bt_value::Collected;
use memchr::memchr;
use std::alloc::{AllocError, Global};

// Types records one after the other, each line by itself. The first of them is item 1.
pub(crate) fn type_in_turn(
    alloc: Global,
    schema: &Schema,
    records: &[RecordLine<'_>],
) -> Result<Collected<Row>, AllocError>
    ensures { IfOk result (λ read. IsReadingOf schema.now.columns 1 records.now read) }
{
    let mut reader = RecordReader::new(alloc);
    let mut reading = Collected::with_capacity(alloc, records.len())?;
    for (place, record) in records.iter().enumerate() {
        let read = reader.read_row(alloc, schema, 1 + place as u64, record);
        reading.add(read)?;
    }
    Ok(reading)
}

// The row of a record, or a row without values if the record is refused or an allocation fails.
fn row_or_none(
    alloc: Global,
    reader: &mut RecordReader,
    schema: &Schema,
    line: &RecordLine<'_>,
) -> Row
    ensures { IsRowOrNone schema.now.columns line.now result }
{
    match reader.read_row(alloc, schema, 1, line) {
        Ok(row) => row,
        Err(_) => Row::new(),
    }
}

// Writes the rows of the records from `start` on to a piece, or rows without values. Each line is read by itself.
fn type_lines(
    alloc: Global,
    schema: &Schema,
    records: &[RecordLine<'_>],
    start: usize,
    piece: &mut [Row],
)
    requires { start + length piece.old ≤ length records.now }
    ensures long { length piece.new ≡ length piece.old }
    ensures typed { AreRowsOrNone schema.now.columns start records.now piece.new }
{
    let mut reader = RecordReader::new(alloc);
    for offset in 0..piece.len() {
        piece[offset] = row_or_none(alloc, &mut reader, schema, &records[start + offset]);
    }
}

// The row that fields encode, or a row without values if they are refused or an allocation fails.
fn fields_row_or_none(alloc: Global, schema: &Schema, fields: &Fields) -> Row
    ensures { IsRowOrNone schema.now.columns fields.now result }
{
    match read_row(alloc, schema, 1, fields) {
        Ok(row) => row,
        Err(_) => Row::new(),
    }
}

// Writes the rows of the records from `start` on to a piece, or rows without values. One reader of `csv` reads the records. After a failed
// allocation all further rows are without values.
fn type_by_csv(alloc: Global, schema: &Schema, records: &Lines<'_>, start: usize, piece: &mut [Row])
    requires { start + length piece.old ≤ length records.now }
    ensures long { length piece.new ≡ length piece.old }
    ensures typed { AreRowsOrNone schema.now.columns start records.now piece.new }
{
    // one field more than there are columns shows that there are too many
    let most = schema.columns().len() + 1;
    let mut reader = records.csv_reader(alloc, start);
    let mut fields = Fields::new(alloc);
    let mut reads = true;
    for offset in 0..piece.len() {
        reads = reads && matches!(reader.next(&mut fields, most), Ok(true));
        let row = if reads {
            fields_row_or_none(alloc, schema, &fields)
        } else {
            Row::new()
        };
        piece[offset] = row;
    }
}

// Whether any record has a quote.
fn have_quotes(records: &[RecordLine<'_>]) -> bool {
    records
        .iter()
        .any(|line| memchr(b'"', line.text()).is_some())
}

// Writes the rows of the records from `start` on to a piece, or rows without values. `csv` reads the piece if a record of it has a quote.
pub(crate) fn type_piece(
    alloc: Global,
    schema: &Schema,
    records: &Lines<'_>,
    start: usize,
    piece: &mut [Row],
)
    requires { start + length piece.old ≤ length records.now }
    ensures long { length piece.new ≡ length piece.old }
    ensures typed { AreRowsOrNone schema.now.columns start records.now piece.new }
{
    let lines = records.as_slice();
    if have_quotes(&lines[start..start + piece.len()]) {
        type_by_csv(alloc, schema, records, start, piece);
    } else {
        type_lines(alloc, schema, lines, start, piece);
    }
}

// The row of each record, or a row without values if the record is refused or an allocation fails.
pub(crate) fn rows_or_none<L: Loading>(
    loading: &L,
    alloc: Global,
    schema: &Schema,
    records: &Lines<'_>,
) -> Result<Vec<Row>, AllocError>
    requires ready { L.accepts loading.now }
    ensures long { IfOk result (λ rows. length rows.items ≡ length records.now) }
    ensures typed { IfOk result (λ rows. AreRowsOrNone schema.now.columns 0 records.now rows.items) }
{
    let mut rows = Vec::new(alloc);
    rows.resize_with(records.as_slice().len(), Row::new)?;
    loading.type_records(alloc, schema, records, rows.as_mut_slice());
    Ok(rows)
}

// Whether each row has a value.
pub(crate) fn all_have_values(rows: &[Row]) -> bool
    ensures { result ≡ true → HaveValues rows.now }
{
    rows.iter().all(|row| !row.values().is_empty())
}
