//! Fields, records and rows.
use crate::samples::{fields, is_text, refusal_text, row_text, shops, short_text};
use bt_rowtype::{
    Kind, RecordLine, Refusal, Row, Value, clone_all, copy_row, read_field, read_key, read_row,
    write_record,
};
use std::alloc::{AllocError, Global};
use std::slice;

// The value that a field of a kind is read as.
fn field_text(alloc: Global, kind: Kind, field: &str) -> Result<Vec<u8>, AllocError> {
    match read_field(alloc, kind, field.as_bytes()) {
        Ok(value) => row_text(alloc, Ok(Row::from_values(alloc, slice::from_ref(&value))?)),
        Err(refusal) => refusal_text(alloc, refusal),
    }
}

#[test]
fn fields_of_each_kind(rt: HostRuntime) {
    for (kind, field, expected) in [
        (Kind::Int, "-0", "0"),
        (Kind::Int, "007", "7"),
        (Kind::Int, "9223372036854775808", "BadField 1"),
        (Kind::Int, "+1", "BadField 1"),
        (Kind::Int, "", "BadField 1"),
        (Kind::Text, "Zürich", "Zürich"),
        (Kind::Flag, "tRuE", "true"),
        (Kind::Bytes, "00fFA0", "00ffa0"),
        (Kind::Bytes, "", "\"\""),
        (Kind::Bytes, "0", "BadField 1"),
        (Kind::Bytes, "0g", "BadField 1"),
    ] {
        assert!(rt; is_text(field_text(rt.alloc(), kind, field), expected));
    }
}

// The row of a line of the shops, the third message of a batch.
fn row_of(alloc: Global, line: &str) -> Result<Vec<u8>, Refusal> {
    let schema = shops(alloc)?;
    let fields = fields(alloc, line)?;
    Ok(row_text(alloc, read_row(alloc, &schema, 3, &fields))?)
}

#[test]
fn rows_are_read(rt: HostRuntime) {
    for (line, expected) in [
        ("-0,007,\"Bonn, west\",TRUE", "0,7,\"Bonn, west\",true"),
        ("x", "BadLength 3"),
        ("1,2,Bonn,maybe", "BadField 3"),
    ] {
        assert!(rt; is_text(row_of(rt.alloc(), line), expected));
    }
}

// The key of a line of the shops, the third message of a batch.
fn key_of(alloc: Global, line: &str) -> Result<Vec<u8>, Refusal> {
    let schema = shops(alloc)?;
    let fields = fields(alloc, line)?;
    Ok(row_text(alloc, read_key(alloc, &schema, 3, &fields))?)
}

#[test]
fn keys_are_read(rt: HostRuntime) {
    for (line, expected) in [("009", "9"), ("9,9", "BadLength 3"), ("x", "BadField 3")] {
        assert!(rt; is_text(key_of(rt.alloc(), line), expected));
    }
}

// The row of a line of the shops, after it is checked.
fn checked_row(alloc: Global, line: &str) -> Result<Row, Refusal> {
    let schema = shops(alloc)?;
    let fields = fields(alloc, line)?;
    let row = read_row(alloc, &schema, 4, &fields)?;
    if let Err(refusal) = schema.check_row(4, &row) {
        drop(row);
        return Err(refusal);
    }
    Ok(row)
}

// A copy of the row of a line of the shops.
fn copy_of(alloc: Global, line: &str) -> Result<Vec<u8>, Refusal> {
    let row = checked_row(alloc, line)?;
    let copy = copy_row(alloc, &row);
    drop(row);
    Ok(row_text(alloc, Ok(copy?))?)
}

#[test]
fn rows_are_checked_and_copied(rt: HostRuntime) {
    let line = "1,2,a text of more than 22 bytes,true";
    assert!(rt; is_text(copy_of(rt.alloc(), line), line));
}

// A row of `count` zeros.
fn zeros(alloc: Global, count: u32) -> Result<Row, AllocError> {
    let mut values = Vec::new(alloc);
    for _ in 0..count {
        values.push(Value::Int(0))?;
    }
    Row::from_values(alloc, values.as_slice())
}

// The result of checking a row of `count` zeros, the fourth message of a batch.
fn zeros_checked(alloc: Global, count: u32) -> Result<(), Refusal> {
    shops(alloc)?.check_row(4, &zeros(alloc, count)?)
}

#[test]
fn rows_of_other_schemas(rt: HostRuntime) {
    assert!(rt; matches!(zeros_checked(rt.alloc(), 1), Err(Refusal::BadLength(4))));
    assert!(rt; matches!(zeros_checked(rt.alloc(), 4), Err(Refusal::BadField(4))));
}

// The fields of a line between bars, or nothing if it is not a record.
fn record_text(alloc: Global, line: &[u8]) -> Result<Vec<u8>, AllocError> {
    let mut out = Vec::new(alloc);
    if let Some(line) = RecordLine::new(line) {
        let fields = line.fields(alloc)?;
        for place in 0..fields.len() {
            out.extend_from_slice(b"|")?;
            out.extend_from_slice(fields.get(place))?;
        }
    }
    Ok(out)
}

#[test]
fn records_are_read(rt: HostRuntime) {
    let lines: [(&[u8], &str); 2] = [(b"\"1,2\",,\"a\"\"b\" c", "|1,2||a\"b c"), (b"1\r,2", "")];
    for (line, expected) in lines {
        assert!(rt; is_text(record_text(rt.alloc(), line), expected));
    }
}

// A word, followed by the record of the texts between bars.
fn texts_record(alloc: Global, texts: &str) -> Result<Vec<u8>, AllocError> {
    let mut values = Vec::new(alloc);
    for text in texts.split('|') {
        values.reserve(1)?;
        values.push_reserved(Value::Text(short_text(alloc, text)?));
    }
    let mut out = Vec::from_slice(alloc, b"row ")?;
    write_record(&mut out, values.as_slice())?;
    Ok(out)
}

#[test]
fn records_are_written(rt: HostRuntime) {
    for (texts, expected) in [
        ("plain||a,b|\"", "row plain,,\"a,b\",\"\"\"\""),
        ("", "row \"\""),
    ] {
        assert!(rt; is_text(texts_record(rt.alloc(), texts), expected));
    }
}

// Copies of pairs of a number and a text, as one record.
fn copied_pairs(alloc: Global, number: i64, text: &str) -> Result<Vec<u8>, AllocError> {
    let mut pairs = Vec::new(alloc);
    pairs.push((Value::Int(number), Value::Text(short_text(alloc, text)?)))?;
    let mut values = Vec::new(alloc);
    for (first, second) in clone_all(alloc, pairs.as_slice())? {
        values.push(first)?;
        values.push(second)?;
    }
    row_text(alloc, Ok(Row::from_values(alloc, values.as_slice())?))
}

#[test]
fn pairs_are_copied(rt: HostRuntime) {
    let text = copied_pairs(rt.alloc(), 7, "a text of more than 22 bytes");
    assert!(rt; is_text(text, "7,a text of more than 22 bytes"));
}
