//! The operations of upserts.
use crate::samples::{fields, is_text, refusal_text, row_text, shops};
use bt_rowtype::{
    Change, Op, Ops, RecordLine, RecordReader, Refusal, Row, Value, apply_ops, check_ops,
    copy_change, copy_row, read_ops, write_record, write_row,
};
use std::alloc::{AllocError, Global};
use std::slice;

// Appends a word, a place and a value, and a bar.
fn add_words(
    alloc: Global,
    out: &mut Vec<u8>,
    word: &str,
    place: usize,
    value: &Value,
) -> Result<(), AllocError> {
    let words = format!(in alloc; "{word} {place} ")?;
    out.extend_from_slice(words.as_bytes())?;
    write_record(out, slice::from_ref(value))?;
    out.extend_from_slice(b"|")
}

// Appends an operation: `set 1 x|` or `add 1 5|`.
fn add_op(alloc: Global, out: &mut Vec<u8>, op: &Op) -> Result<(), AllocError> {
    let argument = op.argument().to_value(alloc)?;
    add_words(alloc, out, op.word(), op.place(), &argument)
}

fn ops_text(alloc: Global, ops: &[Op]) -> Result<Vec<u8>, AllocError> {
    let mut out = Vec::new(alloc);
    for op in ops {
        add_op(alloc, &mut out, op)?;
    }
    Ok(out)
}

// The operations of a line of the shops, the fourth message of a batch, or why there are none.
fn ops_of(alloc: Global, line: &str) -> Result<Vec<u8>, Refusal> {
    let fields = fields(alloc, line)?;
    let schema = shops(alloc)?;
    let read = read_ops(alloc, &schema, 4, &fields);
    drop(schema);
    match read {
        Ok(ops) => Ok(ops_text(alloc, ops.as_slice())?),
        Err(refusal) => Ok(refusal_text(alloc, refusal)?),
    }
}

#[test]
fn operations_are_read(rt: HostRuntime) {
    for (line, expected) in [
        (
            "9,set,city,Bonn,add,qty,-2,set,open,TRUE",
            "set 2 Bonn|add 1 -2|set 3 true|",
        ),
        ("9,max,qty,-2,min,qty,7", "max 1 -2|min 1 7|"),
        ("1,mul,nope,x", "BadField 4"),
        ("1,add,city,x", "NotInt 0"),
    ] {
        assert!(rt; is_text(ops_of(rt.alloc(), line), expected));
    }
}

// The change of the upsert in a line of the shops, the fourth message of a batch.
fn change_of(alloc: Global, line: &str) -> Result<Change, Refusal> {
    let schema = shops(alloc)?;
    let mut reader = RecordReader::new(alloc);
    match RecordLine::new(line.as_bytes()) {
        Some(line) => reader.read_change(alloc, &schema, 4, &line),
        None => Err(Refusal::BadLength(4)),
    }
}

// The row to begin with and the operations of a change.
fn change_text(alloc: Global, change: &Change) -> Result<Vec<u8>, AllocError> {
    let mut out = Vec::new(alloc);
    write_row(&mut out, change.base())?;
    out.extend_from_slice(b": ")?;
    let ops = change.ops(alloc)?;
    let ops = ops_text(alloc, ops.as_slice())?;
    out.extend_from_slice(ops.as_slice())?;
    Ok(out)
}

// The change of the upsert in a line, or why there is none.
fn change_of_line(alloc: Global, line: &str) -> Result<Vec<u8>, AllocError> {
    match change_of(alloc, line) {
        Ok(change) => change_text(alloc, &change),
        Err(refusal) => refusal_text(alloc, refusal),
    }
}

#[test]
fn changes_are_read(rt: HostRuntime) {
    for (line, expected) in [
        ("9,add,qty,-2", "9,0,,false: add 1 -2|"),
        ("9,set,city,Bonn", "9,0,,false: set 2 Bonn|"),
        (
            "9,set,city,Bonn,max,qty,7",
            "9,0,,false: set 2 Bonn|max 1 7|",
        ),
        ("x,add,nope,1", "BadField 4"),
    ] {
        assert!(rt; is_text(change_of_line(rt.alloc(), line), expected));
    }
}

// The row that a change gives to a key without a row.
fn changed(alloc: Global, change: &Change) -> Result<Row, AllocError> {
    let row = copy_row(alloc, change.base())?;
    match change.ops(alloc) {
        Ok(ops) => apply_ops(alloc, row, ops.as_slice()),
        Err(error) => {
            drop(row);
            Err(error)
        }
    }
}

// The row that the upsert of a line gives to a key without a row.
fn row_after(alloc: Global, line: &str) -> Result<Vec<u8>, Refusal> {
    let change = change_of(alloc, line)?;
    let row = changed(alloc, &change);
    drop(change);
    Ok(row_text(alloc, Ok(row?))?)
}

#[test]
fn operations_change_the_default_row(rt: HostRuntime) {
    for (line, expected) in [
        ("9,set,qty,5,add,qty,-2,set,city,Bonn", "9,3,Bonn,false"),
        ("9,min,qty,3", "9,0,,false"),
        ("9,min,qty,-3,max,qty,-4", "9,-3,,false"),
        ("9,max,qty,7", "9,7,,false"),
    ] {
        assert!(rt; is_text(row_after(rt.alloc(), line), expected));
    }
}

// A copy of the change of the upsert in a line.
fn copied(alloc: Global, line: &str) -> Result<Change, Refusal> {
    let change = change_of(alloc, line)?;
    let copy = copy_change(alloc, &change);
    drop(change);
    Ok(copy?)
}

// The row to begin with and the operations of such a copy.
fn copy_of(alloc: Global, line: &str) -> Result<Vec<u8>, Refusal> {
    let copy = copied(alloc, line)?;
    Ok(change_text(alloc, &copy)?)
}

#[test]
fn changes_are_copied(rt: HostRuntime) {
    let copy = copy_of(
        rt.alloc(),
        "9,add,qty,-2,set,city,a text of more than 22 bytes",
    );
    assert!(rt;
        is_text(
            copy,
            "9,0,,false: add 1 -2|set 2 a text of more than 22 bytes|"
        )
    );
}

// The result of checking an addition to a column.
fn addition_checked(alloc: Global, place: usize) -> Result<(), Refusal> {
    let mut ops = Ops::new(alloc);
    ops.push(Op::Add(place, 1))?;
    check_ops(&shops(alloc)?, 2, ops.as_slice())
}

#[test]
fn operations_are_checked(rt: HostRuntime) {
    for (place, expected) in [
        (0, Err(Refusal::NoSuchColumn)),
        (1, Ok(())),
        (2, Err(Refusal::NotInt)),
        (4, Err(Refusal::NoSuchColumn)),
    ] {
        assert!(rt; addition_checked(rt.alloc(), place) == expected);
    }
}
