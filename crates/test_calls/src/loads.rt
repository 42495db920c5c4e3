//! The rows of CSV texts, read and sorted in threads.
use crate::samples::{is_text, refusal_text, shops};
use bt_keycode::Key;
use bt_load::{load_rows, read_records};
use bt_rowtype::{Refusal, Row, write_row};
use std::alloc::{AllocError, Global};
use std::thread::Threads;

// The records of rows with their keys, in this order.
fn pairs_text(alloc: Global, pairs: Vec<(Key, Row)>) -> Result<Vec<u8>, AllocError> {
    let mut out = Vec::new(alloc);
    for (_key, row) in pairs {
        write_row(&mut out, &row)?;
        out.extend_from_slice(b"|")?;
    }
    Ok(out)
}

// The rows of a text of shops in ascending order of their keys.
fn loaded<T: Threads + Sync>(
    rt: &T,
    alloc: Global,
    text: &str,
) -> Result<Vec<(Key, Row)>, Refusal> {
    let schema = shops(alloc)?;
    let rows = read_records(rt, alloc, text.as_bytes(), &schema)?;
    load_rows(rt, alloc, rows, &schema)
}

// Their records, or why there are none.
fn loaded_text<T: Threads + Sync>(
    rt: &T,
    alloc: Global,
    text: &str,
) -> Result<Vec<u8>, AllocError> {
    match loaded(rt, alloc, text) {
        Ok(pairs) => pairs_text(alloc, pairs),
        Err(refusal) => refusal_text(alloc, refusal),
    }
}

#[test]
fn texts_are_loaded(rt: HostRuntime) {
    for (text, expected) in [
        (
            "id,qty,city,open\n7,1,Bonn,true\n-2,5,\"Bonn, west\",FALSE\n",
            "-2,5,\"Bonn, west\",false|7,1,Bonn,true|",
        ),
        ("id,qty,city,open\n", ""),
        ("", "BadSchema 0"),
        ("id,qty,city\n", "BadSchema 0"),
        ("id,qty,city,open\n7,1,Bonn\n8,1,Bonn,maybe\n", "BadField 2"),
        (
            "id,qty,city,open\n7,1,Bonn,true\n8,1,Bonn,true\n7,2,Kiel,true\n",
            "DuplicateKey 3",
        ),
    ] {
        assert!(rt; is_text(loaded_text(&rt, rt.alloc(), text), expected));
    }
}
