//! Codes of values, and keys.
use crate::samples::{fields, is_text, key, row_text};
use bt_keycode::{DecodeError, Key, cmp_rows, code_len, decode, encode, encode_prefix};
use bt_rowtype::{Kind, Refusal, Value, read_field};
use std::alloc::{AllocError, Global};
use std::cmp::Ordering;
use std::slice;

fn hex_of(alloc: Global, key: &Key) -> Result<Vec<u8>, AllocError> {
    let mut out = Vec::new(alloc);
    key.write_hex(&mut out)?;
    Ok(out)
}

// The values of the fields of a line; they have these kinds.
fn values_of(alloc: Global, kinds: &[Kind], line: &str) -> Result<Vec<Value>, Refusal> {
    let fields = fields(alloc, line)?;
    let mut values = Vec::new(alloc);
    for (place, kind) in kinds.iter().enumerate() {
        if place < fields.len() {
            values.reserve(1)?;
            values.push_reserved(read_field(alloc, *kind, fields.get(place))?);
        }
    }
    Ok(values)
}

// The code of the fields of a line of these kinds.
fn code_of(alloc: Global, kinds: &[Kind], line: &str) -> Result<Vec<u8>, Refusal> {
    let values = values_of(alloc, kinds, line)?;
    let code = encode(alloc, values.as_slice())?;
    let text = hex_of(alloc, &code);
    drop(code);
    Ok(text?)
}

#[test]
fn codes_of_values(rt: HostRuntime) {
    let lines: [(&[Kind], &str, &str); 3] = [
        (
            &[Kind::Text, Kind::Int],
            "a\0,0",
            "6100ff00018000000000000000",
        ),
        (&[Kind::Bytes, Kind::Bytes], "00FF,", "00ffff00010001"),
        // a key of at most 22 bytes needs no allocation; this code is longer
        (
            &[Kind::Text],
            "aaaaaaaaaaaaaaaaaaaaa",
            "6161616161616161616161616161616161616161610001",
        ),
    ];
    for (kinds, line, expected) in lines {
        assert!(rt; is_text(code_of(rt.alloc(), kinds, line), expected));
    }
}

// The length of the code of the fields of a line of these kinds.
fn length_of(alloc: Global, kinds: &[Kind], line: &str) -> Result<u64, Refusal> {
    let values = values_of(alloc, kinds, line)?;
    Ok(code_len(values.as_slice()))
}

#[test]
fn lengths_of_codes(rt: HostRuntime) {
    let lines: [(&[Kind], &str, u64); 3] = [
        (&[Kind::Int], "3", 8),
        (&[Kind::Text, Kind::Int], "a,1", 11),
        (&[Kind::Text], "\0", 4),
    ];
    for (kinds, line, expected) in lines {
        assert!(rt; length_of(rt.alloc(), kinds, line) == Ok(expected));
    }
}

// The code of the first fields of a line of these kinds.
fn prefix_of(alloc: Global, kinds: &[Kind], line: &str) -> Result<Vec<u8>, Refusal> {
    let values = values_of(alloc, kinds, line)?;
    let count = values.len().min(1);
    Ok(hex_of(alloc, &encode_prefix(alloc, values.as_slice(), count)?)?)
}

#[test]
fn codes_of_first_values(rt: HostRuntime) {
    let code = prefix_of(rt.alloc(), &[Kind::Text, Kind::Int], "a,1");
    assert!(rt; is_text(code, "610001"));
}

// The values of a code, or that the bytes are no code.
fn decoded_text(alloc: Global, kinds: &[Kind], code: &[u8]) -> Result<Vec<u8>, AllocError> {
    match decode(alloc, kinds, code) {
        Ok(values) => row_text(alloc, Ok(values)),
        Err(DecodeError::NotACode) => Vec::from_slice(alloc, b"no code"),
        Err(DecodeError::OutOfMemory) => Err(AllocError),
    }
}

#[test]
fn codes_are_decoded(rt: HostRuntime) {
    let codes: [(&[Kind], &[u8], &str); 5] = [
        (&[Kind::Text], b"a\0\x01", "a"),
        (&[Kind::Text], b"a\0", "no code"),
        (&[Kind::Text], b"\xFF\0\x01", "no code"),
        (&[Kind::Bytes], b"\xFF\0\xFF\0\x01", "ff00"),
        (
            &[Kind::Text, Kind::Flag, Kind::Int],
            b"a\0\xFF\0\x01\x01\x80\0\0\0\0\0\0\x07",
            "a\0,true,7",
        ),
    ];
    for (kinds, code, expected) in codes {
        assert!(rt; is_text(decoded_text(rt.alloc(), kinds, code), expected));
    }
}

// The bytes of a copy of the key of these letters.
fn copy_of(alloc: Global, letters: &str) -> Result<Vec<u8>, AllocError> {
    let copy = key(alloc, letters)?.copy(alloc)?;
    Vec::from_slice(alloc, copy.as_slice())
}

#[test]
fn keys_are_copied(rt: HostRuntime) {
    let letters = "a key of more than 22 bytes";
    assert!(rt; is_text(copy_of(rt.alloc(), letters), letters));
}

#[test]
fn values_are_ordered(rt: HostRuntime) {
    let (least, greatest) = (Value::Int(-1), Value::Int(1));
    let order = cmp_rows(slice::from_ref(&least), slice::from_ref(&greatest));
    assert!(rt; order == Ordering::Less);
}
