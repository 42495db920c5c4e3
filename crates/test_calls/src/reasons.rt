//! The reasons of refusals.
use crate::samples::{is_text, shops};
use bt_fault::{Reason, batch_reason, key_reason, range_reason, text_reason};
use bt_rowtype::{Item, RecordLine, Refusal};
use std::alloc::{AllocError, Global};

// The message of a line of a batch, if it has one.
fn item_of(line: &str) -> Option<Item<'_>> {
    let record = RecordLine::new(line.get(4..)?.as_bytes())?;
    match line.get(..4)? {
        "put " => Some(Item::Put(record)),
        "del " => Some(Item::Del(record)),
        _ => Some(Item::Ups(record)),
    }
}

// A reason: the name of its refusal, the item, the field and the problem.
fn reason_text(
    alloc: Global,
    found: Result<Option<Reason>, Refusal>,
) -> Result<Vec<u8>, AllocError> {
    let text = match found {
        Ok(Some(reason)) => {
            let (name, problem) = (reason.refusal.name(), reason.problem);
            format!(in alloc; "{name} {} {} {problem:?}", reason.item, reason.field)?
        }
        Ok(None) => format!(in alloc; "none")?,
        Err(refusal) => format!(in alloc; "{}", refusal.name())?,
    };
    Ok(text.into_bytes())
}

// Why the lines of a batch of shops are refused.
fn reason_of_lines(alloc: Global, lines: &str) -> Result<Option<Reason>, Refusal> {
    let schema = shops(alloc)?;
    let mut items = Vec::new(alloc);
    for line in lines.split('|') {
        if let Some(item) = item_of(line) {
            items.push(item)?;
        }
    }
    Ok(batch_reason(alloc, &schema, items.as_slice())?)
}

#[test]
fn batches_are_explained(rt: HostRuntime) {
    for (lines, expected) in [
        ("put 1,2,Bonn,true", "none"),
        ("put 1,2,Bonn", "BadLength 1 0 FieldCount"),
        (
            "put 1,2,Bonn,true|put 1,2x,Bonn,maybe",
            "BadField 2 2 NoInt",
        ),
        (
            "put 9223372036854775808,2,Bonn,true",
            "BadField 1 1 IntRange",
        ),
        ("put 1,2,Bonn,yes|del x", "BadField 1 4 NoFlag"),
        ("del 1,2|put 1,2,Bonn,yes", "BadField 2 4 NoFlag"),
        ("ups 1,add,qty,1.5", "BadField 1 4 NoInt"),
        ("ups 1,sub,qty,1", "BadField 1 2 NoOperation"),
        ("ups 1,set,nope,1", "NoSuchColumn 1 3 NoColumn"),
        ("ups 1,set,qty,1,add,id,1", "NoSuchColumn 1 6 KeyColumn"),
        ("ups 1,max,city,1", "NotInt 1 3 NoIntColumn"),
        ("ups 1,max,city,1,set,open,7", "BadField 1 7 NoFlag"),
        ("ups 1,add,qty", "BadLength 1 0 FieldCount"),
    ] {
        let found = reason_of_lines(rt.alloc(), lines);
        assert!(rt; is_text(reason_text(rt.alloc(), found), expected));
    }
}

// Why the text of a load of shops is refused.
fn reason_of_text(alloc: Global, text: &str) -> Result<Option<Reason>, Refusal> {
    Ok(text_reason(alloc, &shops(alloc)?, text.as_bytes())?)
}

#[test]
fn loads_are_explained(rt: HostRuntime) {
    for (text, expected) in [
        ("id,qty,city,open\n7,1,Bonn,true\n", "none"),
        ("", "BadSchema 0 0 NoHeader"),
        ("id,qty,city\n", "BadSchema 0 0 FieldCount"),
        ("id,qty,town,open\n", "BadSchema 0 3 OtherName"),
        (
            "id,qty,city,open\n7,1,Bonn\n8,1,Bonn,maybe\n",
            "BadField 2 4 NoFlag",
        ),
    ] {
        let found = reason_of_text(rt.alloc(), text);
        assert!(rt; is_text(reason_text(rt.alloc(), found), expected));
    }
}

// Why a record is no key of a shop, or no bound of a range of shops.
fn reason_of_key(alloc: Global, key: &str) -> Result<Option<Reason>, Refusal> {
    let Some(key) = RecordLine::new(key.as_bytes()) else {
        return Ok(None);
    };
    Ok(key_reason(alloc, &shops(alloc)?, &key)?)
}

fn reason_of_bounds(alloc: Global, from: &str, to: &str) -> Result<Option<Reason>, Refusal> {
    let schema = shops(alloc)?;
    let (from, to) = (
        RecordLine::new(from.as_bytes()),
        RecordLine::new(to.as_bytes()),
    );
    Ok(range_reason(alloc, schema.key_columns(), from.as_ref(), to.as_ref())?)
}

#[test]
fn keys_and_bounds_are_explained(rt: HostRuntime) {
    let key = reason_of_key(rt.alloc(), "+1");
    assert!(rt; is_text(reason_text(rt.alloc(), key), "BadField 1 1 NoInt"));
    for (from, to, expected) in [
        ("1", "2", "none"),
        ("", "", "none"),
        ("1,2", "x", "BadField 2 1 NoInt"),
        ("1", "2,3", "BadLength 2 0 FieldCount"),
    ] {
        let found = reason_of_bounds(rt.alloc(), from, to);
        assert!(rt; is_text(reason_text(rt.alloc(), found), expected));
    }
}
