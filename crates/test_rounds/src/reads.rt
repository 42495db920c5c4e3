//! Reads by crews: two jobs are run at the same time, a range within one portion needs no jobs, and the results of jobs are joined in order.
use crate::gates::{Counting, Meeting};
use crate::tables::{EIGHT_MESSAGES, SIX_ROWS, primary, table_after};
use bt_fanout::{Cover, Effect, effects};
use bt_gang::{Context, Crew, Gate};
use bt_keycode::{Key, encode};
use bt_messages::{Message, Packet};
use bt_node::Copies;
use bt_rowtype::{RecordLine, Refusal, Row, Text, Value, ValueRef};
use bt_table::{Table, TreeRef};
use bt_view::{scan, sums};
use std::alloc::{AllocError, Global};
use std::slice;
use std::sync::Wait;
use std::sync::atomic::{AtomicUsize, Ordering};
use std::test::Fail;
use std::thread::Threads;

// The messages of `EIGHT_MESSAGES`.
const EIGHT: [(i64, i64); 8] = [
    (1, 11),
    (2, 21),
    (0, 0),
    (-1, -10),
    (3, 31),
    (4, 41),
    (5, 51),
    (6, 61),
];

// The quantities after them, by key.
const QUANTITIES: [i64; 8] = [-10, 0, 11, 21, 31, 41, 51, 61];

fn key(alloc: Global, id: i64) -> Result<Key, AllocError> {
    encode(alloc, slice::from_ref(&Value::Int(id)))
}

fn row(alloc: Global, id: i64, quantity: i64) -> Result<Row, AllocError> {
    let mut row = Row::new();
    row.push(alloc, ValueRef::Int(id))?;
    row.push(alloc, ValueRef::Int(quantity))?;
    Ok(row)
}

fn packet(alloc: Global) -> Result<Packet<Row>, AllocError> {
    let mut messages = Vec::new(alloc);
    for (id, quantity) in EIGHT {
        messages.push((key(alloc, id)?, Message::Put(row(alloc, id, quantity)?)))?;
    }
    Packet::from_batch(alloc, messages)
}

// The quantity of a row, or a number that no row has if it has no quantity.
fn quantity(row: &Row) -> i64 {
    if row.len() < 2 {
        return i64::MAX;
    }
    match row.get(1) {
        ValueRef::Int(number) => number,
        _ => i64::MAX,
    }
}

// The quantities before and after, if there is a row.
fn quantities(
    alloc: Global,
    effects: &[Effect],
) -> Result<Vec<(Option<i64>, Option<i64>)>, AllocError> {
    let mut found = Vec::new(alloc);
    for effect in effects {
        found.push((
            effect.before.as_ref().map(quantity),
            effect.after.as_ref().map(quantity),
        ))?;
    }
    Ok(found)
}

// The quantities before and after eight messages, worked out by a crew. The table is borrowed, so that this function has few values to drop where it ends early:
// with the table of its own, its proof takes minutes.
fn quantities_by_crew<R: Threads + Wait + Sync>(
    rt: &R,
    alloc: Global,
    table: &Table,
    gate: &(dyn Gate + Sync),
) -> Result<Vec<(Option<i64>, Option<i64>)>, Refusal> {
    let TreeRef::Rows { tree, .. } = table.tree(&primary(alloc)?)? else {
        return Err(Refusal::NoSuchTree);
    };
    let crew = Crew::new(2, 1, 1, gate)?;
    let packet = packet(alloc)?;
    let effects = effects(rt, alloc, tree, &packet, &Cover::Whole, &crew)?;
    Ok(quantities(alloc, effects.as_slice())?)
}

const BEFORE_AND_AFTER: [(Option<i64>, Option<i64>); 8] = [
    (None, Some(-10)),
    (None, Some(0)),
    (Some(10), Some(11)),
    (Some(20), Some(21)),
    (Some(30), Some(31)),
    (Some(40), Some(41)),
    (Some(50), Some(51)),
    (Some(60), Some(61)),
];

#[test]
fn two_jobs_of_effects(rt: HostRuntime) -> Result<(), Fail> {
    let alloc = rt.alloc();
    let table = table_after(alloc, &[SIX_ROWS])?;
    let gate = Meeting::new();
    let found = quantities_by_crew(&rt, alloc, &table, &gate)?;
    assert_eq!(&rt; found.as_slice(), BEFORE_AND_AFTER.as_slice());
    assert_eq!(&rt; gate.entered(), Some(3));
    Ok(())
}

// The quantities of the rows in a range, by a crew.
fn scanned<R: Threads + Wait + Sync>(
    rt: &R,
    alloc: Global,
    table: &Table,
    from: &[u8],
    to: &[u8],
    gate: &(dyn Gate + Sync),
) -> Result<Vec<i64>, Refusal> {
    let crew = Crew::new(2, 1, 65_536, gate)?;
    let (from, to) = (RecordLine::new(from), RecordLine::new(to));
    let context = Context {
        rt,
        alloc,
        crew: &crew,
    };
    let copies = scan(
        &context,
        table,
        &primary(alloc)?,
        from.as_ref(),
        to.as_ref(),
        Copies::new(alloc),
    )?;
    let mut found = Vec::new(alloc);
    for (_key, row) in copies.into_rows() {
        found.push(quantity(&row))?;
    }
    Ok(found)
}

#[test]
fn two_jobs_of_a_scan(rt: HostRuntime) -> Result<(), Fail> {
    let alloc = rt.alloc();
    let table = table_after(alloc, &[SIX_ROWS, EIGHT_MESSAGES])?;
    let gate = Meeting::new();
    let found = scanned(&rt, alloc, &table, b"-1", b"7", &gate)?;
    assert_eq!(&rt; found.as_slice(), QUANTITIES.as_slice());
    assert_eq!(&rt; gate.entered(), Some(4));
    Ok(())
}

#[test]
fn no_jobs_of_one_portion(rt: HostRuntime) -> Result<(), Fail> {
    let alloc = rt.alloc();
    let table = table_after(alloc, &[SIX_ROWS, EIGHT_MESSAGES])?;
    let gate = Counting {
        entered: AtomicUsize::new(0),
    };
    let found = scanned(&rt, alloc, &table, b"3", b"5", &gate)?;
    assert_eq!(&rt; found.as_slice(), [31i64, 41].as_slice());
    assert_eq!(&rt; gate.entered.load(Ordering::SeqCst), 0);
    Ok(())
}

// The numbers of rows and the sums of all groups of one key, by a crew.
fn sums_by_crew<R: Threads + Wait + Sync>(
    rt: &R,
    alloc: Global,
    table: &Table,
    gate: &(dyn Gate + Sync),
) -> Result<Vec<(u64, i128)>, Refusal> {
    let crew = Crew::new(2, 1, 65_536, gate)?;
    let context = Context {
        rt,
        alloc,
        crew: &crew,
    };
    let (tree, column) = (primary(alloc)?, Text::new(alloc, "qty")?);
    let groups = sums(&context, table, &tree, 1, &column, None, None)?;
    let mut found = Vec::new(alloc);
    for sum in groups.as_slice() {
        found.push((sum.count, sum.total))?;
    }
    Ok(found)
}

const SUMS: [(u64, i128); 8] = [
    (1, -10),
    (1, 0),
    (1, 11),
    (1, 21),
    (1, 31),
    (1, 41),
    (1, 51),
    (1, 61),
];

#[test]
fn two_jobs_of_sums(rt: HostRuntime) -> Result<(), Fail> {
    let alloc = rt.alloc();
    let table = table_after(alloc, &[SIX_ROWS, EIGHT_MESSAGES])?;
    let gate = Meeting::new();
    let found = sums_by_crew(&rt, alloc, &table, &gate)?;
    assert_eq!(&rt; found.as_slice(), SUMS.as_slice());
    assert_eq!(&rt; gate.entered(), Some(4));
    Ok(())
}

#[test]
fn two_jobs_of_a_rebuild(rt: HostRuntime) -> Result<(), Fail> {
    let alloc = rt.alloc();
    let mut table = table_after(alloc, &[SIX_ROWS, EIGHT_MESSAGES])?;
    let gate = Meeting::new();
    let crew = Crew::new(2, 1, 65_536, &gate as &(dyn Gate + Sync))?;
    drop(table.rebuild(&rt, alloc, &primary(alloc)?, &crew)?);
    assert_eq!(&rt; gate.entered(), Some(4));
    Ok(())
}
