//! The entry of a row.
ghost use Rattle.std.specs.Prelude.{◌≡◌, ◌<◌, ◌++◌, IfOk, OnOk, length};
ghost use Rattle.std.specs.List.{All};
ghost use Rattle.bt_keycode.specs.Codes.{code_of};
ghost use Rattle.bt_fanout.specs.Entries.{HasPlace, IsWithin, entry_of, meets, passes, picked};

use crate::definition::{Condition, IndexDef};
use bt_keycode::{CodeBuilder, Key};
use bt_messages::Entry;
use bt_row::{Row, Test, compare_values};
use std::alloc::{AllocError, Global};
use std::cmp::Ordering;

// Adds the values of a row at places.
#[tactic(auto, using(crate::proofs::Picking::bytes_fit, crate::proofs::Picking::value_seen))]
fn add_picked(
    alloc: Global,
    values: &mut Row,
    row: &Row,
    places: &[usize],
) -> Result<(), AllocError>
    requires { All (λ place. place < length row.now) places.now }
    ensures { OnOk result (values.new ≡ values.old ++ picked places.now row.now) }
{
    for place in places {
        values.push(alloc, row.get(*place))?;
    }
    Ok(())
}

fn meets_test(test: Test, order: Ordering) -> bool
    ensures { result ≡ meets test order }
{
    match test {
        Test::Equal => order == Ordering::Equal,
        Test::Less => order == Ordering::Less,
        Test::AtLeast => order != Ordering::Less,
    }
}

// Whether a row meets a condition, if there is one.
#[tactic(auto, using(crate::proofs::Picking::value_seen))]
fn meets_condition(condition: &Option<Condition>, row: &Row) -> bool
    requires { HasPlace condition.now (length row.now) }
    ensures { result ≡ passes condition.now row.now }
{
    match condition {
        None => true,
        Some(condition) => {
            let order = compare_values(row.get(condition.place), condition.constant.as_ref());
            meets_test(condition.test, order)
        }
    }
}

// Adds the codes of the values of a row at places.
#[tactic(auto, using(crate::proofs::Picking::bytes_fit, crate::proofs::Picking::value_seen))]
fn add_picked_codes(code: &mut CodeBuilder, row: &Row, places: &[usize]) -> Result<(), AllocError>
    requires { All (λ place. place < length row.now) places.now }
    ensures { OnOk result (code.new ≡ code.old ++ code_of (picked places.now row.now)) }
{
    for place in places {
        code.add(row.get(*place))?;
    }
    Ok(())
}

// The key of the entry of a row: the code of the columns that the index is ordered by, and the key of the row.
fn entry_key(alloc: Global, def: &IndexDef, key: &Key, row: &Row) -> Result<Key, AllocError>
    requires { IsWithin def.now (length row.now) }
    ensures { IfOk result (λ entry_key. entry_key ≡ code_of (picked def.now.on row.now) ++ key.now) }
{
    let mut code = CodeBuilder::new(alloc);
    add_picked_codes(&mut code, row, def.on())?;
    code.add_code(key)?;
    code.finish()
}

// The included columns of a row.
fn included_values(alloc: Global, def: &IndexDef, row: &Row) -> Result<Entry, AllocError>
    requires { IsWithin def.now (length row.now) }
    ensures { IfOk result (λ entry. entry ≡ picked def.now.include row.now) }
{
    let mut values = Row::new();
    add_picked(alloc, &mut values, row, def.include())?;
    Ok(Entry::new(values))
}

/// The entry of a row under a key, if the row passes the filter: its key and its value. The key of the row is not encoded again.
pub fn entry_at(
    alloc: Global,
    def: &IndexDef,
    key: &Key,
    row: &Row,
) -> Result<Option<(Key, Entry)>, AllocError>
    requires { IsWithin def.now (length row.now) }
    ensures { IfOk result (λ entry. entry ≡ entry_of def.now key.now row.now) }
{
    if !meets_condition(def.condition(), row) {
        return Ok(None);
    }
    Ok(Some((
        entry_key(alloc, def, key, row)?,
        included_values(alloc, def, row)?,
    )))
}
