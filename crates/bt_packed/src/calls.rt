//! The calls of a table on packed bytes.
ghost use Rattle.std.specs.Prelude.{◌≡◌, ◌≢◌, Err, IfErr, IfOk, IsErrOf, None, OnOk, Ok};
ghost use Rattle.bt_table.specs.Calls.{StaysOrIsLost};
ghost use Rattle.bt_table.specs.Standing.{IsConsistent};
ghost use Rattle.bt_table.specs.Tables.{Lost};
ghost use Rattle.bt_value.specs.declared.refusal.Refusal.TheVariants.{Failed};
ghost use Rattle.bt_packed.specs.Layout.{fault_at, header_at as bytes_header, no_header};
ghost use Rattle.bt_packed.specs.Calls as spec;

use crate::changes::key_at;
use crate::columns::packed_columns;
use crate::counts::{packed_sums, packed_usage};
use crate::fault::Fault;
use crate::page::{name_at, range_at};
use crate::reading::header_at;
use crate::rows::{PackedRows, ReplyRoom};
use crate::trees::packed_trees;
use crate::workforce::PackedWorkforce;
use bt_gang::Context;
use bt_keycode::encode_row;
use bt_row::{Row, Schema};
use bt_table::{Reply, Table};
use bt_value::{Refusal, Text};
use bt_view::{KeyRange, last_page, page, tree_columns, usage};
use std::alloc::Global;

/// Applies packed changes in order. If one is refused, none is applied. After `OutOfMemory` the table is as it was, or lost.
pub fn apply_packed<T, W: PackedWorkforce<T>>(
    context: &Context<'_, T, W>,
    table: &mut Table,
    bytes: &[u8],
) -> Result<(), Fault>
    requires ready { W.accepts context.now.crew.now }
    ensures done { OnOk result (spec.applied table.old bytes.now ≡ Ok table.new) }
    ensures failed { table.old ≡ Lost → IsErrOf result (fault_at Failed 0 0) }
    ensures fault { IfErr result (λ fault. fault.refusal ≢ Refusal.OutOfMemory → (spec.applied table.old bytes.now ≡ Err fault) × (table.new ≡ table.old)) }
    ensures memory { IfErr result (λ fault. fault.refusal ≡ Refusal.OutOfMemory → StaysOrIsLost table.old table.new) }
    ensures consistent { IsConsistent table.new }
{
    let Context { rt, alloc, crew } = *context;
    let packet = match table.schema() {
        Ok(schema) => crew.read_messages(rt, alloc, schema, bytes)?,
        Err(refusal) => return Err(Fault::of_call(refusal)),
    };
    match table.apply_messages(rt, alloc, packet, crew) {
        Ok(reply) => {
            drop(reply);
            Ok(())
        }
        Err(refusal) => Err(Fault::of_call(refusal)),
    }
}

// The values of the key that packed bytes encode.
fn read_key(alloc: Global, schema: &Schema, bytes: &[u8]) -> Result<Row, Fault>
    ensures done { IfOk result (λ key. spec.packed_key schema.now bytes.now ≡ Ok key) }
    ensures fault { IfErr result (λ fault. fault.refusal ≢ Refusal.OutOfMemory → spec.packed_key schema.now bytes.now ≡ Err fault) }
{
    let Some((1, rest)) = header_at(bytes) else {
        return Err(Fault::no_header());
    };
    let (key, rest) = key_at(alloc, schema, 1, rest)?;
    if rest.is_empty() {
        Ok(key)
    } else {
        Err(Fault::bad_bytes(1, 0))
    }
}

// The packed row, or no row.
fn packed_row(row: Option<Row>, room: ReplyRoom) -> Result<Vec<u8>, Fault>
    ensures done { IfOk result (λ bytes. bytes.items ≡ spec.packed_option row) }
    ensures memory { IfErr result (λ fault. fault.refusal ≡ Refusal.OutOfMemory) }
{
    let mut rows = PackedRows::in_room(room)?;
    if let Some(row) = row {
        rows.add(&row)?;
    }
    Ok(rows.into_bytes())
}

/// The packed row of a packed key, or no row.
pub fn get_packed(
    alloc: Global,
    table: &Table,
    bytes: &[u8],
    room: ReplyRoom,
) -> Result<Vec<u8>, Fault>
    ensures done { IfOk result (λ reply. spec.get_reply table.now bytes.now ≡ Ok reply.items) }
    ensures failed { table.now ≡ Lost → IsErrOf result (fault_at Failed 0 0) }
    ensures fault { IfErr result (λ fault. fault.refusal ≢ Refusal.OutOfMemory → spec.get_reply table.now bytes.now ≡ Err fault) }
{
    let key = match table.schema() {
        Ok(schema) => read_key(alloc, schema, bytes)?,
        Err(refusal) => return Err(Fault::of_call(refusal)),
    };
    let code = encode_row(alloc, &key, key.len())?;
    match table.get_at(alloc, &code) {
        Ok(Reply::Row(row)) => packed_row(row, room),
        Ok(_) => unreachable!(),
        Err(refusal) => Err(Fault::of_call(refusal)),
    }
}

// The range of keys of the tree of this name that bytes encode.
fn read_range(alloc: Global, table: &Table, name: &Text, bytes: &[u8]) -> Result<KeyRange, Fault>
    ensures done { IfOk result (λ range. spec.range_of_tree table.now name.now bytes.now ≡ Ok range) }
    ensures fault { IfErr result (λ fault. fault.refusal ≢ Refusal.OutOfMemory → spec.range_of_tree table.now name.now bytes.now ≡ Err fault) }
{
    match tree_columns(alloc, table, name) {
        Ok(columns) => range_at(alloc, columns.key_columns(), bytes),
        Err(refusal) => Err(Fault::of_call(refusal)),
    }
}

// The packed rows of a page of the tree of this name.
fn rows_between(
    alloc: Global,
    table: &Table,
    name: &Text,
    limit: u32,
    range: &KeyRange,
    room: ReplyRoom,
) -> Result<Vec<u8>, Fault>
    ensures done { IfOk result (λ reply. spec.page_between table.now name.now limit range.now ≡ Ok reply.items) }
    ensures fault { IfErr result (λ fault. fault.refusal ≢ Refusal.OutOfMemory → spec.page_between table.now name.now limit range.now ≡ Err fault) }
{
    let rows = PackedRows::in_room(room)?;
    match page(alloc, table, name, range, limit as usize, rows) {
        Ok(rows) => Ok(rows.into_bytes()),
        Err(refusal) => Err(Fault::of_call(refusal)),
    }
}

// Those of its last page.
fn last_rows_between(
    alloc: Global,
    table: &Table,
    name: &Text,
    limit: u32,
    range: &KeyRange,
    room: ReplyRoom,
) -> Result<Vec<u8>, Fault>
    ensures done { IfOk result (λ reply. spec.last_page_between table.now name.now limit range.now ≡ Ok reply.items) }
    ensures fault { IfErr result (λ fault. fault.refusal ≢ Refusal.OutOfMemory → spec.last_page_between table.now name.now limit range.now ≡ Err fault) }
{
    let rows = PackedRows::in_room(room)?;
    match last_page(alloc, table, name, range, limit as usize, rows) {
        Ok(rows) => Ok(rows.into_bytes()),
        Err(refusal) => Err(Fault::of_call(refusal)),
    }
}

/// The packed rows of the page that packed bytes ask for.
pub fn page_packed(
    alloc: Global,
    table: &Table,
    bytes: &[u8],
    room: ReplyRoom,
) -> Result<Vec<u8>, Fault>
    ensures done { IfOk result (λ reply. spec.page_reply table.now bytes.now ≡ Ok reply.items) }
    ensures headless { bytes_header bytes.now ≡ None → IsErrOf result no_header }
    ensures fault { IfErr result (λ fault. fault.refusal ≢ Refusal.OutOfMemory → spec.page_reply table.now bytes.now ≡ Err fault) }
{
    let Some((limit, rest)) = header_at(bytes) else {
        return Err(Fault::no_header());
    };
    let (name, rest) = name_at(alloc, rest)?;
    let range = read_range(alloc, table, &name, rest)?;
    rows_between(alloc, table, &name, limit, &range, room)
}

/// The packed rows of the last page of the range that packed bytes ask for, in descending order of their keys.
pub fn last_page_packed(
    alloc: Global,
    table: &Table,
    bytes: &[u8],
    room: ReplyRoom,
) -> Result<Vec<u8>, Fault>
    ensures done { IfOk result (λ reply. spec.last_page_reply table.now bytes.now ≡ Ok reply.items) }
    ensures headless { bytes_header bytes.now ≡ None → IsErrOf result no_header }
    ensures fault { IfErr result (λ fault. fault.refusal ≢ Refusal.OutOfMemory → spec.last_page_reply table.now bytes.now ≡ Err fault) }
{
    let Some((limit, rest)) = header_at(bytes) else {
        return Err(Fault::no_header());
    };
    let (name, rest) = name_at(alloc, rest)?;
    let range = read_range(alloc, table, &name, rest)?;
    last_rows_between(alloc, table, &name, limit, &range, room)
}

// The name that packed bytes encode.
fn read_name(alloc: Global, bytes: &[u8]) -> Result<Text, Fault>
    ensures done { IfOk result (λ name. spec.packed_name bytes.now ≡ Ok name) }
    ensures headless { bytes_header bytes.now ≡ None → IsErrOf result no_header }
    ensures fault { IfErr result (λ fault. fault.refusal ≢ Refusal.OutOfMemory → spec.packed_name bytes.now ≡ Err fault) }
{
    let Some((1, rest)) = header_at(bytes) else {
        return Err(Fault::no_header());
    };
    let (name, rest) = name_at(alloc, rest)?;
    if rest.is_empty() {
        Ok(name)
    } else {
        Err(Fault::bad_bytes(1, 0))
    }
}

/// The packed columns of the tree that packed bytes name, after the number of its key columns.
pub fn columns_packed(
    alloc: Global,
    table: &Table,
    bytes: &[u8],
    room: ReplyRoom,
) -> Result<Vec<u8>, Fault>
    ensures done { IfOk result (λ reply. spec.columns_reply table.now bytes.now ≡ Ok reply.items) }
    ensures headless { bytes_header bytes.now ≡ None → IsErrOf result no_header }
    ensures fault { IfErr result (λ fault. fault.refusal ≢ Refusal.OutOfMemory → spec.columns_reply table.now bytes.now ≡ Err fault) }
{
    let name = read_name(alloc, bytes)?;
    match tree_columns(alloc, table, &name) {
        Ok(columns) => Ok(packed_columns(columns.columns(), columns.keys(), room)?),
        Err(refusal) => Err(Fault::of_call(refusal)),
    }
}

/// How much the tree that packed bytes name holds.
pub fn usage_packed(
    alloc: Global,
    table: &Table,
    bytes: &[u8],
    room: ReplyRoom,
) -> Result<Vec<u8>, Fault>
    ensures done { IfOk result (λ reply. spec.usage_reply table.now bytes.now ≡ Ok reply.items) }
    ensures headless { bytes_header bytes.now ≡ None → IsErrOf result no_header }
    ensures fault { IfErr result (λ fault. fault.refusal ≢ Refusal.OutOfMemory → spec.usage_reply table.now bytes.now ≡ Err fault) }
{
    let name = read_name(alloc, bytes)?;
    match usage(table, &name) {
        Ok(usage) => Ok(packed_usage(usage, room)?),
        Err(refusal) => Err(Fault::of_call(refusal)),
    }
}

// The packed groups of a range of the tree of this name.
fn groups_between<T, W: PackedWorkforce<T>>(
    context: &Context<'_, T, W>,
    table: &Table,
    name: &Text,
    grouping: u32,
    column: &Text,
    range: KeyRange,
    room: ReplyRoom,
) -> Result<Vec<u8>, Fault>
    requires ready { W.accepts context.now.crew.now }
    ensures done { IfOk result (λ reply. spec.groups_between table.now name.now grouping column.now range ≡ Ok reply.items) }
    ensures fault { IfErr result (λ fault. fault.refusal ≢ Refusal.OutOfMemory → spec.groups_between table.now name.now grouping column.now range ≡ Err fault) }
{
    let Context { rt, alloc, crew } = *context;
    match crew.sums_between(rt, alloc, table, name, range, grouping, column) {
        Ok(sums) => Ok(packed_sums(sums.as_slice(), room)?),
        Err(refusal) => Err(Fault::of_call(refusal)),
    }
}

/// The packed groups that packed bytes ask for.
pub fn sums_packed<T, W: PackedWorkforce<T>>(
    context: &Context<'_, T, W>,
    table: &Table,
    bytes: &[u8],
    room: ReplyRoom,
) -> Result<Vec<u8>, Fault>
    requires ready { W.accepts context.now.crew.now }
    ensures done { IfOk result (λ reply. spec.sums_reply table.now bytes.now ≡ Ok reply.items) }
    ensures headless { bytes_header bytes.now ≡ None → IsErrOf result no_header }
    ensures fault { IfErr result (λ fault. fault.refusal ≢ Refusal.OutOfMemory → spec.sums_reply table.now bytes.now ≡ Err fault) }
{
    let Some((grouping, rest)) = header_at(bytes) else {
        return Err(Fault::no_header());
    };
    let (name, rest) = name_at(context.alloc, rest)?;
    let (column, rest) = name_at(context.alloc, rest)?;
    let range = read_range(context.alloc, table, &name, rest)?;
    groups_between(context, table, &name, grouping, &column, range, room)
}

// Whether packed bytes ask for how much each tree holds, beside its columns.
fn read_usage_asked(bytes: &[u8]) -> Result<bool, Fault>
    ensures { result ≡ spec.usage_asked (bytes_header bytes.now) }
{
    let Some((number @ (0 | 1), rest)) = header_at(bytes) else {
        return Err(Fault::no_header());
    };
    if rest.is_empty() {
        Ok(number == 1)
    } else {
        Err(Fault::bad_bytes(1, 0))
    }
}

/// The packed trees of the table: their names, states and columns, and how much each holds if packed bytes ask for it.
pub fn trees_packed(
    alloc: Global,
    table: &Table,
    bytes: &[u8],
    room: ReplyRoom,
) -> Result<Vec<u8>, Fault>
    ensures done { IfOk result (λ reply. spec.trees_reply table.now bytes.now ≡ Ok reply.items) }
    ensures headless { bytes_header bytes.now ≡ None → IsErrOf result no_header }
    ensures fault { IfErr result (λ fault. fault.refusal ≢ Refusal.OutOfMemory → spec.trees_reply table.now bytes.now ≡ Err fault) }
{
    let has_usage = read_usage_asked(bytes)?;
    match table.trees() {
        Ok(trees) => Ok(packed_trees(alloc, trees, has_usage, room)?),
        Err(refusal) => Err(Fault::of_call(refusal)),
    }
}
